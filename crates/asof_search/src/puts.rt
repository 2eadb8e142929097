//! The tables that the loads and replaces of a journal put, with the live ones by their names.
ghost use Rattle.std.specs.Prelude.{◌≡◌, ◌<◌, ◌∷◌, ◌++◌, [], List, ℕ, bytes_eq, if◌then◌else◌, length, map, option_copied, vec_capacity, vec_len, IfOk, IfSome, None, OnErr, OnOk, Some};
ghost use Rattle.std.specs.BTreeMap.{get_by_text};
ghost use Rattle.asof_search.specs.Puts.{end_index, end_put, put_with, puts_after};
ghost use Rattle.catalogue.specs.Entries.{what_of};

use crate::put::Put;
use catalogue::{KeptName, What};
use column_set::{Name, SharedTable};
use no_memory::NoMemory;
use std::alloc::Global;
use std::collections::BTreeMap;
use std::marker::Model;

/// The loads and replaces of a journal, in order. It also keeps, for each name, the index of the live one, from 0; the
/// names are kept in order, so that no choice of names makes a look-up slow.
#[derive(Drop)]
pub(crate) struct Puts {
    alloc: Global,
    list: Vec<Put>,
    live: BTreeMap<String, usize>,
}

impl Model for Puts {
    ghost use Rattle.std.specs.Prelude.{List};
    ghost use Rattle.std.specs.BTreeMap.{get_by_text};
    ghost use Rattle.asof_search.specs.Puts.{PutOf, IsIndexed};

    ghost Value = { List PutOf };

    ghost view = { λ p. p.list.items };

    ghost invariant = { λ p. IsIndexed p.list.items (λ name. get_by_text p.live name) };
}

impl Puts {
    /// Returns an empty list of puts.
    pub(crate) fn new(alloc: Global) -> Puts
        ensures { result ≡ [] }
    {
        Puts {
            alloc,
            list: Vec::new(alloc),
            live: BTreeMap::new(alloc),
        }
    }

    /// Returns the puts, in order.
    pub(crate) fn list(&self) -> &[Put]
        ensures { result.now ≡ self.now }
    {
        &self.list
    }

    /// Takes what an entry at a position says. If memory runs out, nothing has changed.
    pub(crate) fn take(&mut self, position: u64, what: &What) -> Result<(), NoMemory>
        ensures ok { OnOk result (self.new ≡ puts_after position self.old (what_of what.now)) }
        ensures err { OnErr result (self.new ≡ self.old) }
    {
        match what {
            What::Loaded(table) | What::Replaced(table) => self.put(position, table),
            What::Dropped(name) => {
                self.end(position, name);
                Ok(())
            }
            What::Swapped { .. } => Ok(()),
        }
    }

    // Puts a table at a position, where the live one of its name ends, if there is one. Everything that may run out of
    // memory comes first.
    fn put(&mut self, position: u64, table: &SharedTable) -> Result<(), NoMemory>
        ensures ok { OnOk result (self.new ≡ map (end_put table.now.name position) self.old ++ put_with position table.now None ∷ []) }
        ensures err { OnErr result (self.new ≡ self.old) }
    {
        let share = table.share()?;
        self.list.reserve(1)?;
        let index = self.list.len();
        let before = point_to(self.alloc, &mut self.live, table.table().name(), index)?;
        end_one(&mut self.list, before, position);
        self.list.push_reserved(Put::new(position, share));
        Ok(())
    }

    // Ends the live table of a name at a position, if there is one.
    fn end(&mut self, position: u64, name: &KeptName)
        ensures { self.new ≡ map (end_put name.now position) self.old }
    {
        let index = self.live.remove(name.text());
        end_one(&mut self.list, index, position);
    }
}

// Points a name to an index, and returns what it pointed to before. If memory runs out, the names stay as they are.
fn point_to(
    alloc: Global,
    live: &mut BTreeMap<String, usize>,
    name: &Name,
    index: usize,
) -> Result<Option<usize>, NoMemory>
    ensures before { IfOk result (λ before. before ≡ get_by_text live.old name.now) }
    ensures ok { OnOk result ((q : List ℕ) → get_by_text live.new q ≡ (if bytes_eq name.now q then Some index else get_by_text live.old q)) }
    ensures err { OnErr result ((q : List ℕ) → get_by_text live.new q ≡ get_by_text live.old q) }
{
    let key = String::from_str(alloc, name.text())?;
    Ok(live.insert(key, index)?)
}

// Ends the put at an index, if there is one, at a position.
fn end_one(puts: &mut Vec<Put>, index: Option<usize>, position: u64)
    requires { IfSome index (λ i. i < length puts.old.items) }
    ensures puts { puts.new.items ≡ end_index puts.old.items index position }
    ensures len { vec_len puts.new ≡ vec_len puts.old }
    ensures capacity { vec_capacity puts.new ≡ vec_capacity puts.old }
{
    if let Some(i) = index {
        puts[i].end_at(position);
    }
}

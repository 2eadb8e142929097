//! The catalogue of a lake.
ghost use Rattle.std.specs.Prelude.{◌≡◌, ◌≤◌, ◌<◌, ◌+◌, ◌*◌, ◌^◌, ◌++◌, ◌∷◌, ◌⊎◌, [], false, find, length, map, nat_lt, option_map, slice_set, true, IfErr, IfOk, None, OnErr, Some};
ghost use Rattle.lake_model.specs.Journal.{counts, entry_with, is_live, live, Dropped, Loaded};
ghost use Rattle.lake_model.specs.Layout.{is_legal, layout, mark};
ghost use Rattle.lake_model.specs.Limits.{is_passed, replace_bounds};
ghost use Rattle.lake_model.specs.Tables.{key_bytes, members};
ghost use Rattle.layout_laws.specs.Weight.{swaps};
ghost use Rattle.segment_core.specs.Versions.{live_of, marked_at, part_at, part_with, places_with, version_with};
ghost use Rattle.catalogue.specs.Kept.{catalogue_with, IsWithin};
ghost use Rattle.catalogue.specs.Refusals.{drop_refusal, load_refusal, passed_of};

use crate::entry::Entry;
use crate::kept_name::KeptName;
use crate::names::{add_name, remove_name};
use crate::refusal::{DropRefused, LoadRefused, Passed};
use column_set::{Name, SharedTable, TableSets};
use lake_model::{Counts, Which, Who};
use no_memory::NoMemory;
use segment_core::{Marks, Numbers, Part, Pin, Segment, Version};
use std::alloc::Global;
use std::collections::BTreeMap;
use std::marker::Model;
use std::sync::Arc;

/// The journal of a lake and the limits that it keeps; these two are its model. It also keeps the newest version, which
/// is the layout of the journal, the positions of the loads and replaces of the live tables by name, and the counts.
///
/// A load, a drop or a replace changes the newest version in place, and costs its own table and a logarithm. If a pin
/// holds that version, the list of its parts is also copied, once. No table and no segment is ever copied.
#[derive(Drop)]
pub struct Catalogue {
    pub(crate) alloc: Global,
    limits: Counts,
    pub(crate) journal: Vec<Entry>,
    pub(crate) version: Arc<Version>,
    pub(crate) positions: BTreeMap<String, u64>,
    pub(crate) counts: Counts,
}

impl Model for Catalogue {
    ghost use Rattle.std.specs.BTreeMap.{get_by_text};
    ghost use Rattle.catalogue.specs.Kept.{CatalogueOf, catalogue_with, IsKept};

    ghost Value = { CatalogueOf };

    ghost view = { λ c. catalogue_with c.limits c.journal.items };

    ghost invariant = { λ c. IsKept c.limits c.journal.items c.version.value c.counts (λ name. get_by_text c.positions name) };
}

impl Catalogue {
    /// Returns a catalogue with an empty journal.
    pub fn new(alloc: Global, limits: Counts) -> Result<Catalogue, NoMemory>
        requires { limits.updates < 2 ^ 32 }
        ensures { IfOk result (λ catalogue. catalogue ≡ catalogue_with limits []) }
    {
        Ok(Catalogue {
            alloc,
            limits,
            journal: Vec::new(alloc),
            version: Arc::new(alloc, Version::empty(alloc)?)?,
            positions: BTreeMap::new(alloc),
            counts: Counts {
                live: 0,
                updates: 0,
                members: 0,
                key_bytes: 0,
            },
        })
    }

    /// Returns the entries, in order. There are never more than twice as many swaps as updates, which are the loads,
    /// drops and replaces.
    pub fn journal(&self) -> &[Entry]
        ensures same { result.now ≡ self.now.journal }
        ensures legal { is_legal self.now.journal ≡ true }
        ensures few { swaps self.now.journal ≤ 2 * (counts self.now.journal).updates }
    {
        &self.journal
    }

    /// Returns how many entries the journal has.
    pub fn at(&self) -> u64
        ensures { result ≡ length self.now.journal }
    {
        self.journal.len() as u64
    }

    /// Returns a pin of the newest version, which later entries do not change.
    pub fn pin(&self) -> Result<Pin, NoMemory>
        ensures version { IfOk result (λ pin. pin ≡ version_with (length self.now.journal) (layout self.now.journal)) }
        ensures live { IfOk result (λ pin. live_of pin.parts ≡ live self.now.journal) }
    {
        Ok(Pin::new(Arc::try_clone(&self.version)?))
    }

    /// Returns whether a table of the name is live. It takes time logarithmic in the number of live tables.
    pub fn live(&self, name: &Name) -> bool
        ensures { result ≡ is_live self.now.journal name.now }
    {
        self.positions.contains_key(name.text())
    }

    /// Returns what counts against the limits.
    pub fn counts(&self) -> Counts
        ensures value { result ≡ counts self.now.journal }
        ensures within { IsWithin self.now.limits result }
    {
        self.counts
    }

    /// Loads a table: appends an entry of this caller and command to the journal, and returns its position, counted
    /// from 1. The segment is that of this one table. No table is copied.
    ///
    /// Returns `Err(Repeated)` if a table of its name is live, else `Err(Full)` for the first limit of the lake that
    /// would be passed, or `Err(NoMemory)` if memory runs out. Then nothing has changed.
    pub fn load(
        &mut self,
        who: Who,
        table: SharedTable,
        segment: Arc<Segment>,
    ) -> Result<u64, LoadRefused>
        requires segment { segment.value ≡ table ∷ [] }
        ensures accepted { IfOk result (λ at. (load_refusal self.old.limits table self.old.journal ≡ None) × (self.new ≡ catalogue_with self.old.limits (self.old.journal ++ entry_with who (Loaded table) ∷ [])) × (at ≡ length self.new.journal)) }
        ensures err { OnErr result (self.new ≡ self.old) }
        ensures refused { IfErr result (λ e. (e ≡ LoadRefused.NoMemory) ⊎ (load_refusal self.old.limits table self.old.journal ≡ Some e)) }
    {
        if let Some(refused) = self.load_refused(table.table()) {
            return Err(refused);
        }
        Ok(self.accept_load(who, table, segment)?)
    }

    // Returns why a load of this table is refused, if it is.
    fn load_refused(&self, table: &TableSets) -> Option<LoadRefused>
        ensures { result ≡ load_refusal self.now.limits table.now self.now.journal }
    {
        let at = self.at();
        if self.live(table.name()) {
            return Some(LoadRefused::Repeated { at });
        }
        let live = u64::from(self.counts.live);
        if is_passed(live, 1, u64::from(self.limits.live)) {
            return Some(LoadRefused::Full {
                which: Which::Live,
                count: live,
                more: 1,
                at,
            });
        }
        let Passed { which, count, more } = self.passed_by(table)?;
        Some(LoadRefused::Full {
            which,
            count,
            more,
            at,
        })
    }

    // Returns the first limit, other than that of the live tables, that one more update with this table would pass.
    pub(crate) fn passed_by(&self, table: &TableSets) -> Option<Passed>
        ensures { result ≡ option_map passed_of (find is_passed (replace_bounds self.now.limits table.now (counts self.now.journal))) }
    {
        let Counts {
            live: _,
            updates,
            members,
            key_bytes,
        } = self.counts;
        let passed = |which: Which, count: u64, more: u64| Some(Passed { which, count, more });
        if is_passed(updates, 1, self.limits.updates) {
            return passed(Which::Updates, updates, 1);
        }
        if is_passed(members, table.members(), self.limits.members) {
            return passed(Which::Members, members, table.members());
        }
        if is_passed(key_bytes, table.key_bytes(), self.limits.key_bytes) {
            return passed(Which::KeyBytes, key_bytes, table.key_bytes());
        }
        None
    }

    // Appends to the journal a load that nothing refuses. Everything that may run out of memory comes first.
    fn accept_load(
        &mut self,
        who: Who,
        table: SharedTable,
        segment: Arc<Segment>,
    ) -> Result<u64, NoMemory>
        requires segment { segment.value ≡ table ∷ [] }
        requires accepted { load_refusal self.old.limits table self.old.journal ≡ None }
        ensures ok { IfOk result (λ at. (self.new ≡ catalogue_with self.old.limits (self.old.journal ++ entry_with who (Loaded table) ∷ [])) × (at ≡ length self.new.journal)) }
        ensures err { OnErr result (self.new ≡ self.old) }
    {
        let at = self.journal.len() as u64 + 1;
        let part = loaded_part(self.alloc, at, segment)?;
        self.journal.reserve(1)?;
        add_name(self.alloc, &mut self.positions, table.table().name(), at)?;
        let Ok(()) = Version::add(&mut self.version, at, part) else {
            remove_name(&mut self.positions, table.table().name());
            return Err(NoMemory);
        };
        self.counts = counts_with(self.counts, table.table());
        self.journal.push_reserved(Entry::loaded(who, table));
        Ok(at)
    }

    /// Drops the live table of a name: appends an entry of this caller and command to the journal, and returns its
    /// position, counted from 1. Pins that were made earlier keep the table.
    ///
    /// Returns `Err(Unknown)` if no table of the name is live, else `Err(Full)` if one more load, drop or replace would
    /// pass their limit, or `Err(NoMemory)` if memory runs out. Then nothing has changed.
    pub fn drop_table(&mut self, who: Who, name: &Name) -> Result<u64, DropRefused>
        ensures accepted { IfOk result (λ at. (drop_refusal self.old.limits name.now self.old.journal ≡ None) × (self.new ≡ catalogue_with self.old.limits (self.old.journal ++ entry_with who (Dropped name.now) ∷ [])) × (at ≡ length self.new.journal)) }
        ensures err { OnErr result (self.new ≡ self.old) }
        ensures refused { IfErr result (λ e. (e ≡ DropRefused.NoMemory) ⊎ (drop_refusal self.old.limits name.now self.old.journal ≡ Some e)) }
    {
        if let Some(refused) = self.drop_refused(name) {
            return Err(refused);
        }
        Ok(self.accept_drop(who, name)?)
    }

    // Returns why a drop of the table of this name is refused, if it is.
    fn drop_refused(&self, name: &Name) -> Option<DropRefused>
        ensures { result ≡ drop_refusal self.now.limits name.now self.now.journal }
    {
        let at = self.at();
        if !self.live(name) {
            return Some(DropRefused::Unknown { at });
        }
        let updates = self.counts.updates;
        if is_passed(updates, 1, self.limits.updates) {
            return Some(DropRefused::Full {
                which: Which::Updates,
                count: updates,
                more: 1,
                at,
            });
        }
        None
    }

    // Returns where the newest version has the live table of a name: the index of its part, and its index in the part,
    // both from 0.
    pub(crate) fn place_of(&self, name: &Name) -> (u32, u32)
        requires { is_live self.now.journal name.now ≡ true }
        ensures part { result.0 < length (layout self.now.journal) }
        ensures place { result.1 < length (part_at (layout self.now.journal) result.0).places }
        ensures marks { map (mark name.now) (layout self.now.journal) ≡ slice_set (layout self.now.journal) result.0 (marked_at result.1 (part_at (layout self.now.journal) result.0)) }
    {
        let Some(position) = self.positions.get(name.text()) else {
            unreachable!()
        };
        let Some(place) = self.version.find(*position) else {
            unreachable!()
        };
        place
    }

    // Appends to the journal a drop that nothing refuses. Everything that may run out of memory comes first.
    fn accept_drop(&mut self, who: Who, name: &Name) -> Result<u64, NoMemory>
        requires { drop_refusal self.old.limits name.now self.old.journal ≡ None }
        ensures ok { IfOk result (λ at. (self.new ≡ catalogue_with self.old.limits (self.old.journal ++ entry_with who (Dropped name.now) ∷ [])) × (at ≡ length self.new.journal)) }
        ensures err { OnErr result (self.new ≡ self.old) }
    {
        let at = self.journal.len() as u64 + 1;
        let kept = KeptName::new(self.alloc, name)?;
        let (part, place) = self.place_of(name);
        self.journal.reserve(1)?;
        Version::mark(&mut self.version, at, part, place)?;
        remove_name(&mut self.positions, name);
        self.counts = counts_without(self.counts);
        self.journal.push_reserved(Entry::dropped(who, kept));
        Ok(at)
    }
}

// Returns the part of one load or replace, whose number is the position of the entry.
pub(crate) fn loaded_part(alloc: Global, at: u64, segment: Arc<Segment>) -> Result<Part, NoMemory>
    requires { length segment.value ≡ 1 }
    ensures { IfOk result (λ part. part ≡ part_with at (places_with (at ∷ []) segment.value (false ∷ []))) }
{
    let positions = Numbers::new(vec![in alloc; at]?);
    let marked = Marks::new(vec![in alloc; false]?);
    Ok(Part::new(at, segment, positions, marked))
}

// Returns the counts after a load of this table.
fn counts_with(counts: Counts, table: &TableSets) -> Counts
    requires live { counts.live + 1 < 2 ^ 32 }
    requires updates { counts.updates + 1 < 2 ^ 64 }
    requires members { counts.members + members table.now < 2 ^ 64 }
    requires key_bytes { counts.key_bytes + key_bytes table.now < 2 ^ 64 }
    ensures live { result.live ≡ counts.live + 1 }
    ensures updates { result.updates ≡ counts.updates + 1 }
    ensures members { result.members ≡ counts.members + members table.now }
    ensures key_bytes { result.key_bytes ≡ counts.key_bytes + key_bytes table.now }
{
    Counts {
        live: counts.live + 1,
        ..counts_replaced(counts, table)
    }
}

// Returns the counts after a replace by this table.
pub(crate) fn counts_replaced(counts: Counts, table: &TableSets) -> Counts
    requires updates { counts.updates + 1 < 2 ^ 64 }
    requires members { counts.members + members table.now < 2 ^ 64 }
    requires key_bytes { counts.key_bytes + key_bytes table.now < 2 ^ 64 }
    ensures live { result.live ≡ counts.live }
    ensures updates { result.updates ≡ counts.updates + 1 }
    ensures members { result.members ≡ counts.members + members table.now }
    ensures key_bytes { result.key_bytes ≡ counts.key_bytes + key_bytes table.now }
{
    Counts {
        live: counts.live,
        updates: counts.updates + 1,
        members: counts.members + table.members(),
        key_bytes: counts.key_bytes + table.key_bytes(),
    }
}

// Returns the counts after a drop.
fn counts_without(counts: Counts) -> Counts
    requires live { 1 ≤ counts.live }
    requires updates { counts.updates + 1 < 2 ^ 64 }
    ensures live { result.live + 1 ≡ counts.live }
    ensures updates { result.updates ≡ counts.updates + 1 }
    ensures members { result.members ≡ counts.members }
    ensures key_bytes { result.key_bytes ≡ counts.key_bytes }
{
    Counts {
        live: counts.live - 1,
        updates: counts.updates + 1,
        ..counts
    }
}

// Returns whether a count that is within its limit would pass it with `more` added.
fn is_passed(count: u64, more: u64, limit: u64) -> bool
    requires { count ≤ limit }
    ensures { result ≡ nat_lt limit (count + more) }
{
    limit - count < more
}

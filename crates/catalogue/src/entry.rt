//! The entries of the journal.
ghost use Rattle.std.specs.Prelude.{◌≡◌, IfOk};
ghost use Rattle.lake_model.specs.Journal.{entry_with, Dropped, Loaded, Replaced, Swapped};

use crate::kept_name::KeptName;
use column_set::SharedTable;
use lake_model::Who;
use no_memory::NoMemory;
use segment_core::Numbers;
use std::marker::Model;

/// What an entry of the journal says: the table that was loaded, or the table that replaced the live one of its name
/// (of either it keeps a share); or the name of the table that was dropped; or the numbers of the parts that were
/// merged into one, and the positions of the loads and replaces that the merged part keeps.
#[derive(Drop)]
pub enum What {
    Loaded(SharedTable),
    Dropped(KeptName),
    Replaced(SharedTable),
    Swapped { from: Numbers, kept: Numbers },
}

/// An entry of the journal: who made it, and what it says. Its model is an entry of the definitions.
#[derive(Drop)]
pub struct Entry {
    pub who: Who,
    pub what: What,
}

impl Model for Entry {
    ghost use Rattle.lake_model.specs.Journal.{Entry as EntryOf, entry_with};
    ghost use Rattle.catalogue.specs.Entries.{what_of};

    ghost Value = { EntryOf };

    ghost view = { λ e. entry_with e.who (what_of e.what) };
}

impl Entry {
    /// Returns the entry of a load.
    pub fn loaded(who: Who, table: SharedTable) -> Entry
        ensures { result ≡ entry_with who (Loaded table) }
    {
        Entry {
            who,
            what: What::Loaded(table),
        }
    }

    /// Returns the entry of a drop.
    pub fn dropped(who: Who, name: KeptName) -> Entry
        ensures { result ≡ entry_with who (Dropped name) }
    {
        Entry {
            who,
            what: What::Dropped(name),
        }
    }

    /// Returns the entry of a replace.
    pub fn replaced(who: Who, table: SharedTable) -> Entry
        ensures { result ≡ entry_with who (Replaced table) }
    {
        Entry {
            who,
            what: What::Replaced(table),
        }
    }

    /// Returns the entry of a swap.
    pub fn swapped(who: Who, from: Numbers, kept: Numbers) -> Entry
        ensures { result ≡ entry_with who (Swapped from kept) }
    {
        Entry {
            who,
            what: What::Swapped { from, kept },
        }
    }

    /// Returns the same entry, with a share of its table, or with a copy of its name. It copies no table.
    pub fn share(&self) -> Result<Entry, NoMemory>
        ensures { IfOk result (λ other. other ≡ self.now) }
    {
        match &self.what {
            What::Loaded(table) => Ok(Entry::loaded(self.who, table.share()?)),
            What::Dropped(name) => Ok(Entry::dropped(self.who, name.copy()?)),
            What::Replaced(table) => Ok(Entry::replaced(self.who, table.share()?)),
            What::Swapped { from, kept } => Ok(Entry::swapped(
                self.who,
                from.copy()?,
                kept.copy()?,
            )),
        }
    }
}

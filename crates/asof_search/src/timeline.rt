//! The timeline of a lake.
ghost use Rattle.std.specs.Prelude.{◌≡◌, ◌⊎◌, ◌≤◌, ◌<◌, ◌^◌, ◌∷◌, ◌++◌, [], ℕ, List, length, take, true, IfErr, IfOk, IfSome, None, OnErr, OnOk, Option, Some};
ghost use mathlib.Core.List.{IsPrefix};
ghost use Rattle.lake_model.specs.Answer.{answer};
ghost use Rattle.lake_model.specs.Journal.{counts, live, loads_of};
ghost use Rattle.lake_model.specs.Layout.{is_legal};
ghost use Rattle.lake_model.specs.Texts.{Text};
ghost use Rattle.segment_core.specs.Versions.{live_of};
ghost use Rattle.asof_search.specs.History.{PastStays};
ghost use Rattle.asof_search.specs.Refusals.{past_refusal};

use crate::blocks::past_parts;
use crate::puts::Puts;
use crate::refusal::PastRefused;
use catalogue::Entry;
use no_memory::NoMemory;
use segment_core::{Part, Pin, Segment, Version};
use std::alloc::Global;
use std::marker::Model;
use std::sync::Arc;

// How many loads and replaces a full block has.
const BLOCK: usize = 256;

/// The entries of a journal, taken one after another; each earlier position can be pinned with the tables that were
/// live there. Its model is the list of the entries that were taken.
///
/// Besides the entries it keeps what their loads and replaces put, with the position at which each was taken away; and,
/// once an earlier position is asked for, the segments of these tables in blocks of 256, and the version of the
/// position that was asked for last.
#[derive(Drop)]
pub struct Timeline {
    alloc: Global,
    journal: Vec<Entry>,
    puts: Puts,
    blocks: Vec<Arc<Segment>>,
    last: Option<Arc<Version>>,
}

impl Model for Timeline {
    ghost use Rattle.std.specs.Prelude.{List, map, option_map};
    ghost use Rattle.lake_model.specs.Journal.{Entry as EntryOf};
    ghost use Rattle.asof_search.specs.History.{IsPast, IsTimeline};

    ghost Value = { List EntryOf };

    ghost view = { λ t. t.journal.items };

    ghost invariant = { λ t. IsTimeline t.journal.items t.puts (map (λ b. b.value) t.blocks.items) × IsPast t.journal.items (option_map (λ v. v.value) t.last) };
}

impl Timeline {
    /// Returns a timeline without entries.
    pub fn new(alloc: Global) -> Timeline
        ensures { result ≡ [] }
    {
        Timeline {
            alloc,
            journal: Vec::new(alloc),
            puts: Puts::new(alloc),
            blocks: Vec::new(alloc),
            last: None,
        }
    }

    /// Returns how many entries were taken.
    pub fn taken(&self) -> u64
        ensures { result ≡ length self.now }
    {
        self.journal.len() as u64
    }

    /// Takes the next entry of the journal. It costs a share of the entry, and the logarithm of the number of live
    /// tables; no table is copied and no segment is built.
    ///
    /// Returns `Err(NoMemory)` only if memory runs out, and then nothing has changed.
    pub fn take(&mut self, entry: &Entry) -> Result<(), NoMemory>
        requires legal { is_legal (self.old ++ entry.now ∷ []) ≡ true }
        requires few { length (loads_of (self.old ++ entry.now ∷ [])) < 2 ^ 32 }
        requires light { (counts (self.old ++ entry.now ∷ [])).members < 2 ^ 32 }
        ensures ok { OnOk result (self.new ≡ self.old ++ entry.now ∷ []) }
        ensures err { OnErr result (self.new ≡ self.old) }
    {
        let taken = entry.share()?;
        self.journal.reserve(1)?;
        self.puts.take(self.journal.len() as u64 + 1, &entry.what)?;
        self.journal.push_reserved(taken);
        Ok(())
    }

    /// Takes the next entries of the journal, one after another, each at the cost of [`Timeline::take`].
    ///
    /// Returns `Err(NoMemory)` only if memory runs out. Then only a beginning of `entries`, perhaps none of them, was
    /// taken after what was taken before.
    pub fn take_all(&mut self, entries: &[Entry]) -> Result<(), NoMemory>
        requires legal { is_legal (self.old ++ entries.now) ≡ true }
        requires few { length (loads_of (self.old ++ entries.now)) < 2 ^ 32 }
        requires light { (counts (self.old ++ entries.now)).members < 2 ^ 32 }
        ensures ok { OnOk result (self.new ≡ self.old ++ entries.now) }
        ensures begins { IsPrefix self.new (self.old ++ entries.now) }
        ensures kept { IsPrefix self.old self.new }
    {
        for entry in entries {
            self.take(entry)?;
        }
        Ok(())
    }

    /// Returns a pin of the tables that were live after the first `asked` entries. The unmarked tables of the pin have
    /// distinct names, and the positions of its loads are distinct. Entries that are taken later do not change the pin.
    ///
    /// A position within a block of 256 loads and replaces is searched in the whole block, in which what was not live
    /// is marked. The first pin that needs a block builds its segment, which is kept; that of the last block is built
    /// again for the first pin after a further load or replace. Otherwise a pin costs a walk over the loads and
    /// replaces of its blocks, and nothing if it is of the same position as the pin before it.
    ///
    /// Returns `Err(Later)` if more entries are asked for than were taken, and otherwise an error only if memory runs
    /// out.
    pub fn pin(&mut self, asked: u64) -> Result<Pin, PastRefused>
        ensures same { self.new ≡ self.old }
        ensures at { IfOk result (λ pin. pin.at ≡ asked) }
        ensures live { IfOk result (λ pin. live_of pin.parts ≡ live (take asked self.old)) }
        ensures answers { IfOk result (λ pin. (keys : List Text) (k : ℕ) (except : Option Text) → answer (live_of pin.parts) keys k except ≡ answer (live (take asked self.old)) keys k except) }
        ensures sound { OnOk result (past_refusal asked self.old ≡ None) }
        ensures refused { IfErr result (λ e. ((e ≡ PastRefused.NoMemory) × (past_refusal asked self.old ≡ None)) ⊎ (past_refusal asked self.old ≡ Some e)) }
    {
        let at = self.taken();
        if asked > at {
            return Err(PastRefused::Later { at });
        }
        Ok(self.pin_past(asked)?)
    }

    // Returns a pin of the tables that were live after the first `asked` entries, which were taken.
    fn pin_past(&mut self, asked: u64) -> Result<Pin, NoMemory>
        requires { asked ≤ length self.old }
        ensures same { self.new ≡ self.old }
        ensures at { IfOk result (λ pin. pin.at ≡ asked) }
        ensures live { IfOk result (λ pin. live_of pin.parts ≡ live (take asked self.old)) }
    {
        match self.last_pin(asked)? {
            Some(pin) => Ok(pin),
            None => self.new_pin(asked),
        }
    }

    // Returns the last pin again, if it is of this position.
    fn last_pin(&self, asked: u64) -> Result<Option<Pin>, NoMemory>
        ensures at { IfOk result (λ last. IfSome last (λ pin. pin.at ≡ asked)) }
        ensures live { IfOk result (λ last. IfSome last (λ pin. live_of pin.parts ≡ live (take asked self.now))) }
    {
        let Some(version) = &self.last else {
            return Ok(None);
        };
        if version.at() != asked {
            return Ok(None);
        }
        Ok(Some(Pin::new(Arc::try_clone(version)?)))
    }

    // Returns a pin made of the blocks of the position, and keeps its version for the next pin.
    fn new_pin(&mut self, asked: u64) -> Result<Pin, NoMemory>
        requires { asked ≤ length self.old }
        ensures same { self.new ≡ self.old }
        ensures at { IfOk result (λ pin. pin.at ≡ asked) }
        ensures live { IfOk result (λ pin. live_of pin.parts ≡ live (take asked self.old)) }
    {
        let parts = past_parts(self.alloc, BLOCK, &mut self.blocks, self.puts.list(), asked)?;
        let version = Arc::new(self.alloc, Version::new(self.alloc, asked, parts)?)?;
        self.last = Some(Arc::try_clone(&version)?);
        Ok(Pin::new(version))
    }
}

/// States that what was live after the first `asked` entries of a journal is the same for each longer journal.
pub fn past_law()
    ensures stays { PastStays }
{}

//! What the lock of a lake protects.
ghost use Rattle.std.specs.Prelude.{◌≡◌, ◌≤◌, ◌<◌, ◌^◌, ◌++◌, ◌∷◌, ◌⊎◌, [], drop, length, take, IfErr, IfOk, None, OnErr, Some};
ghost use Rattle.lake_model.specs.Journal.{entry_with, live, Dropped, Loaded, Replaced, Swapped};
ghost use Rattle.lake_model.specs.Layout.{layout};
ghost use Rattle.segment_core.specs.Versions.{live_of, version_with};
ghost use Rattle.catalogue.specs.Refusals.{drop_refusal, load_refusal, replace_refusal};
ghost use Rattle.catalogue.specs.Swaps.{numbers_in, swap_refusal, IsMergeOf};
ghost use Rattle.lake.specs.Lawful.{IsLawful};

use catalogue::{
    Catalogue, DropRefused, Entry, Limits, LoadRefused, ReplaceRefused, SwapRefused, Who,
};
use column_set::{Name, SharedTable};
use no_memory::NoMemory;
use segment_core::{Merged, Pin, Segment};
use std::alloc::Global;
use std::marker::{Model, PhantomData};
use std::sync::Arc;
use turn_lock::Kept;

/// What holds for a whole lake and is seen only by contracts: its limits, and the kind of keys by which the values of
/// its tables are compared. The lake itself uses only the limits; whoever fills it goes by the kind of keys.
pub trait Bounds {
    ghost use Rattle.lake_model.specs.declared.Counts.{Counts};
    ghost use Rattle.lake_model.specs.declared.Keys.{Keys};

    ghost limits: { Counts };

    ghost keys: { Keys };
}

/// A catalogue with these limits. Its model is its journal.
#[derive(Drop)]
pub struct Held<B: Bounds> {
    catalogue: Catalogue,
    of: PhantomData<B>,
}

impl<B: Bounds> Model for Held<B> {
    ghost use Rattle.std.specs.Prelude.{◌≡◌, List};
    ghost use Rattle.lake_model.specs.Journal.{Entry};

    ghost Value = { List Entry };

    ghost view = { λ h. h.catalogue.journal };

    ghost invariant = { λ h. h.catalogue.limits ≡ B.limits };
}

impl<B: Bounds> Kept for Held<B> {
    ghost use Rattle.lake.specs.Lawful.{caller_of};

    type Entry = Entry;

    ghost list = { λ h. h };

    ghost caller_of = { caller_of };

    fn entries(&self) -> u64 {
        self.catalogue.at()
    }
}

impl<B: Bounds> Held<B> {
    /// Returns a catalogue with an empty journal.
    pub fn new(alloc: Global, limits: Limits) -> Result<Held<B>, NoMemory>
        requires limits { limits ≡ B.limits }
        requires narrow { limits.updates < 2 ^ 32 }
        ensures { IfOk result (λ held. held ≡ []) }
    {
        Ok(Held {
            catalogue: Catalogue::new(alloc, limits)?,
            of: PhantomData,
        })
    }

    // Shows what is known of the journal.
    fn look(&self)
        ensures lawful { IsLawful B.limits self.now }
        ensures room { length self.now < 2 ^ 62 }
    {
        self.catalogue.journal();
        self.catalogue.counts();
    }

    /// Loads a table, as the catalogue does.
    pub fn load(
        &mut self,
        who: Who,
        table: SharedTable,
        segment: Arc<Segment>,
    ) -> Result<u64, LoadRefused>
        requires segment { segment.value ≡ table ∷ [] }
        ensures accepted { IfOk result (λ at. (load_refusal B.limits table self.old ≡ None) × (self.new ≡ self.old ++ entry_with who (Loaded table) ∷ []) × (at ≡ length self.new)) }
        ensures err { OnErr result (self.new ≡ self.old) }
        ensures refused { IfErr result (λ e. (e ≡ LoadRefused.NoMemory) ⊎ (load_refusal B.limits table self.old ≡ Some e)) }
        ensures lawful { IsLawful B.limits self.new }
        ensures room { length self.new < 2 ^ 62 }
    {
        let done = self.catalogue.load(who, table, segment);
        self.look();
        done
    }

    /// Drops a table, as the catalogue does.
    pub fn drop_table(&mut self, who: Who, name: &Name) -> Result<u64, DropRefused>
        ensures accepted { IfOk result (λ at. (drop_refusal B.limits name.now self.old ≡ None) × (self.new ≡ self.old ++ entry_with who (Dropped name.now) ∷ []) × (at ≡ length self.new)) }
        ensures err { OnErr result (self.new ≡ self.old) }
        ensures refused { IfErr result (λ e. (e ≡ DropRefused.NoMemory) ⊎ (drop_refusal B.limits name.now self.old ≡ Some e)) }
        ensures lawful { IsLawful B.limits self.new }
        ensures room { length self.new < 2 ^ 62 }
    {
        let done = self.catalogue.drop_table(who, name);
        self.look();
        done
    }

    /// Puts a table in the place of the live one of its name, as the catalogue does.
    pub fn replace(
        &mut self,
        who: Who,
        table: SharedTable,
        segment: Arc<Segment>,
    ) -> Result<u64, ReplaceRefused>
        requires segment { segment.value ≡ table ∷ [] }
        ensures accepted { IfOk result (λ at. (replace_refusal B.limits table self.old ≡ None) × (self.new ≡ self.old ++ entry_with who (Replaced table) ∷ []) × (at ≡ length self.new)) }
        ensures err { OnErr result (self.new ≡ self.old) }
        ensures refused { IfErr result (λ e. (e ≡ ReplaceRefused.NoMemory) ⊎ (replace_refusal B.limits table self.old ≡ Some e)) }
        ensures lawful { IsLawful B.limits self.new }
        ensures room { length self.new < 2 ^ 62 }
    {
        let done = self.catalogue.replace(who, table, segment);
        self.look();
        done
    }

    /// Swaps in what was merged, as the catalogue does.
    pub fn swap(&mut self, who: Who, merged: Merged) -> Result<u64, SwapRefused>
        requires planned { merged.at ≤ length self.old }
        requires merges { IsMergeOf (layout (take merged.at self.old)) merged }
        ensures accepted { IfOk result (λ at. (swap_refusal merged.from self.old ≡ None) × (self.new ≡ self.old ++ entry_with who (Swapped (numbers_in merged.from) merged.kept) ∷ []) × (at ≡ length self.new)) }
        ensures err { OnErr result (self.new ≡ self.old) }
        ensures refused { IfErr result (λ e. (e ≡ SwapRefused.NoMemory) ⊎ (swap_refusal merged.from self.old ≡ Some e)) }
        ensures lawful { IsLawful B.limits self.new }
        ensures room { length self.new < 2 ^ 62 }
    {
        let done = self.catalogue.swap(who, merged);
        self.look();
        done
    }

    /// Returns a pin of the newest version, as the catalogue does.
    pub fn pin(&self) -> Result<Pin, NoMemory>
        ensures version { IfOk result (λ pin. pin ≡ version_with (length self.now) (layout self.now)) }
        ensures live { IfOk result (λ pin. live_of pin.parts ≡ live self.now) }
        ensures lawful { IsLawful B.limits self.now }
        ensures room { length self.now < 2 ^ 62 }
    {
        self.look();
        self.catalogue.pin()
    }

    /// Returns the entries after a position.
    pub fn entries_behind(&self, alloc: Global, after: u64) -> Result<Vec<Entry>, NoMemory>
        requires { after ≤ length self.now }
        ensures entries { IfOk result (λ entries. entries.items ≡ drop after self.now) }
        ensures lawful { IsLawful B.limits self.now }
        ensures room { length self.now < 2 ^ 62 }
    {
        self.look();
        shares(alloc, &self.catalogue.journal()[after as usize..])
    }
}

// Returns shares of the entries.
fn shares(alloc: Global, entries: &[Entry]) -> Result<Vec<Entry>, NoMemory>
    ensures { IfOk result (λ all. all.items ≡ entries.now) }
{
    let mut all = Vec::with_capacity(alloc, entries.len())?;
    for entry in entries {
        all.push(entry.share()?)?;
    }
    Ok(all)
}

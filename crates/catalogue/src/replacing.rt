//! Replaces: a table takes the place of the live one of its name.
ghost use Rattle.std.specs.Prelude.{◌≡◌, ◌++◌, ◌∷◌, ◌⊎◌, [], length, IfErr, IfOk, None, OnErr, Some};
ghost use Rattle.lake_model.specs.Journal.{entry_with, Replaced};
ghost use Rattle.catalogue.specs.Kept.{catalogue_with};
ghost use Rattle.catalogue.specs.Refusals.{replace_refusal};

use crate::catalogue::{Catalogue, counts_replaced, loaded_part};
use crate::entry::Entry;
use crate::names::move_name;
use crate::refusal::{Passed, ReplaceRefused};
use column_set::{SharedTable, TableSets};
use lake_model::Who;
use no_memory::NoMemory;
use segment_core::{Segment, Version};
use std::sync::Arc;

impl Catalogue {
    /// Puts a table in the place of the live one of its name: appends an entry of this caller and command to the
    /// journal, and returns its position, counted from 1. The segment is that of this one table. No table is copied,
    /// and pins that were made earlier keep the old one.
    ///
    /// Returns `Err(Unknown)` if no table of its name is live, else `Err(Full)` for the first limit of the lake that
    /// would be passed, which cannot be that of the live tables, or `Err(NoMemory)` if memory runs out. Then nothing
    /// has changed.
    pub fn replace(
        &mut self,
        who: Who,
        table: SharedTable,
        segment: Arc<Segment>,
    ) -> Result<u64, ReplaceRefused>
        requires segment { segment.value ≡ table ∷ [] }
        ensures accepted { IfOk result (λ at. (replace_refusal self.old.limits table self.old.journal ≡ None) × (self.new ≡ catalogue_with self.old.limits (self.old.journal ++ entry_with who (Replaced table) ∷ [])) × (at ≡ length self.new.journal)) }
        ensures err { OnErr result (self.new ≡ self.old) }
        ensures refused { IfErr result (λ e. (e ≡ ReplaceRefused.NoMemory) ⊎ (replace_refusal self.old.limits table self.old.journal ≡ Some e)) }
    {
        if let Some(refused) = self.replace_refused(table.table()) {
            return Err(refused);
        }
        Ok(self.accept_replace(who, table, segment)?)
    }

    // Returns why a replace by this table is refused, if it is.
    fn replace_refused(&self, table: &TableSets) -> Option<ReplaceRefused>
        ensures { result ≡ replace_refusal self.now.limits table.now self.now.journal }
    {
        let at = self.at();
        if !self.live(table.name()) {
            return Some(ReplaceRefused::Unknown { at });
        }
        let Passed { which, count, more } = self.passed_by(table)?;
        Some(ReplaceRefused::Full {
            which,
            count,
            more,
            at,
        })
    }

    // Appends to the journal a replace that nothing refuses. Everything that may run out of memory comes first.
    fn accept_replace(
        &mut self,
        who: Who,
        table: SharedTable,
        segment: Arc<Segment>,
    ) -> Result<u64, NoMemory>
        requires segment { segment.value ≡ table ∷ [] }
        requires accepted { replace_refusal self.old.limits table self.old.journal ≡ None }
        ensures ok { IfOk result (λ at. (self.new ≡ catalogue_with self.old.limits (self.old.journal ++ entry_with who (Replaced table) ∷ [])) × (at ≡ length self.new.journal)) }
        ensures err { OnErr result (self.new ≡ self.old) }
    {
        let at = self.journal.len() as u64 + 1;
        let (part, place) = self.place_of(table.table().name());
        let more = loaded_part(self.alloc, at, segment)?;
        self.journal.reserve(1)?;
        Version::mark_and_add(&mut self.version, at, part, place, more)?;
        move_name(&mut self.positions, table.table().name(), at);
        self.counts = counts_replaced(self.counts, table.table());
        self.journal.push_reserved(Entry::replaced(who, table));
        Ok(at)
    }
}

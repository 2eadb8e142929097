//! Swaps: a merged part takes the place of the parts that it was merged from.
ghost use Rattle.std.specs.Prelude.{◌≡◌, ◌≤◌, ◌<◌, ◌+◌, ◌&&◌, ◌++◌, ◌∷◌, ◌⊎◌, [], bytes_eq, drop, filter, is_some, length, nat_eq, option_map, take, true, unwrap_or, IfErr, IfOk, IfSome, None, OnErr, OnOk, Some};
ghost use Rattle.std.specs.Option.{option_to_list};
ghost use Rattle.lake_model.specs.Journal.{entry_with, Swapped};
ghost use Rattle.lake_model.specs.Layout.{is_among, layout, may_swap, merged, parts_after, positions_of, run_of};
ghost use Rattle.list_laws.specs.Distinct.{AreDistinct};
ghost use Rattle.segment_core.specs.Plans.{replaced};
ghost use Rattle.segment_core.specs.Positions.{loads_of};
ghost use Rattle.segment_core.specs.Versions.{part_at};
ghost use Rattle.catalogue.specs.Kept.{catalogue_with};
ghost use Rattle.catalogue.specs.Carried.{marks_along, is_first, run_marks};
ghost use Rattle.catalogue.specs.Swaps.{is_there, kept_marks, kept_tables, numbers_in, swap_refusal, IsMergeOf};

use crate::catalogue::Catalogue;
use crate::entry::Entry;
use crate::refusal::SwapRefused;
use lake_model::Who;
use no_memory::NoMemory;
use segment_core::{Marks, Merged, Numbers, Part, Segment, Version};
use std::alloc::Global;
use std::sync::Arc;

impl Catalogue {
    /// Puts the merged part in the place of the planned parts: appends an entry of this caller and command to the
    /// journal, and returns its position, counted from 1. Marks that were set after the plan are carried over. Pins
    /// that were made earlier keep the parts.
    ///
    /// Returns `Err(Stale)` if a planned part is no longer in the layout, or `Err(NoMemory)` if memory runs out. Then
    /// nothing has changed. A swap does not count as an update. It costs two binary searches for each planned part, and
    /// a walk over the positions of these parts; if a pin holds the newest version, the list of its parts is copied
    /// too.
    pub fn swap(&mut self, who: Who, merged: Merged) -> Result<u64, SwapRefused>
        requires planned { merged.at ≤ length self.old.journal }
        requires merges { IsMergeOf (layout (take merged.at self.old.journal)) merged }
        ensures accepted { IfOk result (λ at. (swap_refusal merged.from self.old.journal ≡ None) × (self.new ≡ catalogue_with self.old.limits (self.old.journal ++ entry_with who (Swapped (numbers_in merged.from) merged.kept) ∷ [])) × (at ≡ length self.new.journal)) }
        ensures err { OnErr result (self.new ≡ self.old) }
        ensures refused { IfErr result (λ e. (e ≡ SwapRefused.NoMemory) ⊎ (swap_refusal merged.from self.old.journal ≡ Some e)) }
    {
        if let Some(refused) = self.swap_refused(&merged.from) {
            return Err(refused);
        }
        Ok(self.accept_swap(who, merged)?)
    }

    // Returns why a swap of these parts is refused, if it is.
    fn swap_refused(&self, from: &[(u64, Numbers)]) -> Option<SwapRefused>
        ensures { result ≡ swap_refusal from.now self.now.journal }
    {
        for (number, positions) in from {
            if self.index_of(*number, positions).is_none() {
                return Some(SwapRefused::Stale {
                    gone: *number,
                    at: self.at(),
                });
            }
        }
        None
    }

    // Returns the index, from 0, of the part of the newest version that has this number and these positions, if there
    // is one.
    fn index_of(&self, number: u64, positions: &Numbers) -> Option<u32>
        ensures within { IfSome result (λ index. index < length (layout self.now.journal)) }
        ensures found { IfSome result (λ index. (part_at (layout self.now.journal) index).number ≡ number) }
        ensures there { is_some result ≡ is_there (layout self.now.journal) (number, positions.now) }
    {
        let version: &Version = &self.version;
        let [first, ..] = positions.list() else {
            return None;
        };
        let Some((index, _)) = version.find(*first) else {
            return None;
        };
        if is_part(version.part(index), number, positions) {
            return Some(index);
        }
        None
    }

    // Appends to the journal a swap that nothing refuses. Everything that may run out of memory comes first.
    fn accept_swap(&mut self, who: Who, merged: Merged) -> Result<u64, NoMemory>
        requires planned { merged.at ≤ length self.old.journal }
        requires merges { IsMergeOf (layout (take merged.at self.old.journal)) merged }
        requires accepted { swap_refusal merged.from self.old.journal ≡ None }
        ensures ok { IfOk result (λ at. (self.new ≡ catalogue_with self.old.limits (self.old.journal ++ entry_with who (Swapped (numbers_in merged.from) merged.kept) ∷ [])) × (at ≡ length self.new.journal)) }
        ensures err { OnErr result (self.new ≡ self.old) }
    {
        let at = self.journal.len() as u64 + 1;
        let Merged {
            from,
            kept,
            segment,
            at: _,
        } = merged;
        let (first, part) = self.exchange(at, &from, &kept, segment)?;
        let numbers = planned_numbers(self.alloc, &from)?;
        self.journal.reserve(1)?;
        Version::swap(&mut self.version, at, first, from.len() as u32, part)?;
        self.journal
            .push_reserved(Entry::swapped(who, numbers, kept));
        Ok(at)
    }

    // Returns the index, from 0, of the first planned part in the newest version, and what takes the place of these
    // parts: the part of the kept positions, over this segment, or none if nothing is kept.
    fn exchange(
        &self,
        at: u64,
        from: &[(u64, Numbers)],
        kept: &Numbers,
        segment: Option<Arc<Segment>>,
    ) -> Result<(u32, Option<Part>), NoMemory>
        requires accepted { swap_refusal from.now self.now.journal ≡ None }
        requires may { may_swap (layout self.now.journal) (numbers_in from.now) kept.now ≡ true }
        requires tables { unwrap_or (option_map (λ s. s.value) segment) [] ≡ kept_tables kept.now (run_of (numbers_in from.now) (layout self.now.journal)) }
        requires some { IfSome segment (λ s. 0 < length s.value) }
        ensures within { IfOk result (λ r. r.0 + length from.now ≤ length (layout self.now.journal)) }
        ensures replaced { IfOk result (λ r. replaced r.0 (length from.now) r.1 (layout self.now.journal) ≡ parts_after at (layout self.now.journal) (Swapped (numbers_in from.now) kept.now)) }
    {
        let [(number, positions), ..] = from else {
            unreachable!()
        };
        let Some(first) = self.index_of(*number, positions) else {
            unreachable!()
        };
        let run = self.run_at(first, from.len());
        Ok((first, merged_part(self.alloc, at, run, kept, segment)?))
    }

    // Returns `count` parts of the newest version from index `first` on, counted from 0.
    fn run_at(&self, first: u32, count: usize) -> &[Part]
        requires { first + count ≤ length (layout self.now.journal) }
        ensures { result.now ≡ take count (drop first (layout self.now.journal)) }
    {
        let first = first as usize;
        &self.version.parts()[first..first + count]
    }
}

// Returns whether a part has this number and these positions.
fn is_part(part: &Part, number: u64, positions: &Numbers) -> bool
    ensures { result ≡ (nat_eq part.now.number number && bytes_eq (loads_of part.now) positions.now) }
{
    part.number() == number && part.loads() == positions.list()
}

// Returns the numbers of planned parts.
fn planned_numbers(alloc: Global, from: &[(u64, Numbers)]) -> Result<Numbers, NoMemory>
    ensures { IfOk result (λ numbers. numbers ≡ numbers_in from.now) }
{
    let mut numbers = Vec::with_capacity(alloc, from.len())?;
    for (number, _) in from {
        numbers.push(*number)?;
    }
    Ok(Numbers::new(numbers))
}

// Returns the part that these parts are merged into, with the marks that they have now, over `segment`, which is that
// of the kept positions; none if there is no segment.
fn merged_part(
    alloc: Global,
    at: u64,
    run: &[Part],
    kept: &Numbers,
    segment: Option<Arc<Segment>>,
) -> Result<Option<Part>, NoMemory>
    requires distinct { AreDistinct (positions_of run.now) }
    requires taken { filter (is_among kept.now) (positions_of run.now) ≡ kept.now }
    requires tables { unwrap_or (option_map (λ s. s.value) segment) [] ≡ kept_tables kept.now run.now }
    requires some { IfSome segment (λ s. 0 < length s.value) }
    ensures { IfOk result (λ part. option_to_list part ≡ merged at kept.now run.now) }
{
    let Some(segment) = segment else {
        return Ok(None);
    };
    let carried = carried_marks(alloc, run, kept.list())?;
    let marked = Marks::new(carried);
    let positions = kept.copy()?;
    Ok(Some(Part::new(at, segment, positions, marked)))
}

// Returns the marks of the kept positions, which these parts have in this order. It takes one walk over the positions
// of the parts.
fn carried_marks(alloc: Global, run: &[Part], kept: &[u64]) -> Result<Vec<bool>, NoMemory>
    requires distinct { AreDistinct (positions_of run.now) }
    requires taken { filter (is_among kept.now) (positions_of run.now) ≡ kept.now }
    ensures { IfOk result (λ marks. marks.items ≡ kept_marks kept.now run.now) }
{
    let mut marks = Vec::with_capacity(alloc, kept.len())?;
    for part in run {
        add_marks(part.loads(), part.marks(), kept, &mut marks)?;
    }
    Ok(marks)
}

// Appends the marks of the kept positions that are next.
fn add_marks(
    positions: &[u64],
    marks: &[bool],
    kept: &[u64],
    all: &mut Vec<bool>,
) -> Result<(), NoMemory>
    requires { length marks.now ≡ length positions.now }
    ensures { OnOk result (all.new.items ≡ all.old.items ++ marks_along (drop (length all.old.items) kept.now) positions.now marks.now) }
{
    for (i, position) in positions.iter().enumerate() {
        if is_next(kept, all.len(), *position) {
            all.push(marks[i])?;
        }
    }
    Ok(())
}

// Returns whether the position is the kept one at index `others`.
fn is_next(kept: &[u64], others: usize, position: u64) -> bool
    ensures { result ≡ is_first position (drop others kept.now) }
{
    match kept.get(others) {
        Some(next) => position == *next,
        None => false,
    }
}

//! Where in a version the load at a position of the journal is.
ghost use Rattle.std.specs.Prelude.{◌≡◌, ◌<◌, ◌≤◌, ◌^◌, ℕ, length, slice_index, IfNone, IfSome};
ghost use Rattle.std.specs.List.Sorted.{IsStrictlyIncreasing};
ghost use Rattle.lake_model.specs.Layout.{positions_of};
ghost use Rattle.list_laws.specs.Distinct.{Lacks};
ghost use Rattle.segment_core.specs.Positions.{first_load, loads_of, AreFull, PositionsRise, StandsAt};
ghost use Rattle.segment_core.specs.Versions.{part_at};

use crate::version::{Part, Version};

impl Version {
    /// Returns the index of the part and the index in that part, both from 0, of the table that was loaded at a
    /// position, or `None` if no part has it. It takes two binary searches: one over the parts, and one over the loads
    /// of a part.
    pub fn find(&self, position: u64) -> Option<(u32, u32)>
        requires rise { PositionsRise self.now.parts }
        requires full { AreFull self.now.parts }
        requires few { length (positions_of self.now.parts) < 2 ^ 32 }
        ensures found { IfSome result (λ at. StandsAt self.now.parts position at.0 at.1) }
        ensures lacking { IfNone result (Lacks (positions_of self.now.parts) position) }
    {
        let part = self.begun(position).checked_sub(1)?;
        let place = self.part(part).place_of(position)?;
        Some((part, place))
    }

    // Returns the number of parts whose first load is at the position or before it.
    fn begun(&self, position: u64) -> u32
        requires rise { PositionsRise self.now.parts }
        requires full { AreFull self.now.parts }
        ensures within { result ≤ length self.now.parts }
        ensures before { (k : ℕ) → k < result → first_load (part_at self.now.parts k) ≤ position }
        ensures behind { (k : ℕ) → result ≤ k → k < length self.now.parts → position < first_load (part_at self.now.parts k) }
    {
        self.parts()
            .partition_point(|part| part.first_load() <= position) as u32
    }
}

impl Part {
    // Returns the position of the load of the part's first table, or 0 if it has no table.
    fn first_load(&self) -> u64
        ensures { result ≡ first_load self.now }
    {
        match self.loads() {
            [first, ..] => *first,
            [] => 0,
        }
    }

    // Returns the index, from 0, of the table that was loaded at the position.
    fn place_of(&self, position: u64) -> Option<u32>
        requires rise { IsStrictlyIncreasing (loads_of self.now) }
        requires few { length (loads_of self.now) < 2 ^ 32 }
        ensures found { IfSome result (λ place. (place < length (loads_of self.now)) × (slice_index (loads_of self.now) place ≡ position)) }
        ensures lacking { IfNone result (Lacks (loads_of self.now) position) }
    {
        match self.loads().binary_search(&position) {
            Ok(place) => Some(place as u32),
            Err(_) => None,
        }
    }
}

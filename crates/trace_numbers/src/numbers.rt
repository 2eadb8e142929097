//! The tests on numbers, all together.
ghost use Rattle.std.specs.Prelude.{◌≡◌, IfOk, IfSome, is_some, map};
ghost use Rattle.std.specs.List.{AllByRecursion};
ghost use Rattle.script_model.specs.Lanes.{IsOfLanes};
ghost use Rattle.trace_hints.specs.Told.{hint_as};
ghost use Rattle.trace_numbers.specs.Positions.{AreOwners, numbers_pass};

use crate::owners::{Owners, owners_of};
use crate::rising::positions_rise;
use commands::Batch;
use no_memory::NoMemory;
use std::alloc::Global;
use trace_hints::Hint;

/// Finds the command that made the entry at each position.
///
/// The hints are in the order of the commands of these batches, with each batch's merges last. The result is `None` if
/// they are not the hints of a right run: their number is not that of the commands, two entries have one position or a
/// position has no entry, or the positions along a lane do not rise from the sync before a batch to the one after it.
/// Returns `Err(NoMemory)` if memory runs out.
pub fn find_owners(
    alloc: Global,
    lanes: u32,
    merge: bool,
    batches: &[Batch],
    hints: &[Hint],
) -> Result<Option<Owners>, NoMemory>
    requires { AllByRecursion (IsOfLanes lanes) batches.now }
    ensures tests { IfOk result (λ found. is_some found ≡ numbers_pass lanes merge batches.now (map hint_as hints.now)) }
    ensures owners { IfOk result (λ found. IfSome found (λ owners. AreOwners (map hint_as hints.now) owners.indices.items)) }
{
    if !positions_rise(alloc, lanes, merge, batches, hints)? {
        return Ok(None);
    }
    owners_of(alloc, hints)
}

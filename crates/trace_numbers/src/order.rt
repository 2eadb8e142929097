//! The order in which answers are made again, and in which merges are planned.
ghost use Rattle.std.specs.Prelude.{◌≡◌, IfOk, map, is_some, length};
ghost use Rattle.std.specs.List.{AllAdjacentBelow};
ghost use Rattle.std.specs.List.Sorted.{IsNonDecreasingBy, IsPermutation};
ghost use Rattle.trace_hints.specs.Told.{hint_as};
ghost use Rattle.trace_numbers.specs.Positions.{own_of};
ghost use Rattle.trace_numbers.specs.Turns.{IsInTurn, IsPlannedInTurn, made_at, planned_at, plans_from, turns_from};

use no_memory::NoMemory;
use std::alloc::Global;
use trace_hints::Hint;

/// An answer that is to be made again.
#[derive(Clone, Copy, Debug, PartialEq, Eq, PartialOrd, Ord)]
pub struct Turn {
    /// The length of the journal at which the answer is made, or 0 if the answer has no position.
    pub at: u64,
    /// Whether the answer adds the next entry.
    pub adds: bool,
    /// The index of the answer, counted from 0 in the order of the hints.
    pub index: usize,
}

/// A merge that is to be planned.
#[derive(Clone, Copy, Debug, PartialEq, Eq, PartialOrd, Ord)]
pub struct Plan {
    /// The length of the journal at which the merge is planned.
    pub at: u64,
    /// The index of its answer, counted from 0 in the order of the hints.
    pub index: usize,
}

/// Returns all answers in the order in which they are to be made again: by position, at one position those that only
/// look before the one that adds the next entry, and otherwise in the order of the script. Returns `Err(NoMemory)` if
/// memory runs out.
pub fn turns_of(alloc: Global, hints: &[Hint]) -> Result<Vec<Turn>, NoMemory>
    ensures all { IfOk result (λ turns. IsPermutation (turns_from 0 (map hint_as hints.now)) turns.items) }
    ensures sorted { IfOk result (λ turns. AllAdjacentBelow IsInTurn turns.items (length turns.items)) }
    ensures positions { IfOk result (λ turns. IsNonDecreasingBy (λ turn. turn.at) turns.items) }
{
    let mut turns = Vec::with_capacity(alloc, hints.len())?;
    for (index, hint) in hints.iter().enumerate() {
        turns.push(Turn {
            at: made_at(*hint),
            adds: adds(*hint),
            index,
        })?;
    }
    sort_turns(&mut turns);
    Ok(turns)
}

/// Returns all planned merges in the order in which they are to be planned: by position, and at one position in the
/// order of the script. Returns `Err(NoMemory)` if memory runs out.
pub fn plans_of(alloc: Global, hints: &[Hint]) -> Result<Vec<Plan>, NoMemory>
    ensures all { IfOk result (λ plans. IsPermutation (plans_from 0 (map hint_as hints.now)) plans.items) }
    ensures sorted { IfOk result (λ plans. AllAdjacentBelow IsPlannedInTurn plans.items (length plans.items)) }
    ensures positions { IfOk result (λ plans. IsNonDecreasingBy (λ plan. plan.at) plans.items) }
{
    let mut plans = Vec::new(alloc);
    for (index, hint) in hints.iter().enumerate() {
        if let Some(at) = planned_at(*hint) {
            plans.push(Plan { at, index })?;
        }
    }
    sort_plans(&mut plans);
    Ok(plans)
}

// Sorts turns.
fn sort_turns(turns: &mut Vec<Turn>)
    ensures all { IsPermutation turns.old.items turns.new.items }
    ensures sorted { AllAdjacentBelow IsInTurn turns.new.items (length turns.new.items) }
{
    turns.sort_unstable();
}

// Sorts plans.
fn sort_plans(plans: &mut Vec<Plan>)
    ensures all { IsPermutation plans.old.items plans.new.items }
    ensures sorted { AllAdjacentBelow IsPlannedInTurn plans.new.items (length plans.new.items) }
{
    plans.sort_unstable();
}

// Returns the length of the journal at which an answer is made.
fn made_at(hint: Hint) -> u64
    ensures { result ≡ made_at (hint_as hint) }
{
    match hint {
        Hint::Wanting | Hint::Nowhere => 0,
        Hint::Saw { at } | Hint::PlannedAndSaw { at, .. } => at,
        Hint::Added { at } | Hint::PlannedAndAdded { at, .. } => at.saturating_sub(1),
    }
}

// Returns whether an answer adds an entry.
fn adds(hint: Hint) -> bool
    ensures { result ≡ is_some (own_of (hint_as hint)) }
{
    matches!(hint, Hint::Added { .. } | Hint::PlannedAndAdded { .. })
}

/// Returns the length of the journal at which a merge is planned, or `None` if nothing was planned.
pub fn planned_at(hint: Hint) -> Option<u64>
    ensures { result ≡ planned_at (hint_as hint) }
{
    match hint {
        Hint::PlannedAndSaw { pinned, .. } | Hint::PlannedAndAdded { pinned, .. } => Some(pinned),
        Hint::Wanting | Hint::Nowhere | Hint::Saw { .. } | Hint::Added { .. } => None,
    }
}

//! The answers that are to be made, and the merges that are to be planned, at one position.
ghost use Rattle.std.specs.Prelude.{◌≡◌, ◌<◌, ◌≤◌, false, true};
ghost use Rattle.std.specs.List.Sorted.{IsNonDecreasingBy};
ghost use Rattle.trace_laws.specs.Rebuilt.{pinned_of};
ghost use Rattle.trace_hints.specs.Told.{hint_as};
ghost use Rattle.trace_numbers.specs.Turns.{made_at};
ghost use Rattle.trace_replay.specs.Stretches.{IsStretchAt};

use trace_hints::Hint;
use trace_numbers::{Plan, Turn};

/// Returns whether a merge is planned at an earlier position than the one at which its answer is made.
pub(crate) fn is_early(hint: Hint) -> bool
    ensures yes { result ≡ true → pinned_of (hint_as hint) < made_at (hint_as hint) }
    ensures no { result ≡ false → made_at (hint_as hint) ≤ pinned_of (hint_as hint) }
{
    match hint {
        Hint::PlannedAndSaw { pinned, at } => pinned < at,
        Hint::PlannedAndAdded { pinned, at } => pinned < at.saturating_sub(1),
        Hint::Wanting | Hint::Nowhere | Hint::Saw { .. } | Hint::Added { .. } => false,
    }
}

/// Returns the turns of the answers that are made at position `at`, from turns that are sorted by position.
pub(crate) fn turns_at(turns: &[Turn], at: u64) -> &[Turn]
    requires { IsNonDecreasingBy (λ turn. turn.at) turns.now }
    ensures { IsStretchAt (λ turn. turn.at) turns.now at result.now }
{
    let from = turns.partition_point(|turn| turn.at < at);
    let behind = &turns[from..];
    let to = behind.partition_point(|turn| turn.at <= at);
    &behind[..to]
}

/// Returns the merges that are planned at position `at`, from plans that are sorted by position.
pub(crate) fn plans_at(plans: &[Plan], at: u64) -> &[Plan]
    requires { IsNonDecreasingBy (λ plan. plan.at) plans.now }
    ensures { IsStretchAt (λ plan. plan.at) plans.now at result.now }
{
    let from = plans.partition_point(|plan| plan.at < at);
    let behind = &plans[from..];
    let to = behind.partition_point(|plan| plan.at <= at);
    &behind[..to]
}

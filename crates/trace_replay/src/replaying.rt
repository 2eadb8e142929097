//! The replay from the first position to the last.
ghost use Rattle.std.specs.Prelude.{◌≡◌, ◌+◌, ◌≤◌, IfOk, length, map, take, true};
ghost use Rattle.catalogue.specs.Kept.{IsWithin};
ghost use Rattle.record_model.specs.Rules.{rules_with, wide_limits};
ghost use Rattle.trace_hints.specs.Told.{hint_as};
ghost use Rattle.trace_numbers.specs.Positions.{AreOwners, IsOwner};
ghost use Rattle.trace_ends.specs.Ends.{IsReplayed};
ghost use Rattle.trace_ends.specs.Within.{ArePositions};
ghost use Rattle.batch_work.specs.Works.{works_of};
ghost use Rattle.trace_replay.specs.Lakes.{AreHeld, AreTold, IsAt, IsFrom, IsTold, LooksAreTold};
ghost use Rattle.trace_replay.specs.Stretches.{ArePlansOf, AreTurnsOf};

use crate::lake::Lake;
use crate::trace::Trace;
use batch_work::Work;
use catalogue::Limits;
use lake_model::Keys;
use no_memory::NoMemory;
use std::alloc::Global;
use trace_ends::within_law;
use trace_groups::Group;
use trace_hints::Hint;
use trace_numbers::{Owners, Plan, Turn, plans_of, turns_of};

/// Returns the hints of the first `many` groups, in their order. The only error is that memory runs out.
pub fn hints_of(alloc: Global, groups: &[Group<'_>], many: usize) -> Result<Vec<Hint>, NoMemory>
    requires { many ≤ length groups.now }
    ensures { IfOk result (λ hints. map hint_as hints.items ≡ take many (map (λ group. hint_as group.hint) groups.now)) }
{
    let mut hints = Vec::with_capacity(alloc, many)?;
    for group in &groups[..many] {
        hints.push(group.hint)?;
    }
    Ok(hints)
}

// Returns the turns of the answers.
fn all_turns(alloc: Global, hints: &[Hint]) -> Result<Vec<Turn>, NoMemory>
    ensures { IfOk result (λ turns. AreTurnsOf (map hint_as hints.now) turns.items) }
{
    turns_of(alloc, hints)
}

// Returns the plans of the merges.
fn all_plans(alloc: Global, hints: &[Hint]) -> Result<Vec<Plan>, NoMemory>
    ensures { IfOk result (λ plans. ArePlansOf (map hint_as hints.now) plans.items) }
{
    plans_of(alloc, hints)
}

// Makes the answers of one position and plans its merges: first the answers that only look, last the one that adds the
// next entry. Returns whether these answers are as in the trace.
fn replay_at(
    lake: &mut Lake,
    trace: &Trace<'_>,
    turns: &[Turn],
    plans: &[Plan],
    owner: usize,
    at: u64,
) -> Result<bool, NoMemory>
    requires at { IsAt trace.now at lake.old }
    requires turns { AreTurnsOf trace.now.hints turns.now }
    requires plans { ArePlansOf trace.now.hints plans.now }
    requires owner { IsOwner trace.now.hints (at + 1) owner }
    requires held { AreHeld trace.now at (IsFrom trace.now at) lake.old }
    ensures sound { IfOk result (λ yes. yes ≡ true → LooksAreTold trace.now at × IsTold trace.now owner) }
    ensures complete { IfOk result (λ yes. AreTold trace.now → yes ≡ true) }
    ensures at { IfOk result (λ yes. yes ≡ true → IsAt trace.now (at + 1) lake.new) }
    ensures held { IfOk result (λ yes. yes ≡ true → AreHeld trace.now (at + 1) (IsFrom trace.now (at + 1)) lake.new) }
{
    trace.positions();
    within_law();
    if !lake.look_at(trace, turns, at)? {
        return Ok(false);
    }
    lake.plan_at(trace, plans, at)?;
    lake.answer(trace, owner)
}

// Replays all positions, from the first to the last, and returns whether all answers are as in the trace.
fn replay_all(
    lake: &mut Lake,
    trace: &Trace<'_>,
    turns: &[Turn],
    plans: &[Plan],
    owners: &[usize],
) -> Result<bool, NoMemory>
    requires at { IsAt trace.now 0 lake.old }
    requires turns { AreTurnsOf trace.now.hints turns.now }
    requires plans { ArePlansOf trace.now.hints plans.now }
    requires owners { AreOwners trace.now.hints owners.now }
    ensures sound { IfOk result (λ yes. yes ≡ true → AreTold trace.now) }
    ensures complete { IfOk result (λ yes. AreTold trace.now → yes ≡ true) }
    ensures at { IfOk result (λ yes. yes ≡ true → IsAt trace.now (length owners.now) lake.new) }
{
    trace.positions();
    within_law();
    for (at, owner) in owners.iter().enumerate() {
        if !replay_at(lake, trace, turns, plans, *owner, at as u64)? {
            return Ok(false);
        }
    }
    lake.look_at(trace, turns, owners.len() as u64)
}

// Replays all positions and compares the journal after them. Returns whether the trace is that of what was made.
fn replay_in(
    lake: &mut Lake,
    trace: &Trace<'_>,
    turns: &[Turn],
    plans: &[Plan],
    owners: &[usize],
) -> Result<bool, NoMemory>
    requires at { IsAt trace.now 0 lake.old }
    requires turns { AreTurnsOf trace.now.hints turns.now }
    requires plans { ArePlansOf trace.now.hints plans.now }
    requires owners { AreOwners trace.now.hints owners.now }
    ensures sound { IfOk result (λ yes. yes ≡ true → IsReplayed trace.now.rules trace.now.commands trace.now.hints trace.now.texts) }
    ensures complete { IfOk result (λ yes. IsReplayed trace.now.rules trace.now.commands trace.now.hints trace.now.texts → yes ≡ true) }
{
    trace.positions();
    if !replay_all(lake, trace, turns, plans, owners)? {
        return Ok(false);
    }
    lake.has_journal(trace.text(trace.last()))
}

/// Decides whether a trace is what its commands give when they are answered again.
///
/// Each answer is made again at the position that its hint gives and has to have the lines of its group, and the
/// journal has to have those of the last group. The groups are those of the answers to `works`, in their order,
/// followed by that of the journal. `owners` gives the answer that made each entry, and the positions of the hints have
/// passed the tests on numbers.
///
/// The result is false at the first answer that differs, and the answers after it are not made again. An answer whose
/// hint is that memory ran out is right if it has the lines of that reply. All others are made, each at the cost of its
/// command; if memory runs out for that, the result is an error and never a verdict.
pub fn replay(
    alloc: Global,
    keys: Keys,
    limits: Limits,
    works: &[Work<'_>],
    groups: &[Group<'_>],
    owners: &Owners,
) -> Result<bool, NoMemory>
    // the limits are at most those of a lake in the program
    requires limits { IsWithin wide_limits limits }
    requires many { length groups.now ≡ length works.now + 1 }
    requires owners { AreOwners (take (length works.now) (map (λ group. hint_as group.hint) groups.now)) owners.now.indices.items }
    requires positions { ArePositions (works_of works.now) (take (length works.now) (map (λ group. hint_as group.hint) groups.now)) }
    ensures sound { IfOk result (λ yes. yes ≡ true → IsReplayed (rules_with keys limits) (works_of works.now) (take (length works.now) (map (λ group. hint_as group.hint) groups.now)) (map (λ group. group.text.now) groups.now)) }
    ensures complete { IfOk result (λ yes. IsReplayed (rules_with keys limits) (works_of works.now) (take (length works.now) (map (λ group. hint_as group.hint) groups.now)) (map (λ group. group.text.now) groups.now) → yes ≡ true) }
{
    let hints = hints_of(alloc, groups, works.len())?;
    let turns = all_turns(alloc, &hints)?;
    let plans = all_plans(alloc, &hints)?;
    let trace = Trace::new(keys, limits, works, &hints, groups);
    let mut lake = Lake::new(alloc, limits)?;
    replay_in(&mut lake, &trace, &turns, &plans, &owners.indices)
}

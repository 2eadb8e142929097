//! The test whether the positions rise along each lane, batch by batch.
ghost use Rattle.std.specs.Prelude.{◌≡◌, ◌<◌, ◌≤◌, ◌+◌, ◌++◌, List, ℕ, None, Some, IfNone, IfOk, IfSome, false, length, map, nat_le, replicate, true};
ghost use Rattle.std.specs.List.{AllByRecursion, list_all};
ghost use Rattle.script_model.specs.Commands.{Command as CommandOf};
ghost use Rattle.script_model.specs.Lanes.{IsOfLanes};
ghost use Rattle.record_model.specs.Play.{merger_commands};
ghost use Rattle.trace_laws.specs.Lows.{all_below, lows_on};
ghost use Rattle.trace_laws.specs.Verdict.{hinted_zip};
ghost use Rattle.trace_hints.specs.Told.{hint_as};
ghost use Rattle.trace_numbers.specs.Positions.{rises_whole};

use crate::owners::count_accepted;
use commands::{Batch, Command};
use no_memory::NoMemory;
use std::alloc::Global;
use trace_hints::{Hint, one_more};

// Returns whether there are as many hints as commands, and along each lane the positions rise from the sync before each
// batch to the one after it.
pub(crate) fn positions_rise(
    alloc: Global,
    lanes: u32,
    merge: bool,
    batches: &[Batch],
    hints: &[Hint],
) -> Result<bool, NoMemory>
    requires { AllByRecursion (IsOfLanes lanes) batches.now }
    ensures { IfOk result (λ rise. rise ≡ rises_whole lanes merge 1 0 batches.now (map hint_as hints.now)) }
{
    let mut lows = vec![in alloc; 0u64; lanes as usize + 1]?;
    let mut from = 0;
    let mut rest = hints;
    for batch in batches {
        let Some((now, behind)) = split_hints(batch, merge, rest) else {
            return Ok(false);
        };
        let sync = from + count_accepted(now);
        if !batch_rises(&mut lows, from as u64, sync as u64, batch, now) {
            return Ok(false);
        }
        from = sync;
        rest = behind;
    }
    Ok(rest.is_empty())
}

// Splits the hints into those of the commands of a batch and of the merges beside them, and the rest. Returns `None` if
// there are too few.
fn split_hints<'a>(
    batch: &Batch,
    merge: bool,
    hints: &'a [Hint],
) -> Option<(&'a [Hint], &'a [Hint])>
    ensures split { IfSome result (λ pair. hints.now ≡ pair.0.now ++ pair.1.now) }
    ensures size { (next : ℕ) → IfSome result (λ pair. length pair.0.now ≡ length (batch.now ++ merger_commands merge next batch.now)) }
    ensures none { (next : ℕ) → IfNone result (length hints.now < length (batch.now ++ merger_commands merge next batch.now)) }
{
    let given = batch.commands().len();
    let merges = count_merges(batch, merge);
    let left = hints.len().checked_sub(given)?;
    if left < merges {
        return None;
    }
    Some(hints.split_at(given + merges))
}

// Counts the merges that the merger makes beside a batch, which are none if there is no merger.
fn count_merges(batch: &Batch, merge: bool) -> usize
    ensures { (next : ℕ) → length (merger_commands merge next batch.now) ≡ result }
{
    if merge { batch.updates() as usize } else { 0 }
}

// Returns whether along each lane the positions of a batch rise from one sync to the next. The values left in `lows`
// mean nothing.
fn batch_rises(lows: &mut [u64], from: u64, sync: u64, batch: &Batch, hints: &[Hint]) -> bool
    requires lanes { AllByRecursion (λ command. command.lane < length lows.old) batch.now }
    requires merger { 0 < length lows.old }
    requires given { length batch.now ≤ length hints.now }
    ensures { (merges : List CommandOf) → AllByRecursion (λ command. command.lane ≡ 0) merges → length hints.now ≡ length (batch.now ++ merges)
        → result ≡ all_below sync (lows_on (Some (replicate (length lows.old) from)) (hinted_zip (batch.now ++ merges) (map hint_as hints.now))) }
{
    lows.fill(from);
    let commands = batch.commands();
    let (given, merges) = hints.split_at(commands.len());
    if !given_rise(lows, commands, given) {
        return false;
    }
    if !merges_rise(lows, merges) {
        return false;
    }
    are_within(lows, sync)
}

// Returns whether the positions of these commands rise along each lane from its last position on, which is updated.
fn given_rise(lows: &mut [u64], commands: &[Command], hints: &[Hint]) -> bool
    requires lanes { AllByRecursion (λ command. command.lane < length lows.old) commands.now }
    requires hints { length hints.now ≡ length commands.now }
    ensures rises { result ≡ true → lows_on (Some lows.old) (hinted_zip commands.now (map hint_as hints.now)) ≡ Some lows.new }
    ensures falls { result ≡ false → lows_on (Some lows.old) (hinted_zip commands.now (map hint_as hints.now)) ≡ None }
{
    for (command, hint) in commands.iter().zip(hints) {
        if !one_more(lows, command.lane() as usize, *hint) {
            return false;
        }
    }
    true
}

// Returns the same for the merger's merges, whose lane is 0.
fn merges_rise(lows: &mut [u64], hints: &[Hint]) -> bool
    requires { 0 < length lows.old }
    ensures rises { result ≡ true → (merges : List CommandOf) → AllByRecursion (λ command. command.lane ≡ 0) merges → length hints.now ≡ length merges
        → lows_on (Some lows.old) (hinted_zip merges (map hint_as hints.now)) ≡ Some lows.new }
    ensures falls { result ≡ false → (merges : List CommandOf) → AllByRecursion (λ command. command.lane ≡ 0) merges → length hints.now ≡ length merges
        → lows_on (Some lows.old) (hinted_zip merges (map hint_as hints.now)) ≡ None }
{
    for hint in hints {
        if !one_more(lows, 0, *hint) {
            return false;
        }
    }
    true
}

// Returns whether no lane's last position is greater than the sync.
fn are_within(lows: &[u64], sync: u64) -> bool
    ensures { result ≡ list_all (λ low. nat_le low sync) lows.now }
{
    lows.iter().all(|low| *low <= sync)
}

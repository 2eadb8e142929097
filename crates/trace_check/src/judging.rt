//! The verdict on a trace.
ghost use Rattle.std.specs.Prelude.{◌≡◌, ◌<◌, ◌^◌, IfOk, length, map, true};
ghost use Rattle.std.specs.List.{AllByRecursion};
ghost use Rattle.catalogue.specs.Kept.{IsWithin};
ghost use Rattle.script_model.specs.Lanes.{IsOfLanes};
ghost use Rattle.script_model.specs.Options.{Options as OptionsOf};
ghost use Rattle.record_model.specs.Rules.{rules_with, wide_limits};
ghost use Rattle.trace_laws.specs.Passing.{verdict};
ghost use Rattle.trace_laws.specs.Verdict.{all_commands};
ghost use Rattle.trace_hints.specs.Told.{hint_as};
ghost use Rattle.batch_work.specs.Named.{HaveNames};
ghost use Rattle.batch_work.specs.Works.{works_of};
ghost use Rattle.trace_check.specs.Right.{AreOptionsOf, IsRight};

use crate::works::all_works;
use batch_work::Work;
use catalogue::Limits;
use commands::Batch;
use lake_model::Keys;
use no_memory::NoMemory;
use std::alloc::Global;
use trace_ends::{ends_law, within_law};
use trace_groups::{Group, cut_trace};
use trace_numbers::find_owners;
use trace_replay::{hints_of, replay};

/// The input of the verdict from a run: the kind of keys by which it compares values, the limits of its lake, how many
/// lanes it has, whether a merger runs beside them, and the batches of its script.
#[derive(Clone, Copy)]
pub(crate) struct Run<'a> {
    pub(crate) keys: Keys,
    pub(crate) limits: Limits,
    pub(crate) lanes: u32,
    pub(crate) merge: bool,
    pub(crate) batches: &'a [Batch],
}

// Returns whether these are the groups of a right run with this work: there are as many as the work requires, their
// positions are those of one run, and the answers and the journal are the same when they are made again.
fn are_right(
    alloc: Global,
    run: &Run<'_>,
    works: &[Work<'_>],
    groups: &[Group<'_>],
) -> Result<bool, NoMemory>
    requires limits { IsWithin wide_limits run.now.limits }
    requires lanes { AllByRecursion (IsOfLanes run.now.lanes) run.now.batches.now }
    requires works { works_of works.now ≡ all_commands run.now.merge 1 run.now.batches.now }
    ensures sound { IfOk result (λ yes. yes ≡ true → IsRight (rules_with run.now.keys run.now.limits) run.now.lanes run.now.merge run.now.batches.now (works_of works.now) (map (λ group. hint_as group.hint) groups.now) (map (λ group. group.text.now) groups.now)) }
    ensures complete { IfOk result (λ yes. IsRight (rules_with run.now.keys run.now.limits) run.now.lanes run.now.merge run.now.batches.now (works_of works.now) (map (λ group. hint_as group.hint) groups.now) (map (λ group. group.text.now) groups.now) → yes ≡ true) }
{
    if groups.len() != works.len() + 1 {
        return Ok(false);
    }
    let hints = hints_of(alloc, groups, works.len())?;
    let Some(owners) = find_owners(alloc, run.lanes, run.merge, run.batches, &hints)? else {
        return Ok(false);
    };
    within_law();
    replay(alloc, run.keys, run.limits, works, groups, &owners)
}

/// Returns the verdict on a trace. It depends on no options except those in `run`, and requires that replies are
/// traced. Returns `Err(NoMemory)` if memory runs out.
pub(crate) fn judge(alloc: Global, run: &Run<'_>, trace: &[u8]) -> Result<bool, NoMemory>
    requires limits { IsWithin wide_limits run.now.limits }
    requires lanes { AllByRecursion (IsOfLanes run.now.lanes) run.now.batches.now }
    ensures value { (options : OptionsOf) → AreOptionsOf run.now.lanes run.now.merge options → IfOk result (λ yes. yes ≡ verdict (rules_with run.now.keys run.now.limits) options run.now.batches.now trace.now) }
    ensures few { IfOk result (λ yes. length (all_commands run.now.merge 1 run.now.batches.now) < 2 ^ 64) }
    ensures names { IfOk result (λ yes. AllByRecursion HaveNames run.now.batches.now) }
{
    ends_law();
    let works = all_works(alloc, run.merge, run.batches)?;
    let Some(groups) = cut_trace(alloc, trace)? else {
        return Ok(false);
    };
    are_right(alloc, run, &works, &groups)
}

//! Merges at a lake: the plan at a pin, and the swap.
ghost use Rattle.std.specs.Prelude.{◌≡◌, false, length, if◌then◌else◌, IfOk};
ghost use Rattle.lake_model.specs.declared.Keys.{Keys};
ghost use Rattle.record_model.specs.Rules.{rules_with, wide_limits};
ghost use Rattle.turn_lock.specs.History.{Grows};
ghost use Rattle.turn_lock.specs.Passes.{after_seeing, callers_of};
ghost use Rattle.catalogue.specs.Kept.{IsWithin};
ghost use Rattle.lake.specs.Lawful.{caller_of};
ghost use Rattle.record_model.specs.Answered.{policy_of};
ghost use Rattle.script_model.specs.Commands.{command_with, Merge};
ghost use Rattle.run_record.specs.Replies.{reply_of};
ghost use Rattle.command_replies.specs.Merging.{swap_reply, swapped_by, CanSwap, IsPlanned};
ghost use Rattle.lake_desk.specs.Answering.{IsAnswered, IsMade};

use catalogue::SwapRefused;
use command_replies::{Planned, plan_pinned};
use lake::{Bounds, Lake, Pass};
use lake_io::{Gate, Point};
use lake_model::Policy;
use no_memory::NoMemory;
use run_record::Reply;
use std::alloc::Global;
use std::sync::Wait;

// Plans a merge of the newest version, and builds the merged part. The lock is free from the pin on.
fn plan_newest<B: Bounds, R: Wait>(
    rt: &R,
    alloc: Global,
    lake: &Lake<B>,
    pass: &mut Pass<B>,
    policy: Policy,
) -> Result<Planned, NoMemory>
    requires lock { pass.old.lock ≡ lake.now }
    requires free { pass.old.holds ≡ false }
    requires wide { IsWithin wide_limits B.limits }
    ensures pass { pass.new ≡ after_seeing pass.old pass.new.seen false }
    ensures grows { Grows caller_of (callers_of pass.old) pass.old.seen pass.new.seen }
    ensures planned { IfOk result (λ planned. IsPlanned policy pass.new.seen planned) }
    ensures newest { IfOk result (λ planned. planned.layout.at ≡ length pass.new.seen) }
{
    let pin = lake.pin(rt, pass)?;
    plan_pinned(alloc, &pin, policy)
}

// Swaps in what was planned, if there was something to merge.
fn swap<B: Bounds, R: Wait>(
    rt: &R,
    lake: &Lake<B>,
    pass: &mut Pass<B>,
    number: u64,
    planned: Planned,
) -> Reply
    requires lock { pass.old.lock ≡ lake.now }
    requires free { pass.old.holds ≡ false }
    requires swaps { CanSwap pass.old.seen planned.merged }
    ensures pass { pass.new ≡ after_seeing pass.old pass.new.seen false }
    ensures made { IsMade (swap_reply planned.layout planned.merged) (swapped_by planned.merged) number pass.old (reply_of result) pass.new.seen }
{
    let Planned { layout, merged } = planned;
    let Some(merged) = merged else {
        return Reply::NothingToMerge { layout };
    };
    let parts = merged.from.len() as u64;
    let tables = merged.kept.list().len() as u64;
    match lake.swap(rt, pass, number, merged) {
        Ok(at) => Reply::Merged {
            layout,
            parts,
            tables,
            at,
        },
        Err(SwapRefused::Stale { gone, at }) => Reply::Stale { layout, gone, at },
        Err(SwapRefused::NoMemory) => Reply::NoMemory,
    }
}

// Returns the policy of a merge.
fn policy_of(all: bool) -> Policy
    ensures { result ≡ policy_of all }
{
    if all { Policy::All } else { Policy::Tier }
}

/// Answers a merge: it is planned and built at a pin of the newest version, and the result is swapped in at the newest
/// journal after that.
pub(crate) fn merge_parts<B: Bounds, R: Wait, G: Gate>(
    rt: &R,
    alloc: Global,
    lake: &Lake<B>,
    pass: &mut Pass<B>,
    number: u64,
    all: bool,
    gate: &G,
) -> Reply
    requires lock { pass.old.lock ≡ lake.now }
    requires free { pass.old.holds ≡ false }
    requires wide { IsWithin wide_limits B.limits }
    ensures pass { pass.new ≡ after_seeing pass.old pass.new.seen false }
    ensures answered { (keys : Keys) → IsAnswered (rules_with keys B.limits) (command_with number pass.old.caller (Merge all)) pass.old (reply_of result) pass.new.seen }
{
    let planned = plan_newest(rt, alloc, lake, pass, policy_of(all));
    let Ok(planned) = planned else {
        return Reply::NoMemory;
    };
    gate.at(pass.caller(), number, Point::Pinned);
    swap(rt, lake, pass, number, planned)
}

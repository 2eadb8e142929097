//! Merges: the plan at a pin with its result, and the swap, which may come later.
ghost use Rattle.std.specs.Prelude.{◌≡◌, ◌≤◌, ◌<◌, ◌+◌, Bool, length, sum_by, true, option_map, IfOk, Some};
ghost use Rattle.lake_model.specs.Journal.{counts, entry_with, Swapped};
ghost use Rattle.lake_model.specs.Tables.{members};
ghost use Rattle.lake_model.specs.Layout.{is_legal, shown, shown_with};
ghost use Rattle.segment_core.specs.Plans.{PlanOf};
ghost use Rattle.segment_merge.specs.Planned.{load_tables, plan_at};
ghost use Rattle.catalogue.specs.Kept.{IsWithin};
ghost use Rattle.catalogue.specs.Swaps.{numbers_in};
ghost use Rattle.record_model.specs.Rules.{wide_limits};
ghost use Rattle.record_model.specs.Play.{reply_or_denied};
ghost use Rattle.run_record.specs.Replies.{reply_of};
ghost use Rattle.command_replies.specs.Loads.{Adds};
ghost use Rattle.command_replies.specs.Merging.{merge_of, swap_reply, swapped_by, CanSwap, IsPlanned};

use catalogue::{Catalogue, Entry, SwapRefused, Who};
use lake_model::Policy;
use no_memory::NoMemory;
use run_record::{Reply, RunRecord};
use segment_core::{Layout, Merged, Numbers, Pin, Plan};
use segment_merge::{merge, plan};
use std::alloc::Global;

/// A merge that was planned: the layout of the pin, and the result of the plan, if there was something to merge.
#[derive(Drop)]
pub struct Planned {
    pub layout: Layout,
    pub merged: Option<Merged>,
}

// States that the journal of a catalogue is legal.
fn is_legal(catalogue: &Catalogue)
    ensures { is_legal catalogue.now.journal ≡ true }
{
    catalogue.journal();
}

/// States that what the journal of a catalogue counts is within the catalogue's limits.
pub(crate) fn is_within_limits(catalogue: &Catalogue)
    ensures { IsWithin catalogue.now.limits (counts catalogue.now.journal) }
{
    catalogue.counts();
}

/// Plans a merge of the newest version, and builds the segment of the tables that it keeps.
pub(crate) fn plan_now(
    alloc: Global,
    catalogue: &Catalogue,
    policy: Policy,
) -> Result<Planned, NoMemory>
    requires { IsWithin wide_limits catalogue.now.limits }
    ensures { IfOk result (λ planned. IsPlanned policy catalogue.now.journal planned × (planned.layout.at ≡ length catalogue.now.journal)) }
{
    let pin = catalogue.pin()?;
    // The tables of a legal journal within the limits are few enough for any plan.
    is_legal(catalogue);
    is_within_limits(catalogue);
    plan_pinned(alloc, &pin, policy)
}

/// Plans a merge of the version that a pin holds, and builds the segment of the tables that it keeps. The plan has to
/// keep no more tables and members than a lake may have.
pub fn plan_pinned(alloc: Global, pin: &Pin, policy: Policy) -> Result<Planned, NoMemory>
    requires few { (plan : PlanOf) → plan_at policy pin.now ≡ Some plan → length plan.kept ≤ 262144 }
    requires light { (plan : PlanOf) → plan_at policy pin.now ≡ Some plan → sum_by members (load_tables plan.kept) ≤ 16777216 }
    ensures layout { IfOk result (λ planned. planned.layout ≡ shown_with pin.now.at (shown pin.now.parts)) }
    ensures merged { IfOk result (λ planned. planned.merged ≡ option_map merge_of (plan_at policy pin.now)) }
{
    let layout = pin.layout()?;
    let Some(plan) = plan(alloc, pin, policy)? else {
        return Ok(Planned {
            layout,
            merged: None,
        });
    };
    let merged = Some(merge_few(alloc, plan)?);
    Ok(Planned { layout, merged })
}

// Merges by a plan that keeps no more tables and members than a lake may have.
fn merge_few(alloc: Global, plan: Plan) -> Result<Merged, NoMemory>
    requires few { length plan.kept ≤ 262144 }
    requires light { sum_by members (load_tables plan.kept) ≤ 16777216 }
    ensures { IfOk result (λ merged. merged ≡ merge_of plan) }
{
    merge(alloc, plan)
}

/// Answers a merge that was planned: what was merged replaces the planned parts, with an entry of this caller and
/// command in the catalogue's journal and one in the record's. The record's entry is made first, so that nothing can
/// fail after the catalogue's.
pub(crate) fn swap(
    alloc: Global,
    catalogue: &mut Catalogue,
    who: Who,
    planned: Planned,
    out: &mut RunRecord,
) -> Reply
    requires swaps { CanSwap catalogue.old.journal planned.merged }
    requires journal { out.old.made.journal ≡ catalogue.old.journal }
    requires room { 0 < out.old.entries_room }
    ensures answered { (denied : Bool) × (reply_of result ≡ reply_or_denied denied (swap_reply planned.layout planned.merged catalogue.old.journal)) }
    ensures adds { Adds who (swapped_by planned.merged (reply_of result)) catalogue.old catalogue.new out.old out.new }
{
    let Planned { layout, merged } = planned;
    let Some(merged) = merged else {
        return Reply::NothingToMerge { layout };
    };
    let Ok(entry) = swap_entry(alloc, who, &merged) else {
        return Reply::NoMemory;
    };
    let parts = merged.from.len() as u64;
    let tables = merged.kept.list().len() as u64;
    match catalogue.swap(who, merged) {
        Ok(at) => {
            out.add_entry(entry);
            Reply::Merged {
                layout,
                parts,
                tables,
                at,
            }
        }
        Err(SwapRefused::Stale { gone, at }) => Reply::Stale { layout, gone, at },
        Err(SwapRefused::NoMemory) => Reply::NoMemory,
    }
}

// Makes the entry of a swap.
fn swap_entry(alloc: Global, who: Who, merged: &Merged) -> Result<Entry, NoMemory>
    ensures { IfOk result (λ entry. entry ≡ entry_with who (Swapped (numbers_in merged.now.from) merged.now.kept)) }
{
    let from = merged.from.iter().map(|part| part.0).collect(alloc)?;
    let kept = merged.kept.copy()?;
    Ok(Entry::swapped(who, Numbers::new(from), kept))
}

//! Answers work in two steps, the pin and the reply, or in one.
ghost use Rattle.std.specs.Prelude.{◌≡◌, ◌<◌, false, true, Bool, List, length, take, None, Some};
ghost use mathlib.Core.List.{IsPrefix};
ghost use Rattle.lake_model.specs.declared.Counts.{Counts};
ghost use Rattle.lake_model.specs.Journal.{Entry};
ghost use Rattle.catalogue.specs.Kept.{IsWithin};
ghost use Rattle.record_model.specs.Answered.{answer_to, adds, has_pin};
ghost use Rattle.record_model.specs.Replies.{tables_reply};
ghost use Rattle.record_model.specs.Rules.{rules_with, wide_limits};
ghost use Rattle.record_model.specs.Play.{reply_or_denied, who_of};
ghost use Rattle.run_record.specs.Replies.{reply_of};
ghost use Rattle.batch_work.specs.Works.{merge_policy, work_of};
ghost use Rattle.command_replies.specs.Held.{position_of, IsHeldAt};
ghost use Rattle.command_replies.specs.Loads.{Adds};
ghost use Rattle.command_replies.specs.Searches.{IsPinOf};

use crate::dropping::drop_table;
use crate::loading::{load, load_file};
use crate::merging::{Planned, plan_now, swap};
use crate::past::search_past_now;
use crate::replacing::replace;
use crate::searching::finish;
use asof_search::Timeline;
use batch_work::Work;
use catalogue::Catalogue;
use commands::Task;
use josie_search::SearchRoom;
use lake_model::{Keys, Policy};
use no_memory::NoMemory;
use run_record::{Reply, RunRecord};
use segment_core::Pin;
use std::alloc::Global;

/// What is held for work that has begun, from its first step to its answer.
#[derive(Drop)]
pub enum Held {
    /// For a search, a like or a contain: the version of the lake at the first step.
    At(Pin),
    /// For a merge: what was planned at the first step.
    Swap(Planned),
    /// Memory ran out at the first step, when the journal had this length.
    Denied { at: u64 },
}

// Holds the newest version, or else the position at which memory ran out for it.
fn hold(catalogue: &Catalogue) -> Held
    ensures held { IsHeldAt catalogue.now.journal None result }
    ensures position { position_of result ≡ length catalogue.now.journal }
{
    match catalogue.pin() {
        Ok(pin) => Held::At(pin),
        Err(NoMemory) => Held::Denied { at: catalogue.at() },
    }
}

// Holds a merge that is planned in the newest version, or else the position at which memory ran out for it.
fn hold_merge(alloc: Global, catalogue: &Catalogue, policy: Policy) -> Held
    requires { IsWithin wide_limits catalogue.now.limits }
    ensures held { IsHeldAt catalogue.now.journal (Some policy) result }
    ensures position { position_of result ≡ length catalogue.now.journal }
{
    match plan_now(alloc, catalogue, policy) {
        Ok(planned) => Held::Swap(planned),
        Err(NoMemory) => Held::Denied { at: catalogue.at() },
    }
}

/// Takes the first step of work that has a pin, and returns what is held for it.
pub fn begin(alloc: Global, catalogue: &Catalogue, work: &Work<'_>) -> Held
    requires { IsWithin wide_limits catalogue.now.limits }
    ensures held { IsHeldAt catalogue.now.journal (merge_policy (work_of work.now).task) result }
    ensures position { position_of result ≡ length catalogue.now.journal }
{
    match work.policy() {
        Some(policy) => hold_merge(alloc, catalogue, policy),
        None => hold(catalogue),
    }
}

// Makes the reply to a search, a like or a contain at its pin.
fn reply_at_pin(alloc: Global, keys: Keys, pin: Pin, work: &Work<'_>) -> Reply
    requires pins { has_pin (work_of work.now).task ≡ true }
    requires merges { merge_policy (work_of work.now).task ≡ None }
    ensures { (limits : Counts) (journal : List Entry) → IsPinOf journal pin → (denied : Bool) × (reply_of result ≡ reply_or_denied denied (answer_to (rules_with keys limits) (work_of work.now).task journal journal)) }
{
    match work {
        Work::Given(command) => finish(alloc, keys, pin, command.task(), &mut SearchRoom::new()),
        Work::Merge { .. } => unreachable!(),
    }
}

/// Makes the reply to work that was begun. A merge that is swapped in adds its entry to the record.
pub fn reply_when_held(
    alloc: Global,
    catalogue: &mut Catalogue,
    keys: Keys,
    work: &Work<'_>,
    held: Held,
    out: &mut RunRecord,
) -> Reply
    requires pins { has_pin (work_of work.now).task ≡ true }
    requires held { IsHeldAt catalogue.old.journal (merge_policy (work_of work.now).task) held }
    requires journal { out.old.made.journal ≡ catalogue.old.journal }
    requires entries { 0 < out.old.entries_room }
    ensures answered { (denied : Bool) × (reply_of result ≡ reply_or_denied denied (answer_to (rules_with keys catalogue.old.limits) (work_of work.now).task (take (position_of held) catalogue.old.journal) catalogue.old.journal)) }
    ensures adds { Adds (who_of (work_of work.now)) (adds (rules_with keys catalogue.old.limits) (work_of work.now).task (take (position_of held) out.old.made.journal) (reply_of result)) catalogue.old catalogue.new out.old out.new }
{
    match held {
        Held::At(pin) => reply_at_pin(alloc, keys, pin, work),
        Held::Swap(planned) => swap(alloc, catalogue, work.who(), planned, out),
        Held::Denied { .. } => Reply::NoMemory,
    }
}

// Makes the reply to a request for the live tables.
fn list_now(alloc: Global, catalogue: &Catalogue, keys: Keys) -> Reply
    ensures { (denied : Bool) × (reply_of result ≡ reply_or_denied denied (tables_reply catalogue.now.journal)) }
{
    match catalogue.pin() {
        Ok(pin) => finish(alloc, keys, pin, &Task::Tables, &mut SearchRoom::new()),
        Err(NoMemory) => Reply::NoMemory,
    }
}

/// Makes the reply to work that has no pin. An accepted load, drop or replace adds its entry to the record.
pub fn reply_now(
    alloc: Global,
    catalogue: &mut Catalogue,
    keys: Keys,
    past: &mut Timeline,
    work: &Work<'_>,
    out: &mut RunRecord,
) -> Reply
    requires pins { has_pin (work_of work.now).task ≡ false }
    requires limits { IsWithin wide_limits catalogue.old.limits }
    requires past { IsPrefix past.old catalogue.old.journal }
    requires journal { out.old.made.journal ≡ catalogue.old.journal }
    requires entries { 0 < out.old.entries_room }
    ensures past { IsPrefix past.new catalogue.old.journal }
    ensures answered { (denied : Bool) × (reply_of result ≡ reply_or_denied denied (answer_to (rules_with keys catalogue.old.limits) (work_of work.now).task catalogue.old.journal catalogue.old.journal)) }
    ensures adds { Adds (who_of (work_of work.now)) (adds (rules_with keys catalogue.old.limits) (work_of work.now).task out.old.made.journal (reply_of result)) catalogue.old catalogue.new out.old out.new }
{
    let who = work.who();
    let Work::Given(command) = work else {
        unreachable!()
    };
    match command.task() {
        Task::Load { name, body } => load(alloc, catalogue, keys, who, name, body, out),
        Task::LoadFile { name, file } => load_file(alloc, catalogue, keys, who, name, file, out),
        Task::Drop { name } => drop_table(alloc, catalogue, who, name, out),
        Task::Replace { name, body } => replace(alloc, catalogue, keys, who, name, body, out),
        Task::Tables => list_now(alloc, catalogue, keys),
        Task::AsOf { asked, k, body } => search_past_now(
            alloc, catalogue, keys, past, *asked, *k, body,
        ),
        Task::Search { .. } | Task::Like { .. } | Task::Contain { .. } | Task::Merge { .. } =>
            unreachable!(),
    }
}

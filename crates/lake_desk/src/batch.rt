//! A batch of a run, answered at all desks.
ghost use Rattle.std.specs.Prelude.{◌≡◌, ◌<◌, ◌≤◌, ◌+◌, ◌++◌, ◌^◌, ⊤, List, length, MatchOption, OnErr, OnOk};
ghost use Rattle.lake_model.specs.Journal.{Entry as EntryOf};
ghost use Rattle.turn_lock.specs.History.{IsOfGiven};
ghost use Rattle.lake.specs.Lawful.{caller_of, IsLawful};
ghost use Rattle.script_model.specs.Lanes.{IsOfLanes};
ghost use Rattle.record_model.specs.Rules.{rules_with};
ghost use Rattle.record_model.specs.Play.{merges_of};
ghost use Rattle.script_model.specs.Commands.{updates};
ghost use Rattle.lake_desk.specs.Gathered.{AllMeet, AreApart};
ghost use Rattle.record_model.specs.InTurn.{with_answers};
ghost use Rattle.lake_desk.specs.Together.{with_batch, with_entries, AreTogether, IsOneBatchMore};

use crate::desk::LakeDesk;
use crate::gathering::{gather, hand_out};
use catalogue::Entry;
use commands::Batch;
use lake::Bounds;
use lake_io::Gate;
use lane_run::run_batch;
use no_memory::NoMemory;
use run_record::{Answered, RunRecord};
use std::alloc::Global;
use std::sync::Wait;
use std::thread::Threads;

// Appends the answers to those of the record, which has room for them.
fn add_answers(answers: Vec<Answered>, out: &mut RunRecord)
    requires { length answers.items ≤ out.old.answers_room }
    ensures made { out.new.made ≡ with_answers answers.items out.old.made }
    ensures entries_room { out.new.entries_room ≡ out.old.entries_room }
    ensures syncs_room { out.new.syncs_room ≡ out.old.syncs_room }
{
    for answer in answers {
        out.add_answer(answer);
    }
}

// Appends the entries to the record's journal, which has room for them.
fn add_entries(entries: Vec<Entry>, out: &mut RunRecord)
    requires { length entries.items ≤ out.old.entries_room }
    ensures made { out.new.made ≡ with_entries entries.items out.old.made }
    ensures answers_room { out.new.answers_room ≡ out.old.answers_room }
    ensures syncs_room { out.new.syncs_room ≡ out.old.syncs_room }
{
    for entry in entries {
        out.add_entry(entry);
    }
}

// Adds the answers and the entries of a batch to the record, which has room for them, and marks the end of the batch.
fn add_batch(answers: Vec<Answered>, entries: Vec<Entry>, out: &mut RunRecord)
    requires answers { length answers.items ≤ out.old.answers_room }
    requires entries { length entries.items ≤ out.old.entries_room }
    requires sync { 0 < out.old.syncs_room }
    ensures { out.new.made ≡ with_batch answers.items entries.items out.old.made }
{
    add_answers(answers, out);
    add_entries(entries, out);
    out.add_sync();
}

// Brings the desks together after the commands of a batch, and adds its answers and entries to the record.
//
// What the first desk has seen is handed to the lanes last of all, since reading the journal before that may show it
// more.
fn settle<'a, B: Bounds, R: Wait>(
    rt: &R,
    desks: &mut [LakeDesk<'a, B>],
    answers: Vec<Answered>,
    out: &mut RunRecord,
) -> Result<(), NoMemory>
    requires { AreApart out.old.made.options.lanes out.old.made.journal desks.old }
    ensures meet { OnOk result (AllMeet out.new.made.journal desks.old desks.new) }
    ensures callers { OnOk result (IsOfGiven caller_of (out.old.made.options.lanes + 1) out.new.made.journal) }
    ensures lawful { OnOk result (IsLawful B.limits out.new.made.journal) }
    ensures made { OnOk result ((behind : List EntryOf) × (out.new.made ≡ with_batch answers.items behind out.old.made)) }
    ensures err { OnErr result (out.new.made ≡ out.old.made) }
{
    gather(desks);
    let entries = desks[0].journal(rt, out.journal().len() as u64)?;
    desks[0].seen_are_of_given();
    if out.room(answers.len(), entries.len()).is_err() {
        return Err(NoMemory);
    }
    hand_out(desks);
    add_batch(answers, entries, out);
    Ok(())
}

/// Answers a batch at the desks of a run, and adds it to the record.
///
/// The commands of all lanes are answered at the same time, each lane at the desk with its number, and beside them
/// those of the merger at the first desk, if the merger has a first number. The record then gets the answers in the
/// order of the script, followed by the merger's, the entries that were made, and the end of the batch.
///
/// `Err(NoMemory)` leaves the record unchanged. The lake may by then have entries that the record does not have, so the
/// run cannot go on with these desks.
pub fn answer_batch<'a, B: Bounds + Send + Sync, R: Threads + Wait + Sync, G: Gate + Sync>(
    rt: &R,
    alloc: Global,
    desks: &mut Vec<LakeDesk<'a, B>>,
    batch: &Batch,
    merger: Option<u64>,
    gate: &G,
    out: &mut RunRecord,
) -> Result<(), NoMemory>
    requires together { AreTogether out.old.made.options.lanes out.old.made.journal desks.old.items }
    requires lanes { IsOfLanes out.old.made.options.lanes batch.now }
    requires numbers { MatchOption merger ⊤ (λ first. first + updates batch.now < 2 ^ 64) }
    ensures together { OnOk result (AreTogether out.new.made.options.lanes out.new.made.journal desks.new.items) }
    ensures batch { OnOk result (IsOneBatchMore (rules_with B.keys B.limits) out.old.made.options.lanes (batch.now ++ merges_of merger batch.now) out.old.made out.new.made) }
    ensures err { OnErr result (out.new.made ≡ out.old.made) }
{
    let answers = run_batch(rt, alloc, desks, batch, merger, gate)?;
    settle(rt, desks, answers, out)
}

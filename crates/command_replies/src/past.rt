//! Searches of the tables that were live at an earlier position of the journal.
ghost use Rattle.std.specs.Prelude.{◌≡◌, ◌≤◌, Bool, IfOk, None, OnOk};
ghost use mathlib.Core.List.{IsPrefix};
ghost use Rattle.asof_search.specs.declared.refusal.PastRefused.{PastRefused};
ghost use Rattle.catalogue.specs.Kept.{IsWithin};
ghost use Rattle.command_replies.specs.Pasts.{past_refusal_reply};
ghost use Rattle.lake_model.specs.Answer.{answer};
ghost use Rattle.record_model.specs.Answered.{past_answer, query_read};
ghost use Rattle.record_model.specs.Play.{reply_or_denied};
ghost use Rattle.record_model.specs.Rules.{wide_limits};
ghost use Rattle.run_record.specs.Replies.{reply_of};
ghost use Rattle.segment_core.specs.Versions.{live_of};

use crate::merging::is_within_limits;
use crate::searching::reply_to_query;
use asof_search::{PastRefused, Timeline};
use catalogue::Catalogue;
use column_set::{KeptRows, Keys, QuerySet};
use commands::Body;
use cost_model::Profile;
use josie_search::{SearchRoom, prepare};
use no_memory::NoMemory;
use run_record::Reply;
use segment_build::index_pin;
use segment_core::Pin;
use std::alloc::Global;

// Makes the reply to a position for which there is no pin.
fn reply_to_position(refused: PastRefused, asked: u64) -> Reply
    ensures { reply_of result ≡ past_refusal_reply asked refused }
{
    match refused {
        PastRefused::Later { at } => Reply::Later { asked, at },
        PastRefused::NoMemory => Reply::NoMemory,
    }
}

// Finds the k columns of the live tables of a pin that share most keys with a query. Returns `Err(NoMemory)` if memory
// runs out.
fn rows_at(alloc: Global, pin: &Pin, query: &QuerySet, k: u32) -> Result<KeptRows, NoMemory>
    requires low { 1 ≤ k }
    requires high { k ≤ 10000 }
    ensures { IfOk result (λ rows. rows ≡ answer (live_of pin.now.parts) query.now k None) }
{
    let indexed = index_pin(alloc, pin)?;
    let prepared = prepare(
        alloc,
        indexed.looks(alloc),
        query,
        k,
        None,
        SearchRoom::new(),
    )?;
    let (answer, _room) = prepared.run(&Profile);
    answer.rows.keep_all(alloc)
}

/// Answers a search of an earlier position, the one after the first `asked` entries, from a timeline that has taken the
/// journal at which it is answered. The reply is the one at this journal, or that memory ran out.
pub fn search_past(
    alloc: Global,
    keys: Keys,
    past: &mut Timeline,
    asked: u64,
    k: u32,
    body: &Body,
) -> Reply
    requires low { 1 ≤ k }
    requires high { k ≤ 10000 }
    ensures same { past.new ≡ past.old }
    ensures answered { (denied : Bool) × (reply_of result ≡ reply_or_denied denied (past_answer asked k (query_read keys body.now) past.old)) }
{
    let query = match QuerySet::read(alloc, keys, body.bytes()) {
        Ok(query) => query,
        Err(refused) => return reply_to_query(refused),
    };
    let pin = match past.pin(asked) {
        Ok(pin) => pin,
        Err(refused) => return reply_to_position(refused, asked),
    };
    match rows_at(alloc, &pin, &query, k) {
        Ok(rows) => Reply::Past {
            query: query.len(),
            rows,
            asked,
            at: past.taken(),
        },
        Err(NoMemory) => Reply::NoMemory,
    }
}

// Takes the entries of the catalogue's journal that follow those which the timeline has taken. If memory runs out, it
// has taken only the first of them.
fn catch_up(catalogue: &Catalogue, past: &mut Timeline) -> Result<(), NoMemory>
    requires begins { IsPrefix past.old catalogue.now.journal }
    requires limits { IsWithin wide_limits catalogue.now.limits }
    ensures ok { OnOk result (past.new ≡ catalogue.now.journal) }
    ensures begins { IsPrefix past.new catalogue.now.journal }
{
    is_within_limits(catalogue);
    let journal = catalogue.journal();
    past.take_all(&journal[past.taken() as usize..])
}

/// Answers a search of an earlier position, at the newest one. The timeline takes the entries of the journal that it
/// has not taken yet; if memory runs out, only the first of them.
pub(crate) fn search_past_now(
    alloc: Global,
    catalogue: &Catalogue,
    keys: Keys,
    past: &mut Timeline,
    asked: u64,
    k: u32,
    body: &Body,
) -> Reply
    requires low { 1 ≤ k }
    requires high { k ≤ 10000 }
    requires begins { IsPrefix past.old catalogue.now.journal }
    requires limits { IsWithin wide_limits catalogue.now.limits }
    ensures begins { IsPrefix past.new catalogue.now.journal }
    ensures answered { (denied : Bool) × (reply_of result ≡ reply_or_denied denied (past_answer asked k (query_read keys body.now) catalogue.now.journal)) }
{
    match catch_up(catalogue, past) {
        Ok(()) => search_past(alloc, keys, past, asked, k, body),
        Err(NoMemory) => Reply::NoMemory,
    }
}

//! Questions that are answered at a pin of the lake: searches, likes, contains, and the list of the live tables.
ghost use Rattle.std.specs.Prelude.{◌≡◌, ◌≤◌, Bool, List, false, None, option_copied, IfOk};
ghost use Rattle.josie_search.specs.Search.{query_with};
ghost use Rattle.lake_model.specs.declared.Counts.{Counts};
ghost use Rattle.lake_model.specs.Journal.{Entry};
ghost use Rattle.record_model.specs.Replies.{like_reply, query_reply, tables_reply};
ghost use Rattle.record_model.specs.Answered.{answer_to, contain_answer, query_read, search_answer};
ghost use Rattle.script_model.specs.Commands.{is_update_task};
ghost use Rattle.record_model.specs.Play.{reply_or_denied};
ghost use Rattle.record_model.specs.Rules.{rules_with};
ghost use Rattle.commands.specs.Tasks.{IsTaskInRange, task_of};
ghost use Rattle.command_replies.specs.Pasts.{is_past};
ghost use Rattle.command_replies.specs.Searches.{column_reply, contained_at, found_at, found_with, IsPinOf};
ghost use Rattle.batch_work.specs.Works.{merge_policy};
ghost use Rattle.run_record.specs.Replies.{reply_of};

use catalogue::KeptName;
use column_set::{Keys, Name, QueryRefused, QuerySet};
use commands::{Body, Task};
use contain_search::prepare_contain;
use cost_model::Profile;
use josie_search::{Answer, SearchRoom, prepare};
use no_memory::NoMemory;
use run_record::Reply;
use segment_build::index_pin;
use segment_core::{ColumnRefused, Layout, Pin};
use std::alloc::Global;
use std::mem;

/// Makes the reply to a body that is not a query.
pub(crate) fn reply_to_query(refused: QueryRefused) -> Reply
    ensures { reply_of result ≡ query_reply refused }
{
    match refused {
        QueryRefused::NotUtf8 { line } => Reply::QueryNotUtf8 { line },
        QueryRefused::TooManyValues => Reply::QueryTooLarge,
        QueryRefused::NoMemory => Reply::NoMemory,
    }
}

// Makes the reply to the name of a table and a place, counted from 1, if there is no such column at this position.
fn reply_to_column(refused: ColumnRefused, name: KeptName, place: u32, at: u64) -> Reply
    ensures { reply_of result ≡ column_reply name place at refused }
{
    match refused {
        ColumnRefused::UnknownTable => Reply::Unknown { name, at },
        ColumnRefused::UnknownColumn => Reply::NoColumn { name, place, at },
        ColumnRefused::NoMemory => Reply::NoMemory,
    }
}

// Makes the reply from what was found for a query and what was read for it.
fn found(
    alloc: Global,
    query: &QuerySet,
    answer: &Answer<'_>,
    layout: Layout,
) -> Result<Reply, NoMemory>
    ensures { IfOk result (λ reply. reply_of reply ≡ found_with query.now answer.now.rows answer.now.looks.log layout) }
{
    Ok(Reply::Found {
        query: query.len(),
        rows: answer.rows.keep_all(alloc)?,
        reads: answer.looks.reads(),
        probes: answer.looks.probes(),
        layout,
    })
}

// Finds the answer to a query at a pin, without the columns of the excepted table, and states what was read for it.
// It searches in `room`, which may be empty afterwards if memory runs out.
fn find(
    alloc: Global,
    pin: &Pin,
    query: &QuerySet,
    k: u32,
    except: Option<&Name>,
    room: &mut SearchRoom,
) -> Result<Reply, NoMemory>
    requires low { 1 ≤ k }
    requires high { k ≤ 10000 }
    ensures { IfOk result (λ reply. reply_of reply ≡ found_at pin.now (query_with k query.now (option_copied except.entry))) }
{
    let layout = pin.layout()?;
    let indexed = index_pin(alloc, pin)?;
    let mut taken = mem::replace(room, SearchRoom::new());
    let looks = taken.looks(alloc, &indexed);
    let prepared = prepare(alloc, looks, query, k, except, taken)?;
    let (answer, used) = prepared.run(&Profile);
    *room = used;
    let reply = found(alloc, query, &answer, layout)?;
    let Answer { looks, .. } = answer;
    room.keep_log(looks.into_log(alloc));
    Ok(reply)
}

// Finds the columns at a pin that hold at least a of b parts of a query, and states what was read for them.
fn find_holding(
    alloc: Global,
    pin: &Pin,
    query: &QuerySet,
    a: u32,
    b: u32,
) -> Result<Reply, NoMemory>
    requires some { 1 ≤ a }
    requires whole { a ≤ b }
    requires high { b ≤ 10000 }
    ensures { IfOk result (λ reply. reply_of reply ≡ contained_at pin.now query.now a b) }
{
    let layout = pin.layout()?;
    let indexed = index_pin(alloc, pin)?;
    let prepared = prepare_contain(alloc, indexed.looks(alloc), query, a, b)?;
    found(alloc, query, &prepared.run(), layout)
}

// Makes the reply to a search: the k columns of the live tables that share most keys with the lines of the body.
fn search(alloc: Global, keys: Keys, pin: &Pin, k: u32, body: &Body, room: &mut SearchRoom) -> Reply
    requires low { 1 ≤ k }
    requires high { k ≤ 10000 }
    ensures { (journal : List Entry) → IsPinOf journal pin.now → (denied : Bool) × (reply_of result ≡ reply_or_denied denied (search_answer k (query_read keys body.now) journal)) }
{
    let query = match QuerySet::read(alloc, keys, body.bytes()) {
        Ok(query) => query,
        Err(refused) => return reply_to_query(refused),
    };
    match find(alloc, pin, &query, k, None, room) {
        Ok(reply) => reply,
        Err(NoMemory) => Reply::NoMemory,
    }
}

// Makes the reply to a contain: the columns of the live tables that hold at least a of b parts of the keys of the
// body's lines.
fn contain(alloc: Global, keys: Keys, pin: &Pin, a: u32, b: u32, body: &Body) -> Reply
    requires some { 1 ≤ a }
    requires whole { a ≤ b }
    requires high { b ≤ 10000 }
    ensures { (journal : List Entry) → IsPinOf journal pin.now → (denied : Bool) × (reply_of result ≡ reply_or_denied denied (contain_answer a b (query_read keys body.now) journal)) }
{
    let query = match QuerySet::read(alloc, keys, body.bytes()) {
        Ok(query) => query,
        Err(refused) => return reply_to_query(refused),
    };
    match find_holding(alloc, pin, &query, a, b) {
        Ok(reply) => reply,
        Err(NoMemory) => Reply::NoMemory,
    }
}

// Makes the reply to a like: the k columns of the other live tables that share most keys with the column at a place of
// this one.
fn like(alloc: Global, pin: &Pin, k: u32, name: &Name, place: u32, room: &mut SearchRoom) -> Reply
    requires low { 1 ≤ k }
    requires high { k ≤ 10000 }
    requires place { 1 ≤ place }
    ensures { (journal : List Entry) → IsPinOf journal pin.now → (denied : Bool) × (reply_of result ≡ reply_or_denied denied (like_reply k name.now place journal)) }
{
    let query = match pin.column(alloc, name, place) {
        Ok(query) => query,
        Err(refused) => {
            let Ok(kept) = KeptName::new(alloc, name) else {
                return Reply::NoMemory;
            };
            return reply_to_column(refused, kept, place, pin.at());
        }
    };
    match find(alloc, pin, &query, k, Some(name), room) {
        Ok(reply) => reply,
        Err(NoMemory) => Reply::NoMemory,
    }
}

// Makes the reply to a request for the live tables, in the order of their loads and replaces.
fn list(alloc: Global, pin: &Pin) -> Reply
    ensures { (journal : List Entry) → IsPinOf journal pin.now → (denied : Bool) × (reply_of result ≡ reply_or_denied denied (tables_reply journal)) }
{
    match pin.tables(alloc) {
        Ok(tables) => Reply::Listed {
            tables,
            at: pin.at(),
        },
        Err(NoMemory) => Reply::NoMemory,
    }
}

/// Answers a search, a like, a contain or a request for the live tables at a pin. The reply is the one at the journal
/// whose version the pin holds, or that memory ran out. A search or a like takes the memory of `room`, which then serves
/// the next one; it makes no difference to the reply.
pub fn finish(alloc: Global, keys: Keys, pin: Pin, task: &Task, room: &mut SearchRoom) -> Reply
    requires asks { is_update_task (task_of task.now) ≡ false }
    requires merges { merge_policy (task_of task.now) ≡ None }
    requires present { is_past (task_of task.now) ≡ false }
    requires in_range { IsTaskInRange task.now }
    ensures { (limits : Counts) (journal : List Entry) → IsPinOf journal pin → (denied : Bool) × (reply_of result ≡ reply_or_denied denied (answer_to (rules_with keys limits) (task_of task.now) journal journal)) }
{
    match task {
        Task::Search { k, body } => search(alloc, keys, &pin, *k, body, room),
        Task::Like { k, name, place } => like(alloc, &pin, *k, name, *place, room),
        Task::Contain { a, b, body } => contain(alloc, keys, &pin, *a, *b, body),
        Task::Tables => list(alloc, &pin),
        Task::Load { .. }
        | Task::LoadFile { .. }
        | Task::Drop { .. }
        | Task::Replace { .. }
        | Task::AsOf { .. }
        | Task::Merge { .. } => unreachable!(),
    }
}

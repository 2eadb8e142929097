//! Loads and replaces by bytes that were read, and questions that are answered at a pin of the lake.
ghost use Rattle.std.specs.Prelude.{◌≡◌, ◌≤◌, false, None};
ghost use mathlib.Core.List.{IsPrefix};
ghost use Rattle.turn_lock.specs.Passes.{after_seeing};
ghost use Rattle.script_model.specs.Commands.{is_update_task, command_with, Load, LoadFile, DropTable, Replace, AsOf};
ghost use Rattle.lake_model.specs.declared.Keys.{Keys};
ghost use Rattle.record_model.specs.Rules.{rules_with, wide_limits};
ghost use Rattle.catalogue.specs.Kept.{IsWithin};
ghost use Rattle.run_record.specs.Replies.{reply_of};
ghost use Rattle.commands.specs.Tasks.{file_of, task_of, IsTaskInRange};
ghost use Rattle.batch_work.specs.Works.{merge_policy};
ghost use Rattle.command_replies.specs.Pasts.{is_past};
ghost use Rattle.lake_desk.specs.Answering.{IsAnswered};

use crate::changing::{drop_table, load, replace};
use asof_search::Timeline;
use column_set::{Keys, Name};
use command_replies::{Loadable, SearchRoom, finish, make_table, make_table_of_file, search_past};
use commands::{Body, FileBody, Task};
use lake::{Bounds, Lake, Pass};
use lake_io::{Gate, Point};
use no_memory::NoMemory;
use run_record::Reply;
use std::alloc::Global;
use std::sync::Wait;

/// Answers a load of a block. The lock is free while the table is made.
pub(crate) fn load_block<B: Bounds, R: Wait>(
    rt: &R,
    alloc: Global,
    keys: Keys,
    lake: &Lake<B>,
    pass: &mut Pass<B>,
    number: u64,
    name: &Name,
    body: &Body,
) -> Reply
    requires lock { pass.old.lock ≡ lake.now }
    requires free { pass.old.holds ≡ false }
    ensures pass { pass.new ≡ after_seeing pass.old pass.new.seen false }
    ensures answered { IsAnswered (rules_with keys B.limits) (command_with number pass.old.caller (Load name.now body.now)) pass.old (reply_of result) pass.new.seen }
{
    match make_table(alloc, keys, name, body) {
        Ok(Loadable { table, segment }) => load(rt, alloc, lake, pass, number, table, segment),
        Err(reply) => reply,
    }
}

/// Answers a load of a file. The lock is free while the table is made.
pub(crate) fn load_file<B: Bounds, R: Wait>(
    rt: &R,
    alloc: Global,
    keys: Keys,
    lake: &Lake<B>,
    pass: &mut Pass<B>,
    number: u64,
    name: &Name,
    file: &FileBody,
) -> Reply
    requires lock { pass.old.lock ≡ lake.now }
    requires free { pass.old.holds ≡ false }
    ensures pass { pass.new ≡ after_seeing pass.old pass.new.seen false }
    ensures answered { IsAnswered (rules_with keys B.limits) (command_with number pass.old.caller (LoadFile name.now (file_of file.now))) pass.old (reply_of result) pass.new.seen }
{
    match make_table_of_file(alloc, keys, name, file) {
        Ok(Loadable { table, segment }) => load(rt, alloc, lake, pass, number, table, segment),
        Err(reply) => reply,
    }
}

/// Answers a replace by a block. The lock is free while the table is made.
pub(crate) fn replace_by_block<B: Bounds, R: Wait>(
    rt: &R,
    alloc: Global,
    keys: Keys,
    lake: &Lake<B>,
    pass: &mut Pass<B>,
    number: u64,
    name: &Name,
    body: &Body,
) -> Reply
    requires lock { pass.old.lock ≡ lake.now }
    requires free { pass.old.holds ≡ false }
    ensures pass { pass.new ≡ after_seeing pass.old pass.new.seen false }
    ensures answered { IsAnswered (rules_with keys B.limits) (command_with number pass.old.caller (Replace name.now body.now)) pass.old (reply_of result) pass.new.seen }
{
    match make_table(alloc, keys, name, body) {
        Ok(Loadable { table, segment }) => replace(rt, alloc, lake, pass, number, table, segment),
        Err(reply) => reply,
    }
}

/// Answers a drop.
pub(crate) fn drop_named<B: Bounds, R: Wait>(
    rt: &R,
    alloc: Global,
    lake: &Lake<B>,
    pass: &mut Pass<B>,
    number: u64,
    name: &Name,
) -> Reply
    requires lock { pass.old.lock ≡ lake.now }
    requires free { pass.old.holds ≡ false }
    ensures pass { pass.new ≡ after_seeing pass.old pass.new.seen false }
    ensures answered { (keys : Keys) → IsAnswered (rules_with keys B.limits) (command_with number pass.old.caller (DropTable name.now)) pass.old (reply_of result) pass.new.seen }
{
    drop_table(rt, alloc, lake, pass, number, name)
}

/// Answers a search, a like, a contain or a request for the live tables, at a pin of the newest version. The lock is
/// free from the pin on. A search or a like takes the memory of `room`, which then serves the next one.
pub(crate) fn ask<B: Bounds, R: Wait, G: Gate>(
    rt: &R,
    alloc: Global,
    keys: Keys,
    lake: &Lake<B>,
    pass: &mut Pass<B>,
    room: &mut SearchRoom,
    number: u64,
    task: &Task,
    gate: &G,
) -> Reply
    requires lock { pass.old.lock ≡ lake.now }
    requires free { pass.old.holds ≡ false }
    requires asks { is_update_task (task_of task.now) ≡ false }
    requires merges { merge_policy (task_of task.now) ≡ None }
    requires present { is_past (task_of task.now) ≡ false }
    requires in_range { IsTaskInRange task.now }
    ensures pass { pass.new ≡ after_seeing pass.old pass.new.seen false }
    ensures answered { IsAnswered (rules_with keys B.limits) (command_with number pass.old.caller (task_of task.now)) pass.old (reply_of result) pass.new.seen }
{
    let pinned = lake.pin(rt, pass);
    let Ok(pin) = pinned else {
        return Reply::NoMemory;
    };
    gate.at(pass.caller(), number, Point::Pinned);
    finish(alloc, keys, pin, task, room)
}

/// Answers a search of an earlier position, at the newest one. The timeline takes the entries of the journal that it
/// has not taken yet; if memory runs out, only the first of them. The lock is free once the entries are read.
pub(crate) fn ask_past<B: Bounds, R: Wait, G: Gate>(
    rt: &R,
    alloc: Global,
    keys: Keys,
    lake: &Lake<B>,
    pass: &mut Pass<B>,
    past: &mut Timeline,
    number: u64,
    asked: u64,
    k: u32,
    body: &Body,
    gate: &G,
) -> Reply
    requires lock { pass.old.lock ≡ lake.now }
    requires free { pass.old.holds ≡ false }
    requires wide { IsWithin wide_limits B.limits }
    requires begins { IsPrefix past.old pass.old.seen }
    requires low { 1 ≤ k }
    requires high { k ≤ 10000 }
    ensures pass { pass.new ≡ after_seeing pass.old pass.new.seen false }
    ensures begins { IsPrefix past.new pass.new.seen }
    ensures answered { IsAnswered (rules_with keys B.limits) (command_with number pass.old.caller (AsOf asked k body.now)) pass.old (reply_of result) pass.new.seen }
{
    let read = lake.journal(rt, alloc, pass, past.taken());
    let Ok(entries) = read else {
        return Reply::NoMemory;
    };
    gate.at(pass.caller(), number, Point::Pinned);
    match past.take_all(&entries) {
        Ok(()) => search_past(alloc, keys, past, asked, k, body),
        Err(NoMemory) => Reply::NoMemory,
    }
}

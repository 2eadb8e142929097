//! The desk of one caller of a lake.
ghost use Rattle.std.specs.Prelude.{◌≡◌, ◌≤◌, ◌⊎◌, ℕ, drop, false, length, IfOk, Some};
ghost use mathlib.Core.List.{IsPrefix};
ghost use Rattle.record_model.specs.Rules.{rules_with, wide_limits};
ghost use Rattle.turn_lock.specs.History.{longer, Grows, IsOfGiven};
ghost use Rattle.turn_lock.specs.Passes.{after_seeing, callers_of, noted};
ghost use Rattle.lake.specs.Lawful.{caller_of, IsLawful};
ghost use Rattle.catalogue.specs.Kept.{IsWithin};
ghost use Rattle.script_model.specs.Commands.{command_with};
ghost use Rattle.run_record.specs.Replies.{reply_of};
ghost use Rattle.commands.specs.Tasks.{task_of, IsTaskInRange};
ghost use Rattle.lake_desk.specs.Answering.{IsAnswered, IsStep};
ghost use Rattle.lake_desk.specs.Pasts.{Begins};

use crate::asking::{ask, ask_past, drop_named, load_block, load_file, replace_by_block};
use crate::merging::merge_parts;
use asof_search::Timeline;
use catalogue::Entry;
use column_set::Keys;
use command_replies::SearchRoom;
use commands::Task;
use lake::{Bounds, Lake, Note, Pass};
use lake_io::{Gate, Point};
use lane_run::Desk;
use no_memory::NoMemory;
use run_record::{By, Reply};
use std::alloc::Global;
use std::marker::Model;
use std::sync::Wait;
use std::thread::Threads;

/// A desk at which one caller of a lake answers commands. It compares values by the kind of keys that holds for the
/// whole lake. Contracts see it as the caller's pass, which holds no turn.
///
/// Its timeline takes what the caller has seen of the lake's journal, but only when an earlier position is asked for;
/// until then it holds no memory. Its room is what the caller's searches share: the first takes the memory, and the next
/// ones use it again.
#[derive(Drop)]
pub struct LakeDesk<'a, B: Bounds> {
    alloc: Global,
    keys: Keys,
    lake: &'a Lake<B>,
    pass: Pass<B>,
    past: Timeline,
    room: SearchRoom,
}

impl<'a, B: Bounds> Model for LakeDesk<'a, B> {
    ghost use Rattle.std.specs.Prelude.{◌≡◌, false};
    ghost use mathlib.Core.List.{IsPrefix};
    ghost use Rattle.turn_lock.specs.Passes.{Known};
    ghost use Rattle.lake_model.specs.Journal.{Entry};
    ghost use Rattle.record_model.specs.Rules.{wide_limits};
    ghost use Rattle.catalogue.specs.Kept.{IsWithin};

    ghost Value = { Known Entry };

    ghost view = { λ d. d.pass };

    ghost invariant = { λ d. (d.pass.lock ≡ d.lake.now) × (d.pass.holds ≡ false) × (d.keys ≡ B.keys) × IsWithin wide_limits B.limits × IsPrefix d.past d.pass.seen };
}

impl<'a, B: Bounds> LakeDesk<'a, B> {
    /// Makes the desk of a pass of the lake, whose values are compared by the given kind of keys, with a timeline that
    /// has taken a beginning of what the pass has seen, or with a new one. It takes no memory.
    pub fn new(
        alloc: Global,
        keys: Keys,
        lake: &'a Lake<B>,
        pass: Pass<B>,
        past: Option<Timeline>,
    ) -> LakeDesk<'a, B>
        requires keys { keys ≡ B.keys }
        requires lock { pass.lock ≡ lake.now }
        requires free { pass.holds ≡ false }
        requires wide { IsWithin wide_limits B.limits }
        requires past { Begins past pass.seen }
        ensures { result ≡ pass }
    {
        LakeDesk {
            alloc,
            keys,
            lake,
            pass,
            past: past.unwrap_or(Timeline::new(alloc)),
            room: SearchRoom::new(),
        }
    }

    /// Returns the desk's pass, with all that it has seen, and its timeline, which has taken a beginning of that.
    pub fn into_pass(self) -> (Pass<B>, Option<Timeline>)
        ensures pass { result.0 ≡ self.entry }
        ensures past { Begins result.1 self.entry.seen }
    {
        (self.pass, Some(self.past))
    }

    /// Makes a note of what the desk has seen.
    pub fn note(&mut self) -> Note<B>
        ensures desk { self.new ≡ self.old }
        ensures note { result ≡ noted self.old.lock self.old.seen }
    {
        self.lake.note(&mut self.pass)
    }

    /// Extends what the desk has seen to what the note has, if that is more.
    pub fn meet(&mut self, note: Note<B>)
        requires { note.lock ≡ self.old.lock }
        ensures longer { self.new ≡ after_seeing self.old (longer self.old.seen note.seen) false }
        ensures others { Grows caller_of (callers_of self.old) self.old.seen self.new.seen }
        ensures begins { IsPrefix note.seen self.new.seen }
        ensures one { IsPrefix self.old.seen note.seen ⊎ IsPrefix note.seen self.old.seen }
        ensures lawful { IsLawful B.limits self.new.seen }
    {
        self.lake.meet(&mut self.pass, note);
    }

    /// Reads the entries of the lake's journal after a position that the desk has already seen. The desk has then seen
    /// these as well. Returns `Err(NoMemory)` if memory runs out.
    pub fn journal<R: Wait>(&mut self, rt: &R, after: u64) -> Result<Vec<Entry>, NoMemory>
        requires seen { after ≤ length self.old.seen }
        ensures desk { self.new ≡ after_seeing self.old self.new.seen false }
        ensures grows { Grows caller_of (callers_of self.old) self.old.seen self.new.seen }
        ensures lawful { IsLawful B.limits self.new.seen }
        ensures entries { IfOk result (λ entries. entries.items ≡ drop after self.new.seen) }
    {
        let lake = self.lake;
        lake.journal(rt, self.alloc, &mut self.pass, after)
    }

    /// Returns how many caller numbers the desk's pass has left to give. If the pass gives numbers, all entries that it
    /// has seen are of callers whose numbers it gave.
    pub fn numbers(&self) -> u32
        ensures left { result ≡ self.now.left }
        ensures given { (count : ℕ) → self.now.given ≡ Some count → IsOfGiven caller_of count self.now.seen }
        ensures lawful { IsLawful B.limits self.now.seen }
    {
        self.lake.left(&self.pass)
    }

    /// States that, if the desk's pass gives numbers, all entries that it has seen are of callers whose numbers it gave.
    pub(crate) fn seen_are_of_given(&self)
        ensures { (count : ℕ) → self.now.given ≡ Some count → IsOfGiven caller_of count self.now.seen }
    {
        self.numbers();
    }

    // Makes the reply to the command with this number.
    fn reply<R: Wait, G: Gate>(&mut self, rt: &R, number: u64, task: &Task, gate: &G) -> Reply
        requires { IsTaskInRange task.now }
        ensures free { self.old.holds ≡ false }
        ensures pass { self.new ≡ after_seeing self.old self.new.seen false }
        ensures answered { IsAnswered (rules_with B.keys B.limits) (command_with number self.old.caller (task_of task.now)) self.old (reply_of result) self.new.seen }
    {
        let (alloc, keys, lake) = (self.alloc, self.keys, self.lake);
        match task {
            Task::Load { name, body } => load_block(
                rt,
                alloc,
                keys,
                lake,
                &mut self.pass,
                number,
                name,
                body,
            ),
            Task::LoadFile { name, file } => load_file(
                rt,
                alloc,
                keys,
                lake,
                &mut self.pass,
                number,
                name,
                file,
            ),
            Task::Drop { name } => drop_named(rt, alloc, lake, &mut self.pass, number, name),
            Task::Replace { name, body } => replace_by_block(
                rt,
                alloc,
                keys,
                lake,
                &mut self.pass,
                number,
                name,
                body,
            ),
            Task::Tables | Task::Search { .. } | Task::Like { .. } | Task::Contain { .. } => ask(
                rt,
                alloc,
                keys,
                lake,
                &mut self.pass,
                &mut self.room,
                number,
                task,
                gate,
            ),
            Task::AsOf { asked, k, body } => ask_past(
                rt,
                alloc,
                keys,
                lake,
                &mut self.pass,
                &mut self.past,
                number,
                *asked,
                *k,
                body,
                gate,
            ),
            Task::Merge { all } => merge_parts(rt, alloc, lake, &mut self.pass, number, *all, gate),
        }
    }
}

impl<'a, B: Bounds> Desk for LakeDesk<'a, B> {
    ghost use Rattle.record_model.specs.Rules.{rules_with};
    ghost use Rattle.lake_desk.specs.Answering.{IsStep};

    ghost step = { IsStep (rules_with B.keys B.limits) };

    fn answer<R: Threads + Wait + Sync, G: Gate + Sync>(
        &mut self,
        rt: &R,
        by: By,
        task: &Task,
        gate: &G,
    ) -> Reply {
        let (lane, number) = (by.caller(), by.number());
        gate.at(lane, number, Point::Begin);
        let reply = self.reply(rt, number, task, gate);
        gate.at(lane, number, Point::Ended);
        reply
    }
}

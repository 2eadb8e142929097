//! A lane of a batch: the work that it still has to do, what it holds for the first of that, and what it has done.
ghost use Rattle.std.specs.Prelude.{◌≡◌, ◌==◌, ◌≤◌, ◌<◌, ◌+◌, ◌++◌, ◌∷◌, [], Bool, List, drop, length, take, MatchOption, None, OnOk, Some, option_to_list, map};
ghost use mathlib.Core.List.{IsPrefix};
ghost use Rattle.lake_model.specs.Journal.{Entry};
ghost use Rattle.catalogue.specs.Kept.{IsWithin};
ghost use Rattle.record_model.specs.Answered.{has_pin};
ghost use Rattle.script_model.specs.Commands.{Command as CommandOf};
ghost use Rattle.record_model.specs.Rules.{rules_with, wide_limits};
ghost use Rattle.record_model.specs.Play.{answers_of, done_with, step};
ghost use Rattle.run_record.specs.Replies.{reply_of};
ghost use Rattle.lake_core.specs.Lanes.{alone, lane_from, IsHeld};
ghost use Rattle.batch_work.specs.Works.{work_of};

use asof_search::Timeline;
use batch_work::{Done, Work, next_answer};
use catalogue::Catalogue;
use command_replies::{Held, begin, reply_now, reply_when_held};
use lake_model::Keys;
use no_memory::NoMemory;
use run_record::{Answered, Reply, RunRecord};
use std::alloc::Global;
use std::collections::VecDeque;
use std::marker::Model;

/// A lane of a batch. Its list of finished work has room for all the work still to do.
#[derive(Drop)]
pub struct Lane<'a> {
    todo: VecDeque<Work<'a>>,
    held: Option<Held>,
    done: VecDeque<Done<'a>>,
}

impl<'a> Model for Lane<'a> {
    ghost use Rattle.std.specs.Prelude.{◌+◌, ◌≤◌, length, map};
    ghost use Rattle.std.specs.VecDeque.{deque_capacity};
    ghost use Rattle.lake_core.specs.Lanes.{LaneOf, lane_from};
    ghost use Rattle.batch_work.specs.Works.{work_of};

    ghost Value = { LaneOf };

    ghost view = { λ l. lane_from (map work_of l.todo.items) l.held l.done.items };

    ghost invariant = { λ l. length l.todo.items + length l.done.items ≤ deque_capacity l.done };
}

impl<'a> Lane<'a> {
    /// Makes a lane that has nothing to do. It takes no memory.
    pub fn new(alloc: Global) -> Lane<'a>
        ensures { result ≡ lane_from [] None [] }
    {
        Lane {
            todo: VecDeque::new(alloc),
            held: None,
            done: VecDeque::new(alloc),
        }
    }

    /// Adds work after the work still to do, or returns `Err(NoMemory)`.
    pub fn add(&mut self, work: Work<'a>) -> Result<(), NoMemory>
        requires { self.old.done ≡ [] }
        ensures { OnOk result (self.new ≡ lane_from (self.old.todo ++ work_of work.entry ∷ []) self.old.held []) }
    {
        let Some(room) = self.todo.len().checked_add(1) else {
            return Err(NoMemory);
        };
        self.done.reserve(room)?;
        self.todo.push_back(work)?;
        Ok(())
    }

    /// Returns whether nothing is left to do.
    pub fn is_idle(&self) -> bool
        ensures { result ≡ (length self.now.todo == 0) }
    {
        self.todo.is_empty()
    }

    // Returns the first of the work still to do.
    fn first(&self) -> Option<Work<'a>>
        ensures { MatchOption result (self.now.todo ≡ []) (λ work. self.now.todo ≡ work_of work ∷ drop 1 self.now.todo) }
    {
        self.todo.front().copied()
    }

    // Answers the first of the work still to do.
    fn answer(&mut self, reply: Reply)
        ensures { (command : CommandOf) (todo : List CommandOf) → self.old.todo ≡ command ∷ todo → self.new ≡ lane_from todo None (self.old.done ++ done_with command (reply_of reply) ∷ []) }
    {
        self.held = None;
        if let Some(work) = self.todo.pop_front() {
            self.done.push_back_reserved(Done::new(work, reply));
        }
    }

    /// Takes the next step, if there is one: the first of the work still to do is answered. A search, a like, a contain
    /// or a merge has a step before that, in which the version of the lake at which it is answered is held, or the
    /// merge is planned. A search of an earlier position has one step, in which the timeline first takes the entries of
    /// the journal that it has not taken yet.
    pub fn step(
        &mut self,
        alloc: Global,
        catalogue: &mut Catalogue,
        keys: Keys,
        past: &mut Timeline,
        out: &mut RunRecord,
    )
        requires limits { IsWithin wide_limits catalogue.old.limits }
        requires past { IsPrefix past.old catalogue.old.journal }
        requires journal { out.old.made.journal ≡ catalogue.old.journal }
        requires held { IsHeld catalogue.old.journal self.old.todo self.old.held }
        requires entries { length self.old.todo ≤ out.old.entries_room }
        ensures steps { (denied : Bool) × (alone catalogue.new.journal self.new ≡ step (rules_with keys catalogue.old.limits) (alone catalogue.old.journal self.old) (0, denied)) }
        ensures held { IsHeld catalogue.new.journal self.new.todo self.new.held }
        ensures past { IsPrefix past.new catalogue.new.journal }
        ensures grows { (more : List Entry) × (catalogue.new.journal ≡ catalogue.old.journal ++ more) }
        ensures made { out.new.made ≡ record out.old.made { journal = catalogue.new.journal } }
        ensures limits { catalogue.new.limits ≡ catalogue.old.limits }
        ensures entries_room { out.old.entries_room + length self.new.todo ≤ out.new.entries_room + length self.old.todo }
        ensures answers_room { out.new.answers_room ≡ out.old.answers_room }
        ensures syncs_room { out.new.syncs_room ≡ out.old.syncs_room }
    {
        let Some(work) = self.first() else {
            return;
        };
        if !work.has_pin() {
            let reply = reply_now(alloc, catalogue, keys, past, &work, out);
            self.answer(reply);
            return;
        }
        match self.held.take() {
            None => self.held = Some(begin(alloc, catalogue, &work)),
            Some(held) => self.answer(reply_when_held(alloc, catalogue, keys, &work, held, out)),
        }
    }

    /// Takes out the first answer of those that are done.
    pub fn next_done(&mut self) -> Option<Answered>
        ensures answer { option_to_list result ≡ answers_of (take 1 self.old.done) }
        ensures rest { self.new ≡ lane_from self.old.todo self.old.held (drop 1 self.old.done) }
    {
        next_answer(&mut self.done)
    }
}

//! The record of a run: its journal, its answers, and the length of the journal at the end of each batch.
ghost use Rattle.std.specs.Prelude.{◌≡◌, ◌<◌, ◌≤◌, ◌+◌, ◌++◌, ◌∷◌, [], length, true, vec_capacity, OnOk};
ghost use Rattle.record_model.specs.Record.{empty, with_end};
ghost use Rattle.script_model.specs.Options.{plain};
ghost use Rattle.run_record.specs.Callers.{who_by};

use crate::reply::Reply;
use catalogue::Entry;
use commands::Options;
use no_memory::NoMemory;
use std::alloc::Global;
use std::marker::Model;

/// Whose command was answered.
#[derive(Clone, Copy, Debug, PartialEq, Eq)]
pub enum By {
    /// The command with this number, from 1, of a lane from 1 to 16.
    Command { number: u64, lane: u32 },
    /// The merger, which counts its own commands.
    Merger { number: u64 },
}

impl By {
    /// Returns the number of the command.
    pub fn number(&self) -> u64
        ensures { result ≡ (who_by self.now).command }
    {
        match self {
            By::Command { number, .. } => *number,
            By::Merger { number } => *number,
        }
    }

    /// Returns the lane, or 0 for the merger.
    pub fn caller(&self) -> u32
        ensures { result ≡ (who_by self.now).caller }
    {
        match self {
            By::Command { lane, .. } => *lane,
            By::Merger { .. } => 0,
        }
    }
}

/// A reply, and whose command it answers.
#[derive(Drop)]
pub struct Answered {
    pub by: By,
    pub reply: Reply,
}

impl Model for Answered {
    ghost use Rattle.record_model.specs.Record.{Answered as AnsweredOf, answered_with};

    ghost Value = { AnsweredOf };

    ghost use Rattle.run_record.specs.Callers.{who_by};
    ghost use Rattle.run_record.specs.Replies.{reply_of};

    ghost view = { λ a. answered_with (who_by a.by) (reply_of a.reply) };
}

/// The record of a run, with its options, and how many more answers, entries and syncs it has room for.
#[derive(Drop)]
pub struct RunRecord {
    options: Options,
    journal: Vec<Entry>,
    answers: Vec<Answered>,
    syncs: Vec<u64>,
    ended: bool,
    entries_room: usize,
    answers_room: usize,
    syncs_room: usize,
}

impl Model for RunRecord {
    ghost use Rattle.std.specs.Prelude.{vec_capacity};
    ghost use Rattle.record_model.specs.Record.{made_of};
    ghost use Rattle.run_record.specs.Rooms.{RecordOf, record_with, HasRoom};

    ghost Value = { RecordOf };

    ghost view = { λ r. record_with (made_of r.options r.journal.items r.answers.items r.syncs.items r.ended) r.answers_room r.entries_room r.syncs_room };

    ghost invariant = { λ r. HasRoom r.answers.items (vec_capacity r.answers) r.answers_room × HasRoom r.journal.items (vec_capacity r.journal) r.entries_room × HasRoom r.syncs.items (vec_capacity r.syncs) r.syncs_room };
}

impl RunRecord {
    /// Returns the record of a run that has done nothing, with one lane, no stated order, no merger and no trace. It
    /// takes no memory, and has no room.
    pub fn new(alloc: Global) -> RunRecord
        ensures { result.made ≡ empty plain }
    {
        RunRecord {
            options: Options::plain(),
            journal: Vec::new(alloc),
            answers: Vec::new(alloc),
            syncs: Vec::new(alloc),
            ended: false,
            entries_room: 0,
            answers_room: 0,
            syncs_room: 0,
        }
    }

    /// Returns the options of the run.
    pub fn options(&self) -> &Options
        ensures { result.now ≡ self.now.made.options }
    {
        &self.options
    }

    /// Replaces the options of the record. It takes no memory.
    pub fn set_options(&mut self, what: Options)
        ensures made { self.new.made ≡ record self.old.made { options = what } }
        ensures answers_room { self.new.answers_room ≡ self.old.answers_room }
        ensures entries_room { self.new.entries_room ≡ self.old.entries_room }
        ensures syncs_room { self.new.syncs_room ≡ self.old.syncs_room }
    {
        self.options = what;
    }

    /// Returns the journal.
    pub fn journal(&self) -> &[Entry]
        ensures { result.now ≡ self.now.made.journal }
    {
        &self.journal
    }

    /// Returns the answers, in the order of the commands of each batch.
    pub fn answers(&self) -> &[Answered]
        ensures { result.now ≡ self.now.made.answers }
    {
        &self.answers
    }

    /// Returns the length of the journal at the end of each batch.
    pub fn syncs(&self) -> &[u64]
        ensures { result.now ≡ self.now.made.syncs }
    {
        &self.syncs
    }

    /// Returns whether the source was read to its end.
    pub fn ended(&self) -> bool
        ensures { result ≡ self.now.made.ended }
    {
        self.ended
    }

    /// Notes that the source was read to its end.
    pub fn close(&mut self)
        ensures made { self.new.made ≡ with_end true self.old.made }
        ensures answers_room { self.new.answers_room ≡ self.old.answers_room }
        ensures entries_room { self.new.entries_room ≡ self.old.entries_room }
        ensures syncs_room { self.new.syncs_room ≡ self.old.syncs_room }
    {
        self.ended = true;
    }

    /// Makes room for `answers` more answers, `entries` more entries, and one more sync.
    pub fn room(&mut self, answers: usize, entries: usize) -> Result<(), NoMemory>
        ensures made { self.new.made ≡ self.old.made }
        ensures room { OnOk result ((answers ≤ self.new.answers_room) × (entries ≤ self.new.entries_room) × (1 ≤ self.new.syncs_room)) }

        // no room shrinks, even if memory runs out
        ensures answers_room { self.old.answers_room ≤ self.new.answers_room }
        ensures entries_room { self.old.entries_room ≤ self.new.entries_room }
        ensures syncs_room { self.old.syncs_room ≤ self.new.syncs_room }
    {
        self.answers.reserve(answers)?;
        self.answers_room = self.answers.capacity() - self.answers.len();
        self.journal.reserve(entries)?;
        self.entries_room = self.journal.capacity() - self.journal.len();
        self.syncs.reserve(1)?;
        self.syncs_room = self.syncs.capacity() - self.syncs.len();
        Ok(())
    }

    /// Appends an answer, for which there is room. It takes no memory.
    pub fn add_answer(&mut self, what: Answered)
        requires { 0 < self.old.answers_room }
        ensures made { self.new.made ≡ record self.old.made { answers = self.old.made.answers ++ what ∷ [] } }
        ensures answers_room { self.new.answers_room + 1 ≡ self.old.answers_room }
        ensures entries_room { self.new.entries_room ≡ self.old.entries_room }
        ensures syncs_room { self.new.syncs_room ≡ self.old.syncs_room }
    {
        self.answers.push_reserved(what);
        self.answers_room -= 1;
    }

    /// Appends an entry to the journal, for which there is room. It takes no memory.
    pub fn add_entry(&mut self, what: Entry)
        requires { 0 < self.old.entries_room }
        ensures made { self.new.made ≡ record self.old.made { journal = self.old.made.journal ++ what ∷ [] } }
        ensures answers_room { self.new.answers_room ≡ self.old.answers_room }
        ensures entries_room { self.new.entries_room + 1 ≡ self.old.entries_room }
        ensures syncs_room { self.new.syncs_room ≡ self.old.syncs_room }
    {
        self.journal.push_reserved(what);
        self.entries_room -= 1;
    }

    /// Notes the end of a batch with the length of the journal, for which there is room. It takes no memory.
    pub fn add_sync(&mut self)
        requires { 0 < self.old.syncs_room }
        ensures made { self.new.made ≡ record self.old.made { syncs = self.old.made.syncs ++ length self.old.made.journal ∷ [] } }
        ensures answers_room { self.new.answers_room ≡ self.old.answers_room }
        ensures entries_room { self.new.entries_room ≡ self.old.entries_room }
        ensures syncs_room { self.new.syncs_room + 1 ≡ self.old.syncs_room }
    {
        self.syncs.push_reserved(self.journal.len() as u64);
        self.syncs_room -= 1;
    }
}

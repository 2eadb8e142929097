//! Commands, and the batches of commands that a script asks for.
ghost use Rattle.std.specs.Prelude.{◌≡◌, ◌≤◌};
ghost use Rattle.script_model.specs.Commands.{is_update_task, updates};
ghost use Rattle.script_model.specs.Reading.{file_size};
ghost use Rattle.commands.specs.Tasks.{IsTaskInRange, file_of, task_of};

use crate::body::Body;
use column_set::Name;
use std::marker::Model;

/// The result of fetching a file.
#[derive(Drop)]
pub enum FileBody {
    /// The bytes of the file.
    Bytes(Body),
    /// The shelf failed.
    Failed,
    /// No file has the path.
    Missing,
    /// The file has more than 67,108,864 bytes.
    TooLong,
}

impl FileBody {
    /// Returns the number of bytes of the file, which is 0 if they could not be fetched.
    pub fn size(&self) -> u64
        ensures { result ≡ file_size (file_of self.now) }
    {
        match self {
            FileBody::Bytes(body) => body.bytes().len() as u64,
            FileBody::Failed | FileBody::Missing | FileBody::TooLong => 0,
        }
    }
}

/// What a command asks for.
#[derive(Drop)]
pub enum Task {
    /// Loads a table under this name from the body, which is CSV.
    Load { name: Name, body: Body },
    /// Loads a table under this name from a file, which is CSV.
    LoadFile { name: Name, file: FileBody },
    /// Drops the live table of this name.
    Drop { name: Name },
    /// Replaces the live table of this name by the table in the body, which is CSV.
    Replace { name: Name, body: Body },
    /// Lists the live tables.
    Tables,
    /// Searches for the `k` columns with the greatest overlap with the lines of the body; `k` is 1 to 10,000.
    Search { k: u32, body: Body },
    /// Searches for the `k` columns with the greatest overlap with the column at this place of the live table of this
    /// name, leaving out that table; `k` is 1 to 10,000, and places count from 1.
    Like { k: u32, name: Name, place: u32 },
    /// Searches for all columns that hold at least `a` of `b` parts of the lines of the body; `a` is 1 to `b`, and `b`
    /// is at most 10,000.
    Contain { a: u32, b: u32, body: Body },
    /// Searches the tables that were live after the first `asked` entries of the journal for the `k` columns with the
    /// greatest overlap with the lines of the body; `asked` may be 0, and `k` is 1 to 10,000.
    AsOf { asked: u64, k: u32, body: Body },
    /// Merges parts of the layout: the first four adjacent ones of one tier, or else the first part half or more of
    /// whose tables were dropped or replaced; if `all` is set, the whole layout.
    Merge { all: bool },
}

/// A command of a script. Its model has its number, its lane and its task. Commands are numbered from 1, in the order
/// of the script, and lanes from 1. The `k` of a search is 1 to 10,000, and so is that of a like, whose place counts
/// from 1; the fraction of a contain is above 0 and at most 1. A search of the past asks for at most 4,294,967,295
/// entries, and its `k` is 1 to 10,000.
#[derive(Drop)]
pub struct Command {
    pub number: u64,
    pub lane: u32,
    pub task: Task,
}

impl Model for Command {
    ghost use Rattle.std.specs.Prelude.{◌≤◌};
    ghost use Rattle.script_model.specs.Commands.{Command as CommandOf, command_with};

    ghost Value = { CommandOf };

    ghost use Rattle.commands.specs.Tasks.{IsTaskInRange, task_of};

    ghost view = { λ c. command_with c.number c.lane (task_of c.task) };

    ghost invariant = { λ c. (1 ≤ c.lane) × IsTaskInRange c.task };
}

impl Command {
    /// Returns the number of the command, counted from 1 in the order of the script.
    pub fn number(&self) -> u64
        ensures { result ≡ self.now.number }
    {
        self.number
    }

    /// Returns the lane of the command, counted from 1.
    pub fn lane(&self) -> u32
        ensures value { result ≡ self.now.lane }
        ensures low { 1 ≤ result }
    {
        self.lane
    }

    /// Returns what the command asks for.
    pub fn task(&self) -> &Task
        ensures value { task_of result.now ≡ self.now.task }
        ensures in_range { IsTaskInRange result.now }
    {
        &self.task
    }

    // Returns whether the command is a load, a drop or a replace.
    fn is_update(&self) -> bool
        ensures { result ≡ is_update_task self.now.task }
    {
        match &self.task {
            Task::Load { .. } | Task::LoadFile { .. } | Task::Drop { .. } | Task::Replace { .. } =>
                true,
            Task::Tables
            | Task::Search { .. }
            | Task::Like { .. }
            | Task::Contain { .. }
            | Task::AsOf { .. }
            | Task::Merge { .. } => false,
        }
    }
}

/// The commands of a batch, in the order of the script. Its model is the list of the commands.
#[derive(Drop)]
pub struct Batch {
    commands: Vec<Command>,
}

impl Model for Batch {
    ghost use Rattle.std.specs.Prelude.{List};
    ghost use Rattle.script_model.specs.Commands.{Command as CommandOf};

    ghost Value = { List CommandOf };

    ghost view = { λ b. b.commands.items };
}

impl Batch {
    /// Returns the batch of these commands. It takes no memory.
    pub fn new(commands: Vec<Command>) -> Batch
        ensures { result ≡ commands.items }
    {
        Batch { commands }
    }

    /// Returns the commands, in the order of the script.
    pub fn commands(&self) -> &[Command]
        ensures { result.now ≡ self.now }
    {
        &self.commands
    }

    /// Returns how many of the commands are loads, drops and replaces.
    pub fn updates(&self) -> u64
        ensures { result ≡ updates self.now }
    {
        self.commands
            .iter()
            .filter(|command| command.is_update())
            .count() as u64
    }
}

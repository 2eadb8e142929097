//! Commands of one lane, numbered as they are added.
ghost use Rattle.std.specs.Prelude.{◌≡◌, ◌++◌, ◌∷◌, [], OnOk};
ghost use Rattle.script_model.specs.Lanes.{IsOfLanes};
ghost use Rattle.commands.specs.Tasks.{IsTaskInRange, task_of};
ghost use Rattle.lake_maker.specs.Made.{numbered};

use commands::{Batch, Command, Task};
use no_memory::NoMemory;
use std::alloc::Global;
use std::marker::Model;

// Commands of lane 1, numbered from 1. Its model is the list of their tasks.
#[derive(Drop)]
pub(crate) struct Numbered {
    commands: Vec<Command>,
}

impl Model for Numbered {
    ghost use Rattle.std.specs.Prelude.{◌≡◌, List, map};
    ghost use Rattle.script_model.specs.Commands.{Task as TaskOf};
    ghost use Rattle.lake_maker.specs.Made.{numbered, tasks_of};

    ghost Value = { List TaskOf };

    ghost view = { λ n. tasks_of n.commands.items };

    ghost invariant = { λ n. n.commands.items ≡ numbered (tasks_of n.commands.items) };
}

impl Numbered {
    // Returns an empty list of commands. It takes no memory.
    pub(crate) fn new(alloc: Global) -> Numbered
        ensures { result ≡ [] }
    {
        Numbered {
            commands: Vec::new(alloc),
        }
    }

    // Appends the command with this task.
    pub(crate) fn push(&mut self, task: Task) -> Result<(), NoMemory>
        requires { IsTaskInRange task }
        ensures { OnOk result (self.new ≡ self.old ++ task_of task ∷ []) }
    {
        self.commands.push(Command {
            number: self.commands.len() as u64 + 1,
            lane: 1,
            task,
        })?;
        Ok(())
    }

    // Returns the batch of these commands.
    pub(crate) fn batch(self) -> Batch
        ensures batch { result ≡ numbered self }
        ensures lanes { IsOfLanes 1 result }
    {
        Batch::new(self.commands)
    }
}

//! What the lanes of a batch have to do: its commands, and the merges of the merger.
ghost use Rattle.std.specs.Prelude.{◌≡◌, ◌<◌, ◌+◌, ◌^◌, ◌++◌, ⊤, false, map, IfOk, MatchOption, OnOk};
ghost use Rattle.std.specs.List.{range_with_len};
ghost use Rattle.record_model.specs.Answered.{has_pin};
ghost use Rattle.script_model.specs.Commands.{command_with, Merge, updates};
ghost use Rattle.record_model.specs.Play.{merges_of, who_of};
ghost use Rattle.commands.specs.Tasks.{task_of};
ghost use Rattle.run_record.specs.Callers.{who_by};
ghost use Rattle.batch_work.specs.Named.{HasName, HaveNames};
ghost use Rattle.batch_work.specs.Works.{merge_policy, work_of, works_of};

use catalogue::Who;
use commands::{Batch, Command, Task};
use lake_model::Policy;
use no_memory::NoMemory;
use run_record::By;
use std::alloc::Global;

/// What a lane has to do.
#[derive(Clone, Copy)]
pub enum Work<'a> {
    /// A command of the batch.
    Given(&'a Command),
    /// A merge by tiers of the merger, which numbers its own commands.
    Merge { number: u64 },
}

impl<'a> Work<'a> {
    /// Returns the lane, which is 0 for the merger.
    pub fn lane(&self) -> u32
        ensures { result ≡ (work_of self.now).lane }
    {
        match self {
            Work::Given(command) => command.lane(),
            Work::Merge { .. } => 0,
        }
    }

    /// Returns who makes the entries that it adds.
    pub fn who(&self) -> Who
        ensures { result ≡ who_of (work_of self.now) }
    {
        match self {
            Work::Given(command) => Who {
                caller: command.lane(),
                command: command.number(),
            },
            Work::Merge { number } => Who {
                caller: 0,
                command: *number,
            },
        }
    }

    /// Returns who is answered.
    pub fn by(&self) -> By
        ensures { who_by result ≡ who_of (work_of self.now) }
    {
        match self {
            Work::Given(command) => By::Command {
                number: command.number(),
                lane: command.lane(),
            },
            Work::Merge { number } => By::Merger { number: *number },
        }
    }

    /// Returns whether the work has a pin of its own, which it takes as its first step.
    pub fn has_pin(&self) -> bool
        ensures { result ≡ has_pin (work_of self.now).task }
    {
        match self {
            Work::Given(command) => has_pin(command.task()),
            Work::Merge { .. } => true,
        }
    }

    /// Returns the policy, if it is a merge.
    pub fn policy(&self) -> Option<Policy>
        ensures { result ≡ merge_policy (work_of self.now).task }
    {
        match self {
            Work::Given(command) => merge_policy(command.task()),
            Work::Merge { .. } => Some(Policy::Tier),
        }
    }
}

// Returns whether a task has a pin of its own.
fn has_pin(task: &Task) -> bool
    ensures { result ≡ has_pin (task_of task.now) }
{
    match task {
        Task::Search { .. } | Task::Like { .. } | Task::Contain { .. } | Task::Merge { .. } => true,
        Task::Load { .. }
        | Task::LoadFile { .. }
        | Task::Drop { .. }
        | Task::Replace { .. }
        | Task::Tables => false,
        // An asof sees the journal once, when it is answered.
        Task::AsOf { .. } => false,
    }
}

// Returns the policy, if the task is a merge.
fn merge_policy(task: &Task) -> Option<Policy>
    ensures { result ≡ merge_policy (task_of task.now) }
{
    match task {
        Task::Merge { all: true } => Some(Policy::All),
        Task::Merge { all: false } => Some(Policy::Tier),
        Task::Load { .. }
        | Task::LoadFile { .. }
        | Task::Drop { .. }
        | Task::Replace { .. }
        | Task::Tables
        | Task::Search { .. }
        | Task::Like { .. }
        | Task::Contain { .. }
        | Task::AsOf { .. } => None,
    }
}

/// Returns the commands of a batch, and then those of the merger, if there is one: a merge for each load, drop and
/// replace of the batch, numbered from `merger` on. Each name in them is the name of a table.
pub fn works_of(
    alloc: Global,
    batch: &Batch,
    merger: Option<u64>,
) -> Result<Vec<Work<'_>>, NoMemory>
    requires { MatchOption merger ⊤ (λ first. first + updates batch.now < 2 ^ 64) }
    ensures works { IfOk result (λ works. works_of works.items ≡ batch.now ++ merges_of merger batch.now) }
    ensures names { IfOk result (λ works. HaveNames batch.now) }
{
    let mut works = given(alloc, batch.commands())?;
    if let Some(first) = merger {
        add_merges(first, batch.updates(), &mut works)?;
    }
    Ok(works)
}

// Returns the commands, as work.
fn given(alloc: Global, commands: &[Command]) -> Result<Vec<Work<'_>>, NoMemory>
    ensures works { IfOk result (λ works. works_of works.items ≡ commands.now) }
    ensures names { IfOk result (λ works. HaveNames commands.now) }
{
    let mut works = Vec::with_capacity(alloc, commands.len())?;
    for command in commands {
        is_named(command.task());
        works.push(Work::Given(command))?;
    }
    Ok(works)
}

// States that the name in a task, if there is one, is the name of a table.
fn is_named(task: &Task)
    ensures { HasName (task_of task.now) }
{
    match task {
        Task::Load { name, .. }
        | Task::LoadFile { name, .. }
        | Task::Drop { name }
        | Task::Replace { name, .. }
        | Task::Like { name, .. } => {
            name.bytes();
        }
        Task::Tables
        | Task::Search { .. }
        | Task::Contain { .. }
        | Task::AsOf { .. }
        | Task::Merge { .. } => {}
    }
}

// Appends `count` merges of the merger, numbered from `first` on.
fn add_merges(first: u64, count: u64, works: &mut Vec<Work<'_>>) -> Result<(), NoMemory>
    requires { first + count < 2 ^ 64 }
    ensures { OnOk result (works_of works.new.items ≡ works_of works.old.items ++ map (λ n. command_with n 0 (Merge false)) (range_with_len first count)) }
{
    for added in 0..count {
        works.push(Work::Merge {
            number: first + added,
        })?;
    }
    Ok(())
}

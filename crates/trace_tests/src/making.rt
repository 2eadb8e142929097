//! Commands for the batches of the tests. Each table that they load has one column with the value x.
ghost use Rattle.std.specs.Prelude.{◌≡◌, ◌≤◌, IfOk};
ghost use Rattle.commands.specs.Tasks.{IsTaskInRange};

use column_set::Name;
use commands::{Body, Command, Task};
use std::alloc::Global;
use std::test::Fail;

/// Reads a text as a name.
pub(crate) fn name(text: &str) -> Result<Name, Fail> {
    Ok(Name::read(text.as_bytes()).ok_or("no name")?)
}

/// Makes a body of these bytes.
pub(crate) fn body(alloc: Global, text: &str) -> Result<Body, Fail> {
    Ok(Body::new(Vec::from_slice(alloc, text.as_bytes())?).ok_or("no body")?)
}

/// Makes a command.
pub(crate) fn command(number: u64, lane: u32, task: Task) -> Command
    requires lane { 1 ≤ lane }
    requires task { IsTaskInRange task }
    ensures { result.lane ≡ lane }
{
    Command { number, lane, task }
}

/// Makes the load of a table.
pub(crate) fn load(alloc: Global, number: u64, lane: u32, table: &str) -> Result<Command, Fail>
    requires { 1 ≤ lane }
    ensures { IfOk result (λ command. command.lane ≡ lane) }
{
    let task = Task::Load {
        name: name(table)?,
        body: body(alloc, "c\nx\n")?,
    };
    Ok(command(number, lane, task))
}

/// Makes a search for the value of the tables.
pub(crate) fn search(alloc: Global, number: u64, lane: u32) -> Result<Command, Fail>
    requires { 1 ≤ lane }
    ensures { IfOk result (λ command. command.lane ≡ lane) }
{
    let task = Task::Search {
        k: 9,
        body: body(alloc, "x\n")?,
    };
    Ok(command(number, lane, task))
}

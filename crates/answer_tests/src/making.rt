//! Small tables, and batches from tables of what is asked, with the loads of three that share some keys.
ghost use Rattle.std.specs.Prelude.{◌≤◌, IfOk};
ghost use Rattle.commands.specs.Tasks.{IsTaskInRange};
ghost use Rattle.script_model.specs.Lanes.{IsOfLanes};

use column_set::{Keys, Name, SharedTable, TableSets};
use commands::{Batch, Body, Command, FileBody, Task};
use csv_table::read_table;
use std::alloc::Global;
use std::test::Fail;

/// What a command asks for. A number out of the range of its task counts as the nearest in it.
pub(crate) enum Asked {
    /// A load: the name and the text of the table.
    Load(&'static str, &'static str),
    /// The load of a file that does not exist.
    Missing(&'static str),
    Drop(&'static str),
    Tables,
    /// The number of rows, and the body.
    Search(u32, &'static str),
    /// The number of rows, and the name of the table and the place of its column.
    Like(u32, &'static str, u32),
    /// The position, the number of rows, and the body.
    AsOf(u32, u32, &'static str),
    /// Whether all parts are merged.
    Merge(bool),
}

/// Makes a task.
pub(crate) fn task(alloc: Global, asked: &Asked) -> Result<Task, Fail>
    ensures { IfOk result IsTaskInRange }
{
    match asked {
        Asked::Load(table, text) => load(alloc, table, text),
        Asked::Missing(table) => Ok(Task::LoadFile {
            name: name(table)?,
            file: FileBody::Missing,
        }),
        Asked::Drop(table) => Ok(Task::Drop { name: name(table)? }),
        Asked::Tables => Ok(Task::Tables),
        Asked::Search(k, text) => Ok(Task::Search {
            k: (*k).clamp(1, 10_000),
            body: body(alloc, text)?,
        }),
        Asked::Like(k, table, place) => Ok(Task::Like {
            k: (*k).clamp(1, 10_000),
            name: name(table)?,
            place: (*place).max(1),
        }),
        Asked::AsOf(asked, k, text) => Ok(Task::AsOf {
            asked: u64::from(*asked),
            k: (*k).clamp(1, 10_000),
            body: body(alloc, text)?,
        }),
        Asked::Merge(all) => Ok(Task::Merge { all: *all }),
    }
}

fn load(alloc: Global, table: &str, text: &str) -> Result<Task, Fail>
    ensures { IfOk result IsTaskInRange }
{
    let name = name(table)?;
    let body = body(alloc, text)?;
    Ok(Task::Load { name, body })
}

fn name(text: &str) -> Result<Name, Fail> {
    Ok(Name::read(text.as_bytes()).ok_or("no name")?)
}

fn sets(alloc: Global, title: &str, text: &str) -> Result<TableSets, Fail> {
    let raw = read_table(alloc, text.as_bytes(), 1_024)?;
    Ok(TableSets::build(alloc, Keys::Canonical, name(title)?, &raw)?)
}

/// Makes the table with this name and this CSV text.
pub(crate) fn table(alloc: Global, title: &str, text: &str) -> Result<SharedTable, Fail> {
    Ok(SharedTable::new(alloc, sets(alloc, title, text)?)?)
}

fn body(alloc: Global, text: &str) -> Result<Body, Fail> {
    Ok(Body::new(Vec::from_slice(alloc, text.as_bytes())?).ok_or("no body")?)
}

/// Makes a batch of commands on these lanes, each given by its lane and what it asks for. They are numbered from 1.
pub(crate) fn batch(alloc: Global, lanes: u32, asked: &[(u32, Asked)]) -> Result<Batch, Fail>
    requires { 1 ≤ lanes }
    ensures { IfOk result (IsOfLanes lanes) }
{
    let mut commands = Vec::new(alloc);
    for (index, (lane, what)) in asked.iter().enumerate() {
        commands.push(Command {
            number: (index as u64).saturating_add(1),
            lane: (*lane).clamp(1, lanes),
            task: task(alloc, what)?,
        })?;
    }
    Ok(Batch::new(commands))
}

/// Three tables, their merge, and a search that is decided by the rarest of four keys.
pub(crate) const ONE_LIST_DECIDES: [(u32, Asked); 5] = [
    (1, Asked::Load("t1", "c\na\nb\nc\nd\n")),
    (1, Asked::Load("t2", "c\nd\n")),
    (1, Asked::Load("t3", "c\nc\nd\n")),
    (1, Asked::Merge(true)),
    (1, Asked::Search(1, "a\nb\nc\nd\n")),
];

/// A table of weather stations, of the weather and of a census, and a search for the ten columns that are most like each
/// of two columns of the first.
pub(crate) const LIKES: [(u32, Asked); 5] = [
    (
        1,
        Asked::Load(
            "stations",
            "\u{feff}station_id,city,country\r\n1,\"São Paulo, SP\",Brazil\r\n2,Zürich,Switzerland\r\n3,\"New\nYork\",USA\r\n",
        ),
    ),
    (
        1,
        Asked::Load(
            "weather",
            "place,temp\nZÜRICH,12\n\"São Paulo, SP\",25\nLima,18\n",
        ),
    ),
    (
        1,
        Asked::Load(
            "census",
            "City,Country,Pop\nzürich,switzerland,400000\nOslo,Norway,700000\n\"são paulo, sp\",Brazil,12000000\n",
        ),
    ),
    (1, Asked::Like(10, "stations", 2)),
    (1, Asked::Like(10, "stations", 3)),
];

/// How much was looked at: the sum of the meters of all segments, and the reads and the probes that the replies state.
#[derive(Drop)]
pub(crate) struct Looked {
    pub(crate) meters: u64,
    pub(crate) reads: u64,
    pub(crate) probes: u64,
}

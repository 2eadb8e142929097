//! The batch of a made lake: its loads, the merges between them, and its searches.
ghost use Rattle.std.specs.Prelude.{◌≡◌, ◌≤◌, ◌<◌, ◌+◌, ◌*◌, ◌++◌, ◌∷◌, [], flat_map, map, IfOk, OnOk};
ghost use Rattle.std.specs.List.{range_with_len};
ghost use Rattle.option_model.specs.Generator.{load_tasks, made_batch as the_batch, state_at, table_text};
ghost use Rattle.script_model.specs.Lanes.{IsOfLanes};
ghost use Rattle.lake_maker.specs.Made.{load_with, merge_behind, search_at};

use crate::draws::Draws;
use crate::numbered::Numbered;
use crate::table::{table_body, table_name};
use commands::{Batch, Task};
use no_memory::NoMemory;
use std::alloc::Global;

// The number of searches.
const SEARCHES: u32 = 50;

// Appends a merge if the table with this number is every fourth one.
fn push_merge(number: u32, into: &mut Numbered) -> Result<(), NoMemory>
    ensures { OnOk result (into.new ≡ into.old ++ merge_behind number) }
{
    if number % 4 != 0 {
        return Ok(());
    }
    into.push(Task::Merge { all: false })
}

// Appends the load of the table with this number, counted from 1, and a merge after every fourth load.
fn push_load(
    alloc: Global,
    draws: &mut Draws,
    rows: u32,
    number: u32,
    into: &mut Numbered,
) -> Result<(), NoMemory>
    requires { rows ≤ 5000 }
    ensures tasks { OnOk result (into.new ≡ into.old ++ load_with number (table_text draws.old rows 0)) }
    ensures state { OnOk result (draws.new ≡ state_at draws.old (3 * rows)) }
{
    let name = table_name(alloc, number)?;
    let body = table_body(alloc, draws, rows)?;
    into.push(Task::Load { name, body })?;
    push_merge(number, into)
}

// Appends the loads of all tables, and the merges between them.
fn push_loads(
    alloc: Global,
    draws: &mut Draws,
    tables: u32,
    rows: u32,
    into: &mut Numbered,
) -> Result<(), NoMemory>
    requires { rows ≤ 5000 }
    ensures tasks { OnOk result (into.new ≡ into.old ++ flat_map (load_tasks draws.old rows) (range_with_len 1 tables)) }
    ensures state { OnOk result (draws.new ≡ state_at draws.old (3 * rows * tables)) }
{
    for table in 0..tables {
        push_load(alloc, draws, rows, table + 1, into)?;
    }
    Ok(())
}

// Appends a search like a column of one of `tables` tables, which two draws choose.
fn push_search(
    alloc: Global,
    draws: &mut Draws,
    tables: u32,
    into: &mut Numbered,
) -> Result<(), NoMemory>
    requires { 1 ≤ tables }
    ensures tasks { OnOk result (into.new ≡ into.old ++ search_at draws.old tables ∷ []) }
    ensures state { OnOk result (draws.new ≡ state_at draws.old 2) }
{
    let table = draws.draw() % tables;
    let column = draws.draw() % 3;
    into.push(Task::Like {
        k: 10,
        name: table_name(alloc, 1 + table)?,
        place: 1 + column,
    })
}

// Appends `count` searches.
fn push_searches(
    alloc: Global,
    draws: &mut Draws,
    tables: u32,
    count: u32,
    into: &mut Numbered,
) -> Result<(), NoMemory>
    requires { 1 ≤ tables }
    ensures { OnOk result (into.new ≡ into.old ++ map (λ n. search_at (state_at draws.old (2 * n)) tables) (range_with_len 0 count)) }
{
    for _search in 0..count {
        push_search(alloc, draws, tables, into)?;
    }
    Ok(())
}

/// Returns the batch of the lake that is made from a seed. It loads the tables `g1`, `g2`, .. of three columns and
/// `rows` rows, with a merge after every fourth load, followed by 50 searches like a column of one of the tables. All
/// commands are in lane 1. There are 1 to 1,000 tables of 1 to 5,000 rows. Time and memory are proportional to the
/// tables' rows.
pub fn made_batch(alloc: Global, seed: u32, tables: u32, rows: u32) -> Result<Batch, NoMemory>
    requires some_tables { 1 ≤ tables }
    requires few_tables { tables ≤ 1000 }
    requires some_rows { 1 ≤ rows }
    requires few_rows { rows ≤ 5000 }
    ensures batch { IfOk result (λ batch. batch ≡ the_batch seed tables rows) }
    ensures lanes { IfOk result (IsOfLanes 1) }
{
    let mut draws = Draws::new(seed);
    let mut commands = Numbered::new(alloc);
    push_loads(alloc, &mut draws, tables, rows, &mut commands)?;
    push_searches(alloc, &mut draws, tables, SEARCHES, &mut commands)?;
    Ok(commands.batch())
}

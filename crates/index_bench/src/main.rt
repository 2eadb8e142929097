//! Times the build of the segment of one table, alone. `index_bench COLUMNS ROWS` prints a line with the number of the
//! table's members, and then a line with the nanoseconds that `segment_build::build` took for each member. The table is
//! always the same for a size ([`text`] makes it). Its text, its fields and its sets are made before the first line,
//! and the index between the two. Without a size the program prints one line with its usage.
#![tactic(auto)]

mod size;
mod text;

use anyhow::{Result, bail};
use column_set::{Keys, Name, SharedTable, TableSets};
use csv_table::read_table;
use segment_build::build;
use size::Size;
use std::alloc::Global;
use std::env;
use std::env::Env;
use std::time::{Clock, Instant};

/// How the program is called.
const USAGE: &str = "usage: index_bench COLUMNS ROWS (1 to 1024 columns, 1 to 10000000 rows)";

/// The most members that a segment may have; a table with more is not measured.
const MOST_MEMBERS: u64 = u32::MAX as u64;

/// Returns the size that the two arguments ask for, or `None` if they give none.
fn size_asked<R: Env + AllocGlobal>(rt: &R) -> Result<Option<Size>> {
    let mut words = env::args(rt)?.skip(1);
    let (Some(columns), Some(rows), None) = (words.next(), words.next(), words.next()) else {
        return Ok(None);
    };
    Ok(Size::read(&columns, &rows))
}

/// Returns the table of this size, read as every table is.
fn table_of_size(alloc: Global, size: Size) -> Result<SharedTable> {
    let text = text::table_text(alloc, size)?;
    let Ok(raw) = read_table(alloc, text.as_bytes(), 1_024) else {
        bail!("the table was not read");
    };
    let Some(name) = Name::read(b"bench") else {
        bail!("the table was not named");
    };
    let Ok(sets) = TableSets::build(alloc, Keys::Canonical, name, &raw) else {
        bail!("a column has more values than a set may have");
    };
    Ok(SharedTable::new(alloc, sets)?)
}

/// Builds the segment of the table alone, and returns how many nanoseconds that took.
fn build_nanoseconds(rt: &impl Clock, alloc: Global, table: &SharedTable) -> Result<u128> {
    prove!(table.table().columns() <= 4_096);
    if table.table().members() > MOST_MEMBERS {
        bail!("the table has more members than a segment may have");
    }
    let mut tables = Vec::new(alloc);
    tables.push(table.share()?)?;
    let start = Instant::now(rt)?;
    let _segment = build(alloc, tables)?;
    Ok(start.elapsed(rt)?.as_nanos())
}

/// Makes the table of this size, prints the number of its members, and measures the build of the index.
fn measure<R: Clock + Print + AllocGlobal>(rt: &R, size: Size) -> Result<()> {
    let table = table_of_size(rt.alloc(), size)?;
    let members = table.table().members();
    println!(rt; "members {members}")?;
    let taken = build_nanoseconds(rt, rt.alloc(), &table)?;
    let each = taken / (members as u128).max(1);
    println!(rt; "nanoseconds-a-member {each}")?;
    Ok(())
}

fn main(rt: HostRuntime) -> Result<()> {
    match size_asked(&rt)? {
        Some(size) => measure(&rt, size),
        None => {
            println!(rt; "{USAGE}")?;
            Ok(())
        }
    }
}

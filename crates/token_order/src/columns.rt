//! The columns of tables, with the numbers of their members.
ghost use Rattle.std.specs.Prelude.{◌≡◌, ◌<◌, ◌^◌, length, map, IfOk, OnOk};
ghost use Rattle.std.specs.List.{All};
ghost use Rattle.column_set.specs.Columns.{HasDistinctKeys};
ghost use Rattle.search_model.specs.Arrays.{owner_of, table_at};
ghost use Rattle.search_model.specs.Segment.{columns_in, columns_of};
ghost use Rattle.token_order.specs.Columns.{keys_through, owner_there, AreColumns, AreMoreColumns};
ghost use Rattle.token_order.specs.Places.{keys_in, keys_of};

use column_set::{SharedTable, TableSets};
use no_memory::NoMemory;
use std::alloc::Global;

/// A column: the index of its table in a list of tables, from 0; its place there, from 1; and the number of its first
/// member, from 0, among the members of all columns by table, place and index.
#[derive(Clone, Copy)]
pub struct ColumnAt {
    pub table: u32,
    pub place: u32,
    pub first: u32,
}

/// Returns the columns of the tables, by table and then by place. Returns `Err(NoMemory)` if memory runs out, and also
/// if there are 2^32 or more tables, columns or members.
pub fn all_columns(alloc: Global, tables: &[SharedTable]) -> Result<Vec<ColumnAt>, NoMemory>
    ensures columns { IfOk result (λ columns. AreColumns tables.now columns.items) }
    ensures owned { IfOk result (λ columns. map owner_there columns.items ≡ map owner_of (columns_of tables.now)) }
    ensures keys { IfOk result (λ columns. keys_through tables.now columns.items ≡ keys_of tables.now) }
    ensures few { IfOk result (λ columns. length columns.items < 2 ^ 32) }
    ensures different { OnOk result (All HasDistinctKeys tables.now) }
{
    if tables.len() > 0xFFFF_FFFF {
        return Err(NoMemory);
    }
    let mut columns = Vec::new(alloc);
    let mut first = 0u32;
    for table in 0..tables.len() as u32 {
        first = push_columns(&mut columns, tables, table, first)?;
    }
    if columns.len() > 0xFFFF_FFFF {
        return Err(NoMemory);
    }
    Ok(columns)
}

// Appends the columns of a table, and returns the number of the member that follows theirs.
fn push_columns(
    columns: &mut Vec<ColumnAt>,
    tables: &[SharedTable],
    table: u32,
    first: u32,
) -> Result<u32, NoMemory>
    requires table { table < length tables.now }
    requires columns { AreColumns tables.now columns.old.items }
    requires first { first ≡ length (keys_through tables.now columns.old.items) }
    ensures more { IfOk result (λ next. AreMoreColumns tables.now columns.old.items columns.new.items (columns_in table (table_at tables.now table)) (keys_in (table_at tables.now table)) next) }
    ensures different { OnOk result (HasDistinctKeys (table_at tables.now table)) }
{
    let sets = table_of(tables, table);
    let mut first = first;
    for i in 0..sets.columns() {
        let place = i + 1;
        columns.push(ColumnAt {
            table,
            place,
            first,
        })?;
        let Some(next) = first.checked_add(sets.size(place)) else {
            return Err(NoMemory);
        };
        first = next;
    }
    Ok(first)
}

/// Returns the table with this number.
pub fn table_of(tables: &[SharedTable], number: u32) -> &TableSets
    requires { number < length tables.now }
    ensures { result.now ≡ table_at tables.now number }
{
    tables[number as usize].table()
}

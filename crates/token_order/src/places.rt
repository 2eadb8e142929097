//! The keys of the members of the columns of tables. A member is a key of a column: the number of its column, and its
//! index there.
ghost use Rattle.std.specs.Prelude.{◌≡◌, [], get_or, sum_by, IfOk};
ghost use Rattle.lake_model.specs.Tables.{keys_at, members};
ghost use Rattle.token_order.specs.Columns.{column_at, owner_there};
ghost use Rattle.token_order.specs.Places.{pointed_by};

use crate::columns::ColumnAt;
use column_set::{SharedTable, TableSets};
use no_memory::NoMemory;
use search_model::{Owner, TokenAt};

/// Returns the key of a member, or an empty text if there is none.
pub fn key_at<'a>(tables: &'a [SharedTable], columns: &[ColumnAt], member: TokenAt) -> &'a str
    ensures { result.now ≡ pointed_by tables.now columns.now member }
{
    let Owner { table, place } = owner_at(columns, member.column);
    match tables.get(table as usize) {
        Some(sets) => key_in(sets.table(), place, member.index),
        None => "",
    }
}

// Returns the table and the place of the column with this number, or the invalid place 0 if there is no such column.
fn owner_at(columns: &[ColumnAt], number: u32) -> Owner
    ensures { result ≡ owner_there (column_at columns.now number) }
{
    match columns.get(number as usize) {
        Some(column) => Owner {
            table: column.table,
            place: column.place,
        },
        None => Owner { table: 0, place: 0 },
    }
}

// Returns a key of the column at a place of a table, or an empty text if there is none. Place 0 is taken as place 1.
fn key_in(table: &TableSets, place: u32, index: u32) -> &str
    ensures { result.now ≡ get_or (keys_at table.now place) index [] }
{
    let place = place.max(1);
    if place > table.columns() {
        return "";
    }
    table.key(place, index)
}

/// Returns how many keys the columns of the tables have together. Returns `Err(NoMemory)` if there are 2^64 or more.
pub fn member_count(tables: &[SharedTable]) -> Result<usize, NoMemory>
    ensures { IfOk result (λ count. count ≡ sum_by members tables.now) }
{
    let mut count = 0usize;
    for table in tables {
        let Some(more) = count.checked_add(table.table().members() as usize) else {
            return Err(NoMemory);
        };
        count = more;
    }
    Ok(count)
}

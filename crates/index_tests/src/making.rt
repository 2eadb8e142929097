//! Small tables and the segments of single ones, and what layouts and pins show.
ghost use Rattle.std.specs.Prelude.{◌≡◌, ◌<◌, ◌≤◌, ◌^◌, ◌∷◌, [], length, sum_by, IfOk};
ghost use Rattle.lake_model.specs.Tables.{members};

use column_set::{Keys, Name, SharedTable, TableSets};
use csv_table::read_table;
use no_memory::NoMemory;
use segment_build::build;
use segment_core::{Layout, Pin, Segment};
use std::alloc::Global;
use std::sync::Arc;
use std::test::Fail;

/// Reads a text as a name.
pub(crate) fn name(text: &str) -> Result<Name, Fail> {
    Ok(Name::read(text.as_bytes()).ok_or("no name")?)
}

/// Returns the sets of the table with this name and this CSV text.
pub(crate) fn sets(alloc: Global, title: &str, text: &str) -> Result<TableSets, Fail> {
    let raw = read_table(alloc, text.as_bytes(), 1_024)?;
    Ok(TableSets::build(alloc, Keys::Canonical, name(title)?, &raw)?)
}

/// Returns the table with this name and this CSV text.
pub(crate) fn table(alloc: Global, title: &str, text: &str) -> Result<SharedTable, Fail> {
    Ok(SharedTable::new(alloc, sets(alloc, title, text)?)?)
}

/// Returns the table, which has few columns and members, as the only one of a list.
pub(crate) fn only(alloc: Global, table: SharedTable) -> Result<Vec<SharedTable>, Fail>
    ensures items { IfOk result (λ tables. tables.items ≡ table ∷ []) }
    ensures columns { IfOk result (λ tables. sum_by (λ t. length t.columns) tables.items < 2 ^ 32) }
    ensures members { IfOk result (λ tables. sum_by members tables.items < 2 ^ 32) }
{
    if table.table().members() > 9 || table.table().columns() > 9 {
        return Err(Fail::from("a large table"));
    }
    Ok(vec![in alloc; table]?)
}

/// Returns the segment of a table.
pub(crate) fn segment(alloc: Global, table: &SharedTable) -> Result<Arc<Segment>, Fail>
    ensures { IfOk result (λ segment. segment.value ≡ table.now ∷ []) }
{
    let segment = build(alloc, only(alloc, table.share()?)?)?;
    Ok(Arc::new(alloc, segment)?)
}

/// Returns whether a layout is at this position and has these parts, each with its number and its one load or replace,
/// marked or not.
pub(crate) fn shows(layout: &Layout, at: u64, parts: &[(u64, u64, bool)]) -> bool {
    if layout.at() != at || layout.parts().len() != parts.len() {
        return false;
    }
    for ((number, places), (part, load, marked)) in layout.parts().iter().zip(parts.iter()) {
        if number != part || places.list() != [(*load, *marked)].as_slice() {
            return false;
        }
    }
    true
}

/// Returns whether a pin is at this position, with so many live tables.
pub(crate) fn holds(alloc: Global, pin: &Pin, at: u64, tables: usize) -> Result<bool, NoMemory> {
    let lines = pin.tables(alloc)?;
    Ok(pin.at() == at && lines.list().len() == tables)
}

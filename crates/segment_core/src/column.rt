//! The column of a live table, by the table's name and the column's place.
ghost use Rattle.std.specs.Prelude.{◌≡◌, ◌⊎◌, ◌<◌, find, length, IfErr, IfNone, IfOk, IfSome, None, OnOk, Some};
ghost use Rattle.lake_model.specs.Journal.{has_name};
ghost use Rattle.search_model.specs.Arrays.{table_at};
ghost use Rattle.segment_core.specs.LiveColumn.{column_fault, column_keys, tables_without, unmarked_in};
ghost use Rattle.segment_core.specs.Versions.{tables_of};

use crate::version::Part;
use column_set::{Name, QuerySet, SharedTable};
use no_memory::NoMemory;
use std::alloc::Global;

/// Why the keys of a column cannot be used as a query.
#[derive(Clone, Copy, Debug, PartialEq, Eq)]
pub enum ColumnRefused {
    /// No live table has the name.
    UnknownTable,
    /// The live table with the name has no column at the place.
    UnknownColumn,
    /// Memory ran out.
    NoMemory,
}

impl From<NoMemory> for ColumnRefused {
    ghost use Rattle.std.specs.Prelude.{◌≡◌};
    ghost use Rattle.segment_core.specs.declared.column.ColumnRefused.TheVariants as refused;

    ghost from_gives = { λ _ e. e ≡ refused.NoMemory };

    fn from(_error: NoMemory) -> ColumnRefused {
        ColumnRefused::NoMemory
    }
}

// Returns the keys of the column at a place, counted from 1, of the unmarked table with this name. It raises the meter
// of the segment that it reads.
pub(crate) fn live_column(
    alloc: Global,
    parts: &[Part],
    name: &Name,
    place: u32,
) -> Result<QuerySet, ColumnRefused>
    ensures keys { IfOk result (λ query. query ≡ column_keys parts.now name.now place) }
    ensures sound { OnOk result (column_fault parts.now name.now place ≡ None) }
    ensures refused { IfErr result (λ e. (e ≡ ColumnRefused.NoMemory) ⊎ (column_fault parts.now name.now place ≡ Some e)) }
{
    for part in parts {
        if let Some(table) = part.live_table(name) {
            return part.segment().column(alloc, table, place);
        }
    }
    Err(ColumnRefused::UnknownTable)
}

impl Part {
    // Returns the index, from 0, of the first unmarked table with this name.
    fn live_table(&self, name: &Name) -> Option<usize>
        ensures there { IfSome result (λ i. i < length (tables_of self.now)) }
        ensures found { IfSome result (λ i. find (has_name name.now) (unmarked_in self.now) ≡ Some (table_at (tables_of self.now) i)) }
        ensures lacking { IfNone result (find (has_name name.now) (unmarked_in self.now) ≡ None) }
    {
        unmarked_of(self.segment.tables(), self.marked.list(), name)
    }
}

// Returns the index, from 0, of the first table with this name that is not marked.
fn unmarked_of(tables: &[SharedTable], marks: &[bool], name: &Name) -> Option<usize>
    requires { length marks.now ≡ length tables.now }
    ensures there { IfSome result (λ i. i < length tables.now) }
    ensures found { IfSome result (λ i. find (has_name name.now) (tables_without tables.now marks.now) ≡ Some (table_at tables.now i)) }
    ensures lacking { IfNone result (find (has_name name.now) (tables_without tables.now marks.now) ≡ None) }
{
    for (i, shared) in tables.iter().enumerate() {
        if !marks[i] && shared.table().name().bytes() == name.bytes() {
            return Some(i);
        }
    }
    None
}

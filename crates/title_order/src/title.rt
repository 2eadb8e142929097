//! The columns of tables, with the values by which they are sorted.
ghost use Rattle.std.specs.Prelude.{◌≡◌, ◌<◌, ◌≤◌, ◌∷◌, ℕ, [], length, not, sum_by, IfOk, OnOk};
ghost use Rattle.std.specs.Ordering.{is_eq};
ghost use Rattle.lake_model.specs.Answer.{row_cmp};
ghost use Rattle.search_model.specs.Segment.{columns_in, columns_of, titled_in};
ghost use Rattle.title_order.specs.Titles.{by_row, by_title, AreMoreTitles};

use column_set::{Row, SharedTable, TableSets};
use no_memory::NoMemory;
use std::alloc::Global;
use std::cmp::Ordering;

/// A column: its row, with an overlap of 0, and its number among the columns of a list of tables, by table and then by
/// place, from 0.
#[derive(Drop)]
pub struct Title<'a> {
    pub row: Row<'a>,
    pub number: u32,
}

impl<'a> Title<'a> {
    /// Compares by the bytes of the table's name, then those of the column's name, then by the place, then by the
    /// number.
    pub fn order(&self, other: &Title<'_>) -> Ordering
        ensures { result ≡ by_title self.now other.now }
    {
        match self.row.table().order(other.row.table()) {
            Ordering::Equal => self.order_in_table(other),
            unequal => unequal,
        }
    }

    // Compares the same way if the tables' names are equal, so that the columns' names are read only then.
    fn order_in_table(&self, other: &Title<'_>) -> Ordering
        ensures { result ≡ by_row self.now other.now }
    {
        let by_row = self.row.order(&other.row);
        let by_number = self.number.cmp(&other.number);
        by_row.then(by_number)
    }

    /// Returns whether the rows differ. The names are read only if the places are equal, which those of two columns of
    /// one table never are.
    pub fn row_differs(&self, other: &Title<'_>) -> bool
        ensures { result ≡ not (is_eq (row_cmp self.now.row other.now.row)) }
    {
        self.row.place != other.row.place || self.row.order(&other.row).is_ne()
    }
}

/// Returns the columns of the tables, by their numbers. Returns `Err(NoMemory)` if memory runs out, and also if there
/// are 2^32 or more.
pub fn all_titles<'a>(alloc: Global, tables: &'a [SharedTable]) -> Result<Vec<Title<'a>>, NoMemory>
    ensures { IfOk result (λ titles. AreMoreTitles [] titles.items (columns_of tables.now)) }
{
    let mut titles = Vec::with_capacity(alloc, column_count(tables)?)?;
    for shared in tables {
        push_titles(&mut titles, shared.table())?;
    }
    Ok(titles)
}

// Returns how many columns the tables have together. Returns `Err(NoMemory)` if there are 2^64 or more.
fn column_count(tables: &[SharedTable]) -> Result<usize, NoMemory>
    ensures { IfOk result (λ count. count ≡ sum_by (λ t. length t.columns) tables.now) }
{
    let mut count = 0usize;
    for shared in tables {
        let Some(more) = count.checked_add(shared.table().columns() as usize) else {
            return Err(NoMemory);
        };
        count = more;
    }
    Ok(count)
}

// Appends the columns of a table.
fn push_titles<'a>(titles: &mut Vec<Title<'a>>, table: &'a TableSets) -> Result<(), NoMemory>
    ensures { OnOk result ((from : ℕ) → AreMoreTitles titles.old.items titles.new.items (columns_in from table.now)) }
{
    for i in 0..table.columns() {
        push_title(titles, table, i + 1)?;
    }
    Ok(())
}

// Appends the column at a place of a table.
fn push_title<'a>(
    titles: &mut Vec<Title<'a>>,
    table: &'a TableSets,
    place: u32,
) -> Result<(), NoMemory>
    requires low { 0 < place }
    requires high { place ≤ length table.now.columns }
    ensures { OnOk result ((from : ℕ) → AreMoreTitles titles.old.items titles.new.items (titled_in from table.now place ∷ [])) }
{
    if titles.len() >= 0xFFFF_FFFF {
        return Err(NoMemory);
    }
    let number = titles.len() as u32;
    let row = Row {
        overlap: 0,
        titles: table.titles(),
        place,
    };
    titles.push(Title { row, number })?;
    Ok(())
}

//! The rows of an answer, which borrow the titles of a table, and kept rows, which own a share of the titles.
ghost use Rattle.std.specs.Prelude.{◌≡◌, IfOk};
ghost use Rattle.std.specs.Cmp.{po, partial_equiv_from_equiv};
ghost use Rattle.std.specs.Cmp.Lexicographic.{slice_cmp};
ghost use Rattle.std.specs.Ordering.{as_partial_cmp, eq_by_cmp, nat_cmp, ordering_then};
ghost use Rattle.std.proofs.Common.{refl};
ghost use Rattle.std.proofs.lemmas.Cmp.{eq_by_cmp_equiv};
ghost use Rattle.lake_model.specs.Answer.{row_cmp};
ghost use Rattle.lake_model.proofs.AnswerLemmas.{row_cmp_total};

use crate::name::Name;
use crate::titles::Titles;
use no_memory::NoMemory;
use std::alloc::Global;
use std::cmp::Ordering;
use std::marker::Model;
use std::sync::Arc;

/// A row of an answer: the number of keys that the column shares with the query, the titles of the column's table, and
/// the column's place in it, counted from 1. It borrows the titles.
#[derive(Drop)]
pub struct Row<'a> {
    pub titles: &'a Arc<Titles>,
    pub overlap: u32,
    pub place: u32,
}

impl<'a> Model for Row<'a> {
    ghost use Rattle.std.specs.Prelude.{◌≤◌, ◌<◌, length};
    ghost use Rattle.lake_model.specs.Answer.{Row as RowOf, row_at};

    ghost Value = { RowOf };

    ghost view = { λ r. row_at r.overlap r.titles.now.value r.place };

    ghost invariant = { λ r. (0 < r.place) × (r.place ≤ length r.titles.now.value.columns) };
}

impl<'a> Row<'a> {
    /// Compares two rows in the order of an answer: the greater overlap first, then by the bytes of the table's name,
    /// then by those of the column's name, then by place. The names are read only if the overlaps are equal, and those of
    /// the columns only if the tables' names are equal.
    pub fn order(&self, other: &Row<'_>) -> Ordering
        ensures { result ≡ row_cmp self.now other.now }
    {
        match other.overlap.cmp(&self.overlap) {
            Ordering::Equal => self.order_by_name(other),
            unequal => unequal,
        }
    }

    // Compares two rows by the names of their tables, then by those of their columns, then by place.
    fn order_by_name(&self, other: &Row<'_>) -> Ordering
        ensures { result ≡ ordering_then (slice_cmp nat_cmp self.now.table other.now.table) (ordering_then (slice_cmp nat_cmp self.now.column other.now.column) (nat_cmp self.now.place other.now.place)) }
    {
        match self.table().order(other.table()) {
            Ordering::Equal => {
                let by_column = self.column().cmp(other.column());
                by_column.then(self.place.cmp(&other.place))
            }
            unequal => unequal,
        }
    }

    /// Returns the table's name.
    pub fn table(&self) -> &Name
        ensures { result.now ≡ self.now.table }
    {
        self.titles.table()
    }

    /// Returns the column's name.
    pub fn column(&self) -> &str
        ensures { result.now ≡ self.now.column }
    {
        self.titles.column(self.place)
    }

    /// Returns the same row with its own share of the titles.
    pub fn keep(&self) -> Result<KeptRow, NoMemory>
        ensures { IfOk result (λ kept. kept ≡ self.now) }
    {
        Ok(KeptRow {
            titles: Arc::try_clone(self.titles)?,
            overlap: self.overlap,
            place: self.place,
        })
    }
}

impl<'a> PartialEq for Row<'a> {
    ghost eq = { eq_by_cmp row_cmp };

    ghost laws = { partial_equiv_from_equiv (eq_by_cmp_equiv row_cmp_total) };

    fn eq(&self, other: &Row<'a>) -> bool {
        self.order(other).is_eq()
    }
}

impl<'a> Eq for Row<'a> {
    ghost laws = { eq_by_cmp_equiv row_cmp_total };
}

impl<'a> PartialOrd for Row<'a> {
    ghost partial_cmp = { as_partial_cmp row_cmp };

    ghost laws = { po row_cmp_total (λ x y. refl) };

    fn partial_cmp(&self, other: &Row<'a>) -> Option<Ordering> {
        Some(self.order(other))
    }
}

/// Rows compare in the order of an answer, so the greatest of some rows is the last in an answer.
impl<'a> Ord for Row<'a> {
    ghost cmp = { row_cmp };

    ghost total = { row_cmp_total };

    ghost matches_partial_cmp = { λ a b. refl };

    ghost matches_eq = { λ a b. refl };

    fn cmp(&self, other: &Row<'a>) -> Ordering {
        self.order(other)
    }
}

/// A row of an answer that owns a share of its titles. The fields lie in memory in this order, so a row takes 16 bytes;
/// with the titles between the two numbers it would take 24.
#[derive(Drop)]
pub struct KeptRow {
    titles: Arc<Titles>,
    overlap: u32,
    place: u32,
}

impl Model for KeptRow {
    ghost use Rattle.std.specs.Prelude.{◌≤◌, ◌<◌, length};
    ghost use Rattle.lake_model.specs.Answer.{Row as RowOf, row_at};

    ghost Value = { RowOf };

    ghost view = { λ r. row_at r.overlap r.titles.value r.place };

    ghost invariant = { λ r. (0 < r.place) × (r.place ≤ length r.titles.value.columns) };
}

impl KeptRow {
    /// Returns the number of keys that the column shares with the query.
    pub fn overlap(&self) -> u32
        ensures { result ≡ self.now.overlap }
    {
        self.overlap
    }

    /// Returns the table's name.
    pub fn table(&self) -> &Name
        ensures { result.now ≡ self.now.table }
    {
        self.titles.table()
    }

    /// Returns the column's name.
    pub fn column(&self) -> &str
        ensures { result.now ≡ self.now.column }
    {
        self.titles.column(self.place)
    }

    /// Returns the place of the column in its table, counted from 1.
    pub fn place(&self) -> u32
        ensures { result ≡ self.now.place }
    {
        self.place
    }
}

/// The rows of an answer, in order. Its model is the list of the rows.
#[derive(Drop)]
pub struct Rows<'a> {
    rows: Vec<Row<'a>>,
}

impl<'a> Model for Rows<'a> {
    ghost use Rattle.std.specs.Prelude.{List};
    ghost use Rattle.lake_model.specs.Answer.{Row as RowOf};

    ghost Value = { List RowOf };

    ghost view = { λ r. r.rows.items };
}

impl<'a> Rows<'a> {
    /// Makes `Rows` of these rows.
    pub fn new(rows: Vec<Row<'a>>) -> Rows<'a>
        ensures { result ≡ rows.entry.items }
    {
        Rows { rows }
    }

    /// Returns the rows, in order.
    pub fn list(&self) -> &[Row<'a>]
        ensures { result.now ≡ self.now }
    {
        &self.rows
    }

    /// Returns the same rows, each with its own share of the titles.
    pub fn keep_all(&self, alloc: Global) -> Result<KeptRows, NoMemory>
        ensures { IfOk result (λ kept. kept ≡ self.now) }
    {
        Ok(KeptRows::new(keep_rows(alloc, self.list())?))
    }
}

// Returns the same rows, each with its own share of the titles.
fn keep_rows(alloc: Global, rows: &[Row<'_>]) -> Result<Vec<KeptRow>, NoMemory>
    ensures { IfOk result (λ kept. kept.items ≡ rows.now) }
{
    let mut kept = Vec::with_capacity(alloc, rows.len())?;
    for row in rows {
        kept.push(row.keep()?)?;
    }
    Ok(kept)
}

/// The rows of an answer, in order, which own shares of their titles. Its model is the list of the rows.
#[derive(Drop)]
pub struct KeptRows {
    rows: Vec<KeptRow>,
}

impl Model for KeptRows {
    ghost use Rattle.std.specs.Prelude.{List};
    ghost use Rattle.lake_model.specs.Answer.{Row as RowOf};

    ghost Value = { List RowOf };

    ghost view = { λ r. r.rows.items };
}

impl KeptRows {
    /// Makes `KeptRows` of these rows.
    pub fn new(rows: Vec<KeptRow>) -> KeptRows
        ensures { result ≡ rows.items }
    {
        KeptRows { rows }
    }

    /// Returns the rows, in order.
    pub fn list(&self) -> &[KeptRow]
        ensures { result.now ≡ self.now }
    {
        &self.rows
    }
}

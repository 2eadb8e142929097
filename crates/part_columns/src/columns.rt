//! What a search has seen of the columns of a part.
ghost use Rattle.std.specs.Prelude.{◌≡◌, ◌<◌, ◌≤◌, ◌+◌, ◌^◌, ℕ, false, true, filter, get_or, length, slice_set, IfOk};
ghost use Rattle.std.specs.List.{All};
ghost use Rattle.lake_model.specs.Layout.{is_among};
ghost use Rattle.part_columns.specs.Columns.{IsClean, IsListed};
ghost use Rattle.part_columns.specs.Tallies.{counted, no_tally, of_column, raised, tally_at};

use crate::tally::Tally;
use no_memory::NoMemory;
use segment_core::Posting;
use std::alloc::Global;
use std::marker::Model;

/// A tally of each column, and whether its row is known. It lists the touched columns, which are those in one of the
/// lists read, so that they are found again without a walk over the others: the first `touched` numbers of `list`, which
/// has room for one more than there are columns. Its model is the tallies of all columns, the marks of the known ones,
/// and the touched columns.
#[derive(Drop)]
pub struct Columns {
    tallies: Vec<Tally>,
    known: Vec<bool>,
    list: Vec<u32>,
    touched: usize,
}

impl Model for Columns {
    ghost use Rattle.std.specs.Prelude.{take};
    ghost use Rattle.part_columns.specs.Columns.{columns_with, ColumnsOf, IsKept};

    ghost Value = { ColumnsOf };

    ghost view = { λ c. columns_with c.tallies.items c.known.items (take c.touched c.list.items) };

    ghost invariant = { λ c. IsKept c.tallies.items c.known.items c.list.items c.touched };
}

impl Columns {
    /// Returns `columns` columns, none of which was seen.
    pub fn new(alloc: Global, columns: u32) -> Result<Columns, NoMemory>
        ensures wide { IfOk result (λ made. length made.tallies ≡ columns) }
        ensures clean { IfOk result (λ made. IsClean made) }
    {
        Ok(Columns {
            tallies: vec![in alloc; Tally::NONE; columns as usize]?,
            known: vec![in alloc; false; columns as usize]?,
            list: vec![in alloc; 0u32; columns as usize + 1]?,
            touched: 0,
        })
    }

    /// Returns the tally of a column.
    pub fn tally(&self, column: u32) -> Tally
        requires { column < length self.now.tallies }
        ensures { result ≡ tally_at self.now.tallies column }
    {
        self.tallies[column as usize]
    }

    /// Returns whether the row of a column is known.
    pub fn is_known(&self, column: u32) -> bool
        requires { column < length self.now.tallies }
        ensures { result ≡ get_or self.now.known column false }
    {
        self.known[column as usize]
    }

    /// Returns the columns that are in one of the lists read, each once.
    pub fn touched(&self) -> &[u32]
        ensures touched { result.now ≡ self.now.touched }
        ensures listed { IsListed self.now.tallies self.now.touched }
        ensures few { length result.now ≤ length self.now.tallies }
    {
        &self.list[..self.touched]
    }

    /// Counts each posting of a list. No column may have had a count above `most`; none has one above the result now.
    pub fn count(&mut self, list: &[Posting], most: u32) -> u32
        requires most { (column : ℕ) → (tally_at self.old.tallies column).count ≤ most }
        requires within { All (λ posting. posting.column < length self.old.tallies) list.now }
        requires small { (column : ℕ) → (tally_at self.old.tallies column).count + length (filter (of_column column) list.now) < 2 ^ 32 }
        ensures wide { length self.new.tallies ≡ length self.old.tallies }
        ensures tallies { (column : ℕ) → tally_at self.new.tallies column ≡ counted column list.now (tally_at self.old.tallies column) }
        ensures most { (column : ℕ) → (tally_at self.new.tallies column).count ≤ result }
        ensures known { self.new.known ≡ self.old.known }
    {
        let mut greatest = most;
        for posting in list {
            let count = self.raise(posting);
            greatest = greatest.max(count);
        }
        greatest
    }

    // Counts a posting, and returns the count of its column.
    fn raise(&mut self, posting: &Posting) -> u32
        requires within { posting.now.column < length self.old.tallies }
        requires small { (tally_at self.old.tallies posting.now.column).count + 1 < 2 ^ 32 }
        ensures tallies { self.new.tallies ≡ slice_set self.old.tallies posting.now.column (raised (tally_at self.old.tallies posting.now.column) posting.now) }
        ensures count { result ≡ (tally_at self.old.tallies posting.now.column).count + 1 }
        ensures known { self.new.known ≡ self.old.known }
    {
        let tally = self.tallies[posting.column as usize];
        // Whether a column is new is hard to predict, so it is written behind the others in any case.
        self.list[self.touched] = posting.column;
        self.touched = more_touched(self.touched, tally.count);
        let count = tally.count + 1;
        self.tallies[posting.column as usize] = Tally {
            count,
            rest: posting.rest,
        };
        count
    }

    /// Marks the row of a column as known.
    pub fn know(&mut self, column: u32)
        requires within { column < length self.old.tallies }
        requires seen { 0 < (tally_at self.old.tallies column).count }
        ensures tallies { self.new.tallies ≡ self.old.tallies }
        ensures known { self.new.known ≡ slice_set self.old.known column true }
        ensures touched { self.new.touched ≡ self.old.touched }
        ensures marks { length self.old.known ≡ length self.old.tallies }
    {
        self.known[column as usize] = true;
    }

    /// Forgets the columns. It takes a walk over the touched ones.
    pub fn clear(&mut self)
        ensures wide { length self.new.tallies ≡ length self.old.tallies }
        ensures clean { IsClean self.new }
    {
        forget(
            &self.list[..self.touched],
            &mut self.tallies,
            &mut self.known,
        );
        self.touched = 0;
    }
}

// Returns how many columns are touched once one of them is in a list more than `count`.
fn more_touched(touched: usize, count: u32) -> usize
    requires { touched < 2 ^ 32 }
    ensures first { count ≡ 0 → result ≡ touched + 1 }
    ensures again { 0 < count → result ≡ touched }
{
    touched + usize::from(count == 0)
}

// Resets the tallies and the marks of the touched columns.
fn forget(touched: &[u32], tallies: &mut [Tally], known: &mut [bool])
    requires within { All (λ column. column < length tallies.old) touched.now }
    requires marks { length known.old ≡ length tallies.old }
    requires others { (column : ℕ) → is_among touched.now column ≡ false → tally_at tallies.old column ≡ no_tally }
    requires unknown { (column : ℕ) → is_among touched.now column ≡ false → get_or known.old column false ≡ false }
    ensures tallies { (column : ℕ) → tally_at tallies.new column ≡ no_tally }
    ensures known { (column : ℕ) → get_or known.new column false ≡ false }
{
    for column in touched {
        tallies[*column as usize] = Tally::NONE;
        known[*column as usize] = false;
    }
}

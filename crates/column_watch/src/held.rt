//! Rows that are held from entry to entry.
ghost use Rattle.std.specs.Prelude.{◌≡◌, ◌≤◌, ◌<◌, ◌+◌, ◌∷◌, ◌++◌, bytes_eq, filter, length, not, option_map, take, vec_capacity, vec_len, IfOk};
ghost use Rattle.std.specs.List.{insert};
ghost use Rattle.std.specs.Ordering.{is_eq, is_lt};
ghost use Rattle.lake_model.specs.Answer.{row_cmp};
ghost use Rattle.lake_model.specs.Sorting.{in_order, put_in_order};
ghost use Rattle.column_watch.specs.Held.{rows_left};
ghost use Rattle.column_watch.specs.Watching.{Tells};

use column_set::{Row, Titles};
use no_memory::NoMemory;
use std::alloc::Global;
use std::marker::Model;
use std::sync::Arc;

/// A row of an answer that owns a share of its titles, and lends them.
#[derive(Drop)]
pub(crate) struct Held {
    overlap: u32,
    titles: Arc<Titles>,
    place: u32,
}

impl Model for Held {
    ghost use Rattle.std.specs.Prelude.{◌≤◌, ◌<◌, length};
    ghost use Rattle.lake_model.specs.Answer.{Row as RowOf, row_at};

    ghost Value = { RowOf };

    ghost view = { λ r. row_at r.overlap r.titles.value r.place };

    ghost invariant = { λ r. (0 < r.place) × (r.place ≤ length r.titles.value.columns) };
}

impl Held {
    /// Returns the same row, with a share of its titles.
    pub(crate) fn of(row: &Row<'_>) -> Result<Held, NoMemory>
        ensures { IfOk result (λ held. held ≡ row.now) }
    {
        Ok(Held {
            overlap: row.overlap,
            titles: Arc::try_clone(row.titles)?,
            place: row.place,
        })
    }

    /// Returns the same row, which borrows the titles.
    pub(crate) fn row(&self) -> Row<'_>
        ensures { result ≡ self.now }
    {
        Row {
            overlap: self.overlap,
            titles: &self.titles,
            place: self.place,
        }
    }

    // Returns whether the row is of a table with another name.
    fn is_of_other(&self, name: &[u8]) -> bool
        ensures { result ≡ not (bytes_eq self.now.table name.now) }
    {
        self.titles.table().bytes() != name
    }

    // Returns whether the two rows are equal.
    fn is_same(&self, other: &Held) -> bool
        ensures { result ≡ is_eq (row_cmp self.now other.now) }
    {
        self.row().order(&other.row()).is_eq()
    }

    // Returns whether this row comes before the other in an answer.
    fn is_before(&self, other: &Held) -> bool
        ensures { result ≡ is_lt (row_cmp self.now other.now) }
    {
        self.row().order(&other.row()).is_lt()
    }
}

/// Returns the same rows, each with one more share of its titles.
pub(crate) fn share_all(alloc: Global, rows: &[Held]) -> Result<Vec<Held>, NoMemory>
    ensures { IfOk result (λ shares. shares.items ≡ rows.now) }
{
    let mut shares = Vec::with_capacity(alloc, rows.len())?;
    for held in rows {
        shares.push(Held::of(&held.row())?)?;
    }
    Ok(shares)
}

/// Returns the same rows, which borrow their titles.
pub(crate) fn lend_all(alloc: Global, rows: &[Held]) -> Result<Vec<Row<'_>>, NoMemory>
    ensures { IfOk result (λ lent. lent.items ≡ rows.now) }
{
    let mut lent = Vec::with_capacity(alloc, rows.len())?;
    for held in rows {
        lent.push(held.row())?;
    }
    Ok(lent)
}

/// Returns the first k rows, or all if there are fewer.
pub(crate) fn first_of(rows: &[Held], k: u32) -> &[Held]
    ensures { result.now ≡ take k rows.now }
{
    &rows[..rows.len().min(k as usize)]
}

/// Returns whether the rows differ from those before.
pub(crate) fn differ(before: &[Held], after: &[Held]) -> bool
    ensures { Tells result before.now after.now }
{
    before.len() != after.len() || !all_equal(before, after)
}

// Returns whether each row equals the one at its index in the other list, which is as long.
fn all_equal(before: &[Held], after: &[Held]) -> bool
    requires { length before.now ≡ length after.now }
    ensures { Tells (not result) before.now after.now }
{
    for i in 0..before.len() {
        if !before[i].is_same(&after[i]) {
            return false;
        }
    }
    true
}

/// Removes the rows of the table of this name, if one is given, from rows that are in order.
pub(crate) fn take_gone(rows: &mut Vec<Held>, gone: Option<&[u8]>)
    requires order { rows.old.items ≡ in_order row_cmp rows.old.items }
    ensures rows { rows.new.items ≡ rows_left (option_map (λ name. name.now) gone.entry) rows.old.items }
    ensures order { rows.new.items ≡ in_order row_cmp rows.new.items }
    ensures len { vec_len rows.new ≤ vec_len rows.old }
    ensures capacity { vec_capacity rows.old ≤ vec_capacity rows.new }
{
    if let Some(name) = gone {
        take_out(rows, name);
    }
}

// Removes the rows of the table of this name.
fn take_out(rows: &mut Vec<Held>, name: &[u8])
    ensures rows { rows.new.items ≡ filter (λ row. not (bytes_eq row.table name.now)) rows.old.items }
    ensures len { vec_len rows.new ≤ vec_len rows.old }
    ensures capacity { vec_capacity rows.old ≤ vec_capacity rows.new }
{
    rows.retain(|held| held.is_of_other(name));
}

// Returns the index at which a row belongs among rows that are in order.
fn index_for(rows: &[Held], row: &Held) -> usize
    requires { rows.now ≡ in_order row_cmp rows.now }
    ensures within { result ≤ length rows.now }
    ensures put { insert rows.now result row.now ≡ put_in_order row_cmp row.now rows.now }
{
    rows.partition_point(|held| held.is_before(row))
}

// Inserts a row among rows that are in order. It takes no memory.
fn put(rows: &mut Vec<Held>, row: Held)
    requires order { rows.old.items ≡ in_order row_cmp rows.old.items }
    requires room { vec_len rows.old < vec_capacity rows.old }
    ensures rows { rows.new.items ≡ in_order row_cmp (row ∷ rows.old.items) }
    ensures len { vec_len rows.new ≡ vec_len rows.old + 1 }
    ensures capacity { vec_capacity rows.old ≤ vec_capacity rows.new }
{
    let at = index_for(rows, &row);
    match rows.insert(at, row) {
        Ok(()) => {}
        Err(_) => unreachable!(),
    }
}

/// Moves rows to where they belong among rows that are in order. It takes no memory.
pub(crate) fn put_all(rows: &mut Vec<Held>, coming: &mut Vec<Held>)
    requires order { rows.old.items ≡ in_order row_cmp rows.old.items }
    requires room { vec_len rows.old + vec_len coming.old ≤ vec_capacity rows.old }
    ensures rows { rows.new.items ≡ in_order row_cmp (rows.old.items ++ coming.old.items) }
    ensures none { vec_len coming.new ≡ 0 }
    ensures room { vec_len rows.new ≤ vec_capacity rows.new }
    ensures capacity { vec_capacity rows.old ≤ vec_capacity rows.new }
{
    while let Some(row) = coming.pop() {
        put(rows, row);
    }
}

//! One watched query, with its rows.
ghost use Rattle.std.specs.Prelude.{◌≡◌, ◌<◌, ◌+◌, ◌≤◌, [], ℕ, List, false, get_or, length, map, option_map, take, IfOk, OnErr, OnOk};
ghost use Rattle.lake_model.specs.Texts.{Text};
ghost use Rattle.column_watch.specs.Held.{HasColumns, IsColumn, IsCounted, Settles, StateOf, ready, rows_put, state_with, still};

use crate::held::{Held, differ, first_of, put_all, share_all, take_gone};
use crate::overlaps::table_rows;
use column_set::{QuerySet, TableSets};
use no_memory::NoMemory;
use std::alloc::Global;
use std::marker::Model;

/// A query, with all its rows in order. While an entry is taken, it also holds the rows that the entry adds, for which
/// there is room, and shares of the first k rows before the entry.
#[derive(Drop)]
pub(crate) struct Watched {
    keys: QuerySet,
    k: u32,
    rows: Vec<Held>,
    coming: Vec<Held>,
    first: Vec<Held>,
    changed: bool,
}

impl Model for Watched {
    ghost use Rattle.std.specs.Prelude.{◌≡◌, ◌≤◌, ◌+◌, vec_capacity, vec_len};
    ghost use Rattle.lake_model.specs.Answer.{row_cmp};
    ghost use Rattle.lake_model.specs.Sorting.{in_order};
    ghost use Rattle.column_watch.specs.Held.{StateOf, state_with};

    ghost Value = { StateOf };

    ghost view = { λ w. state_with w.keys w.k w.rows.items w.coming.items w.first.items w.changed };

    ghost invariant = { λ w. (w.rows.items ≡ in_order row_cmp w.rows.items) × (vec_len w.rows + vec_len w.coming ≤ vec_capacity w.rows) };
}

impl Watched {
    /// Returns a query before the first entry.
    pub(crate) fn new(alloc: Global, keys: QuerySet, k: u32) -> Watched
        ensures { result ≡ state_with keys k [] [] [] false }
    {
        Watched {
            keys,
            k,
            rows: Vec::new(alloc),
            coming: Vec::new(alloc),
            first: Vec::new(alloc),
            changed: false,
        }
    }

    /// Returns the keys of the query.
    pub(crate) fn keys(&self) -> &QuerySet
        ensures { result.now ≡ self.now.keys }
    {
        &self.keys
    }

    /// Returns the first k rows.
    pub(crate) fn first(&self) -> &[Held]
        ensures { result.now ≡ take self.now.k self.now.rows }
    {
        first_of(&self.rows, self.k)
    }

    /// Returns how many rows there are.
    pub(crate) fn kept(&self) -> u64
        ensures { result ≡ length self.now.rows }
    {
        self.rows.len() as u64
    }

    /// Returns whether the last entry changed the first k rows.
    pub(crate) fn changed(&self) -> bool
        ensures { result ≡ self.now.changed }
    {
        self.changed
    }

    // Takes the memory that an entry needs that adds these rows.
    fn prepare(&mut self, alloc: Global, coming: Vec<Held>) -> Result<(), NoMemory>
        ensures ok { OnOk result (self.new ≡ ready self.old coming.items) }
        ensures err { OnErr result (still self.new ≡ still self.old) }
    {
        let first = share_all(alloc, self.first())?;
        self.rows.reserve(coming.len())?;
        self.coming = coming;
        self.first = first;
        Ok(())
    }

    // Removes the rows of the table that is gone, inserts those that are coming, and finds out whether the first k rows
    // changed. It takes no memory.
    fn settle(&mut self, gone: Option<&[u8]>)
        ensures { Settles (option_map (λ name. name.now) gone.entry) self.old self.new }
    {
        take_gone(&mut self.rows, gone);
        put_all(&mut self.rows, &mut self.coming);
        self.changed = differ(&self.first, first_of(&self.rows, self.k));
    }
}

// Returns the rows, for one of the queries, of the table that an entry puts; none if it puts no table.
fn coming_rows(
    alloc: Global,
    table: Option<&TableSets>,
    overlaps: &[Vec<u32>],
    w: usize,
) -> Result<Vec<Held>, NoMemory>
    requires as_many { HasColumns (option_map (λ table. table.now) table) (map (λ counts. counts.items) overlaps.now) w }
    ensures { IfOk result (λ rows. (query : List Text) → IsColumn (option_map (λ table. table.now) table.entry) (map (λ counts. counts.items) overlaps.now) w query → rows.items ≡ rows_put query (option_map (λ table. table.now) table.entry)) }
{
    match table {
        Some(table) => table_rows(alloc, table, overlaps, w),
        None => Ok(Vec::new(alloc)),
    }
}

/// Takes the memory that the queries need for an entry that puts this table, or none.
pub(crate) fn prepare_all(
    alloc: Global,
    queries: &mut [Watched],
    table: Option<&TableSets>,
    overlaps: &[Vec<u32>],
) -> Result<(), NoMemory>
    requires { IsCounted (option_map (λ table. table.now) table) (map (λ state. state.keys) queries.old) (map (λ counts. counts.items) overlaps.now) }
    ensures len { length queries.new ≡ length queries.old }
    ensures ok { OnOk result ((i : ℕ) (d : StateOf) → i < length queries.old → get_or queries.new i d ≡ ready (get_or queries.old i d) (rows_put (get_or queries.old i d).keys (option_map (λ table. table.now) table.entry))) }
    ensures err { OnErr result ((i : ℕ) (d : StateOf) → i < length queries.old → still (get_or queries.new i d) ≡ still (get_or queries.old i d)) }
{
    for (w, query) in queries.iter_mut().enumerate() {
        let coming = coming_rows(alloc, table, overlaps, w)?;
        query.prepare(alloc, coming)?;
    }
    Ok(())
}

/// Updates the rows of the queries for the entry that they are prepared for, which takes away the table of this name,
/// or none.
pub(crate) fn settle_all(queries: &mut [Watched], gone: Option<&[u8]>)
    ensures len { length queries.new ≡ length queries.old }
    ensures each { (i : ℕ) (d : StateOf) → i < length queries.old → Settles (option_map (λ name. name.now) gone.entry) (get_or queries.old i d) (get_or queries.new i d) }
{
    for query in queries.iter_mut() {
        query.settle(gone);
    }
}

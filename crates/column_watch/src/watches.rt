//! The watched queries of a lake.
ghost use Rattle.std.specs.Prelude.{◌≡◌, ◌<◌, ◌≤◌, ◌+◌, ◌∷◌, ◌++◌, [], bytes_eq, length, map, option_map, IfOk, OnErr, OnOk};
ghost use Rattle.std.specs.List.{All, IsDistinct};
ghost use Rattle.column_watch.specs.Held.{IsCounted, gone_by, put_by};
ghost use Rattle.column_watch.specs.Index.{IsIndexOf};
ghost use Rattle.column_watch.specs.Watching.{Tells, answer_of, before_last, rows_of, watch_at, watch_with, watches_with};
ghost use Rattle.catalogue.specs.Entries.{what_of};

use crate::held::lend_all;
use crate::holders::{Holders, index_queries};
use crate::overlaps::overlaps;
use crate::watched::{Watched, prepare_all, settle_all};
use catalogue::{Entry, What};
use column_set::{QuerySet, Rows, TableSets};
use no_memory::NoMemory;
use std::alloc::Global;
use std::marker::Model;

/// Up to 16 queries, whose answers are kept while the entries of a journal are taken one after another. Its model is
/// the entries that were taken, and the keys of each query with its number of rows k.
///
/// All rows of each query are kept, not only the first k: a row after these comes back when another goes.
#[derive(Drop)]
pub struct Watches {
    alloc: Global,
    journal: Vec<Entry>,
    queries: Vec<Watched>,
    // Made at the first entry, when all queries are known.
    holders: Holders,
}

impl Model for Watches {
    ghost use Rattle.std.specs.Prelude.{map};
    ghost use Rattle.column_watch.specs.Watching.{WatchesOf, watches_with};
    ghost use Rattle.column_watch.specs.Held.{IsKept, watch_of};

    ghost Value = { WatchesOf };

    ghost view = { λ w. watches_with w.journal.items (map watch_of w.queries.items) };

    ghost invariant = { λ w. IsKept w.journal.items w.queries.items w.holders };
}

impl Watches {
    /// Returns watches without a query and without an entry.
    pub fn new(alloc: Global) -> Watches
        ensures { result ≡ watches_with [] [] }
    {
        Watches {
            alloc,
            journal: Vec::new(alloc),
            queries: Vec::new(alloc),
            holders: Holders::new(alloc),
        }
    }

    /// Adds a query, whose answer has at most k rows, 1 to 10,000. Returns the query's number, counted from 1.
    ///
    /// Returns `Err(NoMemory)` only if memory runs out, and then nothing has changed.
    pub fn add(&mut self, query: QuerySet, k: u32) -> Result<u32, NoMemory>
        requires low { 1 ≤ k }
        requires high { k ≤ 10000 }
        requires few { length self.old.queries < 16 }
        requires empty { self.old.journal ≡ [] }
        ensures number { IfOk result (λ w. w ≡ length self.old.queries + 1) }
        ensures ok { OnOk result (self.new ≡ watches_with [] (self.old.queries ++ watch_with query k ∷ [])) }
        ensures err { OnErr result (self.new ≡ self.old) }
    {
        keys_differ(&query);
        self.queries.push(Watched::new(self.alloc, query, k))?;
        Ok(self.queries.len() as u32)
    }

    /// Takes the next entry of the journal. A load or a replace costs its own table, each key of which is looked up
    /// once for all queries, and, for each row that it gives a query, a binary search and a move of the rows after it.
    /// A drop or a replace costs a walk over the rows of the queries. A swap changes no answer. Finding out what
    /// changed costs the first k rows of each query.
    ///
    /// Returns `Err(NoMemory)` only if memory runs out, and then nothing has changed.
    pub fn take(&mut self, entry: &Entry) -> Result<(), NoMemory>
        ensures ok { OnOk result (self.new ≡ watches_with (self.old.journal ++ entry.now ∷ []) self.old.queries) }
        ensures err { OnErr result (self.new ≡ self.old) }
    {
        let taken = entry.share()?;
        self.journal.reserve(1)?;
        index_first(
            self.alloc,
            &mut self.holders,
            &self.queries,
            self.journal.len(),
        )?;
        let table = put_table(&entry.what);
        let counts = counted(self.alloc, &self.holders, &self.queries, table)?;
        prepare_all(self.alloc, &mut self.queries, table, &counts)?;
        settle_all(&mut self.queries, gone_name(&entry.what));
        match self.journal.push(taken) {
            Ok(()) => Ok(()),
            Err(_) => unreachable!(),
        }
    }

    /// Returns how many queries are watched.
    pub fn queries(&self) -> u32
        ensures { result ≡ length self.now.queries }
    {
        self.queries.len() as u32
    }

    /// Returns how many entries were taken.
    pub fn at(&self) -> u64
        ensures { result ≡ length self.now.journal }
    {
        self.journal.len() as u64
    }

    /// Returns whether the last entry changed the answer to a query; false before the first entry.
    pub fn changed(&self, w: u32) -> bool
        requires low { 1 ≤ w }
        requires high { w ≤ length self.now.queries }
        ensures { Tells result (answer_of (before_last self.now.journal) (watch_at self.now.queries w)) (answer_of self.now.journal (watch_at self.now.queries w)) }
    {
        self.queries[w as usize - 1].changed()
    }

    /// Returns how many columns of live tables share a key with a query.
    pub fn kept(&self, w: u32) -> u64
        requires low { 1 ≤ w }
        requires high { w ≤ length self.now.queries }
        ensures { result ≡ length (rows_of self.now.journal (watch_at self.now.queries w)) }
    {
        self.queries[w as usize - 1].kept()
    }

    /// Returns the answer to a query over the live tables of the entries that were taken: the first k rows, which
    /// borrow the titles.
    pub fn rows(&self, w: u32) -> Result<Rows<'_>, NoMemory>
        requires low { 1 ≤ w }
        requires high { w ≤ length self.now.queries }
        ensures { IfOk result (λ rows. rows ≡ answer_of self.now.journal (watch_at self.now.queries w)) }
    {
        let first = self.queries[w as usize - 1].first();
        Ok(Rows::new(lend_all(self.alloc, first)?))
    }
}

// States that the keys of a query differ.
fn keys_differ(query: &QuerySet)
    ensures { IsDistinct bytes_eq query.now }
{
    query.len();
}

// Indexes the keys of the queries before the first entry.
fn index_first(
    alloc: Global,
    holders: &mut Holders,
    queries: &[Watched],
    taken: usize,
) -> Result<(), NoMemory>
    requires few { length queries.now ≤ 16 }
    requires indexed { 0 < taken → IsIndexOf (map (λ state. state.keys) queries.now) holders.old }
    ensures ok { OnOk result (IsIndexOf (map (λ state. state.keys) queries.now) holders.new) }
    ensures err { OnErr result (0 < taken → IsIndexOf (map (λ state. state.keys) queries.now) holders.new) }
{
    if taken == 0 {
        *holders = index_queries(alloc, queries)?;
    }
    Ok(())
}

// Returns the table that an entry puts, if any.
fn put_table(what: &What) -> Option<&TableSets>
    ensures { option_map (λ table. table.now) result ≡ put_by (what_of what.now) }
{
    match what {
        What::Loaded(table) | What::Replaced(table) => Some(table.table()),
        What::Dropped(_) | What::Swapped { .. } => None,
    }
}

// Returns the bytes of the name of the table that an entry takes away, if any.
fn gone_name(what: &What) -> Option<&[u8]>
    ensures { option_map (λ name. name.now) result ≡ gone_by (what_of what.now) }
{
    match what {
        What::Dropped(name) => Some(name.bytes()),
        What::Replaced(table) => Some(table.table().name().bytes()),
        What::Loaded(_) | What::Swapped { .. } => None,
    }
}

// Returns how many keys the queries share with the columns of the table that an entry puts; nothing if it puts none.
fn counted(
    alloc: Global,
    holders: &Holders,
    queries: &[Watched],
    table: Option<&TableSets>,
) -> Result<Vec<Vec<u32>>, NoMemory>
    requires few { length queries.now ≤ 16 }
    requires indexed { IsIndexOf (map (λ state. state.keys) queries.now) holders.now }
    requires different { All (λ state. IsDistinct bytes_eq state.keys) queries.now }
    ensures { IfOk result (λ overlaps. IsCounted (option_map (λ table. table.now) table.entry) (map (λ state. state.keys) queries.now) (map (λ counts. counts.items) overlaps.items)) }
{
    match table {
        Some(table) => overlaps(alloc, holders, queries, table),
        None => Ok(Vec::new(alloc)),
    }
}

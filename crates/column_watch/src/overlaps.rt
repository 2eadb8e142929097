//! Counts how many keys each query shares with each column of a table, and makes the rows that follow. Each key of the
//! table is looked up once.
ghost use Rattle.std.specs.Prelude.{◌≡◌, ◌<◌, ◌≤◌, ◌+◌, ◌^◌, ℕ, [], List, bytes_eq, count_by, get_or, length, map, IfOk};
ghost use Rattle.std.specs.Int.{bit_at};
ghost use Rattle.std.specs.List.{All, IsDistinct};
ghost use Rattle.lake_model.specs.Answer.{rows_of_table};
ghost use Rattle.lake_model.specs.Tables.{has_key, keys_at, overlap as overlap_of};
ghost use Rattle.lake_model.specs.Texts.{Text};
ghost use Rattle.column_watch.specs.Held.{overlaps_of};
ghost use Rattle.column_watch.specs.Hits.{hit_keys, IsHit};
ghost use Rattle.column_watch.specs.Index.{IsIndexOf};

use crate::held::Held;
use crate::holders::{Holders, holders_of};
use crate::watched::Watched;
use column_set::{Row, TableSets, sip_hash};
use no_memory::NoMemory;
use std::alloc::Global;

// A key of a column: its index, from 0, and its hash.
#[derive(Clone, Copy)]
struct Hit {
    hash: u64,
    index: u32,
}

/// Returns how many keys each of the queries shares with each column of the table: a list for each column, with a
/// number for each query.
pub(crate) fn overlaps(
    alloc: Global,
    holders: &Holders,
    queries: &[Watched],
    table: &TableSets,
) -> Result<Vec<Vec<u32>>, NoMemory>
    requires few { length queries.now ≤ 16 }
    requires indexed { IsIndexOf (map (λ state. state.keys) queries.now) holders.now }
    requires different { All (λ state. IsDistinct bytes_eq state.keys) queries.now }
    ensures { IfOk result (λ overlaps. map (λ counts. counts.items) overlaps.items ≡ overlaps_of (map (λ state. state.keys) queries.now) table.now) }
{
    let mut overlaps = Vec::with_capacity(alloc, table.columns() as usize)?;
    for i in 0..table.columns() {
        overlaps.push(count_column(alloc, holders, queries, table, i + 1)?)?;
    }
    Ok(overlaps)
}

// Returns how many keys each of the queries shares with the column at a place.
fn count_column(
    alloc: Global,
    holders: &Holders,
    queries: &[Watched],
    table: &TableSets,
    place: u32,
) -> Result<Vec<u32>, NoMemory>
    requires few { length queries.now ≤ 16 }
    requires indexed { IsIndexOf (map (λ state. state.keys) queries.now) holders.now }
    requires different { All (λ state. IsDistinct bytes_eq state.keys) queries.now }
    requires low { 0 < place }
    requires high { place ≤ length table.now.columns }
    ensures { IfOk result (λ counts. counts.items ≡ map (λ keys. overlap_of keys (keys_at table.now place)) (map (λ state. state.keys) queries.now)) }
{
    let hits = column_hits(alloc, holders, table, place)?;
    count_hits(alloc, holders, queries, table, place, &hits)
}

// Returns the keys of the column at a place that have the hash of a key of some query. It reads no key of a query: its
// look-ups are cache misses, which do not wait for one another as long as nothing else comes between them.
fn column_hits(
    alloc: Global,
    holders: &Holders,
    table: &TableSets,
    place: u32,
) -> Result<Vec<Hit>, NoMemory>
    requires low { 0 < place }
    requires high { place ≤ length table.now.columns }
    ensures hits { IfOk result (λ hits. All (IsHit (keys_at table.now place)) hits.items) }
    ensures few { IfOk result (λ hits. length hits.items ≤ 4194304) }
    ensures all { IfOk result (λ hits. (queries : List (List Text)) (w : ℕ) → IsIndexOf queries holders.now → IsDistinct bytes_eq (get_or queries w []) → count_by (has_key (get_or queries w [])) (hit_keys (keys_at table.now place) hits.items) ≡ overlap_of (get_or queries w []) (keys_at table.now place)) }
{
    let mut hits = Vec::new(alloc);
    for index in 0..table.size(place) {
        let hash = sip_hash(table.key(place, index));
        if holders.has_hash(hash) {
            hits.push(Hit { hash, index })?;
        }
    }
    Ok(hits)
}

// Returns how many of these keys of the column at a place each of the queries holds.
fn count_hits(
    alloc: Global,
    holders: &Holders,
    queries: &[Watched],
    table: &TableSets,
    place: u32,
    hits: &[Hit],
) -> Result<Vec<u32>, NoMemory>
    requires narrow { length queries.now ≤ 16 }
    requires indexed { IsIndexOf (map (λ state. state.keys) queries.now) holders.now }
    requires low { 0 < place }
    requires high { place ≤ length table.now.columns }
    requires hits { All (IsHit (keys_at table.now place)) hits.now }
    requires few { length hits.now ≤ 4194304 }
    ensures len { IfOk result (λ counts. length counts.items ≡ length queries.now) }
    ensures counted { IfOk result (λ counts. (w : ℕ) → w < length (map (λ state. state.keys) queries.now) → get_or counts.items w 0 ≡ count_by (has_key (get_or (map (λ state. state.keys) queries.now) w [])) (hit_keys (keys_at table.now place) hits.now)) }
{
    let mut counts = vec![in alloc; 0u32; queries.len()]?;
    for hit in hits {
        let key = table.key(place, hit.index);
        raise(&mut counts, holders_of(holders, queries, hit.hash, key));
    }
    Ok(counts)
}

// Adds one to the counts of the queries of a mask.
fn raise(counts: &mut [u32], holders: u16)
    requires few { length counts.old ≤ 16 }
    requires small { (w : ℕ) → w < length counts.old → get_or counts.old w 0 + 1 < 2 ^ 32 }
    ensures len { length counts.new ≡ length counts.old }
    ensures raised { (w : ℕ) → w < length counts.old → get_or counts.new w 0 ≡ get_or counts.old w 0 + bit_at holders w }
{
    for w in 0..counts.len() {
        counts[w] += u32::from(holders >> w & 1);
    }
}

/// Returns the rows of a table for one of the queries, by their places.
pub(crate) fn table_rows(
    alloc: Global,
    table: &TableSets,
    overlaps: &[Vec<u32>],
    w: usize,
) -> Result<Vec<Held>, NoMemory>
    requires as_many { length overlaps.now ≡ length table.now.columns }
    requires within { All (λ numbers. w < length numbers) (map (λ counts. counts.items) overlaps.now) }
    ensures { IfOk result (λ rows. (query : List Text) → map (λ numbers. get_or numbers w 0) (map (λ counts. counts.items) overlaps.now) ≡ map (λ column. overlap_of query column.keys) table.now.columns → rows.items ≡ rows_of_table query table.now) }
{
    prove!(table.columns() <= 4_096);
    let mut rows = Vec::new(alloc);
    for (i, counts) in overlaps.iter().enumerate() {
        let overlap = counts[w];
        if overlap > 0 {
            rows.push(Held::of(&Row {
                overlap,
                titles: table.titles(),
                place: i as u32 + 1,
            })?)?;
        }
    }
    Ok(rows)
}

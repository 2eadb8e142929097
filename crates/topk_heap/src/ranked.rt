//! The first k of the rows of one part's columns that are offered, kept in a heap of numbers that compare as the rows
//! do.
ghost use Rattle.std.specs.Prelude.{◌≡◌, ◌≤◌, ◌<◌, ◌+◌, ◌-◌, ◌*◌, ◌^◌, ◌∷◌, List, [], false, true, ℕ, get_or, IfNone, IfOk, IfSome, length, nat_le, option_map, slice_get, Some, take};
ghost use Rattle.std.specs.BinaryHeap.{heap_capacity, heap_items, heap_len, IsHeap, IsUpperBound};
ghost use Rattle.std.specs.List.Sorted.{IsPermutation};
ghost use Rattle.std.specs.Ordering.{is_lt, nat_cmp};
ghost use Rattle.lake_model.specs.Answer.{Row as RowOf, row_cmp};
ghost use Rattle.search_laws.specs.Select.{best};
ghost use Rattle.search_model.specs.Segment.{Titled};
ghost use Rattle.lake_model.specs.Sorting.{in_order, put_in_order};
ghost use Rattle.search_model.specs.Arrays.{titled_at};
ghost use Rattle.search_model.specs.Looks.{beats, row_with};
ghost use Rattle.search_model.specs.Ranks.{AreRising};
ghost use Rattle.topk_heap.specs.Ranked.{entry_of, overlap_in, rank_in, ranked_with, row_in, rows_in, titles_in, AreEntries, IsEntry};

use crate::top::TopK;
use no_memory::NoMemory;
use segment_core::RankedTitles;
use std::alloc::Global;
use std::collections::BinaryHeap;
use std::marker::Model;

// The number of ranks that a `u32` can hold.
const RANKS: u64 = 1 << 32;

/// The first k rows, in the order of an answer, of those of the columns of one part that were offered; or all of these
/// if there are fewer. Each row is held as one number, its overlap and its column's rank, so that no name is read to
/// compare two. Its model is k, the rows, in order, and the columns of the part by their ranks.
#[derive(Drop)]
pub struct RankedTop<'a> {
    heap: BinaryHeap<u64>,
    k: u32,
    titles: Option<RankedTitles<'a>>,
}

impl<'a> Model for RankedTop<'a> {
    ghost use Rattle.std.specs.Prelude.{◌≤◌, ◌<◌, length};
    ghost use Rattle.std.specs.BinaryHeap.{heap_capacity, heap_items, heap_len, IsHeap};
    ghost use Rattle.std.specs.Ordering.{nat_cmp};
    ghost use Rattle.lake_model.specs.Answer.{row_cmp};
    ghost use Rattle.lake_model.specs.Sorting.{in_order};
    ghost use Rattle.topk_heap.specs.Ranked.{ranked_with, rows_in, titles_in, AreEntries, RankedRows};

    ghost Value = { RankedRows };

    ghost view = { λ t. ranked_with t.k (in_order row_cmp (rows_in (titles_in t.titles) (heap_items t.heap))) (titles_in t.titles) };

    ghost invariant = { λ t. (0 < t.k) × (heap_len t.heap ≤ t.k) × (t.k ≤ heap_capacity t.heap) × IsHeap nat_cmp (heap_items t.heap) × AreEntries (length (titles_in t.titles)) (heap_items t.heap) };
}

impl<'a> RankedTop<'a> {
    /// Returns a heap without rows and of no part, with room for k rows.
    pub fn new(alloc: Global, k: u32) -> Result<RankedTop<'a>, NoMemory>
        requires low { 1 ≤ k }
        requires high { k ≤ 10000 }
        ensures { IfOk result (λ top. top ≡ ranked_with k [] []) }
    {
        Ok(RankedTop {
            heap: BinaryHeap::with_capacity(alloc, k as usize)?,
            k,
            titles: None,
        })
    }

    /// Forgets all rows. From now on, columns with these titles are offered. It takes no memory.
    pub fn begin(&mut self, titles: RankedTitles<'a>)
        ensures { self.new ≡ ranked_with self.old.k [] titles.entry }
    {
        self.heap.clear();
        self.titles = Some(titles);
    }

    /// Returns whether there are no rows.
    pub fn is_empty(&self) -> bool
        ensures { result ≡ true → self.now.rows ≡ [] }
    {
        len_counts_entries(&self.heap);
        self.heap.is_empty()
    }

    /// Offers the row of the column of a rank, from 0, with this overlap: the first k of the kept rows and this one are
    /// kept. It takes no memory, and reads no name.
    pub fn offer(&mut self, rank: u32, overlap: u32)
        requires { rank < length self.old.titled }
        ensures k { self.new.k ≡ self.old.k }
        ensures titled { self.new.titled ≡ self.old.titled }
        ensures rows { self.new.rows ≡ take self.old.k (put_in_order row_cmp (row_with overlap (titled_at self.old.titled rank)) self.old.rows) }
    {
        are_rising(&self.titles);
        keep(&mut self.heap, self.k, entry_of(rank, overlap));
    }

    /// Returns whether there are k rows.
    pub fn full(&self) -> bool
        ensures { result ≡ nat_le self.now.k (length self.now.rows) }
    {
        len_counts_entries(&self.heap);
        self.heap.len() >= self.k as usize
    }

    /// Returns the overlap of the k-th row; `None` exactly if there are fewer. A row that does not come before it would not
    /// be kept.
    pub fn worst_overlap(&self) -> Option<u32>
        ensures overlap { result ≡ option_map (λ row. row.overlap) (slice_get self.now.rows (self.now.k - 1)) }
        ensures left_out { (worst row : RowOf) → slice_get self.now.rows (self.now.k - 1) ≡ Some worst → is_lt (row_cmp row worst) ≡ false → take self.now.k (put_in_order row_cmp row self.now.rows) ≡ self.now.rows }
        ensures first { self.now.rows ≡ best row_cmp self.now.k self.now.rows }
    {
        are_rising(&self.titles);
        match last_entry(&self.heap, self.k) {
            None => None,
            Some(entry) => Some(overlap_of(entry)),
        }
    }

    /// Returns whether the row of the column of a rank, from 0, with this overlap would be kept if it were offered: it
    /// comes before the k-th row, or there are fewer.
    pub fn comes_in(&self, rank: u32, overlap: u32) -> bool
        requires { rank < length self.now.titled }
        ensures { result ≡ beats (slice_get self.now.rows (self.now.k - 1)) (row_with overlap (titled_at self.now.titled rank)) }
    {
        are_rising(&self.titles);
        match last_entry(&self.heap, self.k) {
            None => true,
            Some(last) => entry_of(rank, overlap) < last,
        }
    }

    /// Offers the rows to a heap that has none. It takes no memory.
    pub fn move_to(self, top: &mut TopK<'a>)
        requires same { top.old.k ≡ self.k }
        requires none { top.old.rows ≡ [] }
        ensures k { top.new.k ≡ top.old.k }
        ensures rows { top.new.rows ≡ self.entry.rows }
    {
        len_counts_entries(&self.heap);
        let mut entries = self.heap.into_vec();
        entries.sort_unstable();
        match &self.titles {
            None => {}
            Some(titles) => offer_all(titles, &entries, top),
        }
    }
}

// States that the length of a heap is the number of its entries.
fn len_counts_entries(heap: &BinaryHeap<u64>)
    ensures { heap_len heap.now ≡ length (heap_items heap.now) }
{
    prove!(heap.as_slice().len() == heap.len());
}

// States that, of two of the columns with the same overlap, the row of that of the lower rank comes first.
fn are_rising(titles: &Option<RankedTitles<'_>>)
    ensures { AreRising (titles_in titles.now) }
{
    match titles {
        None => {}
        Some(titles) => titles.are_rising(),
    }
}

// Returns the entry of the row of a rank with this overlap.
fn entry_of(rank: u32, overlap: u32) -> u64
    ensures entry { result ≡ entry_of rank overlap }
    ensures overlap { overlap_in result ≡ overlap }
    ensures rank { rank_in result ≡ rank }
    ensures is_entry { (n : ℕ) → rank < n → IsEntry n result }
{
    u64::from(u32::MAX - overlap) * RANKS + u64::from(rank)
}

// Returns the overlap of the row of an entry.
fn overlap_of(entry: u64) -> u32
    ensures { result ≡ overlap_in entry }
{
    u32::MAX - (entry / RANKS) as u32
}

// Returns the rank of the column of an entry.
fn rank_of(entry: u64) -> u32
    ensures { result ≡ rank_in entry }
{
    (entry % RANKS) as u32
}

// Returns the k-th entry; `None` if there are fewer.
fn last_entry(heap: &BinaryHeap<u64>, k: u32) -> Option<u64>
    requires some { 0 < k }
    requires few { heap_len heap.now ≤ k }
    requires order { IsHeap nat_cmp (heap_items heap.now) }
    ensures none { IfNone result (length (heap_items heap.now) < k) }
    ensures last { IfSome result (λ entry. (length (heap_items heap.now) ≡ k) × (slice_get (heap_items heap.now) 0 ≡ Some entry) × IsUpperBound nat_cmp entry (heap_items heap.now)) }
{
    len_counts_entries(heap);
    if heap.len() < k as usize {
        None
    } else {
        match heap.peek() {
            Some(last) => Some(*last),
            None => unreachable!(),
        }
    }
}

// Keeps the first k of the entries and this one.
fn keep(heap: &mut BinaryHeap<u64>, k: u32, entry: u64)
    requires some { 0 < k }
    requires few { heap_len heap.old ≤ k }
    requires capacity { k ≤ heap_capacity heap.old }
    requires order { IsHeap nat_cmp (heap_items heap.old) }
    ensures order { IsHeap nat_cmp (heap_items heap.new) }
    ensures capacity { heap_capacity heap.old ≤ heap_capacity heap.new }
    ensures few { heap_len heap.new ≤ k }
    ensures entries { (n : ℕ) → IsEntry n entry → AreEntries n (heap_items heap.old) → AreEntries n (heap_items heap.new) }
    ensures rows { (titled : List Titled) → AreRising titled → IsEntry (length titled) entry → AreEntries (length titled) (heap_items heap.old) → in_order row_cmp (rows_in titled (heap_items heap.new)) ≡ take k (put_in_order row_cmp (row_in titled entry) (in_order row_cmp (rows_in titled (heap_items heap.old)))) }
{
    len_counts_entries(heap);
    if heap.len() < k as usize {
        put(heap, entry);
    } else if is_before_last(heap, entry) {
        replace(heap, entry);
    }
}

// Adds an entry; there must be room for it.
fn put(heap: &mut BinaryHeap<u64>, entry: u64)
    requires room { heap_len heap.old < heap_capacity heap.old }
    requires order { IsHeap nat_cmp (heap_items heap.old) }
    ensures order { IsHeap nat_cmp (heap_items heap.new) }
    ensures capacity { heap_capacity heap.old ≤ heap_capacity heap.new }
    ensures len { heap_len heap.new ≡ heap_len heap.old + 1 }
    ensures moved { IsPermutation (entry ∷ heap_items heap.old) (heap_items heap.new) }
{
    match heap.push(entry) {
        Ok(()) => {}
        Err(_) => unreachable!(),
    }
}

// Returns whether an entry is lower than the last one, which is the greatest.
fn is_before_last(heap: &BinaryHeap<u64>, entry: u64) -> bool
    requires some { 0 < heap_len heap.now }
    requires order { IsHeap nat_cmp (heap_items heap.now) }
    ensures yes { result ≡ true → entry < get_or (heap_items heap.now) 0 0 }
    ensures no { result ≡ false → get_or (heap_items heap.now) 0 0 ≤ entry }
    ensures last { IsUpperBound nat_cmp (get_or (heap_items heap.now) 0 0) (heap_items heap.now) }
{
    len_counts_entries(heap);
    match heap.peek() {
        Some(last) => entry < *last,
        None => unreachable!(),
    }
}

// Puts an entry in the place of the last one.
fn replace(heap: &mut BinaryHeap<u64>, entry: u64)
    requires some { 0 < heap_len heap.old }
    requires capacity { heap_len heap.old ≤ heap_capacity heap.old }
    requires order { IsHeap nat_cmp (heap_items heap.old) }
    ensures order { IsHeap nat_cmp (heap_items heap.new) }
    ensures capacity { heap_capacity heap.old ≤ heap_capacity heap.new }
    ensures len { heap_len heap.new ≡ heap_len heap.old }
    ensures moved { (rest : List ℕ) × IsPermutation (heap_items heap.old) (get_or (heap_items heap.old) 0 0 ∷ rest) × IsPermutation (entry ∷ rest) (heap_items heap.new) × IsUpperBound nat_cmp (get_or (heap_items heap.old) 0 0) rest }
{
    len_counts_entries(heap);
    match heap.pop() {
        Some(_last) => {}
        None => unreachable!(),
    }
    match heap.push(entry) {
        Ok(()) => {}
        Err(_) => unreachable!(),
    }
}

// Offers the rows of these entries to a heap that has none. The last is offered first: if the entries rise, each row is
// then compared with only one other on its way through the heap.
fn offer_all<'a>(titles: &RankedTitles<'a>, entries: &[u64], top: &mut TopK<'a>)
    requires entries { AreEntries (length titles.now) entries.now }
    requires few { length entries.now ≤ top.old.k }
    requires none { top.old.rows ≡ [] }
    ensures k { top.new.k ≡ top.old.k }
    ensures rows { top.new.rows ≡ in_order row_cmp (rows_in titles.now entries.now) }
{
    let mut left = entries.len();
    while left > 0 {
        left -= 1;
        let entry = entries[left];
        top.offer(titles.row(rank_of(entry), overlap_of(entry)));
    }
}

//! The columns of a part that may be open, kept so that the first of them is found without a walk over all.
ghost use Rattle.std.specs.Prelude.{◌≡◌, ◌<◌, ◌≤◌, ◌+◌, ◌*◌, ◌^◌, ◌∷◌, [], ℕ, true, length, slice_get, IfOk, IfSome, Some};
ghost use Rattle.std.specs.BinaryHeap.{heap_capacity, heap_items, heap_len, IsHeap};
ghost use Rattle.std.specs.List.Sorted.{IsPermutation};
ghost use Rattle.std.specs.Option.{MatchOption};
ghost use Rattle.std.specs.Ordering.{nat_cmp};
ghost use Rattle.josie_search.specs.Candidates.{all_of, better, candidate_of, entry_of, IsFirstIn, IsTop, most_now, of_entry, StandsFirst};

use no_memory::NoMemory;
use part_columns::{Tally, most_of};
use std::alloc::Global;
use std::collections::BinaryHeap;
use std::marker::Model;

// The number of ranks that a `u32` can hold.
const RANKS: u64 = 1 << 32;

/// How many candidates cost so little that none need be left out.
pub(crate) const FEW: usize = 32;

/// A column that may be open, by its rank, and an upper limit on its bound: `number` itself, or, if `by_count` is set,
/// `number` plus the number of lists that are left.
#[derive(Clone, Copy)]
pub(crate) struct Candidate {
    pub by_count: bool,
    pub number: u32,
    pub rank: u32,
}

/// The candidates of a part, and the lowest bound for which they are kept. A column may be among them more than once,
/// or with a number above its bound. A column with at least as many tokens left as there are lists left is held by its
/// count, so that its number stays valid while lists are read; the others are held by their bounds. The struct also
/// keeps account of what the last filling cost, and of how many were added since. Its model is the two heaps, the lowest
/// bound, the number of candidates, and the room.
#[derive(Drop)]
pub(crate) struct Candidates {
    sized: BinaryHeap<u64>,
    asked: BinaryHeap<u64>,
    low: u32,
    room: usize,
    debt: usize,
    added: usize,
}

impl Model for Candidates {
    ghost use Rattle.std.specs.Prelude.{◌≤◌, ◌+◌};
    ghost use Rattle.std.specs.BinaryHeap.{heap_capacity, heap_items, heap_len, IsHeap};
    ghost use Rattle.std.specs.Ordering.{nat_cmp};
    ghost use Rattle.josie_search.specs.Candidates.{CandidatesOf, candidates_with};

    ghost Value = { CandidatesOf };

    ghost view = { λ c. candidates_with (heap_items c.sized) (heap_items c.asked) c.low (heap_len c.sized + heap_len c.asked) c.room };

    ghost invariant = { λ c. (heap_len c.sized + heap_len c.asked ≤ c.room) × (c.room ≤ heap_capacity c.sized) × (c.room ≤ heap_capacity c.asked) × IsHeap nat_cmp (heap_items c.sized) × IsHeap nat_cmp (heap_items c.asked) };
}

impl Candidates {
    /// Returns an empty set of candidates, kept for no bound, with room for two of each column.
    pub(crate) fn new(alloc: Global, columns: u32) -> Result<Candidates, NoMemory>
        ensures room { IfOk result (λ made. made.room ≡ 2 * columns) }
    {
        let room = 2 * columns as usize;
        Ok(Candidates {
            sized: BinaryHeap::with_capacity(alloc, room)?,
            asked: BinaryHeap::with_capacity(alloc, room)?,
            low: u32::MAX,
            room,
            debt: 0,
            added: 0,
        })
    }

    /// Returns the lowest bound for which candidates are kept.
    pub(crate) fn low(&self) -> u32
        ensures { result ≡ self.now.low }
    {
        self.low
    }

    /// Returns the lowest bound for which candidates are kept; `None` if they are kept for no bound.
    pub(crate) fn least(&self) -> Option<u32>
        ensures { IfSome result (λ least. least ≡ self.now.low) }
    {
        if self.low == u32::MAX {
            None
        } else {
            Some(self.low)
        }
    }

    /// Returns whether there is room for `more` more candidates.
    pub(crate) fn has_room(&self, more: usize) -> bool
        ensures { result ≡ true → self.now.many + more ≤ self.now.room }
    {
        more <= self.room - (self.sized.len() + self.asked.len())
    }

    /// Keeps the candidates for bounds of `low` or more.
    pub(crate) fn keep_from(&mut self, low: u32)
        ensures all { all_of self.new ≡ all_of self.old }
        ensures low { self.new.low ≡ low }
        ensures many { self.new.many ≡ self.old.many }
        ensures room { self.new.room ≡ self.old.room }
    {
        self.low = low;
    }

    /// Forgets all candidates, and keeps new ones for bounds of `low` or more.
    pub(crate) fn clear(&mut self, low: u32)
        ensures all { all_of self.new ≡ [] }
        ensures low { self.new.low ≡ low }
        ensures many { self.new.many ≡ 0 }
        ensures room { self.new.room ≡ self.old.room }
    {
        self.sized.clear();
        self.asked.clear();
        self.low = low;
        self.debt = 0;
    }

    /// Keeps the candidates for greater bounds only, half the way up to `bound`, if many were added since this was done
    /// or the candidates were filled in: more than a few, and more than a small part of the columns seen. Until a
    /// lower bound is asked for, fewer columns have to be added.
    pub(crate) fn rise(&mut self, bound: u32, seen: usize)
        ensures all { all_of self.new ≡ all_of self.old }
        ensures low { self.old.low ≤ self.new.low }
        ensures many { self.new.many ≡ self.old.many }
        ensures room { self.new.room ≡ self.old.room }
    {
        if self.added > FEW + seen / 64 && self.low < bound {
            self.low += (bound - self.low) / 2 + 1;
            self.added = 0;
        }
    }

    /// Records the number of columns that a filling walked, to be paid off by as many postings.
    pub(crate) fn owe(&mut self, walked: usize)
        ensures { self.new ≡ self.old }
    {
        self.debt = walked;
        self.added = 0;
    }

    /// Pays off the given number of postings.
    pub(crate) fn pay(&mut self, postings: usize)
        ensures { self.new ≡ self.old }
    {
        self.debt = self.debt.saturating_sub(postings);
    }

    /// Returns whether the last filling is paid off.
    pub(crate) fn is_paid(&self) -> bool {
        self.debt == 0
    }

    /// Adds a candidate.
    pub(crate) fn push(&mut self, candidate: Candidate)
        requires room { self.old.many < self.old.room }
        ensures all { IsPermutation (candidate ∷ all_of self.old) (all_of self.new) }
        ensures low { self.new.low ≡ self.old.low }
        ensures many { self.new.many ≡ self.old.many + 1 }
        ensures room { self.new.room ≡ self.old.room }
    {
        self.added = self.added.saturating_add(1);
        if candidate.by_count {
            put(&mut self.asked, candidate);
        } else {
            put(&mut self.sized, candidate);
        }
    }

    /// Returns the candidate of the greatest number with `left` lists left; of equal ones, that of the lowest rank.
    pub(crate) fn top(&self, left: u32) -> Option<Candidate>
        ensures { MatchOption result (all_of self.now ≡ []) (IsTop left self.now) }
    {
        let sized = first(&self.sized, false);
        let asked = first(&self.asked, true);
        better(left, sized, asked)
    }

    /// Forgets the candidate that is first in its heap.
    pub(crate) fn pop(&mut self, top: Candidate)
        requires first { StandsFirst self.old top }
        ensures all { IsPermutation (all_of self.old) (top ∷ all_of self.new) }
        ensures low { self.new.low ≡ self.old.low }
        ensures many { self.new.many + 1 ≡ self.old.many }
        ensures within { self.old.many ≤ self.old.room }
        ensures room { self.new.room ≡ self.old.room }
    {
        if top.by_count {
            take(&mut self.asked, top);
        } else {
            take(&mut self.sized, top);
        }
    }
}

/// Returns the most that the overlap of the candidate's column can be with `left` lists left.
pub(crate) fn most_now(candidate: Candidate, left: u32) -> u64
    ensures { result ≡ most_now left candidate }
{
    if candidate.by_count {
        u64::from(candidate.number) + u64::from(left)
    } else {
        u64::from(candidate.number)
    }
}

/// Returns the candidate of a column with this tally and this rank.
pub(crate) fn candidate_of(tally: Tally, left: u32, rank: u32) -> Candidate
    requires { tally.count + left < 2 ^ 32 }
    ensures { result ≡ candidate_of left tally rank }
{
    if left <= tally.rest {
        Candidate {
            by_count: true,
            number: tally.count,
            rank,
        }
    } else {
        Candidate {
            by_count: false,
            number: most_of(tally, left),
            rank,
        }
    }
}

// Returns the candidate as one number, so that one comparison decides which of two comes first: that of the greater
// number or, if their numbers are equal, that of the lower rank.
fn entry_of(candidate: Candidate) -> u64
    ensures entry { result ≡ entry_of candidate }
    ensures back { of_entry candidate.by_count result ≡ candidate }
{
    u64::from(candidate.number) * RANKS + u64::from(u32::MAX - candidate.rank)
}

// Returns the candidate whose entry this is.
fn candidate_from(entry: u64, by_count: bool) -> Candidate
    ensures candidate { result ≡ of_entry by_count entry }
    ensures back { entry_of result ≡ entry }
{
    Candidate {
        by_count,
        number: (entry / RANKS) as u32,
        rank: u32::MAX - (entry % RANKS) as u32,
    }
}

// Adds one; there must be room.
fn put(heap: &mut BinaryHeap<u64>, candidate: Candidate)
    requires room { heap_len heap.old < heap_capacity heap.old }
    requires order { IsHeap nat_cmp (heap_items heap.old) }
    ensures items { IsPermutation (entry_of candidate ∷ heap_items heap.old) (heap_items heap.new) }
    ensures order { IsHeap nat_cmp (heap_items heap.new) }
    ensures capacity { heap_capacity heap.old ≤ heap_capacity heap.new }
    ensures len { heap_len heap.new ≡ heap_len heap.old + 1 }
{
    match heap.push(entry_of(candidate)) {
        Ok(()) => {}
        Err(_) => unreachable!(),
    }
}

// Takes out the first one.
fn take(heap: &mut BinaryHeap<u64>, top: Candidate)
    requires first { slice_get (heap_items heap.old) 0 ≡ Some (entry_of top) }
    requires order { IsHeap nat_cmp (heap_items heap.old) }
    ensures items { IsPermutation (heap_items heap.old) (entry_of top ∷ heap_items heap.new) }
    ensures order { IsHeap nat_cmp (heap_items heap.new) }
    ensures capacity { heap_capacity heap.new ≡ heap_capacity heap.old }
    ensures len { heap_len heap.new + 1 ≡ heap_len heap.old }
{
    prove!(heap.as_slice().len() == heap.len());
    match heap.pop() {
        Some(_first) => {}
        None => unreachable!(),
    }
}

// Returns the first one.
fn first(heap: &BinaryHeap<u64>, by_count: bool) -> Option<Candidate>
    requires order { IsHeap nat_cmp (heap_items heap.now) }
    ensures { MatchOption result (heap_items heap.now ≡ []) (IsFirstIn by_count (heap_items heap.now)) }
{
    prove!(heap.as_slice().len() == heap.len());
    match heap.peek() {
        None => None,
        Some(first) => Some(candidate_from(*first, by_count)),
    }
}

// Returns the one of the two that comes first.
fn better(left: u32, a: Option<Candidate>, b: Option<Candidate>) -> Option<Candidate>
    ensures { result ≡ better left a b }
{
    let Some(one) = a else {
        return b;
    };
    let Some(other) = b else {
        return a;
    };
    let most = most_now(one, left);
    let least = most_now(other, left);
    if least < most || (least == most && one.rank <= other.rank) {
        a
    } else {
        b
    }
}

//! Decides which columns are held as candidates. The functions with loops are not inlined, so that each loop has the
//! registers for itself.
ghost use Rattle.std.specs.Prelude.{◌≡◌, ◌<◌, ◌≤◌, ◌+◌, ◌^◌, ◌∷◌, ℕ, Bool, List, false, true, get_or, length, map};
ghost use Rattle.std.specs.List.{All};
ghost use Rattle.std.specs.List.Sorted.{IsPermutation};
ghost use Rattle.lake_model.specs.Answer.{Query};
ghost use Rattle.search_model.specs.Looks.{Searched};
ghost use Rattle.part_columns.specs.declared.tally.Tally.{Tally};
ghost use Rattle.josie_search.specs.Candidates.{all_of, AreHeld, AreHeldBut, candidate_of, goes_in};
ghost use Rattle.part_columns.specs.Tallies.{tally_at};

use crate::candidates::{Candidates, candidate_of};
use part_columns::{Columns, most_of};
use segment_core::Posting;

/// Returns whether a column has to be held for bounds of `low` or more.
pub(crate) fn goes_in(columns: &Columns, left: u32, low: u32, column: u32) -> bool
    requires column { column < length columns.now.tallies }
    requires small { (tally_at columns.now.tallies column).count + left < 2 ^ 32 }
    ensures { result ≡ goes_in (get_or columns.now.known column false) low left (tally_at columns.now.tallies column) }
{
    // Each of the two is hard to predict, but seldom do both hold: one comparison asks for both, since no bound reaches
    // the least bound that is asked of a known column.
    let known = u64::from(columns.is_known(column));
    u64::from(low) + (known << 32) <= u64::from(most_of(columns.tally(column), left))
}

// Holds a column if it has to be held.
fn enter(candidates: &mut Candidates, columns: &Columns, ranks: &[u32], left: u32, column: u32)
    requires column { column < length columns.now.tallies }
    requires ranked { column < length ranks.now }
    requires small { (tally_at columns.now.tallies column).count + left < 2 ^ 32 }
    requires room { candidates.old.many < candidates.old.room }
    ensures goes { goes_in (get_or columns.now.known column false) candidates.old.low left (tally_at columns.now.tallies column) ≡ true → IsPermutation (candidate_of left (tally_at columns.now.tallies column) (get_or ranks.now column 0) ∷ all_of candidates.old) (all_of candidates.new) }
    ensures stays { goes_in (get_or columns.now.known column false) candidates.old.low left (tally_at columns.now.tallies column) ≡ false → all_of candidates.new ≡ all_of candidates.old }
    ensures low { candidates.new.low ≡ candidates.old.low }
    ensures many { candidates.new.many ≤ candidates.old.many + 1 }
    ensures room { candidates.new.room ≡ candidates.old.room }
{
    if goes_in(columns, left, candidates.low(), column) {
        let rank = ranks[column as usize];
        candidates.push(candidate_of(columns.tally(column), left, rank));
    }
}

// Holds the columns that were seen, for bounds of `low` or more.
#[inline(never)]
fn fill(candidates: &mut Candidates, columns: &Columns, ranks: &[u32], left: u32, low: u32)
    requires ranked { (column : ℕ) → 0 < (tally_at columns.now.tallies column).count → column < length ranks.now }
    requires small { (column : ℕ) → (tally_at columns.now.tallies column).count + left < 2 ^ 32 }
    requires wide { length columns.now.tallies ≤ candidates.old.room }
    ensures held { (query : Query) (part : Searched) → AreHeld query part ranks.now columns.now.tallies columns.now.known left low (all_of candidates.new) }
    ensures low { candidates.new.low ≡ low }
    ensures room { candidates.new.room ≡ candidates.old.room }
{
    candidates.clear(low);
    for column in columns.touched() {
        enter(candidates, columns, ranks, left, *column);
    }
    candidates.owe(columns.touched().len());
}

/// Holds the columns for bounds of `low` or more. If they were held only for greater bounds, it walks the columns that
/// were seen.
pub(crate) fn reach(
    candidates: &mut Candidates,
    columns: &Columns,
    ranks: &[u32],
    left: u32,
    low: u32,
)
    requires ranked { (column : ℕ) → 0 < (tally_at columns.now.tallies column).count → column < length ranks.now }
    requires small { (column : ℕ) → (tally_at columns.now.tallies column).count + left < 2 ^ 32 }
    requires wide { length columns.now.tallies ≤ candidates.old.room }
    ensures held { (query : Query) (part : Searched) → AreHeld query part ranks.now columns.now.tallies columns.now.known left candidates.old.low (all_of candidates.old) → AreHeld query part ranks.now columns.now.tallies columns.now.known left low (all_of candidates.new) }
    ensures low { candidates.new.low ≡ low }
    ensures room { candidates.new.room ≡ candidates.old.room }
{
    if low < candidates.low() {
        fill(candidates, columns, ranks, left, low);
    } else {
        candidates.keep_from(low);
    }
}

/// Holds the columns of a list that was just read. If there is no room for them, or no columns were held, it forgets
/// all candidates; they are held again when they are asked for.
pub(crate) fn follow(
    candidates: &mut Candidates,
    columns: &Columns,
    ranks: &[u32],
    left: u32,
    list: &[Posting],
)
    requires within { All (λ posting. posting.column < length columns.now.tallies) list.now }
    requires ranked { All (λ posting. posting.column < length ranks.now) list.now }
    requires small { (column : ℕ) → (tally_at columns.now.tallies column).count + left + 1 < 2 ^ 32 }
    ensures held { (query : Query) (part : Searched) → AreHeldBut (map (λ posting. posting.column) list.now) query part ranks.now columns.now.tallies columns.now.known left candidates.old.low (all_of candidates.old) → AreHeld query part ranks.now columns.now.tallies columns.now.known left candidates.new.low (all_of candidates.new) }
    ensures room { candidates.new.room ≡ candidates.old.room }
{
    if candidates.low() == u32::MAX || !candidates.has_room(list.len()) {
        candidates.clear(u32::MAX);
    } else {
        candidates.pay(list.len());
        enter_list(candidates, columns, ranks, left, list);
    }
}

/// Forgets the candidates while the best one is not asked for, so that the next lists need not be followed; but not
/// before as many postings were followed as the last filling took.
pub(crate) fn rest(candidates: &mut Candidates)
    ensures held { (query : Query) (part : Searched) (ranks : List ℕ) (tallies : List Tally) (known : List Bool) (left : ℕ) → ((column : ℕ) → (tally_at tallies column).count + left + 1 < 2 ^ 32) → AreHeld query part ranks tallies known left candidates.old.low (all_of candidates.old) → AreHeld query part ranks tallies known left candidates.new.low (all_of candidates.new) }
    ensures room { candidates.new.room ≡ candidates.old.room }
{
    if candidates.is_paid() {
        candidates.clear(u32::MAX);
    }
}

// Holds those columns of a list that have to be held.
#[inline(never)]
fn enter_list(
    candidates: &mut Candidates,
    columns: &Columns,
    ranks: &[u32],
    left: u32,
    list: &[Posting],
)
    requires within { All (λ posting. posting.column < length columns.now.tallies) list.now }
    requires ranked { All (λ posting. posting.column < length ranks.now) list.now }
    requires small { (column : ℕ) → (tally_at columns.now.tallies column).count + left < 2 ^ 32 }
    requires room { candidates.old.many + length list.now ≤ candidates.old.room }
    ensures held { (query : Query) (part : Searched) → AreHeldBut (map (λ posting. posting.column) list.now) query part ranks.now columns.now.tallies columns.now.known left candidates.old.low (all_of candidates.old) → AreHeld query part ranks.now columns.now.tallies columns.now.known left candidates.old.low (all_of candidates.new) }
    ensures low { candidates.new.low ≡ candidates.old.low }
    ensures room { candidates.new.room ≡ candidates.old.room }
{
    for posting in list {
        enter(candidates, columns, ranks, left, posting.column);
    }
}

//! Finds the first of the columns that may be open.
ghost use Rattle.std.specs.Prelude.{◌≡◌, ◌<◌, ◌≤◌, ◌+◌, ◌^◌, ℕ, List, Some, ◌&&◌, false, true, get_or, length, nat_lt};
ghost use Rattle.lake_model.specs.Answer.{Query};
ghost use Rattle.search_model.specs.Looks.{Searched, searched};
ghost use Rattle.search_model.specs.Ranks.{AreInverse, AreRanks};
ghost use Rattle.segment_core.specs.Versions.{part_at, segment_at};
ghost use Rattle.josie_search.specs.Candidates.{all_of, AreApart, AreHeld, FoundExact, goes_in, IsOfRank, IsTop, most_now, NoneExact, weight};
ghost use Rattle.josie_search.specs.Rows.{FoundFrom, leads, with_row};
ghost use Rattle.part_columns.specs.Tallies.{most_of, tally_at};

use crate::candidates::{Candidate, Candidates, FEW, candidate_of, most_now};
use crate::hold::{goes_in, reach};
use crate::query::Asked;
use crate::row::{Lead, lead_of};
use part_columns::{Columns, most_of};
use segment_core::{ColumnOrder, Looks};

/// Returns the first column, by the rows of their bounds, of those that were seen, are not known and may be in the
/// answer, with its bound; `None` if no such column has a bound of `low` or more. It looks among the columns of great
/// bounds first, so that few have to be held while one of these is the first.
pub(crate) fn first_lead(
    looks: &Looks<'_>,
    part: u32,
    query: &Asked<'_>,
    columns: &Columns,
    candidates: &mut Candidates,
    order: ColumnOrder<'_>,
    left: u32,
    low: u32,
) -> Option<Lead>
    requires part { part < length looks.now.version.parts }
    requires ranks { AreRanks (segment_at looks.now.version.parts part).columns order.ranks.now }
    requires inverse { AreInverse order.ranks.now order.by_rank.now }
    requires wide { length (segment_at looks.now.version.parts part).sets ≤ length columns.now.tallies }
    requires seen { (column : ℕ) → 0 < (tally_at columns.now.tallies column).count → column < length (segment_at looks.now.version.parts part).sets }
    requires small { (column : ℕ) → (tally_at columns.now.tallies column).count + left < 2 ^ 32 }
    requires room { length columns.now.tallies ≤ candidates.old.room }
    requires held { AreHeld query.now (searched query.now (part_at looks.now.version.parts part)) order.ranks.now columns.now.tallies columns.now.known left candidates.old.low (all_of candidates.old) }
    ensures found { FoundFrom query.now (searched query.now (part_at looks.now.version.parts part)) columns.now.tallies columns.now.known left (length (segment_at looks.now.version.parts part).sets) low (with_row (segment_at looks.now.version.parts part).columns result) }
    ensures held { AreHeld query.now (searched query.now (part_at looks.now.version.parts part)) order.entry.ranks.now columns.now.tallies columns.now.known left candidates.new.low (all_of candidates.new) }
    ensures room { candidates.new.room ≡ candidates.old.room }
{
    let mut least = candidates.least().unwrap_or(left);
    while low < least {
        let found = lead_from(looks, part, query, columns, candidates, order, left, least);
        if found.is_some() {
            return found;
        }
        least = if columns.touched().len() > FEW {
            least / 2
        } else {
            low
        };
    }
    lead_from(looks, part, query, columns, candidates, order, left, low)
}

// Returns the first column as `first_lead` does. It takes out the candidates that come before it, and puts back those
// whose bounds have fallen.
fn lead_from(
    looks: &Looks<'_>,
    part: u32,
    query: &Asked<'_>,
    columns: &Columns,
    candidates: &mut Candidates,
    order: ColumnOrder<'_>,
    left: u32,
    low: u32,
) -> Option<Lead>
    requires part { part < length looks.now.version.parts }
    requires ranks { AreRanks (segment_at looks.now.version.parts part).columns order.ranks.now }
    requires inverse { AreInverse order.ranks.now order.by_rank.now }
    requires wide { length (segment_at looks.now.version.parts part).sets ≤ length columns.now.tallies }
    requires seen { (column : ℕ) → 0 < (tally_at columns.now.tallies column).count → column < length (segment_at looks.now.version.parts part).sets }
    requires small { (column : ℕ) → (tally_at columns.now.tallies column).count + left < 2 ^ 32 }
    requires room { length columns.now.tallies ≤ candidates.old.room }
    requires held { AreHeld query.now (searched query.now (part_at looks.now.version.parts part)) order.ranks.now columns.now.tallies columns.now.known left candidates.old.low (all_of candidates.old) }
    ensures found { FoundFrom query.now (searched query.now (part_at looks.now.version.parts part)) columns.now.tallies columns.now.known left (length (segment_at looks.now.version.parts part).sets) low (with_row (segment_at looks.now.version.parts part).columns result) }
    ensures held { AreHeld query.now (searched query.now (part_at looks.now.version.parts part)) order.entry.ranks.now columns.now.tallies columns.now.known left candidates.new.low (all_of candidates.new) }
    ensures room { candidates.new.room ≡ candidates.old.room }
{
    reach(candidates, columns, order.ranks, left, low);
    while let Some(top) = candidates.top(left) {
        if most_now(top, left) < u64::from(low) {
            return None;
        }
        let column = ranked(order, top.rank);
        match exact_lead(looks, part, query, columns, left, top, column) {
            Some(lead) => {
                candidates.rise(lead.bound, columns.touched().len());
                return Some(lead);
            }
            None => mend(candidates, columns, left, top, column),
        }
    }
    None
}

// Returns the column of this rank, if there is one.
fn ranked(order: ColumnOrder<'_>, rank: u32) -> Option<u32>
    requires inverse { AreInverse order.ranks.now order.by_rank.now }
    requires below { (x : ℕ) → x < length order.ranks.now → get_or order.ranks.now x 0 < length order.ranks.now }
    ensures column { IsOfRank (length order.entry.ranks.now) order.entry.ranks.now rank result }
    ensures within { (x : ℕ) → result ≡ Some x → x < length order.entry.ranks.now }
{
    match order.by_rank.get(rank as usize) {
        Some(column) => Some(*column),
        None => None,
    }
}

// Returns the column with its bound, if it leads and the candidate's number is its bound.
fn exact_lead(
    looks: &Looks<'_>,
    part: u32,
    query: &Asked<'_>,
    columns: &Columns,
    left: u32,
    top: Candidate,
    column: Option<u32>,
) -> Option<Lead>
    requires part { part < length looks.now.version.parts }
    requires column { (x : ℕ) → column ≡ Some x → x < length (segment_at looks.now.version.parts part).sets }
    requires wide { length (segment_at looks.now.version.parts part).sets ≤ length columns.now.tallies }
    requires small { (column : ℕ) → (tally_at columns.now.tallies column).count + left < 2 ^ 32 }
    ensures { FoundExact query.now (searched query.now (part_at looks.now.version.parts part)) columns.now.tallies columns.now.known left top column (with_row (segment_at looks.now.version.parts part).columns result) }
{
    let column = column?;
    if u64::from(most_of(columns.tally(column), left)) != most_now(top, left) {
        return None;
    }
    lead_of(looks, part, query, columns, left, column)
}

// Takes out the first candidate, and puts its column back with its bound if that is lower than the candidate's number.
fn mend(
    candidates: &mut Candidates,
    columns: &Columns,
    left: u32,
    top: Candidate,
    column: Option<u32>,
)
    requires top { IsTop left candidates.old top }
    requires small { (column : ℕ) → (tally_at columns.now.tallies column).count + left < 2 ^ 32 }
    requires within { (x : ℕ) → column ≡ Some x → x < length columns.now.tallies }
    ensures held { (query : Query) (part : Searched) (ranks : List ℕ) (n : ℕ) → AreApart n ranks → ((x : ℕ) → leads query part columns.now.tallies columns.now.known x ≡ true → x < n) → IsOfRank n ranks top.rank column → NoneExact query part columns.now.tallies columns.now.known left top column → AreHeld query part ranks columns.now.tallies columns.now.known left candidates.old.low (all_of candidates.old) → AreHeld query part ranks columns.now.tallies columns.now.known left candidates.new.low (all_of candidates.new) }
    ensures weight { weight left (all_of candidates.new) < weight left (all_of candidates.old) }
    ensures low { candidates.new.low ≡ candidates.old.low }
    ensures room { candidates.new.room ≡ candidates.old.room }
{
    candidates.pop(top);
    let Some(column) = column else {
        return;
    };
    if has_fallen(columns, left, candidates.low(), top, column) {
        candidates.push(candidate_of(columns.tally(column), left, top.rank));
    }
}

// Returns whether a column has to be held for bounds of `low` or more, and its bound is lower than the candidate's
// number.
fn has_fallen(columns: &Columns, left: u32, low: u32, top: Candidate, column: u32) -> bool
    requires column { column < length columns.now.tallies }
    requires small { (tally_at columns.now.tallies column).count + left < 2 ^ 32 }
    ensures { result ≡ (goes_in (get_or columns.now.known column false) low left (tally_at columns.now.tallies column) && nat_lt (most_of left (tally_at columns.now.tallies column)) (most_now left top)) }
{
    goes_in(columns, left, low, column)
        && u64::from(most_of(columns.tally(column), left)) < most_now(top, left)
}

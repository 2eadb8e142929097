//! Decides what a search does next in a part.
ghost use Rattle.search_model.specs.declared.Look.TheVariants.{Probe, Read};
ghost use Rattle.std.specs.Prelude.{true, Some, ◌≡◌, ◌<◌, ◌≤◌, ◌+◌, ◌++◌, ◌^◌, ℕ, [], get_or, length, List, option_map, slice_get, ◌-◌, IfSome};
ghost use Rattle.std.specs.List.{All};
ghost use Rattle.lake_model.specs.Answer.{Row as RowOf, row_cmp};
ghost use Rattle.search_laws.specs.Select.{best};
ghost use Rattle.search_model.specs.Looks.{known_rows, next_look, Progress, searched, threshold, unseen_open};
ghost use Rattle.search_model.specs.Ranks.{ranked, AreInverse, AreRanks};
ghost use Rattle.segment_core.specs.Versions.{part_at, segment_at};
ghost use Rattle.josie_search.specs.Candidates.{all_of, AreHeld};
ghost use Rattle.josie_search.specs.Costs.{lengths_of, threshold_of, AreSums};
ghost use Rattle.josie_search.specs.Open.{chosen, taken};
ghost use Rattle.josie_search.specs.Rows.{leads, MayLead, with_row};
ghost use Rattle.josie_search.specs.State.{IsAt};
ghost use Rattle.part_columns.specs.Tallies.{position_in, tally_at};

use crate::candidates::Candidates;
use crate::cost::summarize;
use crate::first::first_lead;
use crate::hold::rest;
use crate::query::Asked;
use crate::row::Lead;
use crate::sure::surely_reads;
use crate::top::FirstColumns;
use cost_model::Chooser;
use part_columns::{Columns, position_of};
use search_bounds::unseen_open;
use segment_core::{ColumnOrder, Look, Looks};

/// Returns the next look of a search in a part whose first `read` lists were read; `None` if the part is done. `sums` has
/// what the first lists cost. No column has a count above `most`. The best column that it found is left in `witness` for later reads.
pub(crate) fn next_look<C: Chooser>(
    looks: &Looks<'_>,
    part: u32,
    query: &Asked<'_>,
    tokens: &[u32],
    sums: &[u64],
    read: u32,
    columns: &Columns,
    candidates: &mut Candidates,
    order: ColumnOrder<'_>,
    top: &FirstColumns<'_>,
    chooser: &C,
    most: u32,
    witness: &mut Option<u32>,
) -> Option<Look>
    requires most { (column : ℕ) → (tally_at columns.now.tallies column).count ≤ most }
    requires part { part < length looks.now.version.parts }
    requires few { length tokens.now ≤ 4194304 }
    requires tokens { tokens.now ≡ (searched query.now (part_at looks.now.version.parts part)).query }
    requires sums { AreSums (lengths_of (segment_at looks.now.version.parts part) tokens.now) sums.now }
    requires some { 0 < query.now.k }
    requires read { read < length tokens.now }
    requires ranks { AreRanks (segment_at looks.now.version.parts part).columns order.ranks.now }
    requires inverse { AreInverse order.ranks.now order.by_rank.now }
    requires wide { length (segment_at looks.now.version.parts part).sets ≤ length columns.now.tallies }
    requires room { length columns.now.tallies ≤ candidates.old.room }
    requires seen { (column : ℕ) → 0 < (tally_at columns.now.tallies column).count → column < length (segment_at looks.now.version.parts part).sets }
    requires small { (column : ℕ) → (tally_at columns.now.tallies column).count ≤ read }
    requires k { top.now.k ≡ query.now.k }
    requires titled { IfSome top.now.titled (λ titled. titled ≡ ranked (segment_at looks.now.version.parts part).columns order.by_rank.now) }
    requires witness { IfSome witness.old (MayLead query.now (searched query.now (part_at looks.now.version.parts part))) }
    requires held { AreHeld query.now (searched query.now (part_at looks.now.version.parts part)) order.ranks.now columns.now.tallies columns.now.known (length tokens.now - read) candidates.old.low (all_of candidates.old) }
    ensures next { (before : List RowOf) (progress : Progress) → IsAt (searched query.now (part_at looks.now.version.parts part)) progress columns.now.tallies columns.now.known → progress.read ≡ read → top.now.rows ≡ best row_cmp query.now.k (before ++ known_rows query.now (searched query.now (part_at looks.now.version.parts part)) progress) → result ≡ next_look (C.says chooser.now) query.now before (searched query.now (part_at looks.now.version.parts part)) progress }
    ensures probed { (n x after : ℕ) → result ≡ Some (Probe n x after) → (n ≡ (part_at looks.now.version.parts part).number) × (x < length (segment_at looks.now.version.parts part).sets) × (leads query.now (searched query.now (part_at looks.now.version.parts part)) columns.now.tallies columns.now.known x ≡ true) × (after ≡ position_in (get_or (segment_at looks.now.version.parts part).sets x []) (tally_at columns.now.tallies x)) }
    ensures listed { (n t : ℕ) → result ≡ Some (Read n t) → (n ≡ (part_at looks.now.version.parts part).number) × (t ≡ get_or tokens.now read 0) }
    ensures held { AreHeld query.now (searched query.now (part_at looks.now.version.parts part)) order.entry.ranks.now columns.now.tallies columns.now.known (length tokens.now - read) candidates.new.low (all_of candidates.new) }
    ensures room { candidates.new.room ≡ candidates.old.room }
    ensures witness { IfSome witness.new (MayLead query.now (searched query.now (part_at looks.now.version.parts part))) }
{
    if surely_reads(
        looks, part, query, tokens, read, columns, top, chooser, *witness, most,
    ) {
        rest(candidates);
        return Some(Look::Read {
            part: looks.number(part),
            token: tokens[read as usize],
        });
    }
    let left = tokens.len() as u32 - read;
    let worst = top.worst_overlap();
    let low = threshold(worst);
    let found = first_lead(looks, part, query, columns, candidates, order, left, low);
    *witness = column_of(found);
    let column = take_better(looks, part, order, top, found);
    choose(
        looks, part, tokens, sums, read, columns, chooser, worst, column,
    )
}

// Returns the look that follows from the best open column, if there is one, and from what the chooser says of it;
// `worst` is the overlap of the k-th known row.
fn choose<C: Chooser>(
    looks: &Looks<'_>,
    part: u32,
    tokens: &[u32],
    sums: &[u64],
    read: u32,
    columns: &Columns,
    chooser: &C,
    worst: Option<u32>,
    column: Option<u32>,
) -> Option<Look>
    requires part { part < length looks.now.version.parts }
    requires few { length tokens.now ≤ 4194304 }
    requires tokens { All (λ token. token < length (segment_at looks.now.version.parts part).tokens) tokens.now }
    requires sums { AreSums (lengths_of (segment_at looks.now.version.parts part) tokens.now) sums.now }
    requires read { read < length tokens.now }
    requires small { (column : ℕ) → (tally_at columns.now.tallies column).count ≤ read }
    requires seen { (x : ℕ) → column ≡ Some x → (x < length columns.now.tallies) × (x < length (segment_at looks.now.version.parts part).sets) × (0 < (tally_at columns.now.tallies x).count) }
    ensures { result ≡ chosen (C.says chooser.now) (part_at looks.now.version.parts part).number (lengths_of (segment_at looks.now.version.parts part) tokens.now) tokens.now read (segment_at looks.now.version.parts part).sets columns.now.tallies worst column }
{
    let number = looks.number(part);
    let token = tokens[read as usize];
    let Some(column) = column else {
        let left = tokens.len() as u32 - read;
        return if unseen_open(left, threshold(worst)) {
            Some(Look::Read {
                part: number,
                token,
            })
        } else {
            None
        };
    };
    let tally = columns.tally(column);
    let summary = summarize(looks, part, tokens, sums, read, tally, worst);
    if chooser.probe(&summary) {
        Some(Look::Probe {
            part: number,
            set: column,
            after: position_of(looks, part, column, tally),
        })
    } else {
        Some(Look::Read {
            part: number,
            token,
        })
    }
}

// Returns the column that was found, if any.
fn column_of(found: Option<Lead>) -> Option<u32>
    ensures { result ≡ option_map (λ lead. lead.column) found }
{
    match found {
        None => None,
        Some(lead) => Some(lead.column),
    }
}

/// Returns whether a part with these tokens of the query may have a column that comes before the k-th known row. If it
/// has none of them, or fewer than that row has overlap, a search takes no look in the part.
pub(crate) fn may_hold(top: &FirstColumns<'_>, tokens: &[u32]) -> bool
    requires few { length tokens.now ≤ 4194304 }
    ensures { result ≡ unseen_open (length tokens.now) (threshold (slice_get top.now.rows (top.now.k - 1))) }
{
    let left = tokens.len() as u32;
    unseen_open(left, threshold(top.worst_overlap()))
}

/// Returns how many keys a column has to share at least, if the k-th known row has overlap `worst`.
pub(crate) fn threshold(worst: Option<u32>) -> u32
    ensures { result ≡ threshold_of worst }
{
    match worst {
        None => 1,
        Some(overlap) => overlap,
    }
}

// Returns the column that was found, if its row comes before the k-th known row.
fn take_better(
    looks: &Looks<'_>,
    part: u32,
    order: ColumnOrder<'_>,
    top: &FirstColumns<'_>,
    found: Option<Lead>,
) -> Option<u32>
    requires part { part < length looks.now.version.parts }
    requires column { IfSome found (λ lead. lead.column < length (segment_at looks.now.version.parts part).sets) }
    requires ranks { AreRanks (segment_at looks.now.version.parts part).columns order.ranks.now }
    requires inverse { AreInverse order.ranks.now order.by_rank.now }
    requires titled { IfSome top.now.titled (λ titled. titled ≡ ranked (segment_at looks.now.version.parts part).columns order.by_rank.now) }
    ensures { result ≡ taken (slice_get top.now.rows (top.now.k - 1)) (with_row (segment_at looks.now.version.parts part).columns found) }
{
    let lead = found?;
    if top.comes_in(looks, part, order, lead) {
        Some(lead.column)
    } else {
        None
    }
}

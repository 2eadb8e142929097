//! Offers the rows of a search to the first k.
ghost use Rattle.std.specs.Prelude.{◌≡◌, ◌<◌, ◌≤◌, ◌^◌, ℕ, count_by, false, length, not, take, true, IfSome};
ghost use Rattle.lake_model.specs.Answer.{row_cmp};
ghost use Rattle.lake_model.specs.Sorting.{put_in_order};
ghost use Rattle.search_model.specs.Arrays.{titled_at};
ghost use Rattle.search_model.specs.Looks.{row_with, searched};
ghost use Rattle.search_model.specs.Ranks.{ranked, AreInverse, AreRanks};
ghost use Rattle.segment_core.specs.Versions.{part_at, segment_at};
ghost use Rattle.part_columns.specs.Columns.{IsListed};
ghost use Rattle.josie_search.specs.Candidates.{all_of, AreHeld};
ghost use Rattle.josie_search.specs.Offers.{offers};
ghost use Rattle.josie_search.specs.Rows.{lead_row};
ghost use Rattle.part_columns.specs.Tallies.{tally_at};

use crate::candidates::Candidates;
use crate::first::first_lead;
use crate::next::threshold;
use crate::query::Asked;
use crate::top::FirstColumns;
use part_columns::Columns;
use segment_core::{ColumnOrder, Looks};

/// Offers the rows of the columns that lead, once all lists were read: the first of them again and again, until its row
/// would not be kept. The first is found by ranks, so that names are compared only for rows that may be kept.
pub(crate) fn offer_rest<'a>(
    looks: &Looks<'a>,
    part: u32,
    query: &Asked<'_>,
    columns: &mut Columns,
    candidates: &mut Candidates,
    order: ColumnOrder<'_>,
    top: &mut FirstColumns<'a>,
)
    requires part { part < length looks.now.version.parts }
    requires ranks { AreRanks (segment_at looks.now.version.parts part).columns order.ranks.now }
    requires inverse { AreInverse order.ranks.now order.by_rank.now }
    requires wide { length (segment_at looks.now.version.parts part).sets ≤ length columns.old.tallies }
    requires seen { (column : ℕ) → 0 < (tally_at columns.old.tallies column).count → column < length (segment_at looks.now.version.parts part).sets }
    requires small { (column : ℕ) → (tally_at columns.old.tallies column).count < 2 ^ 32 }
    requires room { length columns.old.tallies ≤ candidates.old.room }
    requires titled { IfSome top.old.titled (λ titled. titled ≡ ranked (segment_at looks.now.version.parts part).columns order.by_rank.now) }
    requires held { AreHeld query.now (searched query.now (part_at looks.now.version.parts part)) order.ranks.now columns.old.tallies columns.old.known 0 candidates.old.low (all_of candidates.old) }
    ensures k { top.new.k ≡ top.old.k }
    ensures wide { length columns.new.tallies ≡ length columns.old.tallies }
    ensures room { candidates.new.room ≡ candidates.old.room }
    ensures listed { IsListed columns.old.tallies columns.old.touched }
    ensures rows { top.new.rows ≡ offers top.old.k (lead_row query.now (searched query.now (part_at looks.now.version.parts part)) columns.old.tallies columns.old.known 0) top.old.rows columns.old.touched }
{
    if columns.touched().is_empty() {
        return;
    }
    while offer_first(looks, part, query, columns, candidates, order, top) {}
}

// Offers the row of the first column that leads, once all lists were read, and marks the column as known. Returns false,
// and changes no row, if none leads, or if the row would not be kept; the rows of the others come after it.
fn offer_first<'a>(
    looks: &Looks<'a>,
    part: u32,
    query: &Asked<'_>,
    columns: &mut Columns,
    candidates: &mut Candidates,
    order: ColumnOrder<'_>,
    top: &mut FirstColumns<'a>,
) -> bool
    requires part { part < length looks.now.version.parts }
    requires ranks { AreRanks (segment_at looks.now.version.parts part).columns order.ranks.now }
    requires inverse { AreInverse order.ranks.now order.by_rank.now }
    requires wide { length (segment_at looks.now.version.parts part).sets ≤ length columns.old.tallies }
    requires seen { (column : ℕ) → 0 < (tally_at columns.old.tallies column).count → column < length (segment_at looks.now.version.parts part).sets }
    requires small { (column : ℕ) → (tally_at columns.old.tallies column).count < 2 ^ 32 }
    requires room { length columns.old.tallies ≤ candidates.old.room }
    requires titled { IfSome top.old.titled (λ titled. titled ≡ ranked (segment_at looks.now.version.parts part).columns order.by_rank.now) }
    requires held { AreHeld query.now (searched query.now (part_at looks.now.version.parts part)) order.ranks.now columns.old.tallies columns.old.known 0 candidates.old.low (all_of candidates.old) }
    ensures k { top.new.k ≡ top.old.k }
    ensures titled { top.new.titled ≡ top.old.titled }
    ensures tallies { columns.new.tallies ≡ columns.old.tallies }
    ensures touched { columns.new.touched ≡ columns.old.touched }
    ensures room { candidates.new.room ≡ candidates.old.room }
    ensures held { AreHeld query.now (searched query.now (part_at looks.now.version.parts part)) order.entry.ranks.now columns.new.tallies columns.new.known 0 candidates.new.low (all_of candidates.new) }
    ensures rows { IsListed columns.old.tallies columns.old.touched → offers top.old.k (lead_row query.now (searched query.now (part_at looks.now.version.parts part)) columns.new.tallies columns.new.known 0) top.new.rows columns.new.touched ≡ offers top.old.k (lead_row query.now (searched query.now (part_at looks.now.version.parts part)) columns.old.tallies columns.old.known 0) top.old.rows columns.old.touched }
    ensures fewer { result ≡ true → count_by not columns.new.known < count_by not columns.old.known }
    ensures none { result ≡ false → top.new.rows ≡ offers top.old.k (lead_row query.now (searched query.now (part_at looks.now.version.parts part)) columns.new.tallies columns.new.known 0) top.new.rows columns.new.touched }
{
    let low = threshold(top.worst_overlap());
    let Some(lead) = first_lead(looks, part, query, columns, candidates, order, 0, low) else {
        return false;
    };
    if !top.comes_in(looks, part, order, lead) {
        return false;
    }
    columns.know(lead.column);
    top.offer(looks, part, order, lead.column, lead.bound);
    true
}

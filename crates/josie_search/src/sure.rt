//! Decides whether the next list is surely read, whichever column is the best.
ghost use Rattle.std.specs.Prelude.{true, Some, ◌≡◌, ◌<◌, ◌≤◌, ◌+◌, ◌++◌, ◌^◌, ℕ, length, List, IfSome};
ghost use Rattle.lake_model.specs.Answer.{Row as RowOf, row_cmp};
ghost use Rattle.search_laws.specs.Select.{best};
ghost use Rattle.search_model.specs.Looks.{known_rows, next_look, Progress, read_next, searched};
ghost use Rattle.segment_core.specs.Versions.{part_at, segment_at};
ghost use Rattle.josie_search.specs.Rows.{MayLead};
ghost use Rattle.josie_search.specs.State.{IsAt};
ghost use Rattle.part_columns.specs.Tallies.{tally_at};

use crate::cost::length_of;
use crate::query::Asked;
use crate::top::FirstColumns;
use cost_model::Chooser;
use part_columns::{Columns, most_of};
use segment_core::Looks;

/// Returns whether this column, the witness, shows that the next list is read: fewer than k rows are known, so that a
/// probe gains nothing, and the overlap that the witness may reach exceeds every count so far by so much that the best
/// column, which may reach as much, has too many tokens left for a probe. This saves the look for the best column, and
/// its cost does not depend on how many columns were seen.
pub(crate) fn surely_reads<C: Chooser>(
    looks: &Looks<'_>,
    part: u32,
    query: &Asked<'_>,
    tokens: &[u32],
    read: u32,
    columns: &Columns,
    top: &FirstColumns<'_>,
    chooser: &C,
    witness: Option<u32>,
    most: u32,
) -> bool
    requires part { part < length looks.now.version.parts }
    requires few { length tokens.now ≤ 4194304 }
    requires tokens { tokens.now ≡ (searched query.now (part_at looks.now.version.parts part)).query }
    requires some { 0 < query.now.k }
    requires read { read < length tokens.now }
    requires wide { length (segment_at looks.now.version.parts part).sets ≤ length columns.now.tallies }
    requires seen { (column : ℕ) → 0 < (tally_at columns.now.tallies column).count → column < length (segment_at looks.now.version.parts part).sets }
    requires small { (column : ℕ) → (tally_at columns.now.tallies column).count ≤ read }
    requires most { (column : ℕ) → (tally_at columns.now.tallies column).count ≤ most }
    requires k { top.now.k ≡ query.now.k }
    requires witness { IfSome witness (MayLead query.now (searched query.now (part_at looks.now.version.parts part))) }
    ensures { (before : List RowOf) (progress : Progress) → IsAt (searched query.now (part_at looks.now.version.parts part)) progress columns.now.tallies columns.now.known → progress.read ≡ read → top.now.rows ≡ best row_cmp query.now.k (before ++ known_rows query.now (searched query.now (part_at looks.now.version.parts part)) progress) → result ≡ true → next_look (C.says chooser.now) query.now before (searched query.now (part_at looks.now.version.parts part)) progress ≡ Some (read_next (searched query.now (part_at looks.now.version.parts part)) progress) }
{
    let Some(column) = witness else {
        return false;
    };
    let tally = columns.tally(column);
    if top.full() || tally.count == 0 || columns.is_known(column) {
        return false;
    }
    let left = tokens.len() as u32 - read;
    match chooser.reads_beyond(length_of(looks, part, tokens[read as usize])) {
        None => false,
        Some(rest) => rest < u64::from(most_of(tally, left).saturating_sub(most)),
    }
}

//! Which columns may be in the answer, and what is found for those that lead.
ghost use Rattle.std.specs.Prelude.{◌≡◌, ◌<◌, ◌+◌, ◌^◌, ℕ, false, true, get_or, length, not, option_copied, option_map, ◌&&◌, IfNone, IfSome};
ghost use Rattle.lake_model.specs.Answer.{is_excepted};
ghost use Rattle.search_model.specs.Arrays.{titled_at};
ghost use Rattle.search_model.specs.Looks.{searched};
ghost use Rattle.segment_core.specs.Versions.{marks_of, part_at, segment_at};
ghost use Rattle.josie_search.specs.Rows.{leads};
ghost use Rattle.part_columns.specs.Tallies.{most_of, tally_at};

use crate::query::Asked;
use column_set::Name;
use part_columns::{Columns, most_of, row_of_column};
use segment_core::Looks;

/// A column that was seen, is not known, and may be in the answer, with its bound. Its row is made only where names have
/// to be compared.
#[derive(Clone, Copy)]
pub(crate) struct Lead {
    pub column: u32,
    pub bound: u32,
}

// Returns whether a column's table is unmarked and not excepted.
fn is_eligible(looks: &Looks<'_>, part: u32, column: u32, except: Option<&Name>) -> bool
    requires part { part < length looks.now.version.parts }
    requires column { column < length (segment_at looks.now.version.parts part).sets }
    ensures { result ≡ (not (get_or (marks_of (part_at looks.now.version.parts part)) (titled_at (segment_at looks.now.version.parts part).columns column).from false) && not (is_excepted (option_copied except.entry) (titled_at (segment_at looks.now.version.parts part).columns column).table)) }
{
    looks.live(part, column) && !is_excepted(looks, part, column, except)
}

// Returns whether a column's table is the excepted one.
fn is_excepted(looks: &Looks<'_>, part: u32, column: u32, except: Option<&Name>) -> bool
    requires part { part < length looks.now.version.parts }
    requires column { column < length (segment_at looks.now.version.parts part).sets }
    ensures { result ≡ is_excepted (option_copied except.entry) (titled_at (segment_at looks.now.version.parts part).columns column).table }
{
    let Some(excepted) = except else {
        return false;
    };
    let row = row_of_column(looks, part, column, 0);
    excepted.bytes() == row.table().bytes()
}

/// Returns the column with its bound, if the column was seen, is not known, and may be in the answer.
pub(crate) fn lead_of(
    looks: &Looks<'_>,
    part: u32,
    query: &Asked<'_>,
    columns: &Columns,
    left: u32,
    column: u32,
) -> Option<Lead>
    requires part { part < length looks.now.version.parts }
    requires column { column < length (segment_at looks.now.version.parts part).sets }
    requires tallies { column < length columns.now.tallies }
    requires small { (tally_at columns.now.tallies column).count + left < 2 ^ 32 }
    ensures leads { IfSome result (λ lead. leads query.now (searched query.now (part_at looks.now.version.parts part)) columns.now.tallies columns.now.known column ≡ true) }
    ensures lead { IfSome result (λ lead. (lead.column ≡ column) × (lead.bound ≡ most_of left (tally_at columns.now.tallies column))) }
    ensures none { IfNone result (leads query.now (searched query.now (part_at looks.now.version.parts part)) columns.now.tallies columns.now.known column ≡ false) }
{
    let tally = columns.tally(column);
    if columns.is_known(column)
        || tally.count == 0
        || !is_eligible(looks, part, column, query.except)
    {
        return None;
    }
    Some(Lead {
        column,
        bound: most_of(tally, left),
    })
}

//! The bounds of a column, computed from its tally.
ghost use Rattle.std.specs.Prelude.{◌≡◌, ◌<◌, ◌+◌, ◌^◌, [], get_or, length};
ghost use Rattle.part_columns.specs.Tallies.{most_of, position_in};
ghost use Rattle.segment_core.specs.Versions.{segment_at};

use crate::tally::Tally;
use search_bounds::bound;
use segment_core::Looks;

/// Returns the most keys that a column of this tally can share with the query, with `left` lists left.
pub fn most_of(tally: Tally, left: u32) -> u32
    requires { tally.count + left < 2 ^ 32 }
    ensures { result ≡ most_of left tally }
{
    bound(tally.count, left, tally.rest)
}

/// Returns the position, among the tokens of a column, of its last token in the lists read.
pub fn position_of(looks: &Looks<'_>, part: u32, column: u32, tally: Tally) -> u32
    requires part { part < length looks.now.version.parts }
    requires column { column < length (segment_at looks.now.version.parts part).sets }
    ensures { result ≡ position_in (get_or (segment_at looks.now.version.parts part).sets column []) tally }
{
    looks
        .size(part, column)
        .saturating_sub(1)
        .saturating_sub(tally.rest)
}

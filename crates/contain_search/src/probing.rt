//! The probe of a column whose count matters only if it is high enough.
ghost use Rattle.std.specs.Prelude.{◌≡◌, ◌<◌, ◌≤◌, ◌+◌, ◌++◌, ◌∷◌, List, [], count_by, get_or, length, take};
ghost use Rattle.std.specs.List.Sorted.{IsStrictlyIncreasing};
ghost use Rattle.lake_model.specs.Layout.{is_among};
ghost use Rattle.lake_model.specs.Texts.{Text};
ghost use Rattle.part_columns.specs.Room.{asked_in};
ghost use Rattle.part_columns.specs.Tallies.{position_in, tally_of};
ghost use Rattle.search_model.specs.Looks.{hits};
ghost use Rattle.search_model.specs.declared.Look.TheVariants.{Probe};
ghost use Rattle.segment_core.specs.Versions.{part_at, segment_at};
ghost use Rattle.contain_search.specs.Enough.{IsExactFrom};

use part_columns::{Sought, Tally, position_of, seek};
use segment_core::Looks;

/// Returns how many of the query's tokens a column has whose tally after the first `read` lists is `tally`, if these
/// are at least `least`, and otherwise some number below `least`. Asks for the column's tokens after the last one in
/// these lists, and logs the probe.
pub(crate) fn probe_from(
    looks: &mut Looks<'_>,
    part: u32,
    tokens: &[u32],
    read: u32,
    column: u32,
    tally: Tally,
    least: u32,
) -> u32
    requires part { part < length looks.old.version.parts }
    requires column { column < length (segment_at looks.old.version.parts part).sets }
    requires read { read ≤ length tokens.now }
    requires few { length tokens.now ≤ 4194304 }
    requires room { 0 < looks.old.spare }
    requires seen { 0 < tally.count }
    requires tally { tally ≡ tally_of (get_or (segment_at looks.old.version.parts part).sets column []) (hits (get_or (segment_at looks.old.version.parts part).sets column []) (take read tokens.now)) }
    requires tokens { (keys : List Text) × (tokens.now ≡ asked_in keys (part_at looks.old.version.parts part)) }
    ensures overlap { IsExactFrom least (length (hits (get_or (segment_at looks.old.version.parts part).sets column []) tokens.now)) result }
    ensures version { looks.new.version ≡ looks.old.version }
    ensures log { looks.new.log ≡ looks.old.log ++ Probe (part_at looks.old.version.parts part).number column (position_in (get_or (segment_at looks.old.version.parts part).sets column []) tally) ∷ [] }
    ensures spare { looks.new.spare + 1 ≡ looks.old.spare }
{
    let position = position_of(looks, part, column, tally);
    let tail = looks.tail(part, column, position);
    let wanted = least.saturating_sub(tally.count) as usize;
    tally.count + shared_from(&tokens[read as usize..], tail, wanted) as u32
}

// Returns how many tokens two rising lists share, if these are at least `least`, and otherwise some number below
// `least`. It walks the shorter list, since fewer of its tokens may be missing in the other.
fn shared_from(others: &[u32], tokens: &[u32], least: usize) -> usize
    requires others { IsStrictlyIncreasing others.now }
    requires tokens { IsStrictlyIncreasing tokens.now }
    ensures count { IsExactFrom least (count_by (is_among others.now) tokens.now) result }
    ensures most { result ≤ count_by (is_among others.now) tokens.now }
{
    if others.len() < tokens.len() {
        among_from(tokens, others, least)
    } else {
        among_from(others, tokens, least)
    }
}

// Returns how many of these tokens are among the others, if these are at least `least`, and otherwise some number below
// `least`. Both rise. It stops once too few tokens are left.
fn among_from(others: &[u32], tokens: &[u32], least: usize) -> usize
    requires others { IsStrictlyIncreasing others.now }
    requires tokens { IsStrictlyIncreasing tokens.now }
    ensures count { IsExactFrom least (count_by (is_among others.now) tokens.now) result }
    ensures most { result ≤ count_by (is_among others.now) tokens.now }
{
    let mut shared = 0;
    let mut left = others;
    for (i, token) in tokens.iter().enumerate() {
        if shared + (tokens.len() - i) < least {
            return shared;
        }
        let Sought { found, rest } = seek(left, *token);
        if found {
            shared += 1;
        }
        left = rest;
    }
    shared
}

//! Finds the columns of a part that may hold enough tokens, and what they hold.
ghost use Rattle.std.specs.Prelude.{◌≡◌, ◌<◌, ◌≤◌, ◌+◌, ◌-◌, ◌++◌, ◌∷◌, ◌^◌, if◌then◌else◌, ℕ, List, [], filter, flat_map, get_or, length, take, vec_capacity, vec_len};
ghost use Rattle.std.specs.List.{All};
ghost use Rattle.contain_search.specs.Enough.{IsExactFrom};
ghost use Rattle.contain_search.specs.Met.{may_columns, may_still, met, probes_of, probes_with, rows_of};
ghost use Rattle.lake_model.specs.Texts.{Text};
ghost use Rattle.part_columns.specs.Columns.{IsListed};
ghost use Rattle.part_columns.specs.Room.{asked_in};
ghost use Rattle.part_columns.specs.Tallies.{AreTallies, tally_at, tally_of};
ghost use Rattle.search_model.specs.Looks.{hits};
ghost use Rattle.segment_core.specs.Versions.{part_at, segment_at};

use crate::probing::probe_from;
use column_set::Row;
use part_columns::{Columns, Tally, most_of, row_of_column};
use segment_core::Looks;

// Returns whether a column that was seen may hold at least `least` of the tokens, with `left` lists left, and its table
// is unmarked.
fn may_hold(
    looks: &Looks<'_>,
    part: u32,
    columns: &Columns,
    left: u32,
    least: u32,
    column: u32,
) -> bool
    requires part { part < length looks.now.version.parts }
    requires column { column < length (segment_at looks.now.version.parts part).sets }
    requires tallies { column < length columns.now.tallies }
    requires small { (tally_at columns.now.tallies column).count + left < 2 ^ 32 }
    ensures { result ≡ may_still least (met (part_at looks.now.version.parts part) []) columns.now.tallies left column }
{
    least <= most_of(columns.tally(column), left) && looks.live(part, column)
}

// Adds a column that was seen, if it may hold at least `least` of the tokens.
fn consider(
    looks: &Looks<'_>,
    part: u32,
    columns: &Columns,
    left: u32,
    least: u32,
    column: u32,
    found: &mut Vec<u32>,
)
    requires part { part < length looks.now.version.parts }
    requires column { column < length (segment_at looks.now.version.parts part).sets }
    requires tallies { column < length columns.now.tallies }
    requires small { (tally_at columns.now.tallies column).count + left < 2 ^ 32 }
    requires room { vec_len found.old < vec_capacity found.old }
    ensures items { found.new.items ≡ found.old.items ++ (if may_still least (met (part_at looks.now.version.parts part) []) columns.now.tallies left column then column ∷ [] else []) }
    ensures len { vec_len found.new ≤ vec_len found.old + 1 }
    ensures room { vec_capacity found.old ≤ vec_capacity found.new }
{
    if may_hold(looks, part, columns, left, least, column) {
        found.push_reserved(column);
    }
}

// Adds those of the columns seen that may hold at least `least` of the tokens.
fn gather(
    looks: &Looks<'_>,
    part: u32,
    columns: &Columns,
    left: u32,
    least: u32,
    found: &mut Vec<u32>,
)
    requires part { part < length looks.now.version.parts }
    requires wide { length (segment_at looks.now.version.parts part).sets ≤ length columns.now.tallies }
    requires seen { (column : ℕ) → 0 < (tally_at columns.now.tallies column).count → column < length (segment_at looks.now.version.parts part).sets }
    requires small { (column : ℕ) → (tally_at columns.now.tallies column).count + left < 2 ^ 32 }
    requires empty { found.old.items ≡ [] }
    requires room { length columns.now.tallies ≤ vec_capacity found.old }
    ensures listed { IsListed columns.now.tallies columns.now.touched }
    ensures found { found.new.items ≡ filter (may_still least (met (part_at looks.now.version.parts part) []) columns.now.tallies left) columns.now.touched }
    ensures room { vec_capacity found.old ≤ vec_capacity found.new }
{
    for column in columns.touched() {
        consider(looks, part, columns, left, least, *column, found);
    }
}

/// Finds those of the columns seen that may hold at least `least` of the tokens, by rising number. The first `read`
/// lists of the tokens were read.
pub(crate) fn find_columns(
    looks: &Looks<'_>,
    part: u32,
    tokens: &[u32],
    read: u32,
    columns: &Columns,
    least: u32,
    found: &mut Vec<u32>,
)
    requires part { part < length looks.now.version.parts }
    requires few { length tokens.now ≤ 4194304 }
    requires read { read ≡ length tokens.now + 1 - least }
    requires some { 1 ≤ least }
    requires wide { length (segment_at looks.now.version.parts part).sets ≤ length columns.now.tallies }
    requires tallies { AreTallies (segment_at looks.now.version.parts part).sets (take read tokens.now) columns.now.tallies }
    requires room { length columns.now.tallies ≤ vec_capacity found.old }
    ensures found { found.new.items ≡ may_columns least (met (part_at looks.now.version.parts part) tokens.now) }
    ensures room { vec_capacity found.old ≤ vec_capacity found.new }
{
    let left = tokens.len() as u32 - read;
    found.clear();
    gather(looks, part, columns, left, least, found);
    found.sort_unstable();
}

// Returns how many of the tokens a column has, if these are at least `least`, and otherwise some number below `least`.
// The first `read` lists of the tokens were read. The column is probed only if its tally leaves the number open.
fn overlap_from(
    looks: &mut Looks<'_>,
    part: u32,
    tokens: &[u32],
    read: u32,
    column: u32,
    tally: Tally,
    least: u32,
) -> u32
    requires part { part < length looks.old.version.parts }
    requires column { column < length (segment_at looks.old.version.parts part).sets }
    requires few { length tokens.now ≤ 4194304 }
    requires read { read ≤ length tokens.now }
    requires room { 0 < looks.old.spare }
    requires seen { 0 < tally.count }
    requires tally { tally ≡ tally_of (get_or (segment_at looks.old.version.parts part).sets column []) (hits (get_or (segment_at looks.old.version.parts part).sets column []) (take read tokens.now)) }
    requires tokens { (keys : List Text) × (tokens.now ≡ asked_in keys (part_at looks.old.version.parts part)) }
    ensures overlap { IsExactFrom least (length (hits (get_or (segment_at looks.old.version.parts part).sets column []) tokens.now)) result }
    ensures version { looks.new.version ≡ looks.old.version }
    ensures log { looks.new.log ≡ looks.old.log ++ probes_with (part_at looks.old.version.parts part).number (get_or (segment_at looks.old.version.parts part).sets column []) tally (length tokens.now - read) column }
    ensures spare { looks.old.spare ≤ looks.new.spare + 1 }
{
    let left = tokens.len() as u32 - read;
    if tally.count < most_of(tally, left) {
        probe_from(looks, part, tokens, read, column, tally, least)
    } else {
        tally.count
    }
}

// Finds out what a column holds, and keeps its row if that is enough.
fn settle<'a>(
    looks: &mut Looks<'a>,
    part: u32,
    tokens: &[u32],
    read: u32,
    columns: &Columns,
    least: u32,
    column: u32,
    rows: &mut Vec<Row<'a>>,
)
    requires part { part < length looks.old.version.parts }
    requires column { column < length (segment_at looks.old.version.parts part).sets }
    requires few { length tokens.now ≤ 4194304 }
    requires read { read ≤ length tokens.now }
    requires room { 0 < looks.old.spare }
    requires wide { column < length columns.now.tallies }
    requires seen { 0 < (tally_at columns.now.tallies column).count }
    requires tallies { AreTallies (segment_at looks.old.version.parts part).sets (take read tokens.now) columns.now.tallies }
    requires tokens { (keys : List Text) × (tokens.now ≡ asked_in keys (part_at looks.old.version.parts part)) }
    requires rows_room { vec_len rows.old < vec_capacity rows.old }
    ensures version { looks.new.version ≡ looks.old.version }
    ensures log { looks.new.log ≡ looks.old.log ++ probes_of (part_at looks.old.version.parts part).number (segment_at looks.old.version.parts part).sets columns.now.tallies (length tokens.now - read) column }
    ensures spare { looks.old.spare ≤ looks.new.spare + 1 }
    ensures rows { rows.new.items ≡ rows.old.items ++ rows_of least (met (part_at looks.old.version.parts part) tokens.now) column }
    ensures len { vec_len rows.new ≤ vec_len rows.old + 1 }
    ensures rows_room { vec_capacity rows.old ≤ vec_capacity rows.new }
{
    let tally = columns.tally(column);
    let overlap = overlap_from(looks, part, tokens, read, column, tally, least);
    if overlap >= least {
        rows.push_reserved(row_of_column(looks, part, column, overlap));
    }
}

/// Finds out what these columns hold, and keeps the rows of those that hold enough.
pub(crate) fn settle_all<'a>(
    looks: &mut Looks<'a>,
    part: u32,
    tokens: &[u32],
    read: u32,
    columns: &Columns,
    least: u32,
    found: &[u32],
    rows: &mut Vec<Row<'a>>,
)
    requires part { part < length looks.old.version.parts }
    requires few { length tokens.now ≤ 4194304 }
    requires read { read ≤ length tokens.now }
    requires wide { length (segment_at looks.old.version.parts part).sets ≤ length columns.now.tallies }
    requires tallies { AreTallies (segment_at looks.old.version.parts part).sets (take read tokens.now) columns.now.tallies }
    requires seen { All (λ column. 0 < (tally_at columns.now.tallies column).count) found.now }
    requires tokens { (keys : List Text) × (tokens.now ≡ asked_in keys (part_at looks.old.version.parts part)) }
    requires room { length found.now ≤ looks.old.spare }
    requires rows_room { vec_len rows.old + length found.now ≤ vec_capacity rows.old }
    ensures version { looks.new.version ≡ looks.old.version }
    ensures log { looks.new.log ≡ looks.old.log ++ flat_map (probes_of (part_at looks.old.version.parts part).number (segment_at looks.old.version.parts part).sets columns.now.tallies (length tokens.now - read)) found.now }
    ensures spare { looks.old.spare ≤ looks.new.spare + length found.now }
    ensures rows { rows.new.items ≡ rows.old.items ++ flat_map (rows_of least (met (part_at looks.old.version.parts part) tokens.now)) found.now }
    ensures len { vec_len rows.new ≤ vec_len rows.old + length found.now }
    ensures rows_room { vec_capacity rows.old ≤ vec_capacity rows.new }
{
    for column in found {
        settle(looks, part, tokens, read, columns, least, *column, rows);
    }
}

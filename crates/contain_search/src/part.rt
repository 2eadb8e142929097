//! The search of one part.
ghost use Rattle.std.specs.Prelude.{◌≡◌, ◌<◌, ◌≤◌, ◌+◌, ◌++◌, List, length, map, vec_capacity, vec_len};
ghost use Rattle.std.specs.List.{All};
ghost use Rattle.contain_search.specs.Met.{first_lists, met};
ghost use Rattle.lake_model.specs.Texts.{Text};
ghost use Rattle.part_columns.specs.Columns.{IsClean};
ghost use Rattle.part_columns.specs.Room.{asked_in, looks_bound, probes_bound};
ghost use Rattle.part_columns.specs.Tallies.{AreTallies};
ghost use Rattle.search_laws.specs.Found.{found_rows};
ghost use Rattle.search_model.specs.Contain.{contain_looks};
ghost use Rattle.search_model.specs.declared.Look.TheVariants.{Read};
ghost use Rattle.segment_core.specs.Versions.{part_at, segment_at};

use crate::column::{find_columns, settle_all};
use column_set::Row;
use part_columns::Columns;
use segment_core::Looks;

// Reads these lists, and counts their postings. No column may have been seen before the call.
fn read_lists(looks: &mut Looks<'_>, part: u32, lists: &[u32], columns: &mut Columns)
    requires part { part < length looks.old.version.parts }
    requires few { length lists.now ≤ 4194304 }
    requires lists { All (λ token. token < length (segment_at looks.old.version.parts part).tokens) lists.now }
    requires wide { length (segment_at looks.old.version.parts part).sets ≤ length columns.old.tallies }
    requires clean { IsClean columns.old }
    requires room { length lists.now ≤ looks.old.spare }
    ensures version { looks.new.version ≡ looks.old.version }
    ensures log { looks.new.log ≡ looks.old.log ++ map (λ token. Read (part_at looks.old.version.parts part).number token) lists.now }
    ensures spare { looks.new.spare + length lists.now ≡ looks.old.spare }
    ensures wide { length columns.new.tallies ≡ length columns.old.tallies }
    ensures tallies { AreTallies (segment_at looks.old.version.parts part).sets lists.now columns.new.tallies }
{
    let mut most = 0;
    for token in lists {
        let list = looks.list(part, *token);
        most = columns.count(list, most);
    }
}

/// Searches a part for the columns that hold at least `least` of the tokens of the query, and adds their rows by rising
/// number. No column may have been seen before the call. It takes no memory.
pub(crate) fn contain_part<'a>(
    looks: &mut Looks<'a>,
    part: u32,
    tokens: &[u32],
    least: u32,
    columns: &mut Columns,
    found: &mut Vec<u32>,
    rows: &mut Vec<Row<'a>>,
)
    requires part { part < length looks.old.version.parts }
    requires few { length tokens.now ≤ 4194304 }
    requires some { 1 ≤ least }
    requires tokens { (keys : List Text) × (tokens.now ≡ asked_in keys (part_at looks.old.version.parts part)) }
    requires wide { length (segment_at looks.old.version.parts part).sets ≤ length columns.old.tallies }
    requires clean { IsClean columns.old }
    requires kept { length columns.old.tallies ≤ vec_capacity found.old }
    requires room { looks_bound (part_at looks.old.version.parts part) (first_lists least tokens.now) ≤ looks.old.spare }
    requires rows_room { vec_len rows.old + probes_bound (part_at looks.old.version.parts part) (first_lists least tokens.now) ≤ vec_capacity rows.old }
    ensures version { looks.new.version ≡ looks.old.version }
    ensures log { looks.new.log ≡ looks.old.log ++ contain_looks least (met (part_at looks.old.version.parts part) tokens.now) }
    ensures spare { looks.old.spare ≤ looks.new.spare + looks_bound (part_at looks.old.version.parts part) (first_lists least tokens.now) }
    ensures wide { length columns.new.tallies ≡ length columns.old.tallies }
    ensures kept { vec_capacity found.old ≤ vec_capacity found.new }
    ensures rows { rows.new.items ≡ rows.old.items ++ found_rows least (met (part_at looks.old.version.parts part) tokens.now) }
    ensures len { vec_len rows.new ≤ vec_len rows.old + probes_bound (part_at looks.old.version.parts part) (first_lists least tokens.now) }
    ensures rows_room { vec_capacity rows.old ≤ vec_capacity rows.new }
{
    let lists = tokens.len() as u32;
    let read = (lists + 1).saturating_sub(least);
    read_lists(looks, part, &tokens[..read as usize], columns);
    find_columns(looks, part, tokens, read, columns, least, found);
    settle_all(looks, part, tokens, read, columns, least, found, rows);
}

//! The search of one part.
ghost use Rattle.std.specs.Prelude.{◌≡◌, ◌<◌, ◌≤◌, ◌+◌, ◌++◌, ◌∷◌, ◌^◌, ℕ, [], List, bytes_eq, false, get_or, length, slice_set, take, true, IfSome};
ghost use Rattle.std.specs.List.{IsDistinct};
ghost use Rattle.lake_model.specs.Answer.{row_cmp};
ghost use Rattle.lake_model.specs.Sorting.{put_in_order};
ghost use Rattle.search_laws.specs.Select.{best};
ghost use Rattle.search_model.specs.declared.Look.TheVariants.{Probe};
ghost use Rattle.lake_model.specs.Texts.{Text};
ghost use Rattle.search_model.specs.Arrays.{titled_at};
ghost use Rattle.search_model.specs.Looks.{hits, known_rows, row_with, run, searched, start};
ghost use Rattle.search_model.specs.Ranks.{ranked, AreInverse, AreRanks};
ghost use Rattle.search_model.specs.Segment.{tokens_in};
ghost use Rattle.segment_core.specs.Versions.{part_at, segment_at};
ghost use Rattle.part_columns.specs.Columns.{IsClean};
ghost use Rattle.josie_search.specs.Costs.{lengths_of, AreSums};
ghost use Rattle.part_columns.specs.Room.{looks_bound};
ghost use Rattle.part_columns.specs.Tallies.{no_tally, position_in, tally_at, tally_of};
ghost use Rattle.token_set.specs.Bits.{IsSetOf};

use crate::candidates::Candidates;
use crate::hold::follow;
use crate::next::next_look;
use crate::offer::offer_rest;
use crate::query::Asked;
use crate::top::FirstColumns;
use cost_model::Chooser;
use part_columns::{Columns, probe};
use segment_core::{ColumnOrder, Look, Looks};
use token_set::TokenSet;

/// Probes a column, marks it as known, and offers its row.
pub(crate) fn probe_column<'a>(
    looks: &mut Looks<'a>,
    part: u32,
    tokens: &[u32],
    set: Option<&TokenSet>,
    read: u32,
    column: u32,
    columns: &mut Columns,
    order: ColumnOrder<'_>,
    top: &mut FirstColumns<'a>,
)
    requires part { part < length looks.old.version.parts }
    requires column { column < length (segment_at looks.old.version.parts part).sets }
    requires few { length tokens.now < 2 ^ 32 }
    requires read { read ≤ length tokens.now }
    requires room { 0 < looks.old.spare }
    requires wide { column < length columns.old.tallies }
    requires seen { 0 < (tally_at columns.old.tallies column).count }
    requires tally { tally_at columns.old.tallies column ≡ tally_of (get_or (segment_at looks.old.version.parts part).sets column []) (hits (get_or (segment_at looks.old.version.parts part).sets column []) (take read tokens.now)) }
    requires tokens { (keys : List Text) × (tokens.now ≡ tokens_in (segment_at looks.old.version.parts part).tokens keys) }
    requires set { IfSome set (λ set. IsSetOf set.now tokens.now) }
    requires ranks { AreRanks (segment_at looks.old.version.parts part).columns order.ranks.now }
    requires inverse { AreInverse order.ranks.now order.by_rank.now }
    requires titled { IfSome top.old.titled (λ titled. titled ≡ ranked (segment_at looks.old.version.parts part).columns order.by_rank.now) }
    ensures version { looks.new.version ≡ looks.old.version }
    ensures log { looks.new.log ≡ looks.old.log ++ Probe (part_at looks.old.version.parts part).number column (position_in (get_or (segment_at looks.old.version.parts part).sets column []) (tally_at columns.old.tallies column)) ∷ [] }
    ensures spare { looks.new.spare + 1 ≡ looks.old.spare }
    ensures tallies { columns.new.tallies ≡ columns.old.tallies }
    ensures known { columns.new.known ≡ slice_set columns.old.known column true }
    ensures marks { length columns.old.known ≡ length columns.old.tallies }
    ensures k { top.new.k ≡ top.old.k }
    ensures titled { top.new.titled ≡ top.old.titled }
    ensures rows { top.new.rows ≡ take top.old.k (put_in_order row_cmp (row_with (length (hits (get_or (segment_at looks.old.version.parts part).sets column []) tokens.now)) (titled_at (segment_at looks.old.version.parts part).columns column)) top.old.rows) }
{
    let overlap = probe(
        looks,
        part,
        tokens,
        set,
        read,
        column,
        columns.tally(column),
    );
    columns.know(column);
    top.offer(looks, part, order, column, overlap);
}

/// Searches a part: reads lists and probes columns as the chooser says, until no column of the part can come before the
/// k-th row. `set` may have the tokens as a set, and `sums` has what it costs to read the first lists. No column may have
/// been seen before the call. It takes no memory.
pub(crate) fn search_part<'a, C: Chooser>(
    looks: &mut Looks<'a>,
    part: u32,
    query: &Asked<'_>,
    tokens: &[u32],
    set: Option<&TokenSet>,
    sums: &[u64],
    columns: &mut Columns,
    candidates: &mut Candidates,
    order: ColumnOrder<'_>,
    top: &mut FirstColumns<'a>,
    chooser: &C,
)
    requires part { part < length looks.old.version.parts }
    requires few { length tokens.now ≤ 4194304 }
    requires tokens { tokens.now ≡ (searched query.now (part_at looks.old.version.parts part)).query }
    requires set { IfSome set (λ set. IsSetOf set.now tokens.now) }
    requires sums { AreSums (lengths_of (segment_at looks.old.version.parts part) tokens.now) sums.now }
    requires distinct { IsDistinct bytes_eq query.now.keys }
    requires some { 0 < query.now.k }
    requires k { top.old.k ≡ query.now.k }
    requires wide { length (segment_at looks.old.version.parts part).sets ≤ length columns.old.tallies }
    requires ranks { AreRanks (segment_at looks.old.version.parts part).columns order.ranks.now }
    requires inverse { AreInverse order.ranks.now order.by_rank.now }
    requires titled { IfSome top.old.titled (λ titled. titled ≡ ranked (segment_at looks.old.version.parts part).columns order.by_rank.now) }
    requires kept { length columns.old.tallies ≤ candidates.old.room }
    requires clean { IsClean columns.old }
    requires room { looks_bound (part_at looks.old.version.parts part) tokens.now ≤ looks.old.spare }
    requires rows { top.old.rows ≡ best row_cmp query.now.k top.old.rows }
    ensures version { looks.new.version ≡ looks.old.version }
    ensures log { looks.new.log ≡ looks.old.log ++ (run (C.says chooser.now) query.now top.old.rows (searched query.now (part_at looks.old.version.parts part)) start).0 }
    ensures k { top.new.k ≡ top.old.k }
    ensures spare { looks.old.spare ≤ looks.new.spare + looks_bound (part_at looks.old.version.parts part) tokens.now }
    ensures wide { length columns.new.tallies ≡ length columns.old.tallies }
    ensures kept { candidates.new.room ≡ candidates.old.room }
    ensures rows { top.new.rows ≡ best row_cmp query.now.k (top.old.rows ++ known_rows query.now (searched query.now (part_at looks.old.version.parts part)) (run (C.says chooser.now) query.now top.old.rows (searched query.now (part_at looks.old.version.parts part)) start).1) }
{
    candidates.clear(u32::MAX);
    let lists = tokens.len() as u32;
    let mut read = 0;
    let mut most = 0;
    let mut witness = None;
    while read < lists {
        match next_look(
            looks,
            part,
            query,
            tokens,
            sums,
            read,
            columns,
            candidates,
            order,
            top,
            chooser,
            most,
            &mut witness,
        ) {
            None => return,
            Some(Look::Read { .. }) => {
                let list = looks.list(part, tokens[read as usize]);
                most = columns.count(list, most);
                read += 1;
                follow(candidates, columns, order.ranks, lists - read, list);
            }
            Some(Look::Probe { set: column, .. }) => {
                probe_column(looks, part, tokens, set, read, column, columns, order, top);
            }
        }
    }
    offer_rest(looks, part, query, columns, candidates, order, top);
}

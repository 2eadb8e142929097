//! The first k rows of a search.
ghost use Rattle.std.specs.Prelude.{◌≡◌, ◌<◌, ◌≤◌, ◌-◌, [], false, IfOk, IfSome, length, nat_le, option_map, slice_get, Some, take};
ghost use Rattle.std.specs.Ordering.{is_lt};
ghost use Rattle.lake_model.specs.Answer.{Row as RowOf, row_cmp};
ghost use Rattle.lake_model.specs.Sorting.{put_in_order};
ghost use Rattle.search_laws.specs.Select.{best};
ghost use Rattle.search_model.specs.Arrays.{titled_at};
ghost use Rattle.search_model.specs.Looks.{beats, row_with};
ghost use Rattle.search_model.specs.Ranks.{ranked, AreInverse, AreRanks};
ghost use Rattle.segment_core.specs.Versions.{segment_at};
ghost use Rattle.josie_search.specs.Open.{overlap_of};
ghost use Rattle.josie_search.specs.Rows.{row_of_lead};

use crate::row::Lead;
use column_set::{Row, Rows};
use no_memory::NoMemory;
use part_columns::row_of_column;
use segment_core::{ColumnOrder, Looks, RankedTitles};
use std::alloc::Global;
use std::marker::Model;
use topk_heap::{RankedTop, TopK};

/// The first k rows of the columns that were offered, or all of these if there are fewer. As long as they are columns of
/// one part, no two columns of which have the same titles, their ranks are kept in the place of rows, so that no name is
/// read to compare two. Its model is k, the rows, in order, and the titles by ranks while ranks are kept.
#[derive(Drop)]
pub(crate) struct FirstColumns<'a> {
    ranked: Option<RankedTop<'a>>,
    rows: TopK<'a>,
}

impl<'a> Model for FirstColumns<'a> {
    ghost use Rattle.std.specs.Prelude.{◌≡◌, [], IfSome};
    ghost use Rattle.josie_search.specs.Firsts.{first_rows, Firsts};

    ghost Value = { Firsts };

    ghost view = { λ f. first_rows f.ranked f.rows };

    ghost invariant = { λ f. IfSome f.ranked (λ ranked. (ranked.k ≡ f.rows.k) × (f.rows.rows ≡ [])) };
}

impl<'a> FirstColumns<'a> {
    /// Returns no rows, with room for k.
    pub(crate) fn new(alloc: Global, k: u32) -> Result<FirstColumns<'a>, NoMemory>
        requires low { 1 ≤ k }
        requires high { k ≤ 10000 }
        ensures k { IfOk result (λ first. first.k ≡ k) }
        ensures none { IfOk result (λ first. first.rows ≡ []) }
    {
        Ok(FirstColumns {
            ranked: Some(RankedTop::new(alloc, k)?),
            rows: TopK::new(alloc, k)?,
        })
    }

    /// Turns to another part, whose columns are offered from now on. If they have titles by ranks and no row is known yet,
    /// ranks are kept for them; else rows are kept from now on.
    pub(crate) fn enter(&mut self, titles: Option<RankedTitles<'a>>)
        ensures k { self.new.k ≡ self.old.k }
        ensures rows { self.new.rows ≡ self.old.rows }
        ensures titled { IfSome self.new.titled (λ titled. titles.entry ≡ Some titled) }
    {
        let Some(mut ranked) = self.ranked.take() else {
            return;
        };
        if ranked.is_empty() {
            if let Some(titles) = titles {
                ranked.begin(titles);
                self.ranked = Some(ranked);
            }
            return;
        }
        ranked.move_to(&mut self.rows);
    }

    /// Offers the row of a column with this overlap. It takes no memory.
    pub(crate) fn offer(
        &mut self,
        looks: &Looks<'a>,
        part: u32,
        order: ColumnOrder<'_>,
        column: u32,
        overlap: u32,
    )
        requires part { part < length looks.now.version.parts }
        requires column { column < length (segment_at looks.now.version.parts part).sets }
        requires ranks { AreRanks (segment_at looks.now.version.parts part).columns order.ranks.now }
        requires inverse { AreInverse order.ranks.now order.by_rank.now }
        requires titled { IfSome self.old.titled (λ titled. titled ≡ ranked (segment_at looks.now.version.parts part).columns order.by_rank.now) }
        ensures k { self.new.k ≡ self.old.k }
        ensures titled { self.new.titled ≡ self.old.titled }
        ensures rows { self.new.rows ≡ take self.old.k (put_in_order row_cmp (row_with overlap (titled_at (segment_at looks.now.version.parts part).columns column)) self.old.rows) }
    {
        match &mut self.ranked {
            Some(ranked) => ranked.offer(order.ranks[column as usize], overlap),
            None => offer_row(looks, part, column, overlap, &mut self.rows),
        }
    }

    /// Returns whether there are k rows.
    pub(crate) fn full(&self) -> bool
        ensures { result ≡ nat_le self.now.k (length self.now.rows) }
    {
        match &self.ranked {
            Some(ranked) => ranked.full(),
            None => self.rows.full(),
        }
    }

    /// Returns the overlap of the k-th row; `None` exactly if there are fewer. A row that does not come before it would not
    /// be kept.
    pub(crate) fn worst_overlap(&self) -> Option<u32>
        ensures overlap { result ≡ overlap_of (slice_get self.now.rows (self.now.k - 1)) }
        ensures left_out { (worst row : RowOf) → slice_get self.now.rows (self.now.k - 1) ≡ Some worst → is_lt (row_cmp row worst) ≡ false → take self.now.k (put_in_order row_cmp row self.now.rows) ≡ self.now.rows }
        ensures first { self.now.rows ≡ best row_cmp self.now.k self.now.rows }
    {
        match &self.ranked {
            Some(ranked) => ranked.worst_overlap(),
            None => overlap_of(self.rows.worst()),
        }
    }

    /// Returns whether the row of a lead comes before the k-th row, or there are fewer than k.
    pub(crate) fn comes_in(
        &self,
        looks: &Looks<'_>,
        part: u32,
        order: ColumnOrder<'_>,
        lead: Lead,
    ) -> bool
        requires part { part < length looks.now.version.parts }
        requires column { lead.column < length (segment_at looks.now.version.parts part).sets }
        requires ranks { AreRanks (segment_at looks.now.version.parts part).columns order.ranks.now }
        requires inverse { AreInverse order.ranks.now order.by_rank.now }
        requires titled { IfSome self.now.titled (λ titled. titled ≡ ranked (segment_at looks.now.version.parts part).columns order.by_rank.now) }
        ensures { result ≡ beats (slice_get self.now.rows (self.now.k - 1)) (row_of_lead (segment_at looks.now.version.parts part).columns lead) }
    {
        match &self.ranked {
            Some(ranked) => ranked.comes_in(order.ranks[lead.column as usize], lead.bound),
            None => is_before(looks, part, self.rows.worst(), lead),
        }
    }

    /// Returns the rows, in order. It takes no memory.
    pub(crate) fn into_rows(self) -> Rows<'a>
        ensures { result ≡ self.entry.rows }
    {
        let FirstColumns { ranked, mut rows } = self;
        if let Some(ranked) = ranked {
            ranked.move_to(&mut rows);
        }
        rows.into_rows()
    }
}

// Offers the row of a column with this overlap. The row is made only if the k-th row has no greater overlap.
fn offer_row<'a>(looks: &Looks<'a>, part: u32, column: u32, overlap: u32, top: &mut TopK<'a>)
    requires part { part < length looks.now.version.parts }
    requires column { column < length (segment_at looks.now.version.parts part).sets }
    ensures k { top.new.k ≡ top.old.k }
    ensures rows { top.new.rows ≡ take top.old.k (put_in_order row_cmp (row_with overlap (titled_at (segment_at looks.now.version.parts part).columns column)) top.old.rows) }
{
    if let Some(worst) = overlap_of(top.worst()) {
        if overlap < worst {
            return;
        }
    }
    top.offer(row_of_column(looks, part, column, overlap));
}

// Returns the overlap of a row, if there is one.
fn overlap_of(worst: Option<&Row<'_>>) -> Option<u32>
    ensures { result ≡ overlap_of (option_map (λ row. row.now) worst.entry) }
{
    match worst {
        None => None,
        Some(row) => Some(row.overlap),
    }
}

// Returns whether the row of a lead comes before the k-th row, or there is none.
fn is_before(looks: &Looks<'_>, part: u32, worst: Option<&Row<'_>>, lead: Lead) -> bool
    requires part { part < length looks.now.version.parts }
    requires column { lead.column < length (segment_at looks.now.version.parts part).sets }
    ensures { result ≡ beats (option_map (λ row. row.now) worst.entry) (row_of_lead (segment_at looks.now.version.parts part).columns lead) }
{
    let Some(worst) = worst else {
        return true;
    };
    if lead.bound != worst.overlap {
        return worst.overlap < lead.bound;
    }
    let row = row_of_column(looks, part, lead.column, lead.bound);
    row.order(worst).is_lt()
}

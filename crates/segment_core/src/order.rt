//! The columns of a segment in the order of names.
ghost use Rattle.std.specs.Prelude.{◌≡◌, ◌<◌, length};
ghost use Rattle.search_model.specs.Arrays.{titled_at};
ghost use Rattle.search_model.specs.Looks.{row_with};
ghost use Rattle.search_model.specs.Ranks.{ranked, AreRising};
ghost use Rattle.search_model.specs.Segment.{segment};
ghost use Rattle.std.specs.List.{All};

use crate::index::SegmentIndex;
use column_set::Row;
use std::marker::Model;

/// The columns of a segment in the order of their tables' names, their own names, their places and their numbers, where
/// names compare by their bytes. `ranks` has the rank of each column, from 0, by the column's number; `by_rank` has the
/// number of each column by its rank. Of two columns with the same overlap, the one with the lower rank comes first in
/// an answer.
#[derive(Clone, Copy)]
pub struct ColumnOrder<'a> {
    pub ranks: &'a [u32],
    pub by_rank: &'a [u32],
}

/// The titles of the columns of a segment by their ranks, if no two columns have the same: then, of two rows of these
/// columns with the same overlap, that of the lower rank comes first, and no name has to be read to tell. Its model is
/// the list of the columns by their ranks.
#[derive(Drop)]
pub struct RankedTitles<'a> {
    index: &'a SegmentIndex,
    by_rank: &'a [u32],
}

impl<'a> Model for RankedTitles<'a> {
    ghost use Rattle.std.specs.Prelude.{◌<◌, List, length};
    ghost use Rattle.std.specs.List.{All};
    ghost use Rattle.search_model.specs.Ranks.{ranked, AreRising};
    ghost use Rattle.search_model.specs.Segment.{segment, Titled};

    ghost Value = { List Titled };

    ghost view = { λ t. ranked (segment t.index.now).columns t.by_rank.now };

    ghost invariant = { λ t. All (λ column. column < length (segment t.index.now).sets) t.by_rank.now × AreRising (ranked (segment t.index.now).columns t.by_rank.now) };
}

impl<'a> RankedTitles<'a> {
    // Returns the titles of the columns of an index, which are numbered by their ranks in `by_rank`.
    pub(crate) fn new(index: &'a SegmentIndex, by_rank: &'a [u32]) -> RankedTitles<'a>
        requires within { All (λ column. column < length (segment index.now).sets) by_rank.now }
        requires rising { AreRising (ranked (segment index.now).columns by_rank.now) }
        ensures { result ≡ ranked (segment index.now).columns by_rank.now }
    {
        RankedTitles { index, by_rank }
    }

    /// Returns the row of the column of a rank with this overlap.
    pub fn row(&self, rank: u32, overlap: u32) -> Row<'a>
        requires { rank < length self.now }
        ensures row { result ≡ row_with overlap (titled_at self.now rank) }
        ensures rising { AreRising self.now }
    {
        let owner = self.index.owner(self.by_rank[rank as usize]);
        let table = self.index.tables()[owner.table as usize].table();
        Row {
            overlap,
            titles: table.titles(),
            place: owner.place,
        }
    }

    /// States that, of two of the columns with the same overlap, the row of that of the lower rank comes first.
    pub fn are_rising(&self)
        ensures { AreRising self.now }
    {
        let _ = &self.by_rank;
    }
}

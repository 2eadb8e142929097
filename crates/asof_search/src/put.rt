//! A table that a load or a replace put.
ghost use Rattle.std.specs.Prelude.{◌≡◌, nat_lt, None, Some};
ghost use Rattle.asof_search.specs.Puts.{has_ended, put_with, was_live};

use column_set::SharedTable;
use std::marker::Model;

/// A load or a replace: its position in the journal, counted from 1; a share of its table; and the position of the drop
/// or the replace that took the table away, if one did.
#[derive(Drop)]
pub(crate) struct Put {
    position: u64,
    table: SharedTable,
    end: Option<u64>,
}

impl Model for Put {
    ghost use Rattle.asof_search.specs.Puts.{PutOf, put_with};

    ghost Value = { PutOf };

    ghost view = { λ p. put_with p.position p.table p.end };
}

impl Put {
    /// Returns the put of a table at a position, which nothing took away.
    pub(crate) fn new(position: u64, table: SharedTable) -> Put
        ensures { result ≡ put_with position table None }
    {
        Put {
            position,
            table,
            end: None,
        }
    }

    /// Returns its position in the journal.
    pub(crate) fn position(&self) -> u64
        ensures { result ≡ self.now.position }
    {
        self.position
    }

    /// Returns its table.
    pub(crate) fn table(&self) -> &SharedTable
        ensures { result.now ≡ self.now.table }
    {
        &self.table
    }

    /// Returns whether its table was live after the first `asked` entries.
    pub(crate) fn was_live(&self, asked: u64) -> bool
        ensures { result ≡ was_live asked self.now }
    {
        self.position <= asked && !self.has_ended(asked)
    }

    // Returns whether the first `asked` entries took its table away.
    fn has_ended(&self, asked: u64) -> bool
        ensures { result ≡ has_ended asked self.now.end }
    {
        match self.end {
            Some(end) => end <= asked,
            None => false,
        }
    }

    /// Records that the table is taken away at a position.
    pub(crate) fn end_at(&mut self, position: u64)
        ensures { self.new ≡ put_with self.old.position self.old.table (Some position) }
    {
        self.end = Some(position);
    }
}

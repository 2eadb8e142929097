//! Pins with the index of each of their parts.
ghost use Rattle.std.specs.Prelude.{◌≡◌, [], map};
ghost use Rattle.segment_core.specs.Versions.{looks_with, tables_of};

use crate::index::SegmentIndex;
use crate::looks::Looks;
use crate::pin::Pin;
use crate::version::Version;
use search_model::Look;
use std::alloc::Global;
use std::boxed::Box;
use std::marker::Model;

// An index, and who keeps it.
#[derive(Drop)]
enum Held<'a> {
    BySegment(&'a SegmentIndex),
    Alone(Box<SegmentIndex>),
}

/// The index of a part: the one that the part's segment keeps, or, because another thread was giving one to the segment at
/// the same moment, one of its own. Its model is the list of the tables.
#[derive(Drop)]
pub struct PartIndex<'a> {
    held: Held<'a>,
}

impl<'a> Model for PartIndex<'a> {
    ghost use Rattle.std.specs.Prelude.{List};
    ghost use Rattle.lake_model.specs.Tables.{Table};
    ghost use Rattle.segment_core.specs.Indexed.{tables_under};

    ghost Value = { List Table };

    ghost view = { λ p. tables_under p.held };
}

impl<'a> PartIndex<'a> {
    /// Returns the index that a segment keeps. It allocates nothing.
    pub fn kept(index: &'a SegmentIndex) -> PartIndex<'a>
        ensures { result ≡ index.now }
    {
        PartIndex {
            held: Held::BySegment(index),
        }
    }

    /// Returns an index that no segment keeps. It allocates nothing.
    pub fn own(index: Box<SegmentIndex>) -> PartIndex<'a>
        ensures { result ≡ index.value }
    {
        PartIndex {
            held: Held::Alone(index),
        }
    }

    /// Returns whether a segment keeps the index. No contract says so.
    pub fn is_kept(&self) -> bool {
        match &self.held {
            Held::BySegment(_) => true,
            Held::Alone(_) => false,
        }
    }

    /// Returns the index.
    pub(crate) fn get(&self) -> &SegmentIndex
        ensures { result.now ≡ self.now }
    {
        match &self.held {
            Held::BySegment(index) => *index,
            Held::Alone(index) => index,
        }
    }
}

/// A pin with the index of each of its parts, so that it can be searched. It borrows the pin. Its model is the pin's.
#[derive(Drop)]
pub struct IndexedPin<'a> {
    version: &'a Version,
    indexes: Vec<PartIndex<'a>>,
}

impl<'a> Model for IndexedPin<'a> {
    ghost use Rattle.std.specs.Prelude.{◌≡◌, map};
    ghost use Rattle.segment_core.specs.Versions.{tables_of, VersionOf};

    ghost Value = { VersionOf };

    ghost view = { λ p. p.version.now };

    ghost invariant = { λ p. p.indexes.items ≡ map tables_of p.version.now.parts };
}

impl<'a> IndexedPin<'a> {
    /// Joins a pin with the indexes of its parts, in the order of the parts. It allocates nothing.
    pub fn new(pin: &'a Pin, indexes: Vec<PartIndex<'a>>) -> IndexedPin<'a>
        requires { indexes.items ≡ map tables_of pin.now.parts }
        ensures { result ≡ pin.now }
    {
        IndexedPin {
            version: pin.version(),
            indexes,
        }
    }

    /// Returns everything that a search may ask of the pin, with an empty log that has no room. It allocates nothing.
    pub fn looks(&self, alloc: Global) -> Looks<'_>
        ensures { result ≡ looks_with self.now [] 0 }
    {
        Looks::new(self.version, &self.indexes, Vec::new(alloc))
    }

    /// Returns the same with a log in the memory of an earlier one, whose looks are forgotten. It allocates nothing.
    pub fn looks_in(&self, mut log: Vec<Look>) -> Looks<'_>
        ensures { result ≡ looks_with self.now [] 0 }
    {
        log.clear();
        Looks::new(self.version, &self.indexes, log)
    }
}

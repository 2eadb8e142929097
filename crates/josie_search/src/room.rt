//! The memory that a search takes for the columns and the tokens of a part, which the next search uses again.
ghost use Rattle.std.specs.Prelude.{◌≡◌, ◌≤◌, [], length, IfOk, IfSome};
ghost use Rattle.segment_core.specs.Versions.{looks_with};
ghost use Rattle.josie_search.specs.Ready.{IsFree};
ghost use Rattle.token_set.specs.Bits.{IsSetOf};

use crate::asked::KeptSet;
use crate::candidates::Candidates;
use no_memory::NoMemory;
use part_columns::Columns;
use segment_core::{IndexedPin, Look, Looks};
use std::alloc::Global;
use std::marker::Model;

/// What a search keeps of each column of a part, for parts of up to `most` columns: a tally, a mark, and room for
/// candidates.
#[derive(Drop)]
pub(crate) struct Seats {
    pub most: u32,
    pub columns: Columns,
    pub candidates: Candidates,
}

impl Seats {
    /// Returns the kept seats if they serve for parts of up to `most` columns, or else new ones that do; the kept ones are
    /// let go first. No column of the seats was seen. Returns `Err(NoMemory)` if memory runs out.
    pub(crate) fn serving(alloc: Global, most: u32, kept: Option<Seats>) -> Result<Seats, NoMemory>
        requires { IfSome kept (λ seats. IsFree seats.most seats.columns seats.candidates) }
        ensures free { IfOk result (λ seats. IsFree seats.most seats.columns seats.candidates) }
        ensures wide { IfOk result (λ seats. most ≤ seats.most) }
    {
        if let Some(seats) = kept {
            if most <= seats.most {
                return Ok(seats);
            }
        }
        Seats::new(alloc, most)
    }

    // Returns seats for parts of up to `most` columns, none of which was seen.
    fn new(alloc: Global, most: u32) -> Result<Seats, NoMemory>
        ensures most { IfOk result (λ seats. seats.most ≡ most) }
        ensures free { IfOk result (λ seats. IsFree seats.most seats.columns seats.candidates) }
    {
        Ok(Seats {
            most,
            columns: Columns::new(alloc, most)?,
            candidates: Candidates::new(alloc, most)?,
        })
    }

    /// Forgets what was seen of the columns of a part. It takes a walk over the touched ones.
    pub(crate) fn clear(&mut self)
        requires wide { self.old.most ≤ length self.old.columns.tallies }
        requires kept { length self.old.columns.tallies ≤ self.old.candidates.room }
        ensures wide { length self.new.columns.tallies ≡ length self.old.columns.tallies }
        ensures free { IsFree self.new.most self.new.columns self.new.candidates }
    {
        self.columns.clear();
    }

    /// Gives the memory back for the next search, with the set that the tokens of a part were looked up in.
    pub(crate) fn into_room(self, set: Option<KeptSet>) -> SearchRoom
        requires free { IsFree self.most self.columns self.candidates }
        requires empty { IfSome set (λ set. IsSetOf set []) }
    {
        SearchRoom {
            seats: Some(self),
            set,
            log: None,
        }
    }
}

/// Memory that a search takes for the columns and the tokens of a part and for its looks, and that the next search may use
/// again, over any version of any lake. What was searched before makes no difference to an answer: no column that it holds
/// was seen, its set has no token, and a log is emptied before it is used. Contracts say nothing of how much memory it is.
#[derive(Drop)]
pub struct SearchRoom {
    seats: Option<Seats>,
    set: Option<KeptSet>,
    log: Option<Vec<Look>>,
}

impl Model for SearchRoom {
    ghost use Rattle.std.specs.Prelude.{⊤, [], IfSome};
    ghost use Rattle.josie_search.specs.Ready.{IsFree};
    ghost use Rattle.token_set.specs.Bits.{IsSetOf};

    ghost Value = { ⊤ };

    ghost view = { λ room. tt };

    ghost invariant = { λ room. IfSome room.seats (λ seats. IsFree seats.most seats.columns seats.candidates) × IfSome room.set (λ set. IsSetOf set []) };
}

impl SearchRoom {
    /// Returns room for no column and no token. It takes no memory.
    pub fn new() -> SearchRoom {
        SearchRoom {
            seats: None,
            set: None,
            log: None,
        }
    }

    /// Keeps the memory of a log for the next search, whose looks [`SearchRoom::looks`] makes.
    pub fn keep_log(&mut self, log: Vec<Look>) {
        self.log = Some(log);
    }

    /// Returns everything that a search may ask of a pin, with an empty log that has no room, in the memory of the kept log,
    /// if there is one. It allocates nothing.
    pub fn looks<'a>(&mut self, alloc: Global, pin: &'a IndexedPin<'_>) -> Looks<'a>
        ensures { result ≡ looks_with pin.now [] 0 }
    {
        match self.log.take() {
            Some(log) => pin.looks_in(log),
            None => pin.looks(alloc),
        }
    }

    /// Returns what it holds: seats of which no column was seen, and a set without tokens.
    pub(crate) fn into_parts(self) -> (Option<Seats>, Option<KeptSet>)
        ensures free { IfSome result.0 (λ seats. IsFree seats.most seats.columns seats.candidates) }
        ensures empty { IfSome result.1 (λ set. IsSetOf set []) }
    {
        (self.seats, self.set)
    }
}

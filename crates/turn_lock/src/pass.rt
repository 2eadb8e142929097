//! What a caller knows of the lock's history.
ghost use Rattle.std.specs.Prelude.{◌≡◌};

use crate::kept::Kept;
use crate::seats::LockSeat;
use std::marker::Model;

/// A caller's right to take the lock, and what it has seen of the history.
///
/// Contracts see it as its lock, its caller number, the callers that ended into it, the list that it has seen, and
/// whether it holds a turn. The list begins the lock's history, and no entry of the pass's callers follows it there:
/// until the pass adds one of its own, what it sees later begins with what it has seen now, and goes on with entries of
/// other callers.
///
/// The pass that comes with the lock is caller 0. It alone gives numbers, from 1 on, and also knows how many were given
/// and how many are left.
#[derive(Drop)]
pub struct Pass<V: Kept> {
    pub(crate) seat: LockSeat<V>,
    pub(crate) caller: u32,
    pub(crate) given: Option<u32>,
    pub(crate) left: u32,
}

impl<V: Kept> Model for Pass<V> {
    ghost use Rattle.turn_lock.specs.Passes.{Known, known, IsPass};

    ghost Value = { Known V.Entry };

    ghost view = { λ p. known p.seat.table_id p.caller p.seat.me.0.ended p.seat.me.0.seen p.seat.me.0.holds p.given p.left };

    ghost invariant = { λ p. IsPass V.caller_of p.seat p.caller p.given p.left };
}

impl<V: Kept> Pass<V> {
    /// Returns the pass's own caller number.
    pub fn caller(&self) -> u32
        ensures { result ≡ self.now.caller }
    {
        self.caller
    }
}

/// What a pass had seen when the note was made. It has no caller, takes no turn, and may be sent to any thread.
#[derive(Drop)]
pub struct Note<V: Kept> {
    pub(crate) seat: LockSeat<V>,
}

impl<V: Kept> Model for Note<V> {
    ghost use Rattle.std.specs.Prelude.{◌≡◌, [], None, false};
    ghost use Rattle.turn_lock.specs.Rule.{view_of};
    ghost use Rattle.turn_lock.specs.Passes.{Noted, noted};

    ghost Value = { Noted V.Entry };

    ghost view = { λ n. noted n.seat.table_id n.seat.me.0.seen };

    ghost invariant = { λ n. n.seat.me ≡ (view_of None [] None n.seat.me.0.seen [] false, []) };
}

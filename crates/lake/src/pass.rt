//! What a caller knows of a lake.
ghost use Rattle.std.specs.Prelude.{◌≡◌};
ghost use Rattle.lake_model.specs.Journal.{who_with};

use crate::held::{Bounds, Held};
use catalogue::Who;
use std::marker::Model;

/// A caller's right to a lake, and the beginning of its journal that the caller has seen, which is legal and within the
/// lake's limits. It holds no turn of the lock. Its model is the lock's pass.
#[derive(Drop)]
pub struct Pass<B: Bounds> {
    pub(crate) pass: turn_lock::Pass<Held<B>>,
}

impl<B: Bounds> Model for Pass<B> {
    ghost use Rattle.std.specs.Prelude.{◌≡◌, false};
    ghost use Rattle.turn_lock.specs.Passes.{Known};
    ghost use Rattle.lake_model.specs.Journal.{Entry};
    ghost use Rattle.lake.specs.Lawful.{IsLawful};

    ghost Value = { Known Entry };

    ghost view = { λ p. p.pass };

    ghost invariant = { λ p. (p.pass.holds ≡ false) × IsLawful B.limits p.pass.seen };
}

impl<B: Bounds> Pass<B> {
    /// Returns the pass's own caller number.
    pub fn caller(&self) -> u32
        ensures { result ≡ self.now.caller }
    {
        self.pass.caller()
    }

    // Returns who makes the entry of a command.
    pub(crate) fn who(&self, command: u64) -> Who
        ensures { result ≡ who_with self.now.caller command }
    {
        Who {
            caller: self.caller(),
            command,
        }
    }
}

/// What a pass had seen when the note was made.
#[derive(Drop)]
pub struct Note<B: Bounds> {
    pub(crate) note: turn_lock::Note<Held<B>>,
}

impl<B: Bounds> Model for Note<B> {
    ghost use Rattle.turn_lock.specs.Passes.{Noted};
    ghost use Rattle.lake_model.specs.Journal.{Entry};
    ghost use Rattle.lake.specs.Lawful.{IsLawful};

    ghost Value = { Noted Entry };

    ghost view = { λ n. n.note };

    ghost invariant = { λ n. IsLawful B.limits n.note.seen };
}

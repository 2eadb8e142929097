//! The smallest value that the lock can keep: a roll of the callers that signed it. The crate's tests use the lock with
//! it, and its must-fail edits break calls here where an edit of the generic lock could not express the fault.
ghost use Rattle.std.specs.Prelude.{◌≡◌, ◌<◌, ◌^◌, ◌++◌, ◌∷◌, [], length, true, false, OnOk, OnErr, MatchResult};
ghost use Rattle.turn_lock.specs.History.{Grows, Adds};
ghost use Rattle.turn_lock.specs.Passes.{after_seeing, callers_of, noted};
ghost use Rattle.turn_lock.specs.Roll.{signer_of};

use crate::kept::Kept;
use crate::lock::HistoryLock;
use crate::pass::{Note, Pass};
use crate::turn::Turn;
use no_memory::NoMemory;
use std::alloc::Global;
use std::sync::Wait;

/// The callers that signed, in order.
#[derive(Drop)]
pub(crate) struct Roll {
    signed: Vec<u32>,
}

impl Kept for Roll {
    type Entry = u32;

    ghost list = { λ roll. roll.signed.items };

    ghost caller_of = { signer_of };

    fn entries(&self) -> u64 {
        self.signed.len() as u64
    }
}

impl Roll {
    pub(crate) fn new(alloc: Global) -> Roll
        ensures { result.signed.items ≡ [] }
    {
        Roll {
            signed: Vec::new(alloc),
        }
    }

    /// Returns the callers that signed, in order.
    pub(crate) fn signed(&self) -> &[u32]
        ensures { result.now ≡ self.now.signed.items }
    {
        self.signed.as_slice()
    }

    /// Adds one caller, or returns `Err(NoMemory)`. A roll holds fewer than 2^62 callers.
    pub(crate) fn sign(&mut self, caller: u32) -> Result<(), NoMemory>
        requires { length self.old.signed.items < 2 ^ 62 }
        ensures ok { OnOk result (self.new.signed.items ≡ self.old.signed.items ++ caller ∷ []) }
        ensures err { OnErr result (self.new.signed.items ≡ self.old.signed.items) }
        ensures room { length self.new.signed.items < 2 ^ 62 }
    {
        if self.signed.len() >= (1 << 62) - 1 {
            return Err(NoMemory);
        }
        self.signed.push(caller)?;
        Ok(())
    }
}

/// Signs the roll that the lock holds.
pub(crate) fn sign<R: Wait>(
    rt: &R,
    lock: &HistoryLock<Roll>,
    pass: &mut Pass<Roll>,
) -> Result<(), NoMemory>
    requires lock { pass.old.lock ≡ lock.now }
    requires free { pass.old.holds ≡ false }
    ensures pass { pass.new ≡ after_seeing pass.old pass.new.seen false }
    ensures signs { MatchResult result (λ _. Adds signer_of (callers_of pass.old) pass.old.seen pass.old.caller pass.new.seen) (λ _. Grows signer_of (callers_of pass.old) pass.old.seen pass.new.seen) }
{
    let caller = pass.caller();
    let mut turn = lock.take(rt, pass);
    let done = turn.value().sign(caller);
    lock.give(pass, turn);
    done
}

/// Takes a turn with a roll that begins with all that the pass had seen.
pub(crate) fn take_roll<R: Wait>(
    rt: &R,
    lock: &HistoryLock<Roll>,
    pass: &mut Pass<Roll>,
) -> Turn<Roll>
    requires lock { pass.old.lock ≡ lock.now }
    requires free { pass.old.holds ≡ false }
    ensures holds { pass.new ≡ after_seeing pass.old result.value.signed.items true }
    ensures begins { Grows signer_of (callers_of pass.old) pass.old.seen result.value.signed.items }
{
    lock.take(rt, pass)
}

/// Makes a note of what the pass had seen before it signs.
pub(crate) fn note_and_sign<R: Wait>(
    rt: &R,
    lock: &HistoryLock<Roll>,
    pass: &mut Pass<Roll>,
) -> (Note<Roll>, Result<(), NoMemory>)
    requires lock { pass.old.lock ≡ lock.now }
    requires free { pass.old.holds ≡ false }
    ensures pass { pass.new ≡ after_seeing pass.old pass.new.seen false }
    ensures note { result.0 ≡ noted lock.now pass.old.seen }
{
    let note = lock.note(pass);
    let done = sign(rt, lock, pass);
    (note, done)
}

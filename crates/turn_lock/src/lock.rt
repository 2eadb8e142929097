//! The lock, and the calls on it.
ghost use Rattle.std.specs.Prelude.{◌≡◌, ◌⊎◌, ℕ, ◌<◌, ◌≤◌, ◌-◌, ◌^◌, IfOk, IfSome, IsSome, [], ◌∷◌, None, Some, true, false, length};
ghost use mathlib.Core.List.{IsPrefix};
ghost use Rattle.turn_lock.specs.History.{Grows, IsOfGiven, Follows, longer};
ghost use Rattle.turn_lock.specs.Passes.{known, noted, callers_of, after_seeing, after_ending, after_numbering, new_pass_of};

use crate::kept::Kept;
use crate::pass::{Note, Pass};
use crate::plays::{KeepsHistory, Noting, Numbering};
use crate::turn::Turn;
use crate::view::View;
use atomic_table::Table;
use no_memory::NoMemory;
use std::alloc::Global;
use std::marker::Model;
use std::sync::Wait;
use std::sync::atomic::AtomicU32;

/// A lock whose word counts the history of the value that it holds.
///
/// Contracts see it as the name of its table, which its passes and notes have as well. Only [`HistoryLock::new`] takes
/// memory, and only [`HistoryLock::take`] may wait. There is no promise of progress: a caller that waits may never get
/// a turn.
#[derive(Drop)]
pub struct HistoryLock<V: Kept> {
    pub(crate) table: Table<Option<V>, View<V::Entry>, (), KeepsHistory<V>, Global>,
    /// How many callers sleep, or are about to. While none does, a turn ends without a call of the system.
    pub(crate) sleepers: AtomicU32,
}

impl<V: Kept> Model for HistoryLock<V> {
    ghost use Rattle.std.specs.Prelude.{◌≡◌};
    ghost use Rattle.atomic_table.specs.Seated.{TableId};

    ghost Value = { TableId };

    ghost view = { λ l. l.table.shared.table_id };

    ghost invariant = { λ l. (l.table.shared.table_id.words ≡ 1) × (l.table.shared.table_id.slots ≡ 1) };
}

// Makes the content of the table's one slot.
fn one_slot<V: Kept>(alloc: Global, value: V) -> Result<Vec<Option<V>>, NoMemory>
    ensures { IfOk result (λ slots. slots.items ≡ Some value ∷ []) }
{
    let mut slots = Vec::with_capacity(alloc, 1)?;
    slots.push(Some(value))?;
    Ok(slots)
}

impl<V: Kept> HistoryLock<V> {
    /// Makes a lock around a value whose list is empty, for the given number of callers, which is at least 1. Also
    /// returns the pass of caller 0, which has seen nothing, holds no turn, and has the numbers from 1 on to give.
    ///
    /// It takes memory for one word and one slot, and returns `Err(NoMemory)` only if that runs out. The value is then
    /// dropped.
    pub fn new(alloc: Global, value: V, callers: u32) -> Result<(HistoryLock<V>, Pass<V>), NoMemory>
        requires callers { 1 ≤ callers }
        requires empty { V.list value ≡ [] }
        ensures { IfOk result (λ made. made.1 ≡ known made.0 0 [] [] false (Some 1) (callers - 1)) }
    {
        let slots = one_slot(alloc, value)?;
        let Ok((table, seat)) = Table::new(alloc, &[0], slots, &()) else {
            return Err(NoMemory);
        };
        Ok((
            HistoryLock {
                table,
                sleepers: AtomicU32::new(0),
            },
            Pass {
                seat,
                caller: 0,
                given: Some(1),
                left: callers - 1,
            },
        ))
    }

    /// Waits until no pass holds a turn, then takes one.
    ///
    /// The value's list begins with all that the pass had seen, and goes on with entries of other callers. The pass has
    /// now seen the whole list. If two callers wait, either may be first.
    pub fn take<R: Wait>(&self, rt: &R, pass: &mut Pass<V>) -> Turn<V>
        requires lock { pass.old.lock ≡ self.now }
        requires free { pass.old.holds ≡ false }
        ensures holds { pass.new ≡ after_seeing pass.old (V.list result.value) true }
        ensures others { Grows V.caller_of (callers_of pass.old) pass.old.seen (V.list result.value) }
    {
        Turn {
            value: self.wait(rt, &mut pass.seat),
        }
    }

    /// Gives the turn back, with a value whose list is the one that was taken, either unchanged or with one more entry
    /// of the pass's own. The pass has then seen the new list.
    pub fn give(&self, pass: &mut Pass<V>, turn: Turn<V>)
        requires lock { pass.old.lock ≡ self.now }
        requires holds { pass.old.holds ≡ true }
        requires list { Follows V.caller_of pass.old.caller pass.old.seen (V.list turn.value) }
        requires room { length (V.list turn.value) < 2 ^ 62 }
        ensures { pass.new ≡ after_seeing pass.old (V.list turn.value) false }
    {
        let Turn { value } = turn;
        let count = value.entries();
        self.put_back(&mut pass.seat, value, count);
        self.wake();
    }

    /// Makes a note of what the pass has seen.
    pub fn note(&self, pass: &mut Pass<V>) -> Note<V>
        requires { pass.old.lock ≡ self.now }
        ensures pass { pass.new ≡ pass.old }
        ensures note { result ≡ noted self.now pass.old.seen }
    {
        Note {
            seat: self.table.shared.split_seat::<Noting>(&mut pass.seat),
        }
    }

    /// Extends what the pass has seen to what the note has, if that is more.
    ///
    /// One of the two lists begins the other. What the pass sees in addition is of other callers.
    pub fn meet(&self, pass: &mut Pass<V>, note: Note<V>)
        requires { (pass.old.lock ≡ self.now) × (note.lock ≡ self.now) }
        ensures longer { pass.new ≡ after_seeing pass.old (longer pass.old.seen note.seen) pass.old.holds }
        ensures others { Grows V.caller_of (callers_of pass.old) pass.old.seen pass.new.seen }
        ensures begins { IsPrefix note.seen pass.new.seen }
        ensures one { IsPrefix pass.old.seen note.seen ⊎ IsPrefix note.seen pass.old.seen }
    {
        let Note { seat: noted } = note;
        self.join(&mut pass.seat, noted);
    }

    /// Returns how many caller numbers are left to give. Only the pass that came with the lock has any.
    ///
    /// For that pass the contract also states that all entries it has seen are of numbers that were given.
    pub fn left(&self, pass: &Pass<V>) -> u32
        requires { pass.now.lock ≡ self.now }
        ensures left { result ≡ pass.now.left }
        ensures given { (count : ℕ) → pass.now.given ≡ Some count → IsOfGiven V.caller_of count pass.now.seen }
    {
        pass.left
    }

    /// Makes a pass with the next caller number, which has seen as much as this one and holds no turn. Only the pass
    /// that came with the lock can give it, while numbers are left.
    pub fn new_pass(&self, pass: &mut Pass<V>) -> Pass<V>
        requires lock { pass.old.lock ≡ self.now }
        requires left { IsSome pass.old.given × (0 < pass.old.left) }
        ensures { IfSome pass.old.given (λ number. (pass.new ≡ after_numbering pass.old number) × (result ≡ new_pass_of pass.old number)) }
    {
        let Some(number) = pass.given else {
            unreachable!()
        };
        let seat = self.table.shared.split_seat::<Numbering>(&mut pass.seat);
        pass.given = Some(number + 1);
        pass.left -= 1;
        Pass {
            seat,
            caller: number,
            given: None,
            left: 0,
        }
    }

    /// Ends another pass into this one, which has then seen the longer of what the two had seen, and has the other's
    /// callers from then on.
    ///
    /// One of the two lists begins the other. What this pass sees in addition is of callers other than those it had
    /// before, and what follows the other's list is of callers other than the other's.
    pub fn end(&self, pass: &mut Pass<V>, other: Pass<V>)
        requires lock { (pass.old.lock ≡ self.now) × (other.lock ≡ self.now) }
        requires free { (other.holds ≡ false) × (other.given ≡ None) }
        ensures both { pass.new ≡ after_ending pass.old other }
        ensures others { Grows V.caller_of (callers_of pass.old) pass.old.seen pass.new.seen }
        ensures theirs { Grows V.caller_of (callers_of other) other.seen pass.new.seen }
        ensures one { IsPrefix pass.old.seen other.seen ⊎ IsPrefix other.seen pass.old.seen }
    {
        let Pass { seat: ended, .. } = other;
        self.join(&mut pass.seat, ended);
    }
}

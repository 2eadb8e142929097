//! The steps of the lock on a bare seat of its table.
ghost use Rattle.std.specs.Prelude.{◌≡◌, ◌<◌, ◌*◌, ◌%◌, ◌^◌, IfSome, IfNone, [], ◌∷◌, None, Some, true, false, length};
ghost use Rattle.turn_lock.specs.Rule.{joined_view, settled_view, holding_view, free_view, IsTold};
ghost use Rattle.turn_lock.specs.Passes.{FollowsOwn, HasWon, Offers};

use crate::kept::Kept;
use crate::lock::HistoryLock;
use crate::plays::{Commit, Meeting, Peek, Release, Take};
use crate::view::View;
use atomic_table::Seat;
use std::hint;
use std::sync::Wait;
use std::sync::atomic::Ordering;

/// How often a caller looks at a lock that is held before it sleeps. A turn is over after a microsecond or two, which is the
/// time of about this many looks; to sleep and to be woken takes many times as long.
const LOOKS: u32 = 1_000;

/// A seat of the lock's table.
pub(crate) type LockSeat<V> = Seat<Option<V>, View<<V as Kept>::Entry>>;

impl<V: Kept> HistoryLock<V> {
    // Tries until the lock is won.
    pub(crate) fn wait<R: Wait>(&self, rt: &R, seat: &mut LockSeat<V>) -> V
        requires lock { seat.old.table_id ≡ self.now }
        requires free { (seat.old.me.1 ≡ []) × (seat.old.me.0.earlier ≡ []) }
        ensures lock { seat.new.table_id ≡ seat.old.table_id }
        ensures won { HasWon V.list V.caller_of seat.old.me.0 result seat.new.me }
    {
        for _ in rt.forever() {
            let found = self.look();
            if found % 2 == 1 {
                self.sleep(rt, (found % (1 << 32)) as u32);
            } else if let Some(value) = self.try_take(seat, found) {
                return value;
            }
        }
        unreachable!()
    }

    // Sleeps if the low half of the word is still as it was found, until a wake.
    //
    // No wake is missed: whoever frees the lock changes the word before it counts the sleepers, so either it counts this
    // one, or this one finds the word changed.
    fn sleep<R: Wait>(&self, rt: &R, found: u32) {
        self.sleepers.fetch_add(1, Ordering::SeqCst);
        self.table.shared.park(rt, 0, found);
        self.sleepers.fetch_sub(1, Ordering::SeqCst);
    }

    // Wakes one sleeper, if there is any.
    pub(crate) fn wake(&self) {
        if self.sleepers.load(Ordering::SeqCst) > 0 {
            self.table.shared.wake_one(0);
        }
    }

    // Returns the word as soon as it shows that the lock is free, or, after a while, even if it does not.
    fn look(&self) -> u64 {
        for _ in 0..LOOKS {
            let found = self.table.shared.peek(0);
            if found % 2 == 0 {
                return found;
            }
            hint::spin_loop();
        }
        self.table.shared.peek(0)
    }

    // Takes the lock and the value, if the word is still the even one that was found.
    fn try_take(&self, seat: &mut LockSeat<V>, found: u64) -> Option<V>
        requires lock { seat.old.table_id ≡ self.now }
        requires even { found % 2 ≡ 0 }
        requires free { (seat.old.me.1 ≡ []) × (seat.old.me.0.earlier ≡ []) }
        ensures lock { seat.new.table_id ≡ seat.old.table_id }
        ensures some { IfSome result (λ value. HasWon V.list V.caller_of seat.old.me.0 value seat.new.me) }
        ensures none { IfNone result (seat.new.me ≡ seat.old.me) }
    {
        let now = self
            .table
            .shared
            .compare_exchange::<Take<V>>(seat, 0, found, found + 1);
        if now != found {
            return None;
        }
        self.table.shared.exchange(seat, 0, None)
    }

    // Puts the value into the slot in hand, adds its new entry to the history, and frees the lock.
    pub(crate) fn put_back(&self, seat: &mut LockSeat<V>, value: V, count: u64)
        requires lock { seat.old.table_id ≡ self.now }
        requires holds { (seat.old.me.0.holds ≡ true) × (seat.old.me.1 ≡ (0, None) ∷ []) }
        requires list { FollowsOwn V.caller_of seat.old.me.0 (V.list value) }
        requires count { (count ≡ length (V.list value)) × (count < 2 ^ 62) }
        ensures lock { seat.new.table_id ≡ seat.old.table_id }
        ensures free { seat.new.me ≡ (free_view (holding_view seat.old.me.0 (V.list value)), []) }
    {
        self.table.shared.exchange(seat, 0, Some(value));
        self.commit(seat, count);
        self.table.shared.store::<Release<V>>(seat, 0, 2 * count);
    }

    // Adds to the history the one entry that the list of the value in hand has beyond it, if there is one.
    fn commit(&self, seat: &mut LockSeat<V>, count: u64)
        requires lock { seat.old.table_id ≡ self.now }
        requires hand { Offers V.list V.caller_of count seat.old.me }
        requires room { count < 2 ^ 62 }
        ensures lock { seat.new.table_id ≡ seat.old.table_id }
        ensures whole { (value : V) → seat.old.me.1 ≡ (0, Some value) ∷ [] → seat.new.me ≡ (holding_view seat.old.me.0 (V.list value), (0, Some value) ∷ []) }
    {
        let found = self.table.shared.load::<Peek<V>>(seat, 0);
        if found == 2 * count + 1 {
            return;
        }
        self.table.shared.store::<Commit<V>>(seat, 0, 2 * count + 1);
    }

    // Lets one seat take over what another has seen, and its callers. The look that follows shows how the two lists
    // relate.
    pub(crate) fn join(&self, seat: &mut LockSeat<V>, other: LockSeat<V>)
        requires lock { (seat.old.table_id ≡ self.now) × (other.table_id ≡ self.now) }
        requires free { (other.me.1 ≡ []) × (other.me.0.holds ≡ false) × (other.me.0.given ≡ None) }
        ensures lock { seat.new.table_id ≡ seat.old.table_id }
        ensures joined { seat.new.me ≡ (settled_view (joined_view seat.old.me.0 other.me.0), seat.old.me.1) }
        ensures told { IsTold V.caller_of (joined_view seat.old.me.0 other.me.0) }
    {
        self.table.shared.join_seat::<Meeting>(seat, other);
        self.table.shared.load::<Peek<V>>(seat, 0);
    }
}

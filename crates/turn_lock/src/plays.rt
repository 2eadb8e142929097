//! The rule of the lock's table, and the kinds of step on it. Each type here names one of them, and has no values.
use crate::kept::Kept;
use crate::view::View;
use atomic_table::{Join, Play, Split, TableRule};
use std::marker::PhantomData;

/// The history rule.
pub(crate) struct KeepsHistory<V> {
    value: PhantomData<V>,
}

impl<V: Kept> TableRule<Option<V>, View<V::Entry>, ()> for KeepsHistory<V> {
    ghost use Rattle.turn_lock.specs.Rule.{HistoryRule, opening_view};

    ghost holds = { λ _. HistoryRule V.list V.caller_of };

    ghost first = { λ _. opening_view };
}

/// A look at the word, from which the seat learns what the rule says of its own view.
pub(crate) struct Peek<V> {
    value: PhantomData<V>,
}

impl<V: Kept> Play<Option<V>, View<V::Entry>> for Peek<V> {
    ghost use Rattle.turn_lock.specs.Rule.{Peeks};

    ghost then = { Peeks V.list V.caller_of };
}

/// The lock is taken, or nothing changes.
pub(crate) struct Take<V> {
    value: PhantomData<V>,
}

impl<V: Kept> Play<Option<V>, View<V::Entry>> for Take<V> {
    ghost use Rattle.turn_lock.specs.Rule.{Takes};

    ghost then = { Takes V.list V.caller_of };
}

/// The history becomes the list of the value in hand.
pub(crate) struct Commit<V> {
    value: PhantomData<V>,
}

impl<V: Kept> Play<Option<V>, View<V::Entry>> for Commit<V> {
    ghost use Rattle.turn_lock.specs.Rule.{Commits};

    ghost then = { Commits V.list V.caller_of };
}

/// The value goes back into the slot, and the lock becomes free.
pub(crate) struct Release<V> {
    value: PhantomData<V>,
}

impl<V: Kept> Play<Option<V>, View<V::Entry>> for Release<V> {
    ghost use Rattle.turn_lock.specs.Rule.{Releases};

    ghost then = { Releases V.list V.caller_of };
}

/// A note of what was seen is split off.
pub(crate) struct Noting;

impl<E> Split<View<E>> for Noting {
    ghost use Rattle.turn_lock.specs.Rule.{note_view};

    ghost left = { λ v. v };

    ghost right = { note_view };
}

/// A new seat gets the next caller number.
pub(crate) struct Numbering;

impl<E> Split<View<E>> for Numbering {
    ghost use Rattle.turn_lock.specs.Rule.{giving_view, numbered_view};

    ghost left = { giving_view };

    ghost right = { numbered_view };
}

/// One seat takes over what another has seen, and its callers.
pub(crate) struct Meeting;

impl<E> Join<View<E>> for Meeting {
    ghost use Rattle.turn_lock.specs.Rule.{joined_view, spent_view};

    ghost both = { joined_view };

    ghost spent = { spent_view };
}

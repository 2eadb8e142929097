//! Laws of histories, for crates that build on the lock. Each function here does nothing: its contract is a law about
//! the lists of any value that a lock may keep. Proofs cite the lemmas from which these follow, in
//! `proofs/Histories.antt`.
ghost use Rattle.turn_lock.specs.Laws.{GrowthIsReflexive, GrowthIsTransitive, GrowthIsOfFewerCallers, GrowthIsABeginning, GrowthByAnEntry, GrowthBetweenBeginnings, GrowthKeepsEntries, AdditionKeepsEntries};

use crate::kept::Kept;

/// A list that stayed the same has grown, by nothing.
pub fn growth_is_reflexive<V: Kept>()
    ensures { GrowthIsReflexive V.caller_of }
{}

/// A list that has grown twice has grown.
pub fn growth_is_transitive<V: Kept>()
    ensures { GrowthIsTransitive V.caller_of }
{}

/// A list that has grown by entries of callers other than the given ones has also grown so for fewer of these callers.
pub fn growth_is_of_fewer_callers<V: Kept>()
    ensures { GrowthIsOfFewerCallers V.caller_of }
{}

/// A list that has grown begins with what it was before.
pub fn growth_is_a_beginning<V: Kept>()
    ensures { GrowthIsABeginning V.caller_of }
{}

/// An entry of another caller is growth.
pub fn growth_by_an_entry<V: Kept>()
    ensures { GrowthByAnEntry V.caller_of }
{}

/// Of two beginnings of one list, the longer one grows from the shorter one as the whole list does.
pub fn growth_between_beginnings<V: Kept>()
    ensures { GrowthBetweenBeginnings V.caller_of }
{}

/// A list that has grown has the same entries of each of the given callers as before, in the same order.
pub fn growth_keeps_entries<V: Kept>()
    ensures { GrowthKeepsEntries V.caller_of }
{}

/// A list to which an entry was added has the same entries of each of the given callers as before, in the same order,
/// and then the added entry if it is that caller's.
pub fn addition_keeps_entries<V: Kept>()
    ensures { AdditionKeepsEntries V.caller_of }
{}

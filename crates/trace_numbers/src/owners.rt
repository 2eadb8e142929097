//! Which command made the entry at each position.
ghost use Rattle.std.specs.Prelude.{◌≡◌, ◌≤◌, ◌-◌, ◌&&◌, List, IfOk, IfSome, false, is_some, length, map, nat_lt, replicate, slice_set, true};
ghost use Rattle.std.specs.List.{list_all};
ghost use Rattle.trace_laws.specs.Passing.{are_apart, is_filled};
ghost use Rattle.trace_laws.specs.Rebuilt.{Hinted};
ghost use Rattle.trace_laws.specs.Verdict.{counted};
ghost use Rattle.trace_hints.specs.Told.{hint_as};
ghost use Rattle.trace_numbers.specs.Positions.{AreOwners, accepted_of, own_of};
ghost use Rattle.trace_numbers.specs.Slots.{ArePut, IsFree};

use no_memory::NoMemory;
use std::alloc::Global;
use trace_hints::Hint;

/// The commands that made the entries of a journal.
#[derive(Debug, Drop)]
pub struct Owners {
    /// At `p - 1`, the index, counted from 0 in the order of the hints, of the one command that made the entry at
    /// position `p`.
    pub indices: Vec<usize>,
}

// Returns the owners of positions 1 to the number of accepted hints, or `None` if a position has no owner or two.
pub(crate) fn owners_of(alloc: Global, hints: &[Hint]) -> Result<Option<Owners>, NoMemory>
    ensures tests { (hinted : List Hinted) → map (λ h. h.hint) hinted ≡ map hint_as hints.now
        → IfOk result (λ found. is_some found ≡ (are_apart hinted && is_filled hinted (counted hinted))) }
    ensures owners { IfOk result (λ found. IfSome found (λ owners. AreOwners (map hint_as hints.now) owners.indices.items)) }
{
    let nobody = hints.len();
    let mut indices = vec![in alloc; nobody; count_accepted(hints)]?;
    if !put_all(&mut indices, hints) {
        return Ok(None);
    }
    if !are_taken(&indices, nobody) {
        return Ok(None);
    }
    Ok(Some(Owners { indices }))
}

/// Counts the hints of accepted updates.
pub(crate) fn count_accepted(hints: &[Hint]) -> usize
    ensures value { result ≡ accepted_of (map hint_as hints.now) }
    ensures few { result ≤ length hints.now }
{
    hints
        .iter()
        .filter(|hint| own_position(**hint).is_some())
        .count()
}

// Stores the index of each accepted hint at the position of its entry. Returns false at the first one whose position
// does not exist or already has an owner.
fn put_all(owners: &mut [usize], hints: &[Hint]) -> bool
    requires nobody { owners.old ≡ replicate (accepted_of (map hint_as hints.now)) (length hints.now) }
    ensures put { result ≡ true → ArePut (map hint_as hints.now) (length hints.now) owners.new }
    ensures refused { result ≡ false → (hinted : List Hinted) → map (λ h. h.hint) hinted ≡ map hint_as hints.now → (are_apart hinted && is_filled hinted (counted hinted)) ≡ false }
{
    for (index, hint) in hints.iter().enumerate() {
        if let Some(at) = own_position(*hint) {
            if !put_one(owners, at, index, hints.len()) {
                return false;
            }
        }
    }
    true
}

// Stores an index at a position. Returns false if the position does not exist or already has an owner.
fn put_one(owners: &mut [usize], at: u64, index: usize, nobody: usize) -> bool
    ensures put { result ≡ true → IsFree owners.old at nobody × (owners.new ≡ slice_set owners.old (at - 1) index) }
    ensures refused { result ≡ false → IsFree owners.old at nobody → ⊥ }
{
    if at == 0 || at > owners.len() as u64 || owners[(at - 1) as usize] != nobody {
        return false;
    }
    owners[(at - 1) as usize] = index;
    true
}

// Returns whether each position has an owner.
fn are_taken(owners: &[usize], nobody: usize) -> bool
    ensures { result ≡ list_all (λ owner. nat_lt owner nobody) owners.now }
{
    owners.iter().all(|owner| *owner < nobody)
}

// Returns the position of the answer's own entry.
fn own_position(hint: Hint) -> Option<u64>
    ensures { result ≡ own_of (hint_as hint) }
{
    match hint {
        Hint::Added { at } | Hint::PlannedAndAdded { at, .. } => Some(at),
        Hint::Wanting | Hint::Nowhere | Hint::Saw { .. } | Hint::PlannedAndSaw { .. } => None,
    }
}

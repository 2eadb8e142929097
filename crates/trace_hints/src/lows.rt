//! The last position of each lane; no later answer of the lane may have an earlier one.
ghost use Rattle.std.specs.Prelude.{◌≡◌, ◌<◌, ◌∷◌, [], None, Some, false, get_or, length, true};
ghost use Rattle.record_model.specs.Right.{own, saw};
ghost use Rattle.trace_laws.specs.Lows.{climbed, with_low};
ghost use Rattle.trace_laws.specs.Passing.{moments_of};
ghost use Rattle.trace_hints.specs.Told.{hint_as};

use crate::hint::Hint;

/// Adds one more answer of a lane, by storing the lane's new last position. Returns whether the positions rise; if they
/// do not, nothing is stored.
pub fn one_more(lows: &mut [u64], lane: usize, hint: Hint) -> bool
    requires lane { lane < length lows.old }
    ensures rises { result ≡ true → with_low lows.old lane (climbed (get_or lows.old lane 0) (moments_of (hint_as hint))) ≡ Some lows.new }
    ensures falls { result ≡ false → with_low lows.old lane (climbed (get_or lows.old lane 0) (moments_of (hint_as hint))) ≡ None }
    ensures kept { result ≡ false → lows.new ≡ lows.old }
{
    match climb(lows[lane], hint) {
        Some(low) => {
            lows[lane] = low;
            true
        }
        None => false,
    }
}

// Returns the last position of a lane after an answer with this hint, where `low` was the last one before it, or `None`
// if a position falls.
fn climb(low: u64, hint: Hint) -> Option<u64>
    ensures { result ≡ climbed low (moments_of (hint_as hint)) }
{
    match hint {
        Hint::Wanting | Hint::Nowhere => Some(low),
        Hint::Saw { at } => rise(low, at),
        Hint::Added { at } => rise_own(low, at),
        Hint::PlannedAndSaw { pinned, at } => rise(rise(low, pinned)?, at),
        Hint::PlannedAndAdded { pinned, at } => rise_own(rise(low, pinned)?, at),
    }
}

// Returns a position that an answer saw, if it is not below `low`.
fn rise(low: u64, at: u64) -> Option<u64>
    ensures { result ≡ climbed low (saw at ∷ []) }
{
    if low <= at { Some(at) } else { None }
}

// Returns the position of an answer's own entry, if it is above `low`.
fn rise_own(low: u64, at: u64) -> Option<u64>
    ensures { result ≡ climbed low (own at ∷ []) }
{
    if low < at { Some(at) } else { None }
}

//! A hash table of keys that are stored as texts: each slot is free (0) or holds the number of a key, counted from 1,
//! and the hash of a key leads to its slot.
//!
//! The hash has a fixed seed, so an adversary may choose keys that share a hash. A key is therefore put only into a
//! slot that a look-up finds within [`MOST_PROBES`] slots. If there is no such slot for a key, the caller has to find
//! its keys in another way.
ghost use Rattle.std.specs.Prelude.{◌≡◌, ◌<◌, ◌≤◌, drop, length, IfOk, IfSome};
ghost use Rattle.column_set.specs.Slots.{hash_of, home_of, next_of, AreFree, IsFree, IsSeat, IsSlotted};

use crate::texts::Texts;
use no_memory::NoMemory;
use std::alloc::Global;
use std::hash::{FoldHasher, Hasher};

/// The number of slots that a look-up visits at most. While half of the slots are free, keys that were not chosen to
/// collide take fewer, and one or two on average.
const MOST_PROBES: usize = 128;

/// The result of a look-up of a key.
pub enum Seat {
    /// The key is there.
    Taken,
    /// The key is not there, and this slot is free for it.
    Free(usize),
    /// The key is not there, and none of the slots visited is free.
    Crowded,
}

/// Returns the hash of a key. How few keys share a hash matters only for speed.
#[tactic(auto, unfolding(crate::specs::Slots::hash_of))]
pub fn hash_key(key: &str) -> u64
    ensures { result ≡ hash_of key.now }
{
    let mut hasher = FoldHasher::default();
    hasher.write(key.as_bytes());
    hasher.finish()
}

/// Returns the slot, of `size` slots, at which the look-up of a hash begins.
pub fn home(size: usize, hash: u64) -> usize
    requires { 0 < size }
    ensures value { result ≡ home_of size hash }
    ensures within { result < size }
{
    hash as usize & (size - 1)
}

/// Returns the slot that follows another, of `size` slots.
pub fn behind(size: usize, at: usize) -> usize
    requires { at < size }
    ensures value { result ≡ next_of size at }
    ensures within { result < size }
{
    (at + 1) & (size - 1)
}

/// Returns how many slots a look-up visits, besides the last one, if it begins at the home of a hash and ends at `at`, a
/// slot of `size`.
pub fn steps_to(size: usize, hash: u64, at: usize) -> u64
    requires { at < size }
    ensures { result < size }
{
    (at.wrapping_sub(home(size, hash)) & (size - 1)) as u64
}

/// Looks up a key among the keys from index `from` on, whose numbers are in the slots. Returns that it is there, or the
/// free slot for it, or that there is none.
pub fn seat_of(slots: &[u32], keys: &Texts, from: u32, key: &str, hash: u64) -> Seat
    requires slotted { IsSlotted (length slots.now) slots.now (drop from keys.now) (length (drop from keys.now)) }
    requires hashed { hash ≡ hash_of key.now }
    ensures { IsSeat slots.now (drop from keys.now) key.now (home_of (length slots.now) hash) result }
{
    let size = slots.len();
    if size == 0 {
        return Seat::Crowded;
    }
    let mut at = home(size, hash);
    for step in 0..MOST_PROBES {
        let number = slots[at];
        if number == 0 {
            return Seat::Free(at);
        }
        if keys.text_behind(from, number - 1) == key {
            return Seat::Taken;
        }
        at = behind(size, at);
    }
    Seat::Crowded
}

/// Returns the first free slot among those visited for a hash, or `None` if none is free.
pub fn free_slot(slots: &[u32], hash: u64) -> Option<usize>
    ensures { IfSome result (λ at. IsFree slots.now (home_of (length slots.now) hash) at) }
{
    let size = slots.len();
    if size == 0 {
        return None;
    }
    let mut at = home(size, hash);
    for probe in 0..MOST_PROBES {
        if slots[at] == 0 {
            return Some(at);
        }
        at = behind(size, at);
    }
    None
}

/// Returns slots that hold the numbers of the keys from index `from` on. There are as many slots as [`size_for`] says.
/// The result is `None` if too many keys share a hash.
pub fn slots_of(alloc: Global, keys: &Texts, from: u32) -> Result<Option<Vec<u32>>, NoMemory>
    requires { from ≤ length keys.now }
    ensures { IfOk result (λ made. IfSome made (λ slots. IsSlotted (length slots.items) slots.items (drop from keys.now) (length (drop from keys.now)))) }
{
    let count = keys.len() - from;
    let mut slots = free_slots(alloc, count)?;
    for i in 0..count {
        let Some(at) = free_slot(&slots, hash_key(keys.text_behind(from, i))) else {
            return Ok(None);
        };
        slots[at] = i + 1;
    }
    Ok(Some(slots))
}

/// Returns free slots for `count` keys.
pub fn free_slots(alloc: Global, count: u32) -> Result<Vec<u32>, NoMemory>
    ensures { IfOk result (λ slots. AreFree slots.items) }
{
    Ok(vec![in alloc; 0u32; size_for(count)]?)
}

/// Returns the number of slots for `count` keys: the least power of two above twice `count`, and at least eight.
fn size_for(count: u32) -> usize {
    (2 * count as usize + 1).next_power_of_two().max(8)
}

/// Returns the given slots of the keys from index `from` on if more than half of them are free, and otherwise a larger
/// table. The result is `None` if too many keys share a hash.
pub fn widened(
    alloc: Global,
    slots: Vec<u32>,
    keys: &Texts,
    from: u32,
) -> Result<Option<Vec<u32>>, NoMemory>
    requires from { from ≤ length keys.now }
    requires slotted { IsSlotted (length slots.items) slots.items (drop from keys.now) (length (drop from keys.now)) }
    ensures { IfOk result (λ made. IfSome made (λ slots. IsSlotted (length slots.items) slots.items (drop from keys.now) (length (drop from keys.now)))) }
{
    if slots.len() / 2 > (keys.len() - from) as usize {
        return Ok(Some(slots));
    }
    // The keys alone determine the slots, so the old slots can be freed before the new ones are allocated.
    drop(slots);
    slots_of(alloc, keys, from)
}

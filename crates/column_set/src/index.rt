//! An index that finds keys among texts.
ghost use Rattle.std.specs.Prelude.{◌≡◌, length, IfOk};
ghost use Rattle.lake_model.specs.Tables.{has_key};
ghost use Rattle.column_set.specs.Indexes.{IsIndexOf};
ghost use Rattle.column_set.specs.Slots.{IsSlotted};

use crate::slots::{Seat, hash_key, seat_of, slots_of};
use crate::sorted::{HashedPlace, hash_order, is_in_order};
use crate::texts::Texts;
use no_memory::NoMemory;
use std::alloc::Global;

/// An index that finds keys among distinct texts.
#[derive(Drop)]
pub enum KeyIndex {
    /// The numbers of the texts, in slots that their hashes lead to.
    Slots(Vec<u32>),
    /// The indices of the texts, sorted by another hash. This finds a key even if many texts share a hash in the slots.
    Sorted(Vec<HashedPlace>),
}

impl KeyIndex {
    /// Returns an index of these texts: slots, or, if too many texts share a hash there, their indices sorted by another
    /// hash.
    pub fn of(alloc: Global, keys: &Texts) -> Result<KeyIndex, NoMemory>
        ensures { IfOk result (λ index. IsIndexOf index keys.now) }
    {
        if let Some(slots) = slots_of(alloc, keys, 0)? {
            return Ok(KeyIndex::Slots(slots));
        }
        Ok(KeyIndex::Sorted(hash_order(alloc, keys, 0)?))
    }

    /// Returns whether the key is one of the indexed texts. It hashes the key and compares it with a few texts. With
    /// sorted indices it first compares as many hashes as their number has bits.
    pub fn has(&self, keys: &Texts, key: &str) -> bool
        requires { IsIndexOf self.now keys.now }
        ensures { result ≡ has_key keys.now key.now }
    {
        match self {
            KeyIndex::Slots(slots) => is_slotted(slots, keys, key),
            KeyIndex::Sorted(order) => is_in_order(keys, order, key),
        }
    }
}

// Returns whether the key is one of the texts, whose numbers are in the slots.
fn is_slotted(slots: &[u32], keys: &Texts, key: &str) -> bool
    requires { IsSlotted (length slots.now) slots.now keys.now (length keys.now) }
    ensures { result ≡ has_key keys.now key.now }
{
    match seat_of(slots, keys, 0, key, hash_key(key)) {
        Seat::Taken => true,
        Seat::Free(_) | Seat::Crowded => false,
    }
}

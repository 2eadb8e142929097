//! Lists of keys in one region.
ghost use Rattle.std.specs.Prelude.{◌≡◌, ◌+◌, ◌<◌, [], get_or, length, slice_index, sum_by, IfOk, IfSome};
ghost use Rattle.lake_model.specs.Tables.{has_key, overlap as overlap_of};
ghost use Rattle.column_set.specs.Indexes.{IsIndexOf};
ghost use Rattle.column_set.specs.Lists.{parts_of, AreLists};

use crate::index::KeyIndex;
use crate::texts::Texts;
use no_memory::NoMemory;
use std::alloc::Global;
use std::marker::Model;

/// Lists of keys: the keys of all lists, one list after another, and the index at which each list begins, followed by
/// the total number of keys. Its model is the list of the lists.
#[derive(Drop)]
pub struct KeyLists {
    keys: Texts,
    starts: Vec<u32>,
}

impl Model for KeyLists {
    ghost use Rattle.std.specs.Prelude.{List, ℕ};
    ghost use Rattle.column_set.specs.Indexes.{IsIndexOf};
    ghost use Rattle.column_set.specs.Lists.{parts_of, AreLists};

    ghost Value = { List (List (List ℕ)) };

    ghost view = { λ l. parts_of l.starts.items l.keys };

    ghost invariant = { λ l. AreLists l.starts.items l.keys };
}

impl KeyLists {
    /// Makes lists of these keys. Each list begins where the one before it ends.
    pub fn of(keys: Texts, starts: Vec<u32>) -> KeyLists
        requires { AreLists starts.items keys }
        ensures { result ≡ parts_of starts.items keys }
    {
        KeyLists { keys, starts }
    }

    /// Returns a copy of the keys of one list, with no spare capacity.
    pub fn copied(&self, alloc: Global, list: u32) -> Result<Texts, NoMemory>
        requires { list < length self.now }
        ensures { IfOk result (λ keys. keys ≡ get_or self.now list []) }
    {
        let size = self.size(list);
        let mut keys = Texts::with_room(alloc, size as usize, 0)?;
        for i in 0..size {
            keys.push(self.key(list, i))?;
        }
        Ok(keys)
    }

    /// Returns the number of lists.
    pub fn len(&self) -> usize
        ensures { result ≡ length self.now }
    {
        self.starts.len() - 1
    }

    /// Returns the number of keys in all lists together.
    pub fn key_count(&self) -> u64
        ensures { result ≡ sum_by length self.now }
    {
        self.keys.len() as u64
    }

    /// Returns the number of bytes in the keys of all lists together, or `None` only if it is 2^64 or more.
    pub fn byte_count(&self) -> Option<u64>
        ensures { IfSome result (λ count. count ≡ sum_by (λ keys. sum_by length keys) self.now) }
    {
        self.keys.byte_count()
    }

    /// Returns the number of keys in a list.
    pub fn size(&self, list: u32) -> u32
        requires { list < length self.now }
        ensures { result ≡ length (get_or self.now list []) }
    {
        let (from, to) = bounds(&self.starts, list);
        to - from
    }

    /// Returns a key of a list by its index, from 0, or an empty text past the last key.
    pub fn key(&self, list: u32, i: u32) -> &str
        requires { list < length self.now }
        ensures { result.now ≡ get_or (get_or self.now list []) i [] }
    {
        let (from, to) = bounds(&self.starts, list);
        if i >= to - from {
            return "";
        }
        self.keys.text(from + i)
    }

    /// Returns whether a list has the key. It walks over the list.
    pub fn has(&self, list: u32, key: &str) -> bool
        requires { list < length self.now }
        ensures { result ≡ has_key (get_or self.now list []) key.now }
    {
        for i in 0..self.size(list) {
            if self.key(list, i) == key {
                return true;
            }
        }
        false
    }

    /// Returns how many keys of a list are among the keys of `keys`, which are found by their index.
    pub fn overlap(&self, list: u32, keys: &Texts, index: &KeyIndex) -> u32
        requires there { list < length self.now }
        requires indexed { IsIndexOf index.now keys.now }
        ensures { result ≡ overlap_of (get_or self.now list []) keys.now }
    {
        let mut count = 0;
        for i in 0..self.size(list) {
            if index.has(keys, self.key(list, i)) {
                count += 1;
            }
        }
        count
    }
}

// Returns where a list begins among all keys, and where it ends.
fn bounds(starts: &[u32], list: u32) -> (u32, u32)
    requires { list + 1 < length starts.now }
    ensures from { result.0 ≡ slice_index starts.now list }
    ensures to { result.1 ≡ slice_index starts.now (list + 1) }
{
    (starts[list as usize], starts[list as usize + 1])
}

//! A filter of hashes.
ghost use Rattle.std.specs.Prelude.{◌≡◌, ◌<◌, ◌^◌, ℕ, IfOk, length, true};
ghost use Rattle.std.specs.List.{list_any};
ghost use Rattle.hash_directory.specs.Buckets.{are_set, is_set, may_have, AreIn};

use no_memory::NoMemory;
use std::alloc::Global;
use std::marker::Model;

/// A filter that shows of most hashes that are not in a list that they are not, and never denies one that is. Its model
/// is its words.
///
/// It is a blocked Bloom filter: Putze, Sanders and Singler, "Cache-, Hash-, and Space-Efficient Bloom Filters" (2007;
/// ACM Journal of Experimental Algorithmics 14, 2010). The range of all hashes is cut into equal parts with one word of
/// 64 bits each: a word for each 4 to 8 hashes, and at least two words. Each hash sets three bits of its word, whose
/// numbers are the last six bits of the hash, the six before them, and the six before those. So a look reads one word.
///
/// In a simulation with random hashes, 0.8 to 4 % of the hashes that were not in a list of 8 to 131,071 passed. In a
/// longer list, the first bits of a hash, which choose its word, are also among those that choose its bits, and more
/// pass: up to 8 % for lists of up to 16 million hashes, and up to 14 % for longer ones.
#[derive(Drop)]
pub struct HashFilter {
    shift: u32,
    words: Vec<u64>,
}

impl Model for HashFilter {
    ghost use Rattle.std.specs.Prelude.{◌<◌};
    ghost use Rattle.hash_directory.specs.Buckets.{filter_with, FilterOf};

    ghost Value = { FilterOf };

    ghost view = { λ f. filter_with f.shift f.words.items };

    ghost invariant = { λ f. f.shift < 32 };
}

impl HashFilter {
    /// Returns the filter of these hashes. It takes 1 to 2 bytes for each hash, and at least 16.
    pub fn of(alloc: Global, hashes: &[u32]) -> Result<HashFilter, NoMemory>
        requires { length hashes.now < 2 ^ 32 }
        ensures { IfOk result (λ filter. AreIn filter hashes.now) }
    {
        let mut filter = HashFilter::with_room(alloc, hashes.len() as u32)?;
        for hash in hashes {
            filter.add(*hash);
        }
        Ok(filter)
    }

    /// Returns whether the hash may be one of those in the filter.
    pub fn may_have(&self, hash: u32) -> bool
        ensures { result ≡ may_have self.now hash }
    {
        // `&` and not `&&`, so that no branch depends on the bits that were read: the processor could not foresee it.
        match self.words.get((hash >> self.shift) as usize) {
            Some(word) => has_bit(*word, hash)
                & has_bit(*word, hash >> 6)
                & has_bit(*word, hash >> 12),
            None => true,
        }
    }

    /// Returns whether any of these hashes may be one of those in the filter. No branch depends on what it reads.
    pub fn may_have_any(&self, hashes: &[u32]) -> bool
        ensures { result ≡ list_any (may_have self.now) hashes.now }
    {
        let mut any = false;
        for hash in hashes {
            any |= self.may_have(*hash);
        }
        any
    }

    // Returns an empty filter with room for `count` hashes.
    fn with_room(alloc: Global, count: u32) -> Result<HashFilter, NoMemory> {
        let shift = (count.leading_zeros() + 3).min(31);
        let words = vec![in alloc; 0; 1usize << (32 - shift)]?;
        Ok(HashFilter { shift, words })
    }

    // Adds a hash.
    fn add(&mut self, hash: u32)
        ensures added { may_have self.new hash ≡ true }
        ensures kept { (other : ℕ) → may_have self.old other ≡ true → may_have self.new other ≡ true }
    {
        let place = (hash >> self.shift) as usize;
        if place < self.words.len() {
            self.words[place] = with_bits(self.words[place], hash);
        }
    }
}

// Returns whether the bit is set whose number is the last six bits of `number`.
fn has_bit(word: u64, number: u32) -> bool
    ensures { result ≡ is_set word number }
{
    (word >> (number % 64)) & 1 == 1
}

// Sets the three bits of a hash.
fn with_bits(word: u64, hash: u32) -> u64
    ensures set { are_set result hash ≡ true }
    ensures kept { (other : ℕ) → are_set word other ≡ true → are_set result other ≡ true }
{
    with_bit(with_bit(with_bit(word, hash), hash >> 6), hash >> 12)
}

// Sets the bit whose number is the last six bits of `number`.
fn with_bit(word: u64, number: u32) -> u64
    ensures set { is_set result number ≡ true }
    ensures kept { (other : ℕ) → is_set word other ≡ true → is_set result other ≡ true }
{
    word | 1 << (number % 64)
}

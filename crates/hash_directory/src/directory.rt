//! A directory of sorted hashes.
ghost use Rattle.std.specs.Prelude.{◌≡◌, ◌<◌, ◌^◌, ℕ, List, IfOk, get_or, length};
ghost use Rattle.std.specs.List.{list_any};
ghost use Rattle.std.specs.List.Sorted.{IsNonDecreasingBy};
ghost use Rattle.hash_directory.specs.Buckets.{AreStarts, IsDirectoryOf, IsNear, IsStart, may_have};

use crate::filter::HashFilter;
use no_memory::NoMemory;
use std::alloc::Global;
use std::marker::Model;

/// A range of indices of a list, from 0: from `from` to the one before `to`.
#[derive(Clone, Copy, Debug, PartialEq, Eq)]
pub struct Near {
    pub from: usize,
    pub to: usize,
}

/// Narrows the search for a hash in a sorted list of hashes. Usually a filter shows that the hash is not there;
/// otherwise the directory gives the indices of the hashes in the same bucket. The buckets cut the range of all hashes
/// into equal parts, and there are a quarter to half as many of them as hashes. Its model is its arrays.
///
/// It takes 2 to 4 bytes for each hash, and at least 24. Its answers are right whatever the hashes are, but if many are
/// in one bucket, the indices are many.
#[derive(Drop)]
pub struct HashDirectory {
    filter: HashFilter,
    starts: Vec<u32>,
    shift: u32,
    count: usize,
}

impl Model for HashDirectory {
    ghost use Rattle.std.specs.Prelude.{◌<◌};
    ghost use Rattle.hash_directory.specs.Buckets.{directory_with, DirectoryOf};

    ghost Value = { DirectoryOf };

    ghost view = { λ d. directory_with d.filter d.starts.items d.shift d.count };

    ghost invariant = { λ d. d.shift < 32 };
}

impl HashDirectory {
    /// Returns the directory of these hashes. It takes a binary search for each bucket.
    pub fn of(alloc: Global, hashes: &[u32]) -> Result<HashDirectory, NoMemory>
        requires rising { IsNonDecreasingBy (λ n. n) hashes.now }
        requires few { length hashes.now < 2 ^ 32 }
        ensures { IfOk result (λ directory. IsDirectoryOf hashes.now directory) }
    {
        let filter = HashFilter::of(alloc, hashes)?;
        let shift = ((hashes.len() as u32).leading_zeros() + 2).min(31);
        let starts = starts_of(alloc, hashes, shift)?;
        Ok(HashDirectory {
            filter,
            starts,
            shift,
            count: hashes.len(),
        })
    }

    /// Returns whether any of these hashes may be in the list, as far as the filter shows.
    pub fn may_have_any(&self, hashes: &[u32]) -> bool
        ensures { result ≡ list_any (may_have self.now.filter) hashes.now }
    {
        self.filter.may_have_any(hashes)
    }

    /// Returns the range of indices outside of which the hash is not in the list.
    pub fn near(&self, hash: u32) -> Near
        ensures { (hashes : List ℕ) → IsDirectoryOf hashes self.now → IsNear hashes hash result.from result.to }
    {
        if !self.filter.may_have(hash) {
            return Near { from: 0, to: 0 };
        }
        self.bucket(hash)
    }

    /// Returns the same without asking the filter, which takes one read less if the hash is in the list, and then gives
    /// the same range.
    pub fn bucket(&self, hash: u32) -> Near
        ensures { (hashes : List ℕ) → IsDirectoryOf hashes self.now → IsNear hashes hash result.from result.to }
    {
        let bucket = (hash >> self.shift) as usize;
        let from = start_at(&self.starts, bucket, 0);
        let to = start_at(&self.starts, bucket + 1, self.count);
        Near { from, to }
    }
}

// Returns, for each bucket, the index of the first hash that is not in an earlier bucket.
fn starts_of(alloc: Global, hashes: &[u32], shift: u32) -> Result<Vec<u32>, NoMemory>
    requires narrow { shift < 32 }
    requires few { length hashes.now < 2 ^ 32 }
    requires rising { IsNonDecreasingBy (λ n. n) hashes.now }
    ensures { IfOk result (λ starts. AreStarts shift hashes.now starts.items) }
{
    let buckets = 1u64 << (32 - shift);
    let mut starts = Vec::with_capacity(alloc, buckets as usize)?;
    for bucket in 0..buckets {
        starts.push(start_of(hashes, shift, bucket))?;
    }
    Ok(starts)
}

// Returns the index of the first hash that is not in a bucket before this one.
fn start_of(hashes: &[u32], shift: u32, bucket: u64) -> u32
    requires narrow { shift < 32 }
    requires few { length hashes.now < 2 ^ 32 }
    requires rising { IsNonDecreasingBy (λ n. n) hashes.now }
    ensures { IsStart shift hashes.now bucket result }
{
    hashes.partition_point(|hash| u64::from(*hash >> shift) < bucket) as u32
}

// Returns where a bucket begins, or `other` if there is no such bucket.
fn start_at(starts: &[u32], bucket: usize, other: usize) -> usize
    ensures { result ≡ get_or starts.now bucket other }
{
    match starts.get(bucket) {
        Some(start) => *start as usize,
        None => other,
    }
}

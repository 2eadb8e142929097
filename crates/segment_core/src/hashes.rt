//! The tokens of a segment in the order of the hashes of their keys.
ghost use Rattle.std.specs.Prelude.{◌≡◌, ◌∷◌, ◌<◌, ◌^◌, ℕ, List, false, length, map, IfNone, IfOk, IfSome};
ghost use Rattle.std.specs.Cmp.Lexicographic.{slice_cmp};
ghost use Rattle.std.specs.List.{All};
ghost use Rattle.std.specs.List.Sorted.{IsNonDecreasingBy, IsPermutation, IsSortedByKey};
ghost use Rattle.std.specs.Ordering.{nat_cmp};
ghost use Rattle.lake_model.specs.Tables.{Table};
ghost use Rattle.hash_directory.specs.Buckets.{IsNear};
ghost use Rattle.text_region.specs.Spans.{IsSpan, KeepsSpans};
ghost use Rattle.segment_core.specs.Hashes.{all_keyed, entry_hash, hash_of, keyed_at, keyed_from, keyed_in, sorted_by, token_hash, AreInOrder, AreKeyed, AreKeyedTokens, IsByHash, IsSplit};

use column_set::sip_hash;
use front_sort::{FrontOrder, sort_by_fronts};
use hash_directory::{HashDirectory, Near};
use no_memory::NoMemory;
use std::alloc::Global;
use std::cmp::Ordering;
use std::marker::Model;
use text_region::{Region, Span};

/// The most entries of a bucket of which the lower ones are counted to find a hash. Few buckets have more than ten.
const MOST_COUNTED: usize = 16;

/// A token of a part, with the hash of its key and where the key is in the region of the keys.
#[derive(Clone, Copy)]
pub struct HashedToken {
    hash: u32,
    /// The number of the token.
    pub token: u32,
    key: Span,
}

impl HashedToken {
    /// Returns a token with the hash of its key, which it puts into the region.
    pub fn new(token: u32, key: &str, keys: &mut Region) -> Result<HashedToken, NoMemory>
        ensures kept { KeepsSpans keys.old keys.new }
        ensures span { IfOk result (λ entry. IsSpan keys.new entry.key) }
        ensures key { IfOk result (λ entry. keyed_in keys.new entry ≡ keyed_from (hash_of key.now) token key.now) }
    {
        keys.reserve(key.len())?;
        Ok(HashedToken {
            hash: hash_key(key),
            token,
            key: keys.put(key),
        })
    }
}

/// The tokens of a part with their keys, sorted by the hashes of the keys and then by their bytes, with a directory of
/// the hashes. It has its own copy of each key: in its table, a key would lie behind two more reads, which mostly are
/// cache misses. Its model is the list of the tokens, each with its key and the hash of that.
#[derive(Drop)]
pub struct HashOrder {
    entries: Vec<HashedToken>,
    keys: Region,
    directory: HashDirectory,
}

impl Model for HashOrder {
    ghost use Rattle.std.specs.Prelude.{List, map};
    ghost use Rattle.hash_directory.specs.Buckets.{IsDirectoryOf};
    ghost use Rattle.segment_core.specs.Hashes.{all_keyed, entry_hash, AreInOrder, AreKeyed, KeyedToken};

    ghost Value = { List KeyedToken };

    ghost view = { λ o. all_keyed o.keys o.entries.items };

    ghost invariant = { λ o. AreKeyed o.keys o.entries.items × AreInOrder (all_keyed o.keys o.entries.items) × IsDirectoryOf (map entry_hash o.entries.items) o.directory };
}

impl HashOrder {
    /// Returns the number of tokens.
    pub(crate) fn len(&self) -> usize
        ensures { result ≡ length self.now }
    {
        self.entries.len()
    }

    /// Returns the token at an index, from 0.
    pub(crate) fn token(&self, at: usize) -> u32
        requires { at < length self.now }
        ensures { result ≡ (keyed_at self.now at).token }
    {
        self.entries[at].token
    }

    /// Returns the hash of the key of the token at an index, from 0.
    pub(crate) fn hash(&self, at: usize) -> u32
        requires { at < length self.now }
        ensures value { result ≡ (keyed_at self.now at).hash }
        ensures own { result ≡ hash_of (keyed_at self.now at).key }
    {
        self.entries[at].hash
    }

    /// Returns the key of the token at an index, from 0.
    pub(crate) fn key(&self, at: usize) -> &str
        requires { at < length self.now }
        ensures { result.now ≡ (keyed_at self.now at).key }
    {
        self.keys.text(self.entries[at].key)
    }

    /// Returns whether the hash may be that of a token's key, as far as a filter shows.
    pub(crate) fn may_have(&self, hash: u32) -> bool
        ensures { result ≡ false → All (λ entry. hash_of entry.key ≡ hash → ⊥) self.now }
    {
        self.may_have_any([hash].as_slice())
    }

    /// Returns whether any of these hashes may be that of a token's key, as far as a filter shows.
    pub(crate) fn may_have_any(&self, hashes: &[u32]) -> bool
        ensures { result ≡ false → All (λ hash. All (λ entry. hash_of entry.key ≡ hash → ⊥) self.now) hashes.now }
    {
        self.directory.may_have_any(hashes)
    }

    /// Returns the range of the indices of the tokens whose keys may have the hash. It usually is
    /// empty if no key has it, unless `is_likely`, which spares the look at a filter.
    pub(crate) fn near(&self, hash: u32, is_likely: bool) -> Near
        ensures { IsNear (map token_hash self.now) hash result.from result.to }
    {
        if is_likely {
            self.directory.bucket(hash)
        } else {
            self.directory.near(hash)
        }
    }

    /// Returns the index of the first token whose key has the hash, or `None`, given the range near the hash. It reads
    /// no text: usually a few numbers, and never more than sixteen or the logarithm of the number of tokens.
    pub(crate) fn first_in(&self, near: Near, hash: u32) -> Option<usize>
        requires { IsNear (map token_hash self.now) hash near.from near.to }
        ensures there { IfSome result (λ at. at < length self.now) }
        ensures hash { IfSome result (λ at. (keyed_at self.now at).hash ≡ hash) }
        ensures lacking { IfNone result (All (λ entry. hash_of entry.key ≡ hash → ⊥) self.now) }
    {
        let at = near.from + split_of(&self.entries[near.from..near.to], hash);
        if at >= near.to || self.entries[at].hash != hash {
            return None;
        }
        Some(at)
    }

    /// Returns the token of this key, which has the hash, or `None`. It takes a binary search, and compares texts
    /// wherever the hashes are equal.
    pub(crate) fn search(&self, hash: u32, key: &str) -> Option<u32>
        requires { hash ≡ hash_of key.now }
        ensures found { IfSome result (λ token. (at : ℕ) × (at < length self.now) × (keyed_at self.now at ≡ keyed_from hash token key.now)) }
        ensures lacking { IfNone result (All (λ entry. entry.key ≡ key.now → ⊥) self.now) }
    {
        let keys = &self.keys;
        match self
            .entries
            .binary_search_by(|entry| hash_order(keys, *entry, hash, key))
        {
            Ok(at) => Some(self.entries[at].token),
            Err(_) => None,
        }
    }
}

// Compares a token with a key: by their hashes, and then by the bytes of the keys.
fn hash_order(keys: &Region, entry: HashedToken, hash: u32, key: &str) -> Ordering
    ensures { result ≡ slice_cmp nat_cmp (sorted_by (keyed_in keys.now entry)) (hash ∷ key.now) }
{
    match entry.hash.cmp(&hash) {
        Ordering::Equal => keys.bytes(entry.key).cmp(key.as_bytes()),
        unequal => unequal,
    }
}

// Returns the index before which all hashes are lower than the given one, and from which on none is.
fn split_of(entries: &[HashedToken], hash: u32) -> usize
    requires { IsNonDecreasingBy entry_hash entries.now }
    ensures { IsSplit entries.now hash result }
{
    if entries.len() > MOST_COUNTED {
        split_by_halves(entries, hash)
    } else {
        count_lower(entries, hash)
    }
}

// Returns the same by counting the lower hashes. Of the few entries of a bucket, this takes less time than a walk that
// ends at the hash, or than a binary search: no branch depends on what was read, so the next look-up does not wait.
fn count_lower(entries: &[HashedToken], hash: u32) -> usize
    requires { IsNonDecreasingBy entry_hash entries.now }
    ensures { IsSplit entries.now hash result }
{
    let mut lower = 0;
    for entry in entries {
        if entry.hash < hash {
            lower += 1;
        }
    }
    lower
}

// Returns the same by a binary search, since it is easy to choose many keys whose hashes are in one bucket.
fn split_by_halves(entries: &[HashedToken], hash: u32) -> usize
    requires { IsNonDecreasingBy entry_hash entries.now }
    ensures { IsSplit entries.now hash result }
{
    entries.partition_point(|entry| entry.hash < hash)
}

/// Returns the tokens in the order of the hashes of their keys, which are in the region. It sorts one number for each
/// token, and compares keys only if their hashes are equal. Beside the entries, it takes 6 to 8 bytes for each token, of
/// which 2 to 4 are kept. It first releases the spare room of the region.
pub fn order_by_hash(
    alloc: Global,
    hashed: Vec<HashedToken>,
    mut keys: Region,
) -> Result<HashOrder, NoMemory>
    requires keyed { AreKeyed keys hashed.items }
    requires hashes { All (λ entry. entry.hash ≡ hash_of entry.key) (all_keyed keys hashed.items) }
    requires few { length hashed.items < 2 ^ 32 }
    ensures { (tables : List Table) → AreKeyedTokens tables (all_keyed keys hashed.items) → IfOk result (λ order. IsByHash tables order) }
{
    let entries = sorted_tokens(hashed, &mut keys);
    let hashes = hashes_of(alloc, &entries)?;
    let directory = HashDirectory::of(alloc, &hashes)?;
    Ok(HashOrder {
        entries,
        keys,
        directory,
    })
}

// Returns the tokens in that order, and releases the spare room of the region.
fn sorted_tokens(hashed: Vec<HashedToken>, keys: &mut Region) -> Vec<HashedToken>
    requires keyed { AreKeyed keys.old hashed.items }
    requires hashes { All (λ entry. entry.hash ≡ hash_of entry.key) (all_keyed keys.old hashed.items) }
    ensures keyed { AreKeyed keys.new result.items }
    ensures order { AreInOrder (all_keyed keys.new result.items) }
    ensures same { IsPermutation (all_keyed keys.old hashed.items) (all_keyed keys.new result.items) }
    ensures long { length result.items ≡ length hashed.items }
{
    keys.shrink_to_fit();
    sorted_by_hash(hashed, keys)
}

// Returns the entries sorted by their hashes, and then by the bytes of the keys.
fn sorted_by_hash(entries: Vec<HashedToken>, keys: &Region) -> Vec<HashedToken>
    ensures same { IsPermutation entries.items result.items }
    ensures rising { IsSortedByKey (λ entry. sorted_by (keyed_in keys.now entry)) (slice_cmp nat_cmp) result.items }
{
    sort_by_fronts(entries, &ByHash { keys })
}

// The order of tokens by the hashes of their keys, and then by the keys, which are in the region.
#[derive(Drop)]
struct ByHash<'a> {
    keys: &'a Region,
}

impl<'a> FrontOrder<HashedToken> for ByHash<'a> {
    ghost front = { λ _ entry. entry.hash };

    ghost rest = { λ by entry. (keyed_in by.keys.now entry).key };

    fn front(&self, entry: &HashedToken) -> u128 {
        entry.hash as u128
    }

    fn compare(&self, a: &HashedToken, b: &HashedToken) -> Ordering {
        hashed_order(self.keys, *a, *b)
    }
}

// Compares by the hash, then by the key, which is read only if the hashes are equal.
fn hashed_order(keys: &Region, a: HashedToken, b: HashedToken) -> Ordering
    ensures { result ≡ slice_cmp nat_cmp (sorted_by (keyed_in keys.now a)) (sorted_by (keyed_in keys.now b)) }
{
    match a.hash.cmp(&b.hash) {
        Ordering::Equal => keys.bytes(a.key).cmp(keys.bytes(b.key)),
        unequal => unequal,
    }
}

// Returns the hashes of the entries.
fn hashes_of(alloc: Global, entries: &[HashedToken]) -> Result<Vec<u32>, NoMemory>
    ensures { IfOk result (λ hashes. hashes.items ≡ map entry_hash entries.now) }
{
    let mut hashes = Vec::with_capacity(alloc, entries.len())?;
    for entry in entries {
        hashes.push(entry.hash)?;
    }
    Ok(hashes)
}

/// Returns the hash of a key: the low 32 bits of SipHash-1-3 ([`sip_hash`]). How few keys share a hash matters only for
/// speed.
#[tactic(auto, unfolding(crate::specs::Hashes::hash_of))]
pub fn hash_key(key: &str) -> u32
    ensures { result ≡ hash_of key.now }
{
    (sip_hash(key) & 0xFFFF_FFFF) as u32
}

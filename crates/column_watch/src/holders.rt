//! The keys of all queries, each once, ordered so that a key is found together with the queries that hold it.
ghost use Rattle.std.specs.Prelude.{◌≡◌, ◌≤◌, ◌<◌, ◌+◌, ◌*◌, ◌^◌, ◌∷◌, ◌++◌, [], ℕ, List, bytes_eq, false, get_or, length, map, IfOk, OnOk};
ghost use Rattle.std.specs.Cmp.Lexicographic.{slice_cmp};
ghost use Rattle.std.specs.List.{AllByRecursion, list_any};
ghost use Rattle.std.specs.List.Sorted.{IsNonDecreasingBy, IsSorted, IsStrictlySortedBy};
ghost use Rattle.std.specs.Ordering.{nat_cmp};
ghost use Rattle.lake_model.specs.Tables.{has_key};
ghost use Rattle.column_set.specs.Hashes.{sip_of};
ghost use Rattle.column_watch.specs.Index.{has_query, key_cmp, keys_from, says, sorted_by, text_of, AreKeysOf, AreStarts, IsHashed, IsIndexOf, IsStretch};

use crate::watched::Watched;
use column_set::{QuerySet, sip_hash};
use no_memory::NoMemory;
use std::alloc::Global;
use std::cmp::Ordering;
use std::marker::Model;

/// The most keys of a part that are compared with a hash one by one. A part has more only if keys were chosen to cause
/// it, so that their hashes share the upper bits; then a binary search decides.
const FEW_KEYS: usize = 64;

/// A key that queries hold: its hash, the index of one of these queries, the index of the key in that query, and a mask
/// whose bit w says whether the query of index w holds it.
#[derive(Clone, Copy)]
pub(crate) struct KeyAt {
    hash: u64,
    index: u32,
    holders: u16,
    query: u8,
}

/// Each key that a query holds, once, ordered by the hashes of the keys and then by their bytes. The range of all
/// hashes is cut into equal parts by their upper bits, more parts than there are keys and at most twice as many.
/// `starts` says where the keys of each part begin, so that a search for a key that no query holds mostly ends there,
/// at a part without keys, and otherwise mostly at a hash. Its model is the list of its keys.
///
/// It takes 16 bytes for each distinct key, and 4 to 8 for the parts. A search is a binary search among the keys of one
/// part, which are usually few; so no choice of keys makes it worse than logarithmic. It compares numbers, and texts
/// only where hashes are equal; [`sip_hash`] says why different keys rarely have equal hashes.
#[derive(Drop)]
pub(crate) struct Holders {
    keys: Vec<KeyAt>,
    starts: Vec<u32>,
    shift: u32,
}

impl Model for Holders {
    ghost use Rattle.std.specs.Prelude.{◌<◌, ◌≤◌, List};
    ghost use Rattle.column_watch.specs.Index.{AreStarts};
    ghost use Rattle.column_watch.specs.declared.holders.KeyAt.{KeyAt as KeyOf};

    ghost Value = { List KeyOf };

    ghost view = { λ h. h.keys.items };

    ghost invariant = { λ h. (32 ≤ h.shift) × (h.shift < 64) × AreStarts h.shift h.keys.items h.starts.items };
}

impl Holders {
    /// Returns an index without keys.
    pub(crate) fn new(alloc: Global) -> Holders
        ensures { result ≡ [] }
    {
        Holders {
            keys: Vec::new(alloc),
            starts: Vec::new(alloc),
            shift: 63,
        }
    }

    /// Returns whether one of the keys may have the hash. It reads no text.
    pub(crate) fn has_hash(&self, hash: u64) -> bool
        ensures { result ≡ false → AllByRecursion (λ at. at.hash ≡ hash → ⊥) self.now }
    {
        let near = self.near(hash);
        near.len() > FEW_KEYS || near.iter().any(|at| at.hash == hash)
    }

    // Returns a stretch of the keys outside which no key has the hash.
    fn near(&self, hash: u64) -> &[KeyAt]
        ensures { IsStretch hash self.now result.now }
    {
        stretch_of(&self.keys, &self.starts, self.shift, hash)
    }
}

/// Returns each key of the queries, once, in order. It reads each key of each query once and sorts them; the texts of
/// keys are compared only if their hashes are equal. For a while it takes a few times 16 bytes for each key of each
/// query.
pub(crate) fn index_queries(alloc: Global, queries: &[Watched]) -> Result<Holders, NoMemory>
    requires { length queries.now ≤ 16 }
    ensures { IfOk result (λ holders. IsIndexOf (map (λ state. state.keys) queries.now) holders) }
{
    let keys = index_keys(alloc, queries)?;
    let shift = (keys.len() as u32).leading_zeros().min(31) + 32;
    let starts = starts_of(alloc, &keys, shift)?;
    Ok(Holders {
        keys,
        starts,
        shift,
    })
}

/// Returns the queries that hold a key of this hash: bit w says whether the query of index w does.
pub(crate) fn holders_of(holders: &Holders, queries: &[Watched], hash: u64, key: &str) -> u16
    requires own { hash ≡ sip_of key.now }
    requires indexed { IsIndexOf (map (λ state. state.keys) queries.now) holders.now }
    ensures { (w : ℕ) → has_query result w ≡ has_key (get_or (map (λ state. state.keys) queries.now) w []) key.now }
{
    holders_among(queries, holders.near(hash), hash, key)
}

// Returns the keys of the queries, each once, in order.
fn index_keys(alloc: Global, queries: &[Watched]) -> Result<Vec<KeyAt>, NoMemory>
    requires { length queries.now ≤ 16 }
    ensures index { IfOk result (λ keys. IsIndexOf (map (λ state. state.keys) queries.now) keys.items) }
    ensures few { IfOk result (λ keys. length keys.items < 2 ^ 32) }
{
    let mut keys = all_keys(alloc, queries)?;
    // The sort is stable, so that a key is read where the first query has it, which keeps the texts of fewer queries in
    // use.
    keys.sort_by(|a, b| key_order(queries, *a, *b))?;
    let mut index = merge_equal(alloc, queries, &keys)?;
    index.shrink_to_fit();
    Ok(index)
}

// Returns the keys of the queries, one query after another.
fn all_keys(alloc: Global, queries: &[Watched]) -> Result<Vec<KeyAt>, NoMemory>
    requires { length queries.now ≤ 16 }
    ensures keys { IfOk result (λ keys. AreKeysOf (map (λ state. state.keys) queries.now) keys.items) }
    ensures few { IfOk result (λ keys. length keys.items ≤ length queries.now * 4194304) }
{
    let mut keys = Vec::new(alloc);
    for (w, query) in queries.iter().enumerate() {
        add_keys(&mut keys, query.keys(), w as u8)?;
    }
    Ok(keys)
}

// Appends the keys of a query.
fn add_keys(keys: &mut Vec<KeyAt>, query: &QuerySet, w: u8) -> Result<(), NoMemory>
    requires { w < 16 }
    ensures keys { OnOk result (keys.new.items ≡ keys.old.items ++ keys_from w 0 query.now) }
    ensures few { OnOk result (length query.now ≤ 4194304) }
{
    keys.reserve(query.len() as usize)?;
    for index in 0..query.len() {
        let hash = sip_hash(query.key(index));
        keys.push(KeyAt {
            hash,
            index,
            holders: 1 << w,
            query: w,
        })?;
    }
    Ok(())
}

// Compares by the hash, and then by the key, which is read only if the hashes are equal.
fn key_order(queries: &[Watched], a: KeyAt, b: KeyAt) -> Ordering
    ensures { result ≡ key_cmp (map (λ state. state.keys) queries.now) a b }
{
    match a.hash.cmp(&b.hash) {
        Ordering::Equal => text_at(queries, a).cmp(text_at(queries, b)),
        unequal => unequal,
    }
}

// Merges equal keys of a sorted list into one, with all queries that hold it.
fn merge_equal(alloc: Global, queries: &[Watched], keys: &[KeyAt]) -> Result<Vec<KeyAt>, NoMemory>
    requires sorted { IsSorted (key_cmp (map (λ state. state.keys) queries.now)) keys.now }
    requires whole { AreKeysOf (map (λ state. state.keys) queries.now) keys.now }
    ensures index { IfOk result (λ index. IsIndexOf (map (λ state. state.keys) queries.now) index.items) }
    ensures few { IfOk result (λ index. length index.items ≤ length keys.now) }
{
    match keys {
        [first, rest @ ..] => merge_rest(alloc, queries, *first, rest),
        [] => Ok(Vec::new(alloc)),
    }
}

// Merges the equal keys of `first` and those that follow it.
fn merge_rest(
    alloc: Global,
    queries: &[Watched],
    first: KeyAt,
    rest: &[KeyAt],
) -> Result<Vec<KeyAt>, NoMemory>
    requires sorted { IsSorted (key_cmp (map (λ state. state.keys) queries.now)) (first ∷ rest.now) }
    requires whole { AreKeysOf (map (λ state. state.keys) queries.now) (first ∷ rest.now) }
    ensures index { IfOk result (λ index. IsIndexOf (map (λ state. state.keys) queries.now) index.items) }
    ensures few { IfOk result (λ index. length index.items ≤ length rest.now + 1) }
{
    let mut index = Vec::new(alloc);
    let mut last = first;
    for at in rest {
        if key_order(queries, last, *at).is_eq() {
            last.holders |= at.holders;
        } else {
            index.push(last)?;
            last = *at;
        }
    }
    index.push(last)?;
    Ok(index)
}

// Returns where the keys of each part of the range of hashes begin. The hashes of a part differ only in their last
// `shift` bits. It costs a binary search for each part.
fn starts_of(alloc: Global, keys: &[KeyAt], shift: u32) -> Result<Vec<u32>, NoMemory>
    requires wide { 32 ≤ shift }
    requires narrow { shift < 64 }
    requires few { length keys.now < 2 ^ 32 }
    requires rising { IsNonDecreasingBy (λ at. at.hash) keys.now }
    ensures { IfOk result (λ starts. AreStarts shift keys.now starts.items) }
{
    let parts = 1u64 << (64 - shift);
    let mut starts = Vec::with_capacity(alloc, parts as usize)?;
    for part in 0..parts {
        starts.push(keys.partition_point(|at| at.hash >> shift < part) as u32)?;
    }
    Ok(starts)
}

// Returns the keys of the part of the range to which the hash belongs.
fn stretch_of<'a>(keys: &'a [KeyAt], starts: &[u32], shift: u32, hash: u64) -> &'a [KeyAt]
    requires wide { 32 ≤ shift }
    requires narrow { shift < 64 }
    requires starts { AreStarts shift keys.now starts.now }
    ensures { IsStretch hash keys.now result.now }
{
    let part = (hash >> shift) as usize;
    let from = start_at(starts, part, 0);
    let to = start_at(starts, part + 1, keys.len());
    &keys[from..to]
}

// Returns where a part begins, or `other` if there is no such part.
fn start_at(starts: &[u32], part: usize, other: usize) -> usize
    ensures { result ≡ get_or starts.now part other }
{
    match starts.get(part) {
        Some(start) => *start as usize,
        None => other,
    }
}

// Returns the queries that hold a key. The keys are in order, and the key is among them if any query holds it; it is
// mostly the first of them. A text is read only if its hash equals that of the key.
fn holders_among(queries: &[Watched], keys: &[KeyAt], hash: u64, key: &str) -> u16
    requires own { hash ≡ sip_of key.now }
    requires rising { IsStrictlySortedBy (key_cmp (map (λ state. state.keys) queries.now)) keys.now }
    requires hashed { AllByRecursion (IsHashed (map (λ state. state.keys) queries.now)) keys.now }
    ensures { (w : ℕ) → has_query result w ≡ list_any (says (map (λ state. state.keys) queries.now) key.now w) keys.now }
{
    let [first, rest @ ..] = keys else {
        return 0;
    };
    if is_key(queries, *first, hash, key) {
        return first.holders;
    }
    search_holders(queries, rest, hash, key)
}

// Returns whether one of the keys equals a key of this hash.
fn is_key(queries: &[Watched], at: KeyAt, hash: u64, key: &str) -> bool
    ensures { result ≡ bytes_eq (sorted_by (map (λ state. state.keys) queries.now) at) (hash ∷ key.now) }
{
    at.hash == hash && text_at(queries, at) == key
}

// Does the same by a binary search.
fn search_holders(queries: &[Watched], keys: &[KeyAt], hash: u64, key: &str) -> u16
    requires own { hash ≡ sip_of key.now }
    requires rising { IsStrictlySortedBy (key_cmp (map (λ state. state.keys) queries.now)) keys.now }
    requires hashed { AllByRecursion (IsHashed (map (λ state. state.keys) queries.now)) keys.now }
    ensures { (w : ℕ) → has_query result w ≡ list_any (says (map (λ state. state.keys) queries.now) key.now w) keys.now }
{
    match keys.binary_search_by(|at| order_to(queries, *at, hash, key)) {
        Ok(i) => keys[i].holders,
        Err(_) => 0,
    }
}

// Compares one of the keys with a key of this hash.
fn order_to(queries: &[Watched], at: KeyAt, hash: u64, key: &str) -> Ordering
    ensures { result ≡ slice_cmp nat_cmp (sorted_by (map (λ state. state.keys) queries.now) at) (hash ∷ key.now) }
{
    match at.hash.cmp(&hash) {
        Ordering::Equal => text_at(queries, at).cmp(key),
        unequal => unequal,
    }
}

// Returns the key at an index, or the empty text if there is none.
fn text_at<'a>(queries: &'a [Watched], at: KeyAt) -> &'a str
    ensures { result.now ≡ text_of (map (λ state. state.keys) queries.now) at }
{
    let Some(query) = queries.get(at.query as usize) else {
        return "";
    };
    let keys = query.keys();
    if at.index >= keys.len() {
        return "";
    }
    keys.key(at.index)
}

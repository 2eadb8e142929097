//! Finds the tokens of a part by their keys.
ghost use Rattle.std.specs.Prelude.{◌≡◌, ◌<◌, [], List, get_or, length, map, IfOk};
ghost use Rattle.std.specs.List.{All};
ghost use Rattle.std.specs.List.Sorted.{IsPermutation};
ghost use Rattle.lake_model.specs.Tables.{has_key, Table};
ghost use Rattle.lake_model.specs.Texts.{Text};
ghost use Rattle.hash_directory.specs.Buckets.{IsNear};
ghost use Rattle.search_model.specs.Arrays.{IsToken};
ghost use Rattle.search_model.specs.Segment.{segment, tokens_in};
ghost use Rattle.segment_core.specs.Among.{found_by, hit_keys, AreNear, IsHit};
ghost use Rattle.segment_core.specs.Hashes.{hash_of, keyed_at, token_hash, IsByHash};

use crate::hashed::HashedQuery;
use crate::hashes::{HashOrder, hash_key};
use crate::sorting::in_order;
use hash_directory::Near;
use no_memory::NoMemory;
use std::alloc::Global;

/// The least number of keys of a query whose ranges are all read before the tokens in them.
const LEAST_IN_PASSES: u32 = 64;

/// How many hashes a filter is asked for to tell whether most keys of a query are there.
const MOST_ASKED: usize = 32;

/// The index of the first token whose key has the hash of a query's key, and the index of the latter, both from 0.
#[derive(Clone, Copy)]
struct Hit {
    at: usize,
    index: u32,
}

impl HashOrder {
    /// Returns the key's token, or `None` if no token has the key.
    pub(crate) fn lookup(&self, key: &str) -> Option<u32>
        ensures { (tables : List Table) → IsByHash tables self.now → IsToken (segment tables).tokens key.now result }
    {
        self.find(hash_key(key), key)
    }

    // Returns the token of this key, which has the hash, or `None` if no token has the key.
    fn find(&self, hash: u32, key: &str) -> Option<u32>
        requires { hash ≡ hash_of key.now }
        ensures { (tables : List Table) → IsByHash tables self.now → IsToken (segment tables).tokens key.now result }
    {
        let first = self.first_in(self.near(hash, false), hash)?;
        self.token_of(first, self.key(first), hash, key)
    }

    // Returns the key's token, given the index of the first token whose key has the key's hash, and that token's key.
    fn token_of(&self, first: usize, first_key: &str, hash: u32, key: &str) -> Option<u32>
        requires there { first < length self.now }
        requires first { first_key.now ≡ (keyed_at self.now first).key }
        requires own { hash ≡ hash_of key.now }
        ensures { (tables : List Table) → IsByHash tables self.now → IsToken (segment tables).tokens key.now result }
    {
        if first_key == key {
            return Some(self.token(first));
        }
        self.search(hash, key)
    }

    /// Returns the tokens whose keys are the query's, in increasing order. It walks over the smaller of the two: the
    /// tokens or the keys of the query. If `is_likely`, it does not first ask whether there may be any.
    pub(crate) fn tokens_among(
        &self,
        alloc: Global,
        query: &HashedQuery<'_>,
        is_likely: bool,
    ) -> Result<Vec<u32>, NoMemory>
        ensures { (tables : List Table) → IsByHash tables self.now → IfOk result (λ tokens. tokens.items ≡ tokens_in (segment tables).tokens query.now) }
    {
        if self.len() < query.query().len() as usize {
            self.asked_tokens(alloc, query)
        } else {
            self.found_tokens(alloc, query, is_likely)
        }
    }

    // Returns the same by looking up each token's key in the query, in the order in which the tokens are stored by
    // hash.
    fn asked_tokens(&self, alloc: Global, query: &HashedQuery<'_>) -> Result<Vec<u32>, NoMemory>
        ensures { (tables : List Table) → IsByHash tables self.now → IfOk result (λ tokens. tokens.items ≡ tokens_in (segment tables).tokens query.now) }
    {
        in_order(alloc, self.tokens_asked(alloc, query)?)
    }

    // Returns the tokens whose keys the query has, by the hashes of the keys.
    fn tokens_asked(&self, alloc: Global, query: &HashedQuery<'_>) -> Result<Vec<u32>, NoMemory>
        ensures { (tables : List Table) → IsByHash tables self.now → IfOk result (λ tokens. IsPermutation (tokens_in (segment tables).tokens query.now) tokens.items) }
    {
        let mut tokens = Vec::new(alloc);
        for at in 0..self.len() {
            if self.is_asked(query, at) {
                tokens.push(self.token(at))?;
            }
        }
        Ok(tokens)
    }

    // Returns whether the query has the key of the token at an index.
    fn is_asked(&self, query: &HashedQuery<'_>, at: usize) -> bool
        requires { at < length self.now }
        ensures { result ≡ has_key query.now (keyed_at self.now at).key }
    {
        query.may_have(self.hash(at)) && query.query().has(self.key(at))
    }

    // Returns the same by looking up each key of the query among the tokens. A small part usually has none of a few
    // keys: then a filter shows this at once, and no memory is taken.
    fn found_tokens(
        &self,
        alloc: Global,
        query: &HashedQuery<'_>,
        is_likely: bool,
    ) -> Result<Vec<u32>, NoMemory>
        ensures { (tables : List Table) → IsByHash tables self.now → IfOk result (λ tokens. tokens.items ≡ tokens_in (segment tables).tokens query.now) }
    {
        let count = query.query().len();
        if count >= LEAST_IN_PASSES {
            return self.found_in_passes(alloc, query);
        }
        if !is_likely && !self.may_have_any(query.hashes()) {
            return Ok(Vec::new(alloc));
        }
        in_order(alloc, self.tokens_of_few(alloc, query)?)
    }

    // Returns the same for many keys.
    fn found_in_passes(&self, alloc: Global, query: &HashedQuery<'_>) -> Result<Vec<u32>, NoMemory>
        ensures { (tables : List Table) → IsByHash tables self.now → IfOk result (λ tokens. tokens.items ≡ tokens_in (segment tables).tokens query.now) }
    {
        let hits = self.hits(alloc, query)?;
        let keys = self.keys_of_hits(alloc, &hits)?;
        in_order(alloc, self.tokens_of_hits(alloc, query, &hits, &keys)?)
    }

    // Returns the tokens whose keys the query has, in the order of the query's keys.
    fn tokens_of_few(&self, alloc: Global, query: &HashedQuery<'_>) -> Result<Vec<u32>, NoMemory>
        ensures { (tables : List Table) → IsByHash tables self.now → IfOk result (λ tokens. IsPermutation (tokens_in (segment tables).tokens query.now) tokens.items) }
    {
        let keys = query.query();
        let mut tokens = Vec::with_capacity(alloc, keys.len() as usize)?;
        for index in 0..keys.len() {
            if let Some(token) = self.find(query.hash(index), keys.key(index)) {
                tokens.push(token)?;
            }
        }
        Ok(tokens)
    }

    // Returns, for each key of the query whose hash some token has, the first such token.
    //
    // The ranges near all hashes are read first, and then the tokens in these ranges. No key of a token is read yet:
    // where a key is, is read in a third pass, and the key itself in a fourth. These reads are cache misses, which
    // overlap as long as nothing else comes between them.
    fn hits(&self, alloc: Global, query: &HashedQuery<'_>) -> Result<Vec<Hit>, NoMemory>
        ensures hits { IfOk result (λ hits. All (IsHit self.now query.now) hits.items) }
        ensures all { (tables : List Table) → IsByHash tables self.now → IfOk result (λ hits. IsPermutation (tokens_in (segment tables).tokens query.now) (found_by (segment tables).tokens (hit_keys query.now hits.items))) }
    {
        let ranges = near_each(alloc, self, query)?;
        let mut hits = Vec::with_capacity(alloc, ranges.len())?;
        for index in 0..query.query().len() {
            let hash = query.hash(index);
            let near = near_of(self, &ranges, index, hash);
            if let Some(at) = self.first_in(near, hash) {
                hits.push(Hit { at, index })?;
            }
        }
        Ok(hits)
    }

    // Returns the keys of the tokens of these hits.
    fn keys_of_hits(&self, alloc: Global, hits: &[Hit]) -> Result<Vec<&str>, NoMemory>
        requires { All (λ hit. hit.at < length self.now) hits.now }
        ensures { IfOk result (λ keys. map (λ key. key.now) keys.items ≡ map (λ hit. (keyed_at self.now hit.at).key) hits.now) }
    {
        let mut keys = Vec::with_capacity(alloc, hits.len())?;
        for hit in hits {
            keys.push(self.key(hit.at))?;
        }
        Ok(keys)
    }

    // Returns the tokens that have the keys of these hits, in order, given the keys of the hits' own tokens.
    fn tokens_of_hits(
        &self,
        alloc: Global,
        query: &HashedQuery<'_>,
        hits: &[Hit],
        keys: &[&str],
    ) -> Result<Vec<u32>, NoMemory>
        requires hits { All (IsHit self.now query.now) hits.now }
        requires keys { map (λ key. key.now) keys.now ≡ map (λ hit. (keyed_at self.now hit.at).key) hits.now }
        ensures { (tables : List Table) → IsByHash tables self.now → IfOk result (λ tokens. tokens.items ≡ found_by (segment tables).tokens (hit_keys query.now hits.now)) }
    {
        let mut tokens = Vec::with_capacity(alloc, hits.len())?;
        for (i, hit) in hits.iter().enumerate() {
            let key = query.query().key(hit.index);
            if let Some(token) = self.token_of(hit.at, keys[i], query.hash(hit.index), key) {
                tokens.push(token)?;
            }
        }
        Ok(tokens)
    }
}

// Returns whether a filter passes three quarters of the first of these hashes. No contract says so: a key is found
// whether its hash is asked for or not.
fn passes_most(order: &HashOrder, hashes: &[u32]) -> bool {
    let asked = &hashes[..hashes.len().min(MOST_ASKED)];
    let passed = asked.iter().filter(|hash| order.may_have(**hash));
    4 * passed.count() >= 3 * asked.len()
}

// Returns, for each key of the query, the range of the tokens whose keys may have its hash. If a filter shows that most
// keys may be there, it is not asked for the others.
fn near_each(
    alloc: Global,
    order: &HashOrder,
    query: &HashedQuery<'_>,
) -> Result<Vec<Near>, NoMemory>
    ensures { IfOk result (λ ranges. AreNear order.now query.now ranges.items) }
{
    let is_likely = passes_most(order, query.hashes());
    let keys = query.query();
    let mut ranges = Vec::with_capacity(alloc, keys.len() as usize)?;
    for index in 0..keys.len() {
        ranges.push(order.near(query.hash(index), is_likely))?;
    }
    Ok(ranges)
}

// Returns the range for the key at an index, which has the hash: from the ranges, if it is there, or from the order.
fn near_of(order: &HashOrder, ranges: &[Near], index: u32, hash: u32) -> Near
    ensures { (keys : List Text) → AreNear order.now keys ranges.now → hash ≡ hash_of (get_or keys index []) → IsNear (map token_hash order.now) hash result.from result.to }
{
    match ranges.get(index as usize) {
        Some(near) => *near,
        None => order.near(hash, false),
    }
}

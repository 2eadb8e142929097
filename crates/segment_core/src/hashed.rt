//! A query with the hashes of its keys.
ghost use Rattle.std.specs.Prelude.{◌≡◌, ◌<◌, [], false, get_or, length, map, IfOk};
ghost use Rattle.lake_model.specs.Tables.{has_key};
ghost use Rattle.lake_model.specs.Texts.{Text};
ghost use Rattle.segment_core.specs.Hashes.{hash_of};

use crate::hashes::hash_key;
use column_set::QuerySet;
use hash_directory::HashFilter;
use no_memory::NoMemory;
use std::alloc::Global;
use std::marker::Model;

/// A query with the hash of each of its keys, so that a key is hashed once for all parts in which it is looked up, and
/// a filter of these hashes if there are several parts. Its model is the list of the keys.
#[derive(Drop)]
pub struct HashedQuery<'q> {
    query: &'q QuerySet,
    hashes: Vec<u32>,
    filter: Option<HashFilter>,
}

impl<'q> Model for HashedQuery<'q> {
    ghost use Rattle.std.specs.Prelude.{◌≡◌, List, map, IfSome};
    ghost use Rattle.lake_model.specs.Texts.{Text};
    ghost use Rattle.hash_directory.specs.Buckets.{AreIn};
    ghost use Rattle.segment_core.specs.Hashes.{hash_of};

    ghost Value = { List Text };

    ghost view = { λ h. h.query.now };

    ghost invariant = { λ h. (h.hashes.items ≡ map hash_of h.query.now) × IfSome h.filter (λ filter. AreIn filter h.hashes.items) };
}

impl<'q> HashedQuery<'q> {
    /// Returns the query with the hashes of its keys, to be looked up in so many parts. It reads each key once and takes 4
    /// bytes for each; and 1 to 2 for a filter, if there are several parts: each key of a part with fewer keys than the query
    /// is then asked of the filter first.
    pub fn new(alloc: Global, query: &'q QuerySet, parts: u32) -> Result<HashedQuery<'q>, NoMemory>
        ensures { IfOk result (λ hashed. hashed ≡ query.now) }
    {
        let mut hashes = Vec::with_capacity(alloc, query.len() as usize)?;
        for i in 0..query.len() {
            hashes.push(hash_key(query.key(i)))?;
        }
        let filter = if parts > 1 {
            Some(HashFilter::of(alloc, &hashes)?)
        } else {
            None
        };
        Ok(HashedQuery {
            query,
            hashes,
            filter,
        })
    }

    /// Returns whether some key of the query may have the hash. No text is read.
    pub(crate) fn may_have(&self, hash: u32) -> bool
        ensures { (key : Text) → hash ≡ hash_of key → result ≡ false → has_key self.now key ≡ false }
    {
        match &self.filter {
            Some(filter) => filter.may_have(hash),
            None => true,
        }
    }

    /// Returns the query.
    pub(crate) fn query(&self) -> &QuerySet
        ensures { result.now ≡ self.now }
    {
        self.query
    }

    /// Returns the hashes of the keys.
    pub(crate) fn hashes(&self) -> &[u32]
        ensures { result.now ≡ map hash_of self.now }
    {
        &self.hashes
    }

    /// Returns the hash of the key at an index, from 0.
    pub(crate) fn hash(&self, i: u32) -> u32
        requires { i < length self.now }
        ensures { result ≡ hash_of (get_or self.now i []) }
    {
        self.hashes[i as usize]
    }
}

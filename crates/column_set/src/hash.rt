//! The hash of a key for which no way is known to choose many keys that share it.
ghost use Rattle.std.specs.Prelude.{◌≡◌};
ghost use Rattle.column_set.specs.Hashes.{sip_of};

use std::hash::{DefaultHasher, Hasher};

/// Returns the hash of a key: SipHash-1-3, all 64 bits. How few keys share a hash matters only for speed.
///
/// It has no secret: the keys of SipHash are fixed, so an adversary can compute it, and choose keys that share some of
/// its bits. To choose another key that shares all 64 takes about 2^64 hashes, and one that shares 32 of them 2^32, for
/// all that is known; so no one floods a table that sorts keys by these bits and searches it by halves.
#[tactic(auto, unfolding(crate::specs::Hashes::sip_of))]
pub fn sip_hash(key: &str) -> u64
    ensures { result ≡ sip_of key.now }
{
    let mut hasher = DefaultHasher::default();
    hasher.write(key.as_bytes());
    hasher.finish()
}

//! The query's tokens of the part that is searched, as a set in which the tokens of probed columns are looked up.
ghost use Rattle.std.specs.Prelude.{◌≡◌, ◌*◌, ◌<◌, ◌≤◌, ℕ, List, [], length, map, option_map, IfOk, IfSome};
ghost use Rattle.std.specs.List.{All};
ghost use Rattle.josie_search.specs.Ready.{IsRoomFor};
ghost use Rattle.token_set.specs.Bits.{IsSetOf};

use no_memory::NoMemory;
use std::alloc::Global;
use std::marker::Model;
use token_set::{TokenSet, greatest_of};

/// How many tokens a set may have room for, for each key of the query: with a bit for each, to make the set takes less
/// time than to look up the keys.
const ROOM_FOR_A_KEY: u64 = 32_768;

/// A set that one search may leave to the next, with room for the tokens up to `greatest`. Its model is that of the set.
#[derive(Drop)]
pub(crate) struct KeptSet {
    greatest: u32,
    set: TokenSet,
}

impl Model for KeptSet {
    ghost use Rattle.std.specs.Prelude.{List, ℕ, ◌*◌, ◌<◌, length};

    ghost Value = { List ℕ };

    ghost view = { λ kept. kept.set };

    ghost invariant = { λ kept. kept.greatest < 64 * length kept.set };
}

impl KeptSet {
    // Returns a set without tokens, with room for those up to `greatest`.
    fn new(alloc: Global, greatest: u32) -> Result<KeptSet, NoMemory>
        ensures empty { IfOk result (λ set. IsSetOf set []) }
        ensures room { IfOk result (λ set. greatest < 64 * length set) }
    {
        Ok(KeptSet {
            greatest,
            set: TokenSet::new(alloc, greatest)?,
        })
    }
}

/// Returns an empty set with room for the tokens of each part. This is the kept one if it has the room; or else a new
/// one, or `None` if that is much room for so few keys, and the kept one is let go first. A kept set costs nothing to
/// use, so it is used however few the keys are.
pub(crate) fn set_for(
    alloc: Global,
    keys: u32,
    tokens: &[Vec<u32>],
    kept: Option<KeptSet>,
) -> Result<Option<KeptSet>, NoMemory>
    requires { IfSome kept (λ set. IsSetOf set []) }
    ensures empty { IfOk result (λ made. IfSome made (λ set. IsSetOf set [])) }
    ensures room { IfOk result (λ made. IfSome made (λ set. IsRoomFor (length set) (map (λ list. list.items) tokens.now))) }
{
    let greatest = greatest(tokens);
    if let Some(kept) = kept {
        if greatest <= kept.greatest {
            return Ok(Some(kept));
        }
    }
    if u64::from(greatest) > ROOM_FOR_A_KEY * u64::from(keys) {
        return Ok(None);
    }
    Ok(Some(KeptSet::new(alloc, greatest)?))
}

// Returns the greatest token of all parts, or 0 if there is none.
fn greatest(tokens: &[Vec<u32>]) -> u32
    ensures { All (λ list. All (λ token. token ≤ result) list.items) tokens.now }
{
    let mut most = 0;
    for list in tokens {
        most = most.max(greatest_of(list));
    }
    most
}

/// Puts the tokens of a part into the set, if there is one.
pub(crate) fn fill(set: &mut Option<KeptSet>, tokens: &[u32])
    requires empty { IfSome set.old (λ set. IsSetOf set []) }
    requires room { IfSome set.old (λ set. All (λ token. token < 64 * length set) tokens.now) }
    ensures set { IfSome set.new (λ set. IsSetOf set tokens.now) }
    ensures room { option_map length set.new ≡ option_map length set.old }
{
    if let Some(kept) = set {
        kept.set.fill(tokens);
    }
}

/// Takes the tokens of a part out of the set, if there is one.
pub(crate) fn clear(set: &mut Option<KeptSet>, tokens: &[u32])
    requires set { IfSome set.old (λ set. IsSetOf set tokens.now) }
    requires room { IfSome set.old (λ set. All (λ token. token < 64 * length set) tokens.now) }
    ensures empty { IfSome set.new (λ set. IsSetOf set []) }
    ensures room { option_map length set.new ≡ option_map length set.old }
{
    if let Some(kept) = set {
        kept.set.clear(tokens);
    }
}

/// Returns the set to look tokens up in, if there is one.
pub(crate) fn set_of(kept: &Option<KeptSet>) -> Option<&TokenSet>
    ensures same { option_map (λ set. set.now) result ≡ kept.now }
    ensures tokens { (tokens : List ℕ) → IfSome kept.now (λ set. IsSetOf set tokens) → IfSome result (λ set. IsSetOf set.now tokens) }
{
    match kept {
        None => None,
        Some(kept) => Some(&kept.set),
    }
}

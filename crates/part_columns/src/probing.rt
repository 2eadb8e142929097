//! The probe of a column.
ghost use Rattle.std.specs.Prelude.{◌≡◌, ◌<◌, ◌≤◌, ◌+◌, ◌++◌, ◌∷◌, ◌^◌, [], count_by, get_or, length, take, IfSome};
ghost use Rattle.std.specs.List.Sorted.{IsStrictlyIncreasing};
ghost use Rattle.lake_model.specs.Layout.{is_among};
ghost use Rattle.lake_model.specs.Texts.{Text};
ghost use Rattle.std.specs.Prelude.{List};
ghost use Rattle.search_model.specs.Looks.{hits};
ghost use Rattle.search_model.specs.Segment.{tokens_in};
ghost use Rattle.search_model.specs.declared.Look.TheVariants.{Probe};
ghost use Rattle.segment_core.specs.Versions.{part_at, segment_at};
ghost use Rattle.part_columns.specs.Tallies.{position_in, tally_of};
ghost use Rattle.token_set.specs.Bits.{has, IsSetOf};

use crate::bounds::position_of;
use crate::seeking::{Sought, seek};
use crate::tally::Tally;
use segment_core::Looks;
use token_set::TokenSet;

/// How many tokens of a column are looked up in a set in the time in which one is searched for among them.
const STEPS_OF_A_SEARCH: usize = 16;

/// Returns how many of the query's tokens a column has whose tally after the first `read` lists is `tally`. Reads the
/// column's tokens after the last one in these lists, and logs the probe. If there is a set of the query's tokens, each
/// of the column's is looked up in it, unless it has many more than there are lists left.
pub fn probe(
    looks: &mut Looks<'_>,
    part: u32,
    tokens: &[u32],
    set: Option<&TokenSet>,
    read: u32,
    column: u32,
    tally: Tally,
) -> u32
    requires part { part < length looks.old.version.parts }
    requires column { column < length (segment_at looks.old.version.parts part).sets }
    requires read { read ≤ length tokens.now }
    requires few { length tokens.now < 2 ^ 32 }
    requires room { 0 < looks.old.spare }
    requires seen { 0 < tally.count }
    requires tally { tally ≡ tally_of (get_or (segment_at looks.old.version.parts part).sets column []) (hits (get_or (segment_at looks.old.version.parts part).sets column []) (take read tokens.now)) }
    requires set { IfSome set (λ set. IsSetOf set.now tokens.now) }
    requires tokens { (keys : List Text) × (tokens.now ≡ tokens_in (segment_at looks.old.version.parts part).tokens keys) }
    ensures overlap { result ≡ length (hits (get_or (segment_at looks.old.version.parts part).sets column []) tokens.now) }
    ensures version { looks.new.version ≡ looks.old.version }
    ensures log { looks.new.log ≡ looks.old.log ++ Probe (part_at looks.old.version.parts part).number column (position_in (get_or (segment_at looks.old.version.parts part).sets column []) tally) ∷ [] }
    ensures spare { looks.new.spare + 1 ≡ looks.old.spare }
{
    let position = position_of(looks, part, column, tally);
    let tail = looks.tail(part, column, position);
    let unread = &tokens[read as usize..];
    tally.count + count_asked(set, unread, tail) as u32
}

// Returns how many of a column's tokens behind those in the lists read are among the query's tokens of the other lists.
// The set has all of the query's tokens, but none of the column's tokens there is one of a list read. It is not inlined,
// so that the loop has the registers for itself.
#[inline(never)]
fn count_asked(set: Option<&TokenSet>, unread: &[u32], tail: &[u32]) -> usize
    requires set { IfSome set (λ set. count_by (has set.now) tail.now ≡ count_by (is_among unread.now) tail.now) }
    requires unread { IsStrictlyIncreasing unread.now }
    requires tail { IsStrictlyIncreasing tail.now }
    ensures { result ≡ count_by (is_among unread.now) tail.now }
{
    match set {
        Some(set) if tail.len() / STEPS_OF_A_SEARCH <= unread.len() => set.count(tail),
        _ => count_shared(unread, tail),
    }
}

// Returns how many tokens two rising lists share. It walks the shorter one and looks its tokens up in the other.
fn count_shared(others: &[u32], tokens: &[u32]) -> usize
    requires others { IsStrictlyIncreasing others.now }
    requires tokens { IsStrictlyIncreasing tokens.now }
    ensures { result ≡ count_by (is_among others.now) tokens.now }
{
    if others.len() < tokens.len() {
        count_among(tokens, others)
    } else {
        count_among(others, tokens)
    }
}

// Returns how many of these tokens are among the others. Both rise.
fn count_among(others: &[u32], tokens: &[u32]) -> usize
    requires others { IsStrictlyIncreasing others.now }
    requires tokens { IsStrictlyIncreasing tokens.now }
    ensures { result ≡ count_by (is_among others.now) tokens.now }
{
    let mut shared = 0;
    let mut left = others;
    for token in tokens {
        let Sought { found, rest } = seek(left, *token);
        if found {
            shared += 1;
        }
        left = rest;
    }
    shared
}

//! Texts sorted by their hashes, for sets whose keys were chosen to collide in the slots: repeats are found by a sort,
//! and a key by a binary search. The hash is another than that of the slots, and texts are compared only if all its 64
//! bits are equal, which no one is known to be able to bring about. If it happens nevertheless, the bound on the
//! comparisons depends on the number of texts alone, not on the choice of texts.
ghost use Rattle.std.specs.Prelude.{◌≡◌, ◌≤◌, ◌++◌, ◌∷◌, ◌-◌, [], bytes_eq, drop, get_or, length, map, take, IfOk, OnErr, OnOk};
ghost use Rattle.std.specs.Cmp.Lexicographic.{slice_cmp};
ghost use Rattle.std.specs.List.{list_any, range_with_len, All};
ghost use Rattle.std.specs.Ordering.{nat_cmp};
ghost use Rattle.lake_model.specs.Tables.{distinct, has_key};
ghost use Rattle.column_set.specs.Sorted.{entry_cmp, place_of, repeats_of, sorted_by, IsHashed, IsHashOrder};

use crate::hash::sip_hash;
use crate::texts::Texts;
use no_memory::NoMemory;
use std::alloc::Global;
use std::cmp::Ordering;

/// The index of a text, with the hash of the text.
#[derive(Clone, Copy)]
pub struct HashedPlace {
    hash: u64,
    place: u32,
}

/// Returns the indices of the texts from index `from` on, each with the hash of its text, sorted by the hashes, those of
/// equal hashes by the bytes of the texts, and those of equal texts by index. It takes 16 bytes for each text.
pub fn hash_order(alloc: Global, texts: &Texts, from: u32) -> Result<Vec<HashedPlace>, NoMemory>
    requires { from ≤ length texts.now }
    ensures { IfOk result (λ order. IsHashOrder texts.now from order.items) }
{
    let mut order = hashed_places(alloc, texts, from)?;
    order.sort_unstable_by(|a, b| compare(texts, *a, *b));
    Ok(order)
}

// Returns the indices of the texts from index `from` on, each with the hash of its text.
fn hashed_places(alloc: Global, texts: &Texts, from: u32) -> Result<Vec<HashedPlace>, NoMemory>
    requires { from ≤ length texts.now }
    ensures hashed { IfOk result (λ made. All (IsHashed texts.now) made.items) }
    ensures places { IfOk result (λ made. map place_of made.items ≡ range_with_len from (length texts.now - from)) }
{
    let mut made = Vec::with_capacity(alloc, (texts.len() - from) as usize)?;
    for place in from..texts.len() {
        made.push(HashedPlace {
            hash: sip_hash(texts.text(place)),
            place,
        })?;
    }
    Ok(made)
}

// Compares by the hash, then by the text, which is read only if the hashes are equal, and then by the index.
fn compare(texts: &Texts, a: HashedPlace, b: HashedPlace) -> Ordering
    ensures { result ≡ entry_cmp texts.now a b }
{
    match a.hash.cmp(&b.hash) {
        Ordering::Equal => texts
            .text(a.place)
            .cmp(texts.text(b.place))
            .then(a.place.cmp(&b.place)),
        unequal => unequal,
    }
}

/// Removes each text, from index `from` on, that equals an earlier one from that index on. It sorts the texts' indices.
pub fn leave_out_repeats(alloc: Global, texts: &mut Texts, from: u32) -> Result<(), NoMemory>
    requires { from ≤ length texts.old }
    ensures left { OnOk result (texts.new ≡ take from texts.old ++ distinct (drop from texts.old)) }
    ensures refused { OnErr result (texts.new ≡ texts.old) }
{
    let order = hash_order(alloc, texts, from)?;
    let repeats = repeats_at(alloc, texts, from, &order)?;
    texts.leave_out(from, &repeats);
    Ok(())
}

/// Removes each text that equals an earlier one, and returns the indices of those that are left, sorted as `hash_order`
/// sorts them. If all texts differ, as texts usually do whose hashes were chosen to collide, they are sorted only once.
pub fn sorted_distinct(alloc: Global, texts: &mut Texts) -> Result<Vec<HashedPlace>, NoMemory>
    ensures left { OnOk result (texts.new ≡ distinct texts.old) }
    ensures sorted { IfOk result (λ order. IsHashOrder texts.new 0 order.items) }
{
    let order = hash_order(alloc, texts, 0)?;
    let repeats = repeats_at(alloc, texts, 0, &order)?;
    if !has_mark(&repeats) {
        return Ok(order);
    }
    texts.leave_out(0, &repeats);
    hash_order(alloc, texts, 0)
}

// Returns whether one of the marks is set.
fn has_mark(marks: &[bool]) -> bool
    ensures { result ≡ list_any (λ mark. mark) marks.now }
{
    marks.iter().any(|mark| *mark)
}

/// Returns whether the key is among the texts, by a binary search in their order.
pub fn is_in_order(texts: &Texts, order: &[HashedPlace], key: &str) -> bool
    requires { IsHashOrder texts.now 0 order.now }
    ensures { result ≡ has_key texts.now key.now }
{
    let hash = sip_hash(key);
    order
        .binary_search_by(|entry| compare_with(texts, *entry, hash, key))
        .is_ok()
}

// Compares a text with a key: by the hashes, and then by the bytes, which are read only if the hashes are equal.
fn compare_with(texts: &Texts, entry: HashedPlace, hash: u64, key: &str) -> Ordering
    ensures { result ≡ slice_cmp nat_cmp (sorted_by texts.now entry) (hash ∷ key.now) }
{
    match entry.hash.cmp(&hash) {
        Ordering::Equal => texts.text(entry.place).cmp(key),
        unequal => unequal,
    }
}

// Returns, for each text from index `from` on, whether it equals an earlier one from that index on. In the sorted order
// equal texts are neighbours, the first of them first, so it suffices to compare each text with the one before it.
fn repeats_at(
    alloc: Global,
    texts: &Texts,
    from: u32,
    order: &[HashedPlace],
) -> Result<Vec<bool>, NoMemory>
    requires { IsHashOrder texts.now from order.now }
    ensures { IfOk result (λ repeats. repeats.items ≡ repeats_of (drop from texts.now)) }
{
    let mut repeats = vec![in alloc; false; order.len()]?;
    for i in 1..order.len() {
        let before = order[i - 1];
        let here = order[i];
        repeats[(here.place - from) as usize] = are_equal(texts, here, before);
    }
    Ok(repeats)
}

// Returns whether two texts are equal. They are read only if their hashes are equal.
fn are_equal(texts: &Texts, a: HashedPlace, b: HashedPlace) -> bool
    requires a { IsHashed texts.now a }
    requires b { IsHashed texts.now b }
    ensures { result ≡ bytes_eq (get_or texts.now a.place []) (get_or texts.now b.place []) }
{
    a.hash == b.hash && texts.text(a.place) == texts.text(b.place)
}

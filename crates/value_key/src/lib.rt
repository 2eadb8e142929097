//! The key of a value: a text that two values have in common exactly if they match caselessly, canonically or by
//! compatibility.
#![tactic(auto)]

ghost use Rattle.std.specs.Prelude.{◌≡◌, ◌↔◌, ◌⊎◌, ◌≤◌, ◌++◌, ℕ, List, [], chars, encode_utf8_all, if◌then◌else◌, length, IfOk, IsAscii, IsOk, IsTrue, None, OnErr, OnOk, Some, option_map, string_bytes, ⊤};
ghost use Rattle.std.specs.Str.Iter.{chars_steps};
ghost use Rattle.std.specs.String.{string_capacity};
ghost use Rattle.caseless.specs.Caseless.{default_case_fold};
ghost use Rattle.ucd_case.specs.CaseFolding.{full_fold};
ghost use Rattle.unicode_normalization.specs.Decompositions.{CanDecompose, DecomposesTo};
ghost use Rattle.unicode_normalization.specs.Forms.{nfd, nfkd};
ghost use Rattle.unicode_normalization.specs.Iter.{chars_left};
ghost use Rattle.lake_model.specs.Keys.{key, key_of_text, IsMatch, IsSameValue};

use caseless::{canonical_caseless_match_str, compatibility_caseless_match_str};
pub use lake_model::Keys;
use no_memory::NoMemory;
use std::alloc::{AllocError, Global};
use std::str::Chars;
use ucd_case::full_folding;
use unicode_normalization::{
    Decompositions, UnicodeNormalization, is_nfd, is_nfkd, to_nfd, to_nfkd,
};

/// Returns the key of a value X without the white space at its ends, or `None` if nothing is left. Values have equal keys
/// exactly if they match (The Unicode Standard, section 3.13), with the full case folding of `CaseFolding.txt` and no
/// locale: the dotted capital İ is i and a combining dot, and the dotless ı is not i. White space is the property
/// White_Space.
///
/// - `Canonical`: NFD(toCasefold(NFD(X))), for the canonical caseless match, D145, without regard to case and to the way that
///   accents are written.
/// - `Compatibility`: NFKD(toCasefold(NFKD(toCasefold(NFD(X))))), for the compatibility caseless match, D146, which also
///   ignores compatibility forms: ① is 1, ㎒ is mhz.
///
/// A key may have more bytes than its value. For an ASCII value, the key of either kind is the value in lower case, which
/// takes one pass over the value and one allocation.
pub fn key_of(alloc: Global, keys: Keys, value: &str) -> Result<Option<String>, NoMemory>
    ensures { IfOk result (λ found. option_map string_bytes found ≡ key keys value.now) }
{
    let mut key = String::new(alloc);
    let found = key_into(alloc, keys, value, &mut key)?;
    Ok(found.then_some(key))
}

/// Writes the key of a value into a buffer that is reused, and returns whether the value has a key. The old contents of the
/// buffer are replaced by the key; the buffer is empty if the value has no key, and after an error.
///
/// An ASCII value takes one pass, and no memory if the buffer's capacity is at least the length of the value. Any other
/// value is folded straight into the buffer; another text is made only if what was folded is not in normal form, which is
/// rare for `Canonical`. The capacity never shrinks.
pub fn key_into(alloc: Global, keys: Keys, value: &str, into: &mut String) -> Result<bool, NoMemory>
    ensures key { IfOk result (λ found. (if found then Some (string_bytes into.new) else None) ≡ key keys value.now) }
    ensures blank { IfOk result (λ found. IsTrue found ⊎ (string_bytes into.new ≡ [])) }
    ensures error { OnErr result (string_bytes into.new ≡ []) }
    ensures ascii { IsAscii value.now → length value.now ≤ string_capacity into.old → IsOk result }
    ensures capacity { string_capacity into.old ≤ string_capacity into.new }
{
    into.clear();
    let text = value.trim();
    if text.is_empty() {
        return Ok(false);
    }
    write_key(alloc, keys, text, into)?;
    Ok(true)
}

/// Returns whether two values are the same: without the white space at their ends, they match by the canonical caseless
/// match (D145) or by the compatibility caseless match (D146). That is so exactly if they have equal keys, or both have
/// none.
pub fn same_value(alloc: Global, keys: Keys, a: &str, b: &str) -> Result<bool, NoMemory>
    ensures matched { IfOk result (λ same. IsTrue same ↔ IsSameValue keys a.now b.now) }
    ensures keys { IfOk result (λ same. IsTrue same ↔ (key keys a.now ≡ key keys b.now)) }
    ensures ascii { IsAscii a.now → IsAscii b.now → IsOk result }
{
    let left = a.trim();
    let right = b.trim();
    Ok(is_match(alloc, keys, left, right)?)
}

// Returns whether two texts match.
fn is_match(alloc: Global, keys: Keys, a: &str, b: &str) -> Result<bool, AllocError>
    ensures value { IfOk result (λ same. IsTrue same ↔ IsMatch keys (chars a.now) (chars b.now)) }
    ensures ascii { IsAscii a.now → IsAscii b.now → IsOk result }
{
    match keys {
        Keys::Canonical => canonical_caseless_match_str(alloc, a, b),
        Keys::Compatibility => compatibility_caseless_match_str(alloc, a, b),
    }
}

// Writes the key of a text that has no white space at its ends into an empty buffer.
fn write_key(alloc: Global, keys: Keys, text: &str, into: &mut String) -> Result<(), NoMemory>
    requires { string_bytes into.old ≡ [] }
    ensures key { OnOk result (string_bytes into.new ≡ key_of_text keys text.now) }
    ensures error { OnErr result (string_bytes into.new ≡ []) }
    ensures ascii { IsAscii text.now → length text.now ≤ string_capacity into.old → IsOk result }
    ensures capacity { string_capacity into.old ≤ string_capacity into.new }
{
    into.reserve(text.len())?;
    if push_small(text, into) {
        return Ok(());
    }
    write_folded(alloc, keys, text, into)
}

// Writes an ASCII text in lower case into an empty buffer that has room for it, and returns whether the text is ASCII. Its
// key of either kind is then in the buffer, since no ASCII character decomposes, and folding only makes letters lower case.
// For any other text the buffer stays empty.
fn push_small(text: &str, into: &mut String) -> bool
    requires empty { string_bytes into.old ≡ [] }
    requires room { length text.now ≤ string_capacity into.old }
    ensures ascii { IsTrue result ↔ IsAscii text.now }
    ensures key { (keys : Keys) → IsTrue result → string_bytes into.new ≡ key_of_text keys text.now }
    ensures capacity { string_capacity into.old ≤ string_capacity into.new }
{
    if !text.is_ascii() {
        return false;
    }
    match into.push_str(text) {
        Ok(()) => into.make_ascii_lowercase(),
        Err(_) => unreachable!(),
    }
    true
}

// Writes the key of any text into a buffer, in place of its contents, which are then empty after an error.
fn write_folded(alloc: Global, keys: Keys, text: &str, buffer: &mut String) -> Result<(), NoMemory>
    ensures key { OnOk result (string_bytes buffer.new ≡ key_of_text keys text.now) }
    ensures error { OnErr result (string_bytes buffer.new ≡ []) }
    ensures capacity { string_capacity buffer.old ≤ string_capacity buffer.new }
{
    buffer.clear();
    if push_key(alloc, keys, text, buffer).is_err() {
        buffer.clear();
        return Err(NoMemory);
    }
    Ok(())
}

// Writes the key of any text into an empty buffer, by the steps of its definition. Each step leaves its text in the buffer,
// so that at most one more text is in memory at a time, and none if the folded characters are in normal form.
fn push_key(alloc: Global, keys: Keys, text: &str, buffer: &mut String) -> Result<(), NoMemory>
    requires { string_bytes buffer.old ≡ [] }
    ensures key { OnOk result (string_bytes buffer.new ≡ key_of_text keys text.now) }
    ensures capacity { string_capacity buffer.old ≤ string_capacity buffer.new }
{
    push_folded(alloc, text, buffer)?;
    match keys {
        Keys::Canonical => make_nfd(alloc, buffer),
        Keys::Compatibility => make_compatible(alloc, buffer),
    }
}

// Appends the case-folded characters of the normal form D of a text. No text is made in between.
fn push_folded(alloc: Global, text: &str, into: &mut String) -> Result<(), NoMemory>
    ensures folded { OnOk result (string_bytes into.new ≡ string_bytes into.old ++ encode_utf8_all (default_case_fold (nfd (chars text.now)))) }
    ensures capacity { string_capacity into.old ≤ string_capacity into.new }
{
    if is_nfd(text) {
        return fold_text(text, into);
    }
    fold_decomposed(text.nfd(alloc), into)
}

// Appends the case-folded characters of a text.
fn fold_text(text: &str, into: &mut String) -> Result<(), NoMemory>
    ensures folded { OnOk result (string_bytes into.new ≡ string_bytes into.old ++ encode_utf8_all (default_case_fold (chars text.now))) }
    ensures capacity { string_capacity into.old ≤ string_capacity into.new }
{
    for c in text.chars() {
        fold_char(c, into)?;
    }
    Ok(())
}

// Appends the case-folded characters of a text that is decomposed on the way.
fn fold_decomposed(decomposed: Decompositions<Chars>, into: &mut String) -> Result<(), NoMemory>
    requires { CanDecompose (λ _. ⊤) chars_left decomposed }
    ensures folded { (cs : List ℕ) → DecomposesTo chars_steps decomposed.entry cs → OnOk result (string_bytes into.new ≡ string_bytes into.old ++ encode_utf8_all (default_case_fold cs)) }
    ensures capacity { string_capacity into.old ≤ string_capacity into.new }
{
    for item in decomposed {
        fold_char(item?, into)?;
    }
    Ok(())
}

// Appends the case folding of a character.
fn fold_char(c: char, into: &mut String) -> Result<(), NoMemory>
    ensures folded { OnOk result (string_bytes into.new ≡ string_bytes into.old ++ encode_utf8_all (full_fold c)) }
    ensures capacity { string_capacity into.old ≤ string_capacity into.new }
{
    // Most characters of most texts are ASCII, and folding only makes their letters lower case.
    if c.is_ascii() {
        into.push(c.to_ascii_lowercase())?;
        return Ok(());
    }
    let folded = full_folding(c);
    if folded.is_empty() {
        into.push(c)?;
        return Ok(());
    }
    push_all(folded, into)
}

// Appends characters.
fn push_all(characters: &[char], into: &mut String) -> Result<(), NoMemory>
    ensures text { OnOk result (string_bytes into.new ≡ string_bytes into.old ++ encode_utf8_all characters.now) }
    ensures capacity { string_capacity into.old ≤ string_capacity into.new }
{
    for c in characters {
        into.push(*c)?;
    }
    Ok(())
}

// Applies what compatibility adds to folded characters: they are decomposed, folded and decomposed again, since the first
// of these steps may produce letters that are not folded yet. None of the steps changes folded characters that are in normal
// form KD.
fn make_compatible(alloc: Global, text: &mut String) -> Result<(), NoMemory>
    ensures value { (cs : List ℕ) → string_bytes text.old ≡ encode_utf8_all (default_case_fold cs) → OnOk result (string_bytes text.new ≡ encode_utf8_all (nfkd (default_case_fold (nfkd (default_case_fold cs))))) }
    ensures capacity { string_capacity text.old ≤ string_capacity text.new }
{
    if is_nfkd(text.as_str()) {
        return Ok(());
    }
    let mut folded = String::new(alloc);
    fold_decomposed(text.as_str().nfkd(alloc), &mut folded)?;
    put_in_place(text, folded)?;
    make_nfkd(alloc, text)
}

// Brings characters into normal form D. A text that is already in this form is not copied.
fn make_nfd(alloc: Global, text: &mut String) -> Result<(), NoMemory>
    ensures value { (cs : List ℕ) → string_bytes text.old ≡ encode_utf8_all cs → OnOk result (string_bytes text.new ≡ encode_utf8_all (nfd cs)) }
    ensures capacity { string_capacity text.old ≤ string_capacity text.new }
{
    if is_nfd(text.as_str()) {
        return Ok(());
    }
    let decomposed = to_nfd(alloc, text.as_str())?;
    put_in_place(text, decomposed)
}

// Brings characters into normal form KD. A text that is already in this form is not copied.
fn make_nfkd(alloc: Global, text: &mut String) -> Result<(), NoMemory>
    ensures value { (cs : List ℕ) → string_bytes text.old ≡ encode_utf8_all cs → OnOk result (string_bytes text.new ≡ encode_utf8_all (nfkd cs)) }
    ensures capacity { string_capacity text.old ≤ string_capacity text.new }
{
    if is_nfkd(text.as_str()) {
        return Ok(());
    }
    let decomposed = to_nfkd(alloc, text.as_str())?;
    put_in_place(text, decomposed)
}

// Puts a text in place of the contents of a buffer. It is copied only if the buffer has the greater capacity, which stays.
fn put_in_place(buffer: &mut String, text: String) -> Result<(), NoMemory>
    ensures bytes { OnOk result (string_bytes buffer.new ≡ string_bytes text) }
    ensures capacity { string_capacity buffer.old ≤ string_capacity buffer.new }
{
    if buffer.capacity() <= text.capacity() {
        *buffer = text;
        return Ok(());
    }
    buffer.clear();
    buffer.push_str(text.as_str())?;
    Ok(())
}

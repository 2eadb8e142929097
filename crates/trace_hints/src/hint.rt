//! The hint of an answer, read from its first line and the line after it.
ghost use Rattle.std.specs.Prelude.{◌≡◌, IfOk, None, Some, [], false, map, true};
ghost use Rattle.trace_laws.specs.Hints.{Stands};
ghost use Rattle.trace_laws.specs.Reading.{at_of, cut, hint_by, layout_at, read_number, standing_by, word_at};
ghost use Rattle.trace_hints.specs.Told.{hint_as};

use no_memory::NoMemory;
use std::alloc::Global;

/// What the text of an answer shows of where it was made.
#[derive(Clone, Copy, Debug, PartialEq, Eq)]
pub enum Hint {
    /// Memory ran out.
    Wanting,
    /// It has no position.
    Nowhere,
    /// It was made at this position, and added nothing.
    Saw { at: u64 },
    /// It was accepted, and this is the position of its entry.
    Added { at: u64 },
    /// A merge that was planned at the first position, and refused at the second.
    PlannedAndSaw { pinned: u64, at: u64 },
    /// A merge that was planned at the first position, and whose entry has the second.
    PlannedAndAdded { pinned: u64, at: u64 },
}

/// Reads the hint from an answer's first line and the line after it, which is empty if there is none. Returns
/// `Err(NoMemory)` if memory runs out for the words of the lines.
pub fn hint_of_lines(alloc: Global, first: &[u8], next: &[u8]) -> Result<Hint, NoMemory>
    ensures { IfOk result (λ hint. hint_as hint ≡ hint_by (cut first.now) (cut next.now)) }
{
    let first_words = words(alloc, first)?;
    let next_words = words(alloc, next)?;
    Ok(hint_of_words(&first_words, &next_words))
}

// Splits a line at each space.
fn words(alloc: Global, line: &[u8]) -> Result<Vec<&[u8]>, NoMemory>
    ensures { IfOk result (λ words. map (λ word. word.now) words.items ≡ cut line.now) }
{
    Ok(line.split(|byte| *byte == b' ').collect(alloc)?)
}

// Returns the hint given by the words of a first line and of the line after it.
fn hint_of_words(words: &[&[u8]], next: &[&[u8]]) -> Hint
    ensures { hint_as result ≡ hint_by (map (λ word. word.now) words.now) (map (λ word. word.now) next.now) }
{
    if word_at(words, 1) == b"no".as_slice() {
        return Hint::Wanting;
    }
    match at_of(words) {
        Some(at) => standing(word_at(words, 1), word_at(words, 2), next, at),
        None => Hint::Nowhere,
    }
}

// Returns the hint of an answer that has the position `at`, from the first two words after its number and the words of
// the next line.
fn standing(first: &[u8], second: &[u8], next: &[&[u8]], at: u64) -> Hint
    ensures { hint_as result ≡ Stands (standing_by first.now second.now (map (λ word. word.now) next.now) at) }
{
    if first == b"loaded".as_slice()
        || first == b"dropped".as_slice()
        || first == b"replaced".as_slice()
    {
        Hint::Added { at }
    } else if first == b"merged".as_slice() {
        Hint::PlannedAndAdded {
            pinned: layout_at(next),
            at,
        }
    } else if first == b"refused".as_slice() && second == b"stale".as_slice() {
        Hint::PlannedAndSaw {
            pinned: layout_at(next),
            at,
        }
    } else {
        Hint::Saw { at }
    }
}

// Returns the position of the layout from the words of its line.
fn layout_at(words: &[&[u8]]) -> u64
    ensures { result ≡ layout_at (map (λ word. word.now) words.now) }
{
    read_number(word_at(words, 4))
}

// Returns the number after the word `at`, if that is the last word but one.
fn at_of(words: &[&[u8]]) -> Option<u64>
    ensures { result ≡ at_of (map (λ word. word.now) words.now) }
{
    if word_at(words, words.len().saturating_sub(2)) == b"at".as_slice() {
        Some(read_number(word_at(words, words.len().saturating_sub(1))))
    } else {
        None
    }
}

// Returns the word at a place, counted from 0, or an empty word if there is none.
fn word_at<'a>(words: &[&'a [u8]], place: usize) -> &'a [u8]
    ensures { result.now ≡ word_at (map (λ word. word.now) words.now) place }
{
    match words.get(place) {
        Some(word) => word,
        None => &[],
    }
}

// Returns the value of a word's digits, but at most 2^64 - 1.
fn read_number(word: &[u8]) -> u64
    ensures { result ≡ read_number word.now }
{
    let mut value: u64 = 0;
    for digit in word {
        let ones = u64::from(digit.saturating_sub(b'0'));
        value = value.saturating_mul(10).saturating_add(ones);
    }
    value
}

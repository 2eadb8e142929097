//! Sorts of words with runs of equal fronts at both ends and in between.

use crate::{FrontOrder, sort_by_fronts};
use std::alloc::Global;
use std::cmp::Ordering;
use std::test::Fail;

#[derive(Clone, Copy)]
struct Word {
    front: u32,
    text: &'static str,
}

// The order of words by their fronts and then by their texts.
struct ByText;

impl FrontOrder<Word> for ByText {
    ghost front = { λ _ word. word.front };

    ghost rest = { λ _ word. word.text.now };

    fn front(&self, word: &Word) -> u128 {
        word.front as u128
    }

    fn compare(&self, a: &Word, b: &Word) -> Ordering {
        match a.front.cmp(&b.front) {
            Ordering::Equal => a.text.cmp(b.text),
            unequal => unequal,
        }
    }
}

fn with_front(front: u32, text: &'static str) -> Word {
    Word { front, text }
}

// Returns the texts of the words in their order.
fn in_order(alloc: Global, words: Vec<Word>) -> Result<Vec<&'static str>, Fail> {
    let mut texts = Vec::new(alloc);
    for word in sort_by_fronts(words, &ByText) {
        texts.push(word.text)?;
    }
    Ok(texts)
}

#[test]
fn sorts_each_run(rt: HostRuntime) -> Result<(), Fail> {
    let words = [
        with_front(7, "z"),
        with_front(2, "d"),
        with_front(2, "b"),
        with_front(9, "q"),
        with_front(5, "x"),
        with_front(2, "c"),
        with_front(9, "p"),
        with_front(7, "y"),
    ];
    let texts = in_order(rt.alloc(), Vec::from_array(rt.alloc(), words)?)?;
    assert!(rt; texts.as_slice() == ["b", "c", "d", "x", "y", "z", "p", "q"].as_slice());
    Ok(())
}

#[test]
fn sorts_one_run(rt: HostRuntime) -> Result<(), Fail> {
    let words = [
        with_front(4, "c"),
        with_front(4, "a"),
        with_front(4, ""),
        with_front(4, "b"),
    ];
    let texts = in_order(rt.alloc(), Vec::from_array(rt.alloc(), words)?)?;
    assert!(rt; texts.as_slice() == ["", "a", "b", "c"].as_slice());
    Ok(())
}

#[test]
fn sorts_none(rt: HostRuntime) -> Result<(), Fail> {
    let texts = in_order(rt.alloc(), Vec::new(rt.alloc()))?;
    assert!(rt; texts.is_empty());
    Ok(())
}

//! Sets whose tokens lie on both sides of the ends of words.
use crate::TokenSet;
use std::alloc::Global;
use std::test::Fail;

// Tokens at both ends of the first words, and further on.
const SOME: [u32; 6] = [0, 63, 64, 127, 130, 199];

// Tokens that are not among them: their neighbours, those with the same bit of another word, and one past the last.
const OTHERS: [u32; 10] = [1, 2, 62, 65, 126, 128, 129, 131, 198, 200];

// Returns the set of these tokens, with room for those up to 199.
fn set_of(alloc: Global, tokens: &[u32]) -> Result<TokenSet, Fail> {
    let mut set = TokenSet::new(alloc, 199)?;
    if tokens.iter().any(|token| *token > 199) {
        return Err(Fail::from("a token past the last"));
    }
    set.fill(tokens);
    Ok(set)
}

#[test]
fn has_what_was_put_in(rt: HostRuntime) -> Result<(), Fail> {
    let set = set_of(rt.alloc(), &SOME)?;
    for token in SOME {
        assert!(rt; set.has(token));
    }
    for token in OTHERS {
        assert!(rt; !set.has(token));
    }
    assert!(rt; !set.has(u32::MAX));
    Ok(())
}

#[test]
fn counts_what_it_has(rt: HostRuntime) -> Result<(), Fail> {
    let set = set_of(rt.alloc(), &SOME)?;
    assert_eq!(rt; set.count(&SOME), 6);
    assert_eq!(rt; set.count(&OTHERS), 0);
    assert_eq!(rt; set.count(&[0, 1, 63, 64, 65, 300]), 3);
    Ok(())
}

// Fills a set with these tokens, empties it and fills it again. Returns how many of them it has in between, and then.
fn refilled(alloc: Global, tokens: &[u32]) -> Result<(usize, usize), Fail> {
    let mut set = TokenSet::new(alloc, 199)?;
    if tokens.iter().any(|token| *token > 199) {
        return Err(Fail::from("a token past the last"));
    }
    set.fill(tokens);
    set.clear(tokens);
    let between = set.count(tokens);
    set.fill(tokens);
    Ok((between, set.count(tokens)))
}

#[test]
fn is_empty_again(rt: HostRuntime) -> Result<(), Fail> {
    assert_eq!(rt; refilled(rt.alloc(), &SOME)?, (0, 6));
    Ok(())
}

#[test]
fn tells_what_it_has_in_order(rt: HostRuntime) -> Result<(), Fail> {
    let tokens = set_of(rt.alloc(), &[199, 64, 0, 130, 63, 127])?.in_order(rt.alloc(), 6)?;
    assert_eq!(rt; tokens.as_slice(), SOME.as_slice());
    let none = set_of(rt.alloc(), &[])?.in_order(rt.alloc(), 0)?;
    assert!(rt; none.is_empty());
    Ok(())
}

//! The vocabulary of a table of two columns: x and z are in one column each, and a is in both.
use crate::making::{only, table};
use std::test::Fail;
use token_order::Vocab;

// A key with its token, and how many columns hold it.
struct Known {
    key: &'static str,
    token: u32,
    frequency: u32,
}

// The lower frequency comes first, and then the lower key: x, z, and then a.
const KNOWN: [Known; 3] = [
    Known {
        key: "x",
        token: 0,
        frequency: 1,
    },
    Known {
        key: "z",
        token: 1,
        frequency: 1,
    },
    Known {
        key: "a",
        token: 2,
        frequency: 2,
    },
];

// Returns whether a vocabulary gives the token for the key, and the key and the frequency for the token.
fn knows(vocab: &Vocab<'_>, known: &Known) -> bool {
    let Some(found) = vocab.find(known.key) else {
        return false;
    };
    found == known.token
        && vocab.frequency(found) == known.frequency
        && vocab.key(found) == known.key
}

#[test]
fn tokens(rt: HostRuntime) -> Result<(), Fail> {
    let tables = only(rt.alloc(), table(rt.alloc(), "t", "p,q\nz,a\na,x\n")?)?;
    let vocab = Vocab::build(rt.alloc(), &tables)?;
    for known in &KNOWN {
        assert!(rt; knows(&vocab, known), "{}", known.key);
    }
    assert!(rt; vocab.len() == 3 && vocab.find("b").is_none());
    Ok(())
}

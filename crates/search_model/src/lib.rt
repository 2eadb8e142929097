//! The definitions of the inverted index and of the search over it: the token order, posting lists and sets of a list
//! of tables, the bounds of a column while a part is searched, the known and the open columns, the costs, the choosers,
//! and the look log of a search; and the laws of the bounds. The only code here is the plain types that both the code
//! and the definitions use. The index and the bounds are those of Zhu, Deng, Nargesian and Miller, "JOSIE: Overlap Set
//! Similarity Search for Finding Joinable Tables in Data Lakes", SIGMOD 2019.
#![tactic(auto)]

/// A column that holds a token, and how many of the column's tokens come after this one in its list of tokens.
#[derive(Clone, Copy, Debug, PartialEq, Eq)]
pub struct Posting {
    pub column: u32,
    pub rest: u32,
}

/// A look of a search: it reads the posting list of a token, or probes the tokens of a set after a position. A part is
/// named by its number.
#[derive(Clone, Copy, Debug, PartialEq, Eq)]
pub enum Look {
    Read { part: u64, token: u32 },
    Probe { part: u64, set: u32, after: u32 },
}

/// What a chooser sees before each step: the length of the next list; how many lists are left; for the best open
/// column, how many of the lists read so far hold it, its upper bound, and how many of its tokens are still to come;
/// the threshold; and the cost of the lists that would be saved if the threshold rose to the estimated overlap.
#[derive(Clone, Copy, Debug, PartialEq, Eq)]
pub struct Summary {
    pub next_len: u32,
    pub left: u32,
    pub c: u32,
    pub u: u32,
    pub rest: u32,
    pub t: u32,
    pub gain: u64,
}

/// Where a key is: the number of its column among all columns of a list of tables, by table and then by place, from 0,
/// and the key's index among the column's keys, from 0. There is one for each distinct key, so it is kept small: the
/// table and the place are in the column's [`Owner`].
#[derive(Clone, Copy, Debug, PartialEq, Eq)]
pub struct TokenAt {
    pub column: u32,
    pub index: u32,
}

/// Where a column is: the index of its table in a list of tables, from 0, and the column's place there, from 1.
#[derive(Clone, Copy, Debug, PartialEq, Eq)]
pub struct Owner {
    pub table: u32,
    pub place: u32,
}

//! The vocabulary of a list of tables.
ghost use Rattle.std.specs.Prelude.{◌≡◌, ◌<◌, ◌^◌, length, map, sum_by, IfOk};
ghost use Rattle.std.specs.List.{All};
ghost use Rattle.lake_model.specs.Tables.{members};
ghost use Rattle.search_model.specs.Arrays.{pointed, token_keys, IsAt};
ghost use Rattle.search_model.specs.Segment.{columns_of, token_cmp, tokens_of};
ghost use Rattle.token_order.specs.Ranks.{AreRanks};

use crate::columns::ColumnAt;
use crate::numbers;
use crate::order::{OrderedTokens, ordered_tokens};
use column_set::SharedTable;
use no_memory::NoMemory;
use search_model::TokenAt;
use std::alloc::Global;
use std::marker::Model;

/// The tokens in token order: where the key of each token is, and how many columns hold it. Also, in `by_key`, the
/// numbers of the tokens by the bytes of their keys.
#[derive(Drop)]
pub struct TokenLists {
    pub tokens: Vec<TokenAt>,
    pub frequencies: Vec<u32>,
    pub by_key: Vec<u32>,
}

/// The distinct keys of the columns of a list of tables, as tokens. They are numbered from 0 by increasing frequency
/// (how many columns hold the key), and then by the bytes of the key (Zhu, Deng, Nargesian and Miller, "JOSIE: Overlap
/// Set Similarity Search for Finding Joinable Tables in Data Lakes", SIGMOD 2019). A key is stored as its location in
/// the tables, which are borrowed. Its model is the list of the tables.
#[derive(Drop)]
pub struct Vocab<'a> {
    tables: &'a [SharedTable],
    columns: Vec<ColumnAt>,
    tokens: Vec<TokenAt>,
    frequencies: Vec<u32>,
    by_key: Vec<u32>,
    ranks: Vec<u32>,
}

impl<'a> Model for Vocab<'a> {
    ghost use Rattle.std.specs.Prelude.{List};
    ghost use Rattle.lake_model.specs.Tables.{Table};
    ghost use Rattle.token_order.specs.Vocabulary.{IsVocabulary};

    ghost Value = { List Table };

    ghost view = { λ v. v.tables.now };

    ghost invariant = { λ v. IsVocabulary v.tables.now v.columns.items v.tokens.items v.frequencies.items v.by_key.items v.ranks.items };
}

impl<'a> Vocab<'a> {
    ghost use Rattle.search_model.specs.Arrays.{key_of, IsByKey, IsToken};
    ghost use Rattle.std.specs.Prelude.{Some, get_or, []};
    ghost use Rattle.token_order.specs.Places.{keys_of};
    ghost use Rattle.token_order.specs.Vocabulary.{frequencies_of, frequency_of};

    /// Builds the vocabulary of the tables. It reads each key of each column once, and puts it into a group by its hash;
    /// then it sorts one key of each group by their bytes. A key is read again only to compare it with one that has the
    /// same first 15 bytes.
    ///
    /// While the keys are grouped, it takes 4 bytes for each key of each column, and 34 to 86 for each distinct key: the
    /// groups grow by doubling, and so do the slots. While the groups are sorted and counted, it takes 4 bytes for each
    /// key of each column, and at most 80 for each distinct key; while the distinct keys are put in order, it takes 4
    /// and at most 48; and it takes at most 24 for each column throughout. It keeps 4 bytes for each key of each column,
    /// 16 for each distinct key, and at most 24 for each column. It fails only if memory runs out.
    pub fn build(alloc: Global, tables: &'a [SharedTable]) -> Result<Vocab<'a>, NoMemory>
        requires columns { sum_by (λ t. length t.columns) tables.now < 2 ^ 32 }
        requires members { sum_by members tables.now < 2 ^ 32 }
        ensures { IfOk result (λ vocab. vocab ≡ tables.now) }
    {
        let OrderedTokens {
            columns,
            tokens,
            frequencies,
            by_key,
            ranks,
        } = ordered_tokens(alloc, tables)?;
        Ok(Vocab {
            tables,
            columns,
            tokens,
            frequencies,
            by_key,
            ranks,
        })
    }

    /// Returns the number of tokens.
    pub fn len(&self) -> u32
        ensures { result ≡ length (tokens_of (columns_of self.now)) }
    {
        self.tokens.len() as u32
    }

    /// Returns the key's token, or `None` if no column has the key. It takes as many comparisons as the number of
    /// tokens has binary digits.
    pub fn find(&self, key: &str) -> Option<u32>
        ensures { IsToken (tokens_of (columns_of self.now)) key.now result }
    {
        numbers::find(self.tables, &self.columns, &self.tokens, &self.by_key, key)
    }

    /// Returns the token of the member with this number. The members of all columns are numbered from 0, by table,
    /// place and index. It takes two reads and compares no keys.
    pub fn token_of_member(&self, number: u32) -> u32
        requires { number < length (keys_of self.now) }
        ensures { IsToken (tokens_of (columns_of self.now)) (get_or (keys_of self.now) number []) (Some result) }
    {
        self.by_key[self.ranks[number as usize] as usize]
    }

    /// Returns how many columns hold the token.
    pub fn frequency(&self, token: u32) -> u32
        requires { token < length (tokens_of (columns_of self.now)) }
        ensures { result ≡ frequency_of (tokens_of (columns_of self.now)) token }
    {
        self.frequencies[token as usize]
    }

    /// Returns the key of the token.
    pub fn key(&self, token: u32) -> &str
        requires { token < length (tokens_of (columns_of self.now)) }
        ensures { result.now ≡ key_of (tokens_of (columns_of self.now)) token }
    {
        numbers::key_of(self.tables, &self.columns, &self.tokens, token)
    }

    /// Returns where the key of each token is, how many columns hold it, and the tokens' numbers by the bytes of their
    /// keys. The sum of all frequencies is the number of members of all columns.
    pub fn into_lists(self) -> TokenLists
        ensures tokens { map (pointed self.entry) result.tokens.items ≡ token_keys (tokens_of (columns_of self.entry)) }
        ensures within { All (IsAt self.entry) result.tokens.items }
        ensures frequencies { result.frequencies.items ≡ frequencies_of (tokens_of (columns_of self.entry)) }
        ensures by_key { IsByKey (tokens_of (columns_of self.entry)) result.by_key.items }
        ensures counted { sum_by (λ n. n) result.frequencies.items ≡ sum_by members self.entry }
        ensures few { length result.tokens.items < 2 ^ 32 }
    {
        TokenLists {
            tokens: self.tokens,
            frequencies: self.frequencies,
            by_key: self.by_key,
        }
    }
}

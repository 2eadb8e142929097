//! The inverted index of a list of tables, in flat arrays.
ghost use Rattle.std.specs.Prelude.{◌≡◌, ◌⊎◌, ◌+◌, ◌<◌, ◌≤◌, [], drop, false, get_or, length, slice_index, slice_range, true, IfErr, IfOk, IfSome, None, OnOk, Some};
ghost use Rattle.lake_model.specs.Texts.{Text};
ghost use Rattle.search_model.specs.Arrays.{table_at, titled_at, IsToken};
ghost use Rattle.search_model.specs.Ranks.{ranked, AreInverse, AreRanks, AreRising};
ghost use Rattle.search_model.specs.Segment.{segment, tokens_in};
ghost use Rattle.segment_core.specs.Hashes.{hash_of};
ghost use Rattle.segment_core.specs.LiveColumn.{fault_in, keys_in};

use crate::hashed::HashedQuery;
use crate::hashes::HashOrder;
use crate::order::{ColumnOrder, RankedTitles};
use column_set::SharedTable;
use no_memory::NoMemory;
use search_model::{Owner, Posting};
use std::alloc::Global;
use std::marker::Model;

/// The inverted index of a list of tables. Its columns are those of the tables, numbered from 0 by table and then by
/// place. Its tokens are the distinct keys of the columns, numbered from 0 by increasing frequency (how many columns
/// hold the key), and then by the bytes of the key. Each column has its tokens, and each token has its posting list:
/// the columns that hold it. Each column also has its rank in the order of names. Its model is the list of the tables,
/// and it never changes.
///
/// The index is that of Zhu, Deng, Nargesian and Miller, "JOSIE: Overlap Set Similarity Search for Finding Joinable
/// Tables in Data Lakes", SIGMOD 2019.
#[derive(Drop)]
pub struct SegmentIndex {
    tables: Vec<SharedTable>,
    owners: Vec<Owner>,
    by_hash: HashOrder,
    list_starts: Vec<u32>,
    postings: Vec<Posting>,
    set_starts: Vec<u32>,
    set_tokens: Vec<u32>,
    ranks: Vec<u32>,
    by_rank: Vec<u32>,
    is_strict: bool,
}

impl Model for SegmentIndex {
    ghost use Rattle.std.specs.Prelude.{◌≡◌, true, List};
    ghost use Rattle.lake_model.specs.Tables.{Table};
    ghost use Rattle.search_model.specs.Ranks.{ranked, AreInverse, AreRanks, AreRising};
    ghost use Rattle.search_model.specs.Segment.{segment};
    ghost use Rattle.segment_core.specs.Hashes.{AreKept};

    ghost Value = { List Table };

    ghost view = { λ s. s.tables.items };

    ghost invariant = { λ s. AreKept s.tables.items s.owners.items s.by_hash s.list_starts.items s.postings.items s.set_starts.items s.set_tokens.items × AreRanks (segment s.tables.items).columns s.ranks.items × AreInverse s.ranks.items s.by_rank.items × (s.is_strict ≡ true → AreRising (ranked (segment s.tables.items).columns s.by_rank.items)) };
}

impl SegmentIndex {
    ghost use Rattle.segment_core.specs.Hashes.{AreKept};

    /// Makes the index of these tables from its arrays: where each column is; the tokens in the order of their hashes;
    /// the posting lists, one after another, with the index at which each begins, and the end; the columns' tokens in the
    /// same form; each column's rank in the order of names, and the columns by their ranks. It allocates nothing.
    pub fn new(
        tables: Vec<SharedTable>,
        owners: Vec<Owner>,
        by_hash: HashOrder,
        list_starts: Vec<u32>,
        postings: Vec<Posting>,
        set_starts: Vec<u32>,
        set_tokens: Vec<u32>,
        ranks: Vec<u32>,
        by_rank: Vec<u32>,
        is_strict: bool,
    ) -> SegmentIndex
        requires arrays { AreKept tables.items owners.items by_hash list_starts.items postings.items set_starts.items set_tokens.items }
        requires ranks { AreRanks (segment tables.items).columns ranks.items }
        requires inverse { AreInverse ranks.items by_rank.items }
        requires strict { is_strict ≡ true → AreRising (ranked (segment tables.items).columns by_rank.items) }
        ensures { result ≡ tables.items }
    {
        SegmentIndex {
            tables,
            owners,
            by_hash,
            list_starts,
            postings,
            set_starts,
            set_tokens,
            ranks,
            by_rank,
            is_strict,
        }
    }

    /// Returns the tables, in order.
    pub fn tables(&self) -> &[SharedTable]
        ensures { result.now ≡ self.now }
    {
        &self.tables
    }

    /// Returns the number of columns.
    pub fn sets(&self) -> u32
        ensures { result ≡ length (segment self.now).sets }
    {
        self.owners.len() as u32
    }

    /// Returns the key's token, or `None` if no column has the key. It compares a few numbers and then one text. If
    /// another key has the same hash, it compares as many texts as the number of tokens has binary digits.
    pub fn lookup(&self, key: &str) -> Option<u32>
        ensures { IsToken (segment self.now).tokens key.now result }
    {
        self.by_hash.lookup(key)
    }

    /// Returns how many columns hold the token.
    pub fn list_len(&self, token: u32) -> u32
        requires { token < length (segment self.now).tokens }
        ensures { result ≡ length (get_or (segment self.now).lists token []) }
    {
        len_at(&self.list_starts, token)
    }

    /// Returns how many tokens the column has.
    pub(crate) fn size(&self, set: u32) -> u32
        requires { set < length (segment self.now).sets }
        ensures { result ≡ length (get_or (segment self.now).sets set []) }
    {
        len_at(&self.set_starts, set)
    }

    /// Returns the index of the column's table, from 0, and the column's place there, from 1.
    pub(crate) fn owner(&self, set: u32) -> Owner
        requires { set < length (segment self.now).sets }
        ensures table { result.table ≡ (titled_at (segment self.now).columns set).from }
        ensures place { result.place ≡ (titled_at (segment self.now).columns set).place }
        ensures within { result.table < length self.now }
    {
        self.owners[set as usize]
    }

    /// Returns the columns in the order of names, with their titles, unless two columns have the same.
    pub(crate) fn order(&self) -> (ColumnOrder<'_>, Option<RankedTitles<'_>>)
        ensures ranks { AreRanks (segment self.now).columns result.0.ranks.now }
        ensures inverse { AreInverse result.0.ranks.now result.0.by_rank.now }
        ensures titles { IfSome result.1 (λ titles. titles ≡ ranked (segment self.now).columns result.0.by_rank.now) }
    {
        let order = ColumnOrder {
            ranks: &self.ranks,
            by_rank: &self.by_rank,
        };
        if self.is_strict {
            (order, Some(RankedTitles::new(self, order.by_rank)))
        } else {
            (order, None)
        }
    }

    /// Returns the posting list of the token: the columns that hold it, by increasing number, each with the number of the
    /// column's tokens that come after this one.
    pub(crate) fn list(&self, token: u32) -> &[Posting]
        requires { token < length (segment self.now).tokens }
        ensures { result.now ≡ get_or (segment self.now).lists token [] }
    {
        list_at(&self.list_starts, &self.postings, token, 0)
    }

    /// Returns the column's tokens after the position, counted from 0, in increasing order.
    pub(crate) fn tail(&self, set: u32, after: u32) -> &[u32]
        requires set { set < length (segment self.now).sets }
        requires after { after < length (get_or (segment self.now).sets set []) }
        ensures { result.now ≡ drop (after + 1) (get_or (segment self.now).sets set []) }
    {
        list_at(&self.set_starts, &self.set_tokens, set, after as usize + 1)
    }

    /// Returns whether some column may have a key with this hash, as far as a filter shows.
    pub(crate) fn may_have(&self, hash: u32) -> bool
        ensures { (key : Text) → hash ≡ hash_of key → result ≡ false → IsToken (segment self.now).tokens key None }
    {
        self.by_hash.may_have(hash)
    }

    /// Returns the tokens whose keys are the query's, in increasing order. It walks over the smaller of the two: the
    /// tokens or the keys of the query. If `is_likely`, it does not first ask whether there may be any.
    pub(crate) fn tokens_among(
        &self,
        alloc: Global,
        query: &HashedQuery<'_>,
        is_likely: bool,
    ) -> Result<Vec<u32>, NoMemory>
        ensures { IfOk result (λ tokens. tokens.items ≡ tokens_in (segment self.now).tokens query.now) }
    {
        self.by_hash.tokens_among(alloc, query, is_likely)
    }
}

// Returns the length of the list at an index.
fn len_at(starts: &[u32], i: u32) -> u32
    requires there { i + 1 < length starts.now }
    requires rising { slice_index starts.now i ≤ slice_index starts.now (i + 1) }
    ensures { result + slice_index starts.now i ≡ slice_index starts.now (i + 1) }
{
    starts[i as usize + 1] - starts[i as usize]
}

// Returns the list at an index, without its first `skip` elements.
fn list_at<'a, T>(starts: &[u32], flat: &'a [T], i: u32, skip: usize) -> &'a [T]
    requires there { i + 1 < length starts.now }
    requires rising { slice_index starts.now i + skip ≤ slice_index starts.now (i + 1) }
    requires within { slice_index starts.now (i + 1) ≤ length flat.now }
    ensures { result.now ≡ slice_range flat.now (slice_index starts.now i + skip) (slice_index starts.now (i + 1)) }
{
    let from = starts[i as usize] as usize + skip;
    let to = starts[i as usize + 1] as usize;
    &flat[from..to]
}

//! The keys of a query.
ghost use Rattle.std.specs.Prelude.{◌≡◌, ◌⊎◌, ◌<◌, ◌≤◌, ◌==◌, ◌↔◌, ◌∷◌, [], bytes_eq, drop, get_or, length, position, take, IfErr, IfOk, IsUtf8, None, OnOk, Some};
ghost use Rattle.std.specs.List.{IsDistinct};
ghost use Rattle.lake_model.specs.Queries.{line_fault, query_fault, query_of};
ghost use Rattle.lake_model.specs.Tables.{has_key, keys_at, overlap};
ghost use Rattle.lake_model.specs.Texts.{all_lines};

use crate::index::KeyIndex;
use crate::keys::{KeyGatherer, MOST_KEYS};
use crate::lists::KeyLists;
use crate::table::TableSets;
use crate::texts::Texts;
use lake_model::{Keys, QueryRefused};
use memchr::memchr_iter;
use no_memory::NoMemory;
use simdutf8::basic::from_utf8;
use simdutf8::is_utf8;
use std::alloc::Global;
use std::marker::Model;

/// The distinct keys of a query, at most 4,194,304. Its model is the list of the keys, in order of first occurrence.
#[derive(Drop)]
pub struct QuerySet {
    keys: Texts,
    index: KeyIndex,
}

impl Model for QuerySet {
    ghost use Rattle.std.specs.Prelude.{List, ℕ};
    ghost use Rattle.column_set.specs.Indexes.{IsIndexOf};
    ghost use Rattle.column_set.specs.Lists.{IsQuery};

    ghost Value = { List (List ℕ) };

    ghost view = { λ q. q.keys };

    ghost invariant = { λ q. IsQuery q.keys × IsIndexOf q.index q.keys };
}

impl QuerySet {
    /// Returns the query of a body with one value a line: the distinct keys, of kind `keys`, of its lines. A line with
    /// nothing but white space has no key. A line feed ends a line; bytes after the last line feed are a line, too.
    ///
    /// Returns `Err(NotUtf8)` for the first line that is not UTF-8, otherwise `Err(TooManyValues)` if there are more
    /// than 4,194,304 distinct keys, and `Err(NoMemory)` if memory runs out.
    pub fn read(alloc: Global, keys: Keys, body: &[u8]) -> Result<QuerySet, QueryRefused>
        ensures keys { IfOk result (λ q. q ≡ query_of keys body.now) }
        ensures sound { OnOk result (query_fault keys body.now ≡ None) }
        ensures refused { IfErr result (λ e. (e ≡ QueryRefused.NoMemory) ⊎ (query_fault keys body.now ≡ Some e)) }
    {
        let lists = gather_lines(alloc, keys, body)?;
        let (keys, index) = lists.into_indexed(alloc)?;
        if keys.len() as usize > MOST_KEYS {
            return Err(QueryRefused::TooManyValues);
        }
        Ok(QuerySet { keys, index })
    }

    /// Returns the keys of the table's column at a place, counted from 1, as a query.
    pub fn of_column(alloc: Global, table: &TableSets, place: u32) -> Result<QuerySet, NoMemory>
        requires low { 0 < place }
        requires high { place ≤ length table.now.columns }
        ensures { IfOk result (λ q. q ≡ keys_at table.now place) }
    {
        let keys = table.copied_keys(alloc, place)?;
        let index = KeyIndex::of(alloc, &keys)?;
        Ok(QuerySet { keys, index })
    }

    /// Returns the number of keys. They are distinct.
    pub fn len(&self) -> u32
        ensures value { result ≡ length self.now }
        ensures small { result ≤ 4194304 }
        ensures different { IsDistinct bytes_eq self.now }
    {
        self.keys.len()
    }

    /// Returns a key by its index in order of first occurrence, from 0.
    pub fn key(&self, i: u32) -> &str
        requires { i < length self.now }
        ensures { result.now ≡ get_or self.now i [] }
    {
        self.keys.text(i)
    }

    /// Returns how many keys of the query are in a list of keys.
    pub(crate) fn shared_with(&self, lists: &KeyLists, list: u32) -> u32
        requires there { list < length lists.now }
        requires different { IsDistinct bytes_eq (get_or lists.now list []) }
        ensures { result ≡ overlap self.now (get_or lists.now list []) }
    {
        lists.overlap(list, &self.keys, &self.index)
    }

    /// Returns whether the key is one of the query's.
    pub fn has(&self, key: &str) -> bool
        ensures { result ≡ has_key self.now key.now }
    {
        self.index.has(&self.keys, key)
    }
}

// Gathers the distinct keys of the lines of a body as one list.
fn gather_lines(alloc: Global, keys: Keys, body: &[u8]) -> Result<KeyGatherer, QueryRefused>
    ensures none { IfOk result (λ lists. lists.finished ≡ []) }
    ensures keys { IfOk result (λ lists. lists.current ≡ query_of keys body.now) }
    ensures sound { OnOk result (line_fault 1 (all_lines body.now) ≡ None) }
    ensures refused { IfErr result (λ e. (e ≡ QueryRefused.NoMemory) ⊎ (query_fault keys body.now ≡ Some e)) }
{
    let Ok(text) = from_utf8(body) else {
        let line = faulty_line(body);
        return Err(QueryRefused::NotUtf8 { line });
    };
    Ok(gather_text(alloc, keys, text)?)
}

// Gathers the distinct keys of the lines of a text as one list. A line of a text is a text, so that no line is checked.
fn gather_text(alloc: Global, keys: Keys, text: &str) -> Result<KeyGatherer, NoMemory>
    ensures none { IfOk result (λ lists. lists.finished ≡ []) }
    ensures keys { IfOk result (λ lists. lists.current ≡ query_of keys text.now) }
{
    let mut lists = no_keys(alloc, text.as_bytes())?;
    let mut buffer = String::new(alloc);
    let mut rest = text;
    while !rest.is_empty() {
        let (end, next) = first_line(rest.as_bytes());
        lists.add(alloc, keys, &rest[..end], &mut buffer)?;
        rest = &rest[next..];
    }
    Ok(lists)
}

// Returns an empty gatherer with room for the keys of a body whose lines have at least eight bytes. A body of shorter
// lines makes it grow.
fn no_keys(alloc: Global, body: &[u8]) -> Result<KeyGatherer, NoMemory>
    ensures none { IfOk result (λ lists. (lists.finished ≡ []) × (lists.current ≡ [])) }
{
    let lines = (body.len() / 8).min(MOST_KEYS) as u32;
    KeyGatherer::with_room(alloc, lines, lines)
}

// Returns the number of the first line that is not UTF-8, counted from 1. There is one, since texts that are joined by
// line feeds are a text.
fn faulty_line(body: &[u8]) -> u64
    requires { ¬ (IsUtf8 body.now) }
    ensures { line_fault 1 (all_lines body.now) ≡ Some (QueryRefused.NotUtf8 result) }
{
    let mut rest = body;
    let mut number = 1;
    loop {
        let (end, next) = first_line(rest);
        if !is_utf8(&rest[..end]) {
            return number;
        }
        rest = &rest[next..];
        number += 1;
    }
}

// Returns where the first line of a body of at least one byte ends, without its line feed, and where the next one
// begins.
fn first_line(body: &[u8]) -> (usize, usize)
    requires { 0 < length body.now }
    ensures lines { all_lines body.now ≡ take result.0 body.now ∷ all_lines (drop result.1 body.now) }
    ensures within { (result.0 ≤ result.1) × (result.1 ≤ length body.now) }
    ensures more { 0 < result.1 }
    ensures texts { IsUtf8 body.now ↔ (IsUtf8 (take result.0 body.now) × IsUtf8 (drop result.1 body.now)) }
{
    match line_end(body) {
        Some(at) => (at, at + 1),
        None => (body.len(), body.len()),
    }
}

// Returns the index of the first line feed. A step of the iterator finds a near one sooner than `memchr` does.
fn line_end(body: &[u8]) -> Option<usize>
    ensures { result ≡ position (λ byte. byte == 0x0A) body.now }
{
    memchr_iter(b'\n', body).next()
}

//! The looks of a search at a version: everything that it may ask, and a log of the lists and the sets that it read.
ghost use Rattle.std.specs.Prelude.{◌≡◌, ◌<◌, ◌≤◌, ◌+◌, ◌++◌, ◌∷◌, [], count_by, drop, false, get_or, length, map, not, IfOk, IfSome, OnErr, OnOk};
ghost use Rattle.search_model.specs.Looks.{is_read};
ghost use Rattle.segment_core.specs.Versions.{tables_of};

use crate::hashed::HashedQuery;
use crate::index::SegmentIndex;
use crate::indexed::PartIndex;
use crate::order::{ColumnOrder, RankedTitles};
use crate::version::Version;
use column_set::Titles;
use no_memory::NoMemory;
use search_model::{Look, Posting};
use std::alloc::Global;
use std::marker::Model;
use std::mem;
use std::sync::Arc;

/// How many parts are asked for a key ahead of the look-ups in them. Each has a bit in a number of 64 bits.
const ASKED_AHEAD: u32 = 64;

/// Everything that a search gets from a version. It borrows the version's pin, and what it lends lives as long as that
/// borrow. Each posting list and each set that is read is logged. Its model is the version, the log, and the number of
/// looks for which the log still has room.
///
/// It also counts the looks for the meters of the segments that they read. A meter is raised once for all looks at its
/// part, when the search goes on to another part or ends, because the lanes of a run share it.
///
/// Parts are found by their index in the order of the layout, tokens and columns by their numbers in the part's
/// segment, all from 0. It lends no keys.
pub struct Looks<'a> {
    version: &'a Version,
    indexes: &'a [PartIndex<'a>],
    log: Vec<Look>,
    spare: usize,
    /// The part that was looked at last, and how many looks at it are not in its meter yet.
    last: u32,
    unmetered: u64,
}

impl<'a> Drop for Looks<'a> {
    fn drop(self) {
        raise_meter(self.version, self.last, self.unmetered);
        let Looks {
            version: _,
            indexes: _,
            log: _,
            spare: _,
            last: _,
            unmetered: _,
        } = self;
    }
}

impl<'a> Model for Looks<'a> {
    ghost use Rattle.std.specs.Prelude.{◌≡◌, ◌≤◌, ◌+◌, map, vec_capacity, vec_len};
    ghost use Rattle.segment_core.specs.Versions.{looks_with, tables_of, LooksOf};

    ghost Value = { LooksOf };

    ghost view = { λ l. looks_with l.version.now l.log.items l.spare };

    ghost invariant = { λ l. (vec_len l.log + l.spare ≤ vec_capacity l.log) × (l.indexes.now ≡ map tables_of l.version.now.parts) };
}

impl<'a> Looks<'a> {
    ghost use Rattle.lake_model.specs.Tables.{titles_of};
    ghost use Rattle.search_model.specs.Arrays.{table_at, titled_at, IsToken};
    ghost use Rattle.search_model.specs.Ranks.{ranked, AreInverse, AreRanks};
    ghost use Rattle.search_model.specs.Segment.{tokens_in};
    ghost use Rattle.segment_core.specs.Versions.{looks_with, marks_of, part_at, segment_at, segment_of, tables_of};

    // Makes looks at this version through the indexes of its parts, with this log, which is empty.
    pub(crate) fn new(
        version: &'a Version,
        indexes: &'a [PartIndex<'a>],
        log: Vec<Look>,
    ) -> Looks<'a>
        requires indexes { indexes.now ≡ map tables_of version.now.parts }
        requires empty { log.items ≡ [] }
        ensures { result ≡ looks_with version.now [] 0 }
    {
        Looks {
            version,
            indexes,
            log,
            spare: 0,
            last: 0,
            unmetered: 0,
        }
    }

    // Returns the index of a part.
    fn index(&self, part: u32) -> &'a SegmentIndex
        requires { part < length self.now.version.parts }
        ensures { result.now ≡ tables_of (part_at self.now.version.parts part) }
    {
        self.indexes[part as usize].get()
    }

    /// Returns the number of parts.
    pub fn parts(&self) -> u32
        ensures { result ≡ length self.now.version.parts }
    {
        self.version.parts().len() as u32
    }

    /// Returns the number of a part.
    pub fn number(&self, part: u32) -> u64
        requires { part < length self.now.version.parts }
        ensures { result ≡ (part_at self.now.version.parts part).number }
    {
        self.version.part(part).number
    }

    /// Returns how many columns a part has, including those of marked tables.
    pub fn sets(&self, part: u32) -> u32
        requires { part < length self.now.version.parts }
        ensures { result ≡ length (segment_at self.now.version.parts part).sets }
    {
        self.index(part).sets()
    }

    /// Returns how many tokens a column has.
    pub fn size(&self, part: u32, set: u32) -> u32
        requires part { part < length self.now.version.parts }
        requires set { set < length (segment_at self.now.version.parts part).sets }
        ensures { result ≡ length (get_or (segment_at self.now.version.parts part).sets set []) }
    {
        self.index(part).size(set)
    }

    /// Returns the key's token in a part, or `None` if no column of the part has the key.
    pub fn lookup(&self, part: u32, key: &str) -> Option<u32>
        requires { part < length self.now.version.parts }
        ensures { IsToken (segment_at self.now.version.parts part).tokens key.now result }
    {
        self.index(part).lookup(key)
    }

    /// Returns how many columns hold a token.
    pub fn list_len(&self, part: u32, token: u32) -> u32
        requires part { part < length self.now.version.parts }
        requires token { token < length (segment_at self.now.version.parts part).tokens }
        ensures { result ≡ length (get_or (segment_at self.now.version.parts part).lists token []) }
    {
        self.index(part).list_len(token)
    }

    /// Returns the tokens of a part whose keys are the query's, in increasing order, so that the rarest come first. It
    /// walks over the smaller of the two: the part's tokens or the query's keys.
    pub fn query_tokens(
        &self,
        alloc: Global,
        part: u32,
        query: &HashedQuery<'_>,
    ) -> Result<Vec<u32>, NoMemory>
        requires { part < length self.now.version.parts }
        ensures { IfOk result (λ tokens. tokens.items ≡ tokens_in (segment_at self.now.version.parts part).tokens query.now) }
    {
        self.tokens_of_part(alloc, part, query, false)
    }

    // Returns the same. `is_likely` may be true if a filter of the part was asked for a key of the query before, and may
    // have it.
    fn tokens_of_part(
        &self,
        alloc: Global,
        part: u32,
        query: &HashedQuery<'_>,
        is_likely: bool,
    ) -> Result<Vec<u32>, NoMemory>
        requires { part < length self.now.version.parts }
        ensures { IfOk result (λ tokens. tokens.items ≡ tokens_in (segment_at self.now.version.parts part).tokens query.now) }
    {
        self.index(part).tokens_among(alloc, query, is_likely)
    }

    /// Returns, for each part, the tokens whose keys are the query's, as [`Looks::query_tokens`] does for one part.
    pub fn tokens_of_parts(
        &self,
        alloc: Global,
        query: &HashedQuery<'_>,
    ) -> Result<Vec<Vec<u32>>, NoMemory>
        ensures { IfOk result (λ all. map (λ tokens. tokens.items) all.items ≡ map (λ part. tokens_in (segment_of part).tokens query.now) self.now.version.parts) }
    {
        let mut all = Vec::with_capacity(alloc, self.parts() as usize)?;
        let mut likely = 0;
        for part in 0..self.parts() {
            if part % ASKED_AHEAD == 0 {
                likely = self.ask_ahead(part, query.hashes());
            }
            let is_likely = has_bit(likely, part);
            all.push(self.tokens_of_part(alloc, part, query, is_likely)?)?;
        }
        Ok(all)
    }

    // Asks the filters of the 64 parts from `first` on for the first of the hashes. Bit n of the result shows whether part
    // `first + n` may have it; no contract says so, since a look-up is right with and without it. A filter is a cache miss
    // or two, which overlap here; between look-ups they would not.
    fn ask_ahead(&self, first: u32, hashes: &[u32]) -> u64
        requires { first ≤ length self.now.version.parts }
    {
        let [hash, ..] = hashes else {
            return 0;
        };
        let mut likely = 0;
        let indexes = &self.indexes[first as usize..];
        for (i, index) in indexes.iter().take(ASKED_AHEAD as usize).enumerate() {
            if index.get().may_have(*hash) {
                likely |= 1 << (i % 64);
            }
        }
        likely
    }

    /// Returns the columns of a part in the order of names, including those of marked tables, with their titles, unless
    /// two columns have the same.
    pub fn order(&self, part: u32) -> (ColumnOrder<'a>, Option<RankedTitles<'a>>)
        requires { part < length self.now.version.parts }
        ensures ranks { AreRanks (segment_at self.now.version.parts part).columns result.0.ranks.now }
        ensures inverse { AreInverse result.0.ranks.now result.0.by_rank.now }
        ensures titles { IfSome result.1 (λ titles. titles ≡ ranked (segment_at self.now.version.parts part).columns result.0.by_rank.now) }
    {
        self.index(part).order()
    }

    /// Returns whether the table of a column is unmarked.
    pub fn live(&self, part: u32, set: u32) -> bool
        requires part { part < length self.now.version.parts }
        requires set { set < length (segment_at self.now.version.parts part).sets }
        ensures { result ≡ not (get_or (marks_of (part_at self.now.version.parts part)) (titled_at (segment_at self.now.version.parts part).columns set).from false) }
    {
        let held = self.version.part(part);
        // Where nothing is marked, it need not be looked up to which table the column belongs.
        if !held.may_mark() {
            return true;
        }
        let owner = self.index(part).owner(set);
        !held.marks()[owner.table as usize]
    }

    /// Returns the titles of the table of a column, and the place of the column there, from 1.
    pub fn table_of(&self, part: u32, set: u32) -> (&'a Arc<Titles>, u32)
        requires part { part < length self.now.version.parts }
        requires set { set < length (segment_at self.now.version.parts part).sets }
        ensures titles { result.0.now.value ≡ titles_of (table_at (tables_of (part_at self.now.version.parts part)) (titled_at (segment_at self.now.version.parts part).columns set).from) }
        ensures place { result.1 ≡ (titled_at (segment_at self.now.version.parts part).columns set).place }
    {
        let index = self.index(part);
        let owner = index.owner(set);
        let table = index.tables()[owner.table as usize].table();
        (table.titles(), owner.place)
    }
}

impl<'a> Looks<'a> {
    ghost use Rattle.search_model.specs.declared.Look.TheVariants.{Probe, Read};
    ghost use Rattle.segment_core.specs.Versions.{part_at, segment_at};

    /// Makes room in the log for `more` additional looks.
    pub fn reserve_log(&mut self, more: usize) -> Result<(), NoMemory>
        ensures version { self.new.version ≡ self.old.version }
        ensures log { self.new.log ≡ self.old.log }
        ensures room { OnOk result (self.new.spare ≡ self.old.spare + more) }
        ensures failed { OnErr result (self.new.spare ≡ self.old.spare) }
    {
        let Some(spare) = self.spare.checked_add(more) else {
            return Err(NoMemory);
        };
        self.log.reserve(spare)?;
        self.spare = spare;
        Ok(())
    }

    /// Returns the number of looks for which the log still has room.
    pub fn log_spare(&self) -> usize
        ensures { result ≡ self.now.spare }
    {
        self.spare
    }

    /// Returns the posting list of a token: the columns that hold it, by increasing number, each with the number of the
    /// column's tokens that come after this one. The look is logged. It allocates nothing.
    pub fn list(&mut self, part: u32, token: u32) -> &'a [Posting]
        requires part { part < length self.old.version.parts }
        requires token { token < length (segment_at self.old.version.parts part).tokens }
        requires room { 0 < self.old.spare }
        ensures list { result.now ≡ get_or (segment_at self.old.version.parts part).lists token [] }
        ensures version { self.new.version ≡ self.old.version }
        ensures log { self.new.log ≡ self.old.log ++ Read (part_at self.old.version.parts part).number token ∷ [] }
        ensures spare { self.new.spare + 1 ≡ self.old.spare }
    {
        let list = self.index(part).list(token);
        let number = self.number(part);
        self.meter(part);
        self.note(Look::Read {
            part: number,
            token,
        });
        list
    }

    /// Returns the tokens of a column after a position, counted from 0, in increasing order. The look is logged. It
    /// allocates nothing.
    pub fn tail(&mut self, part: u32, set: u32, after: u32) -> &'a [u32]
        requires part { part < length self.old.version.parts }
        requires set { set < length (segment_at self.old.version.parts part).sets }
        requires after { after < length (get_or (segment_at self.old.version.parts part).sets set []) }
        requires room { 0 < self.old.spare }
        ensures tail { result.now ≡ drop (after + 1) (get_or (segment_at self.old.version.parts part).sets set []) }
        ensures version { self.new.version ≡ self.old.version }
        ensures log { self.new.log ≡ self.old.log ++ Probe (part_at self.old.version.parts part).number set after ∷ [] }
        ensures spare { self.new.spare + 1 ≡ self.old.spare }
    {
        let tail = self.index(part).tail(set, after);
        let number = self.number(part);
        self.meter(part);
        self.note(Look::Probe {
            part: number,
            set,
            after,
        });
        tail
    }

    // Counts one look at a part.
    fn meter(&mut self, part: u32)
        ensures { self.new ≡ self.old }
    {
        if part != self.last {
            raise_meter(self.version, self.last, self.unmetered);
            self.last = part;
            self.unmetered = 0;
        }
        self.unmetered = self.unmetered.wrapping_add(1);
    }

    // Adds one look to the log.
    fn note(&mut self, look: Look)
        requires { 0 < self.old.spare }
        ensures version { self.new.version ≡ self.old.version }
        ensures log { self.new.log ≡ self.old.log ++ look ∷ [] }
        ensures spare { self.new.spare + 1 ≡ self.old.spare }
    {
        match self.log.push(look) {
            Ok(()) => self.spare -= 1,
            Err(_) => unreachable!(),
        }
    }

    /// Returns the memory of the log, for the looks of another search.
    pub fn into_log(mut self, alloc: Global) -> Vec<Look> {
        self.spare = 0;
        mem::replace(&mut self.log, Vec::new(alloc))
    }

    /// Returns the looks so far, in order. A part is named by its number.
    pub fn log(&self) -> &[Look]
        ensures { result.now ≡ self.now.log }
    {
        &self.log
    }

    /// Returns how many posting lists were read.
    pub fn reads(&self) -> u64
        ensures { result ≡ count_by is_read self.now.log }
    {
        self.log.iter().filter(|look| is_read_look(**look)).count() as u64
    }

    /// Returns how many sets were probed.
    pub fn probes(&self) -> u64
        ensures { result ≡ count_by (λ look. not (is_read look)) self.now.log }
    {
        self.log.iter().filter(|look| !is_read_look(**look)).count() as u64
    }
}

// Raises the meter of a part's segment by a number of looks.
fn raise_meter(version: &Version, part: u32, looks: u64) {
    if let Some(part) = version.parts().get(part as usize) {
        part.segment().raise_meter(looks);
    }
}

// Returns whether the bit is set whose number is the remainder of `part` by 64.
fn has_bit(bits: u64, part: u32) -> bool {
    (bits >> (part % 64)) & 1 == 1
}

// Returns whether the look read a posting list.
fn is_read_look(look: Look) -> bool
    ensures { result ≡ is_read look }
{
    match look {
        Look::Read { .. } => true,
        Look::Probe { .. } => false,
    }
}

//! A table as its titles and the sets of keys of its columns, and a shared table.
ghost use Rattle.std.specs.Prelude.{◌≡◌, ◌⊎◌, ◌<◌, ◌≤◌, ◌++◌, ◌∷◌, [], bytes_eq, get_or, length, map, string_bytes, IfErr, IfOk, None, OnOk, Some};
ghost use Rattle.std.specs.List.{AllByRecursion, IsDistinct};
ghost use Rattle.lake_model.specs.Records.{column_at, column_count, field_at, places_of, sets_fault, table_of, text_size};
ghost use Rattle.lake_model.specs.Tables.{column_name, has_key, keys_at, titles_of, titles_with};
ghost use Rattle.column_set.specs.Columns.{HasDistinctKeys, IsSmall};

use crate::keys::{KeyGatherer, MOST_KEYS};
use crate::lists::KeyLists;
use crate::name::Name;
use crate::query::QuerySet;
use crate::texts::Texts;
use crate::titles::Titles;
use csv_table::RawTable;
use lake_model::{Keys, SetRefused};
use no_memory::NoMemory;
use std::alloc::Global;
use std::marker::Model;
use std::sync::Arc;

/// The number of keys of a column for which room is made at first.
const FIRST_ROOM: u64 = 64;

/// A table: its name, and for each of its columns (at most 4,096) the column's name and the set of its keys (at most
/// 4,194,304, all distinct). Columns are found by their place, counted from 1; two columns may have the same name.
#[derive(Drop)]
pub struct TableSets {
    titles: Arc<Titles>,
    sets: KeyLists,
    members: u64,
    key_bytes: u64,
}

impl Model for TableSets {
    ghost use Rattle.lake_model.specs.Tables.{Table};
    ghost use Rattle.column_set.specs.Columns.{table_from, IsHeld};

    ghost Value = { Table };

    ghost view = { λ t. table_from t.titles.value t.sets };

    ghost invariant = { λ t. IsHeld t.titles.value t.sets t.members t.key_bytes };
}

impl TableSets {
    ghost use Rattle.lake_model.specs.Tables.{members as members_of, key_bytes as key_bytes_of};

    /// Returns the table with the given name and a column for each column of `raw`. The header's field is the column's
    /// name, and its set holds the keys, of kind `keys`, of the fields below the header, in the order of the records.
    ///
    /// Returns `Err(TooManyValues)` with the place of the first column that has more than 4,194,304 distinct keys, and
    /// `Err(NoMemory)` if memory runs out.
    pub fn build(
        alloc: Global,
        keys: Keys,
        name: Name,
        raw: &RawTable,
    ) -> Result<TableSets, SetRefused>
        ensures table { IfOk result (λ t. t ≡ table_of keys name raw.now) }
        ensures sound { OnOk result (sets_fault keys raw.now ≡ None) }
        ensures size { IfOk result (λ t. members_of t ≤ text_size raw.now) }
        ensures refused { IfErr result (λ e. (e ≡ SetRefused.NoMemory) ⊎ (sets_fault keys raw.now ≡ Some e)) }
    {
        let sets = read_sets(alloc, keys, raw)?;
        let names = read_names(alloc, raw)?;
        let titles = shared_titles(alloc, name, &names)?;
        let Some(key_bytes) = sets.byte_count() else {
            return Err(SetRefused::NoMemory);
        };
        Ok(TableSets {
            titles,
            members: sets.key_count(),
            sets,
            key_bytes,
        })
    }

    /// Returns the names of the table and of its columns, to be shared.
    pub fn titles(&self) -> &Arc<Titles>
        ensures { result.now.value ≡ titles_of self.now }
    {
        &self.titles
    }

    /// Returns the table's name.
    pub fn name(&self) -> &Name
        ensures { result.now ≡ self.now.name }
    {
        self.titles.table()
    }

    /// Returns the number of columns, at most 4,096. The keys of each column are distinct.
    pub fn columns(&self) -> u32
        ensures value { result ≡ length self.now.columns }
        ensures narrow { result ≤ 4096 }
        ensures different { HasDistinctKeys self.now }
    {
        self.sets.len() as u32
    }

    /// Returns the number of keys in the sets of all columns together.
    pub fn members(&self) -> u64
        ensures { result ≡ members_of self.now }
    {
        self.members
    }

    /// Returns the number of bytes in the keys of all columns together.
    pub fn key_bytes(&self) -> u64
        ensures { result ≡ key_bytes_of self.now }
    {
        self.key_bytes
    }
}

impl TableSets {
    ghost use Rattle.lake_model.specs.Tables.{overlap as overlap_of};

    /// Returns the name of the column at a place, counted from 1.
    pub fn column_name(&self, place: u32) -> &str
        requires low { 0 < place }
        requires high { place ≤ length self.now.columns }
        ensures { result.now ≡ column_name (titles_of self.now) place }
    {
        self.titles.column(place)
    }

    /// Returns the number of keys of the column at a place, counted from 1. These keys are distinct.
    pub fn size(&self, place: u32) -> u32
        requires low { 0 < place }
        requires high { place ≤ length self.now.columns }
        ensures value { result ≡ length (keys_at self.now place) }
        ensures small { result ≤ 4194304 }
        ensures different { IsDistinct bytes_eq (keys_at self.now place) }
    {
        self.sets.size(place - 1)
    }

    /// Returns a key of the column at a place, counted from 1. The index `i` counts the keys in order of first
    /// occurrence, from 0; past the last key the result is an empty text.
    pub fn key(&self, place: u32, i: u32) -> &str
        requires low { 0 < place }
        requires high { place ≤ length self.now.columns }
        ensures { result.now ≡ get_or (keys_at self.now place) i [] }
    {
        self.sets.key(place - 1, i)
    }

    /// Returns whether the column at a place, counted from 1, has the key. It walks over the column's keys.
    pub fn has(&self, place: u32, key: &str) -> bool
        requires low { 0 < place }
        requires high { place ≤ length self.now.columns }
        ensures { result ≡ has_key (keys_at self.now place) key.now }
    {
        self.sets.has(place - 1, key)
    }

    /// Returns how many keys of the query are in the column at a place, counted from 1. It walks over the column's
    /// keys.
    pub fn overlap(&self, place: u32, query: &QuerySet) -> u32
        requires low { 0 < place }
        requires high { place ≤ length self.now.columns }
        ensures value { result ≡ overlap_of query.now (keys_at self.now place) }
    {
        query.shared_with(&self.sets, place - 1)
    }

    /// Returns a copy of the keys of the column at a place, counted from 1, with no spare capacity.
    pub(crate) fn copied_keys(&self, alloc: Global, place: u32) -> Result<Texts, NoMemory>
        requires low { 0 < place }
        requires high { place ≤ length self.now.columns }
        ensures keys { IfOk result (λ keys. keys ≡ keys_at self.now place) }
        ensures small { length (keys_at self.now place) ≤ 4194304 }
        ensures different { IsDistinct bytes_eq (keys_at self.now place) }
    {
        self.sets.copied(alloc, place - 1)
    }
}

// Returns the titles of a table of this name, with columns of these names, to be shared.
fn shared_titles(alloc: Global, name: Name, names: &[String]) -> Result<Arc<Titles>, NoMemory>
    requires { length names.now ≤ 4096 }
    ensures { IfOk result (λ titles. titles.value ≡ titles_with name (map string_bytes names.now)) }
{
    let titles = Titles::new(alloc, name, names)?;
    Ok(Arc::new(alloc, titles)?)
}

// Returns the names of the columns: the fields of the header.
fn read_names(alloc: Global, raw: &RawTable) -> Result<Vec<String>, NoMemory>
    ensures { IfOk result (λ names. map string_bytes names.items ≡ map (field_at raw.now 0) (places_of raw.now)) }
{
    let mut names = Vec::new(alloc);
    for i in 0..raw.columns() {
        names.push(String::from_str(alloc, raw.field(0, i + 1))?)?;
    }
    Ok(names)
}

// Returns the sets of the columns, each of at most 4,194,304 keys.
fn read_sets(alloc: Global, keys: Keys, raw: &RawTable) -> Result<KeyLists, SetRefused>
    ensures sets { IfOk result (λ sets. sets ≡ map (λ place. (column_at keys raw.now place).keys) (places_of raw.now)) }
    ensures narrow { IfOk result (λ sets. length sets ≤ 4096) }
    ensures small { IfOk result (λ sets. AllByRecursion IsSmall sets) }
    ensures sound { OnOk result (sets_fault keys raw.now ≡ None) }
    ensures refused { IfErr result (λ e. (e ≡ SetRefused.NoMemory) ⊎ (sets_fault keys raw.now ≡ Some e)) }
{
    let mut lists = no_keys(alloc, raw)?;
    let mut starts = first_start(alloc, raw)?;
    let mut buffer = String::new(alloc);
    for i in 0..raw.columns() {
        let place = i + 1;
        let size = read_keys(alloc, keys, raw, place, &mut lists, &mut buffer)?;
        if size as usize > MOST_KEYS {
            return Err(SetRefused::TooManyValues { place });
        }
        if starts.push(lists.finished()).is_err() {
            return Err(SetRefused::NoMemory);
        }
    }
    Ok(KeyLists::of(lists.into_texts(), starts))
}

// Returns an empty gatherer with room for `FIRST_ROOM` keys in each column, or fewer if the table has fewer records.
fn no_keys(alloc: Global, raw: &RawTable) -> Result<KeyGatherer, NoMemory>
    ensures { IfOk result (λ lists. (lists.finished ≡ []) × (lists.current ≡ [])) }
{
    let column = raw.rows().min(FIRST_ROOM) as u32;
    KeyGatherer::with_room(alloc, column, column.saturating_mul(raw.columns()))
}

// Returns the start of the first column's keys, which is 0, with room for the starts of the others.
fn first_start(alloc: Global, raw: &RawTable) -> Result<Vec<u32>, NoMemory>
    ensures { IfOk result (λ starts. starts.items ≡ 0 ∷ []) }
{
    let mut starts = Vec::with_capacity(alloc, raw.columns() as usize + 1)?;
    starts.push(0)?;
    Ok(starts)
}

// Gathers the keys of the column at a place as one more list, and returns their number. Each key is written into the
// buffer, which all columns share.
fn read_keys(
    alloc: Global,
    keys: Keys,
    raw: &RawTable,
    place: u32,
    lists: &mut KeyGatherer,
    buffer: &mut String,
) -> Result<u32, NoMemory>
    requires low { 0 < place }
    requires high { place ≤ column_count raw.now }
    requires none { lists.old.current ≡ [] }
    ensures finished { OnOk result (lists.new.finished ≡ lists.old.finished ++ (column_at keys raw.now place).keys) }
    ensures none { OnOk result (lists.new.current ≡ []) }
    ensures size { IfOk result (λ size. size ≡ length (column_at keys raw.now place).keys) }
{
    for row in 0..raw.rows() {
        lists.add(alloc, keys, raw.field(row + 1, place), buffer)?;
    }
    lists.close(alloc)
}

/// A shared table. Its model is the table.
#[derive(Drop)]
pub struct SharedTable {
    table: Arc<TableSets>,
}

impl Model for SharedTable {
    ghost use Rattle.lake_model.specs.Tables.{Table};

    ghost Value = { Table };

    ghost view = { λ s. s.table.value };
}

impl SharedTable {
    /// Makes a table shared.
    pub fn new(alloc: Global, table: TableSets) -> Result<SharedTable, NoMemory>
        ensures { IfOk result (λ shared. shared ≡ table) }
    {
        Ok(SharedTable {
            table: Arc::new(alloc, table)?,
        })
    }

    /// Returns the table.
    pub fn table(&self) -> &TableSets
        ensures { result.now ≡ self.now }
    {
        &self.table
    }

    /// Returns one more share of the table.
    pub fn share(&self) -> Result<SharedTable, NoMemory>
        ensures { IfOk result (λ other. other ≡ self.now) }
    {
        Ok(SharedTable {
            table: Arc::try_clone(&self.table)?,
        })
    }
}

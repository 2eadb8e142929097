//! The columns of tables and their sets of tokens.
ghost use Rattle.std.specs.Prelude.{◌≡◌, ◌+◌, ◌<◌, ◌≤◌, ◌^◌, [], ◌∷◌, length, sum_by, IfOk, OnOk};
ghost use Rattle.std.specs.List.Sorted.{IsPermutation};
ghost use Rattle.lake_model.specs.Tables.{keys_at, members};
ghost use Rattle.search_model.specs.Arrays.{no_titled, table_at};
ghost use Rattle.search_model.specs.Segment.{columns_of, tokens_in, columns_in, titled_in};
ghost use Rattle.segment_build.specs.Holding.{all_tokens, held_with, HasMore, IsStretch};
ghost use Rattle.token_order.specs.Places.{keys_in, keys_of};

use column_set::{SharedTable, TableSets};
use no_memory::NoMemory;
use search_model::Owner;
use std::alloc::Global;
use token_order::{Vocab, member_count};

/// Where the columns are, and their sets of tokens, one after another, with the index at which each begins, and the
/// end.
#[derive(Drop)]
pub struct ColumnSets {
    pub owners: Vec<Owner>,
    pub starts: Vec<u32>,
    pub tokens: Vec<u32>,
}

/// Returns the columns of the tables, with the tokens of each in increasing order. It reads the token of each key of
/// each column, by the key's number among all keys, and sorts the tokens of each column; it compares no keys. It takes
/// 4 bytes for each key of each column, and 12 for each column. Returns `Err(NoMemory)` if memory runs out, and also if
/// there are 2^32 tables or more.
pub fn column_sets(
    alloc: Global,
    tables: &[SharedTable],
    vocab: &Vocab,
) -> Result<ColumnSets, NoMemory>
    requires vocab { vocab.now ≡ tables.now }
    requires members { sum_by members tables.now < 2 ^ 32 }
    ensures { IfOk result (λ sets. HasMore (all_tokens tables.now) (held_with [] (0 ∷ []) []) (held_with sets.owners.items sets.starts.items sets.tokens.items) (columns_of tables.now)) }
{
    if tables.len() > 0xFFFF_FFFF {
        return Err(NoMemory);
    }
    let mut sets = ColumnSets {
        owners: Vec::new(alloc),
        starts: vec![in alloc; 0]?,
        tokens: Vec::with_capacity(alloc, member_count(tables)?)?,
    };
    for table in 0..tables.len() as u32 {
        push_table(alloc, &mut sets, table_of(tables, table), table, vocab)?;
    }
    Ok(sets)
}

// Returns the table with this number.
fn table_of(tables: &[SharedTable], number: u32) -> &TableSets
    requires { number < length tables.now }
    ensures { result.now ≡ table_at tables.now number }
{
    tables[number as usize].table()
}

// Appends the columns of the table with this number.
fn push_table(
    alloc: Global,
    sets: &mut ColumnSets,
    table: &TableSets,
    number: u32,
    vocab: &Vocab,
) -> Result<(), NoMemory>
    requires room { length sets.old.tokens.items + members table.now < 2 ^ 32 }
    requires stretch { IsStretch (keys_of vocab.now) (keys_in table.now) (length sets.old.tokens.items) }
    ensures { OnOk result (HasMore (all_tokens vocab.now) (held_with sets.old.owners.items sets.old.starts.items sets.old.tokens.items) (held_with sets.new.owners.items sets.new.starts.items sets.new.tokens.items) (columns_in number table.now)) }
{
    for i in 0..table.columns() {
        push_column(alloc, sets, table, number, i + 1, vocab)?;
    }
    Ok(())
}

// Appends the column at a place of the table with this number. Each member has one token, so the number of tokens
// appended so far is the number of the column's first member.
fn push_column(
    alloc: Global,
    sets: &mut ColumnSets,
    table: &TableSets,
    number: u32,
    place: u32,
    vocab: &Vocab,
) -> Result<(), NoMemory>
    requires low { 0 < place }
    requires high { place ≤ length table.now.columns }
    requires room { length sets.old.tokens.items + length (keys_at table.now place) < 2 ^ 32 }
    requires stretch { IsStretch (keys_of vocab.now) (keys_at table.now place) (length sets.old.tokens.items) }
    ensures { OnOk result (HasMore (all_tokens vocab.now) (held_with sets.old.owners.items sets.old.starts.items sets.old.tokens.items) (held_with sets.new.owners.items sets.new.starts.items sets.new.tokens.items) (titled_in number table.now place ∷ [])) }
{
    let first = sets.tokens.len() as u32;
    let tokens = tokens_of_column(alloc, table, place, first, vocab)?;
    sets.owners.push(Owner {
        table: number,
        place,
    })?;
    sets.tokens.extend_from_slice(&tokens)?;
    sets.starts.push(sets.tokens.len() as u32)?;
    Ok(())
}

// Returns the tokens of the column at a place of a table, in increasing order. `first` is the number of its first
// member among the members of all columns.
fn tokens_of_column(
    alloc: Global,
    table: &TableSets,
    place: u32,
    first: u32,
    vocab: &Vocab,
) -> Result<Vec<u32>, NoMemory>
    requires low { 0 < place }
    requires high { place ≤ length table.now.columns }
    requires room { first + length (keys_at table.now place) < 2 ^ 32 }
    requires stretch { IsStretch (keys_of vocab.now) (keys_at table.now place) first }
    ensures value { IfOk result (λ tokens. tokens.items ≡ tokens_in (all_tokens vocab.now) (keys_at table.now place)) }
    ensures long { IfOk result (λ tokens. length tokens.items ≡ length (keys_at table.now place)) }
{
    let mut tokens = found_tokens(alloc, table, place, first, vocab)?;
    tokens.sort_unstable();
    Ok(tokens)
}

// Returns the tokens of the column at a place of a table, in the order of its keys.
fn found_tokens(
    alloc: Global,
    table: &TableSets,
    place: u32,
    first: u32,
    vocab: &Vocab,
) -> Result<Vec<u32>, NoMemory>
    requires low { 0 < place }
    requires high { place ≤ length table.now.columns }
    requires room { first + length (keys_at table.now place) < 2 ^ 32 }
    requires stretch { IsStretch (keys_of vocab.now) (keys_at table.now place) first }
    ensures same { IfOk result (λ tokens. IsPermutation (tokens_in (all_tokens vocab.now) (keys_at table.now place)) tokens.items) }
    ensures long { IfOk result (λ tokens. length tokens.items ≡ length (keys_at table.now place)) }
{
    let mut tokens = Vec::with_capacity(alloc, table.size(place) as usize)?;
    for i in 0..table.size(place) {
        tokens.push(vocab.token_of_member(first + i))?;
    }
    Ok(tokens)
}

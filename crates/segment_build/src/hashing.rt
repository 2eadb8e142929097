//! The tokens of tables with the hashes of their keys.
ghost use Rattle.std.specs.Prelude.{◌≡◌, ◌+◌, ◌<◌, ◌≤◌, ◌^◌, length, sum_by, IfOk};
ghost use Rattle.lake_model.specs.Tables.{keys_at, members};
ghost use Rattle.segment_build.specs.Hashing.{AreHashed};
ghost use Rattle.segment_build.specs.Holding.{IsStretch};
ghost use Rattle.segment_core.specs.Hashes.{all_keyed, AreKeyed, AreKeyedTokens};
ghost use Rattle.token_order.specs.Places.{keys_in, keys_of};

use column_set::{SharedTable, TableSets};
use no_memory::NoMemory;
use segment_core::HashedToken;
use std::alloc::Global;
use text_region::Region;
use token_order::Vocab;

/// The number that an entry has until it is written. There are fewer than 2^32 tokens, so it is that of no token.
const NO_TOKEN: u32 = u32::MAX;

/// The tokens, each with the hash of its key, and the region that has the keys.
#[derive(Drop)]
pub struct HashedTokens {
    pub entries: Vec<HashedToken>,
    pub keys: Region,
}

/// Returns the tokens of the tables in token order, each with the hash of its key. A key is hashed and copied where the
/// walk over the columns meets it first, so keys are read in the order in which they lie in memory: in token order, the
/// reads would mostly be cache misses, one after another. It takes 16 bytes for each token, and the bytes of the keys, up
/// to three times while they are copied.
pub fn hashed_tokens(
    alloc: Global,
    tables: &[SharedTable],
    vocab: &Vocab,
) -> Result<HashedTokens, NoMemory>
    requires vocab { vocab.now ≡ tables.now }
    requires members { sum_by members tables.now < 2 ^ 32 }
    ensures keyed { IfOk result (λ hashed. AreKeyed hashed.keys hashed.entries.items) }
    ensures tokens { IfOk result (λ hashed. AreKeyedTokens tables.now (all_keyed hashed.keys hashed.entries.items)) }
    ensures few { IfOk result (λ hashed. length hashed.entries.items < 2 ^ 32) }
{
    let mut hashed = blank_tokens(alloc, vocab)?;
    let mut next = 0;
    for table in tables {
        next = hash_table(&mut hashed, table.table(), next, vocab)?;
    }
    Ok(hashed)
}

// Returns an entry for each token, none of which was written.
fn blank_tokens(alloc: Global, vocab: &Vocab) -> Result<HashedTokens, NoMemory>
    ensures hashed { IfOk result (λ hashed. AreHashed vocab.now hashed.keys hashed.entries.items 0) }
    ensures few { IfOk result (λ hashed. length hashed.entries.items < 2 ^ 32) }
{
    let mut keys = Region::new(alloc, 0)?;
    let blank = HashedToken::new(NO_TOKEN, "", &mut keys)?;
    Ok(HashedTokens {
        entries: vec![in alloc; blank; vocab.len() as usize]?,
        keys,
    })
}

// Writes the entries of the tokens that are first met in a table. `first` is the number of its first member among the
// members of all columns. Returns the number of the member after its last.
fn hash_table(
    hashed: &mut HashedTokens,
    table: &TableSets,
    first: u32,
    vocab: &Vocab,
) -> Result<u32, NoMemory>
    requires room { first + members table.now < 2 ^ 32 }
    requires stretch { IsStretch (keys_of vocab.now) (keys_in table.now) first }
    requires before { AreHashed vocab.now hashed.old.keys hashed.old.entries.items first }
    ensures next { IfOk result (λ next. next ≡ first + members table.now) }
    ensures hashed { IfOk result (λ next. AreHashed vocab.now hashed.new.keys hashed.new.entries.items next) }
{
    let mut next = first;
    for i in 0..table.columns() {
        next = hash_column(hashed, table, i + 1, next, vocab)?;
    }
    Ok(next)
}

// Does the same for the column at a place of a table.
fn hash_column(
    hashed: &mut HashedTokens,
    table: &TableSets,
    place: u32,
    first: u32,
    vocab: &Vocab,
) -> Result<u32, NoMemory>
    requires low { 0 < place }
    requires high { place ≤ length table.now.columns }
    requires room { first + length (keys_at table.now place) < 2 ^ 32 }
    requires stretch { IsStretch (keys_of vocab.now) (keys_at table.now place) first }
    requires before { AreHashed vocab.now hashed.old.keys hashed.old.entries.items first }
    ensures next { IfOk result (λ next. next ≡ first + length (keys_at table.now place)) }
    ensures hashed { IfOk result (λ next. AreHashed vocab.now hashed.new.keys hashed.new.entries.items next) }
{
    let size = table.size(place);
    for i in 0..size {
        let token = vocab.token_of_member(first + i);
        if hashed.entries[token as usize].token != token {
            let key = table.key(place, i);
            hashed.entries[token as usize] = HashedToken::new(token, key, &mut hashed.keys)?;
        }
    }
    Ok(first + size)
}

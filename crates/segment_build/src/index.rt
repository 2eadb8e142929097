//! The index of a list of tables.
ghost use Rattle.std.specs.Prelude.{◌≡◌, ◌<◌, ◌^◌, length, sum_by, IfOk};
ghost use Rattle.lake_model.specs.Tables.{members};

use crate::columns::column_sets;
use crate::hashing::{HashedTokens, hashed_tokens};
use crate::lists::{PostingLists, list_starts, posting_lists};
use column_set::SharedTable;
use no_memory::NoMemory;
use segment_core::{SegmentIndex, order_by_hash};
use std::alloc::Global;
use title_order::{TitleOrder, order_columns};
use token_order::{TokenLists, Vocab};

/// Builds the index of these tables, which is that of Zhu, Deng, Nargesian and Miller, "JOSIE: Overlap Set
/// Similarity Search for Finding Joinable Tables in Data Lakes", SIGMOD 2019.
///
/// It puts the keys of all columns into groups of the same key by hashes, and sorts one key of each group by its bytes,
/// which gives the token of each key of each column. The sets are then sorted as numbers, and the posting lists are
/// written in one pass. Each distinct key is hashed once more and copied, and compared again only if another has the same
/// hash. The columns are also sorted once, by their names. The index keeps 16 bytes for each key of each column, 22 to 24
/// for each distinct key, and 20 for each column, and the bytes of the distinct keys. The most memory is taken while it
/// is put together: what it keeps, and 4 bytes more for each key of each column. It fails only if memory runs out.
pub fn build_index(alloc: Global, tables: Vec<SharedTable>) -> Result<SegmentIndex, NoMemory>
    requires columns { sum_by (λ t. length t.columns) tables.items < 2 ^ 32 }
    requires members { sum_by members tables.items < 2 ^ 32 }
    ensures { IfOk result (λ index. index ≡ tables.items) }
{
    let TitleOrder {
        ranks,
        by_rank,
        is_strict,
    } = order_columns(alloc, &tables)?;
    let vocab = Vocab::build(alloc, &tables)?;
    let sets = column_sets(alloc, &tables, &vocab)?;
    let HashedTokens { entries, keys } = hashed_tokens(alloc, &tables, &vocab)?;
    let TokenLists { frequencies, .. } = vocab.into_lists();
    let list_starts = list_starts(alloc, &frequencies)?;
    // The starts hold the same information, so the frequencies are freed before the steps that follow take their
    // memory.
    drop(frequencies);
    let by_hash = order_by_hash(alloc, entries, keys)?;
    let PostingLists { starts, postings } = posting_lists(
        alloc,
        &sets.starts,
        &sets.tokens,
        list_starts,
    )?;
    Ok(SegmentIndex::new(
        tables,
        sets.owners,
        by_hash,
        starts,
        postings,
        sets.starts,
        sets.tokens,
        ranks,
        by_rank,
        is_strict,
    ))
}

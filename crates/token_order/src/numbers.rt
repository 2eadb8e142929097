//! The numbers of tokens, by their keys.
ghost use Rattle.std.specs.Prelude.{◌≡◌, [], get_or, map};
ghost use Rattle.search_model.specs.Arrays.{token_keys, IsByKey, IsToken};
ghost use Rattle.search_model.specs.Segment.{columns_of, tokens_of};
ghost use Rattle.token_order.specs.Places.{pointed_by};

use crate::columns::ColumnAt;
use crate::places::key_at;
use column_set::SharedTable;
use search_model::TokenAt;

/// Returns the key of a token, or an empty text if there is no such token.
pub fn key_of<'a>(
    tables: &'a [SharedTable],
    columns: &[ColumnAt],
    tokens: &[TokenAt],
    number: u32,
) -> &'a str
    ensures { result.now ≡ get_or (map (pointed_by tables.now columns.now) tokens.now) number [] }
{
    match tokens.get(number as usize) {
        Some(at) => key_at(tables, columns, *at),
        None => "",
    }
}

/// Returns the number of the token that has the key, found by a binary search, or `None`.
pub fn find(
    tables: &[SharedTable],
    columns: &[ColumnAt],
    tokens: &[TokenAt],
    by_key: &[u32],
    key: &str,
) -> Option<u32>
    requires named { map (pointed_by tables.now columns.now) tokens.now ≡ token_keys (tokens_of (columns_of tables.now)) }
    requires sorted { IsByKey (tokens_of (columns_of tables.now)) by_key.now }
    ensures { IsToken (tokens_of (columns_of tables.now)) key.now result }
{
    match by_key.binary_search_by(|number| key_of(tables, columns, tokens, *number).cmp(key)) {
        Ok(at) => Some(by_key[at]),
        Err(_) => None,
    }
}

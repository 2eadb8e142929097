//! What a search is asked for.

use column_set::{Name, QuerySet};
use std::marker::Model;

/// The keys of a query, how many rows are asked for, and the table that is left out. Its model is the query.
#[derive(Drop)]
pub(crate) struct Asked<'q> {
    pub keys: &'q QuerySet,
    pub k: u32,
    pub except: Option<&'q Name>,
}

impl<'q> Model for Asked<'q> {
    ghost use Rattle.std.specs.Prelude.{option_copied};
    ghost use Rattle.lake_model.specs.Answer.{Query};
    ghost use Rattle.josie_search.specs.Search.{query_with};

    ghost Value = { Query };

    ghost view = { λ q. query_with q.k q.keys.now (option_copied q.except) };
}

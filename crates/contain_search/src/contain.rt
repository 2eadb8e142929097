//! A search of a version for the columns that hold a fraction of a query.
ghost use Rattle.std.specs.Prelude.{◌≡◌, ◌≤◌, [], map, sum_by, IfOk};
ghost use Rattle.contain_search.specs.Contained.{contain_with};
ghost use Rattle.contain_search.specs.Met.{looks_for, rows_for};
ghost use Rattle.part_columns.specs.Room.{asked_in};
ghost use Rattle.search_model.specs.Contain.{contain, contain_log};
ghost use Rattle.segment_core.specs.Versions.{live_of};

use crate::fraction::Fraction;
use crate::part::contain_part;
use column_set::{QuerySet, Row, Rows};
use no_memory::NoMemory;
use part_columns::{Answer, Columns, most_columns, most_probes};
use segment_core::{HashedQuery, Looks};
use std::alloc::Global;
use std::marker::Model;

/// A search that is ready to run and holds all the memory that it needs. Its model is the version, the keys, and the
/// fraction of the keys that a column has to hold.
#[derive(Drop)]
pub struct PreparedContain<'a, 'q> {
    looks: Looks<'a>,
    fraction: Fraction<'q>,
    tokens: Vec<Vec<u32>>,
    columns: Columns,
    found: Vec<u32>,
    rows: Vec<Row<'a>>,
}

impl<'a, 'q> Model for PreparedContain<'a, 'q> {
    ghost use Rattle.std.specs.Prelude.{◌≡◌, [], map, vec_capacity};
    ghost use Rattle.contain_search.specs.Contained.{ContainOf, contain_with};
    ghost use Rattle.contain_search.specs.Ready.{IsReady};

    ghost Value = { ContainOf };

    ghost view = { λ p. contain_with p.looks.version p.fraction.keys p.fraction.a p.fraction.b };

    ghost invariant = { λ p. (p.looks.log ≡ []) × IsReady p.looks.version.parts p.fraction p.looks.spare (map (λ tokens. tokens.items) p.tokens.items) p.columns (vec_capacity p.found) p.rows.items (vec_capacity p.rows) };
}

/// Prepares a search for the columns that hold at least a of b parts of the query's keys, and at least one key, and
/// takes all that it needs: the query's tokens of each part; a tally and room for each column of the part with the most
/// columns; room for the rows that it can find; and room in the log for its looks.
///
/// Returns `Err(NoMemory)` only if memory runs out; running the search takes no memory.
pub fn prepare_contain<'a, 'q>(
    alloc: Global,
    mut looks: Looks<'a>,
    query: &'q QuerySet,
    a: u32,
    b: u32,
) -> Result<PreparedContain<'a, 'q>, NoMemory>
    requires log { looks.log ≡ [] }
    requires some { 1 ≤ a }
    requires whole { a ≤ b }
    requires high { b ≤ 10000 }
    ensures { IfOk result (λ prepared. prepared ≡ contain_with looks.entry.version query.now a b) }
{
    let fraction = Fraction { keys: query, a, b };
    let (tokens, most_rows) = ask_parts(alloc, &mut looks, query, fraction.least())?;
    let most = most_columns(&looks);
    let columns = Columns::new(alloc, most)?;
    let found = Vec::with_capacity(alloc, most as usize)?;
    let rows = Vec::with_capacity(alloc, most_rows)?;
    // A search reads at most as many lists as the query has keys.
    prove!(query.len() <= 4_194_304);
    Ok(PreparedContain {
        looks,
        fraction,
        tokens,
        columns,
        found,
        rows,
    })
}

// Returns the query's tokens of each part, and how many rows there can be if `least` keys are needed. Gives the log
// room for as many looks as a search for them can take.
fn ask_parts(
    alloc: Global,
    looks: &mut Looks<'_>,
    query: &QuerySet,
    least: u32,
) -> Result<(Vec<Vec<u32>>, usize), NoMemory>
    requires { 1 ≤ least }
    ensures tokens { IfOk result (λ asked. map (λ tokens. tokens.items) asked.0.items ≡ map (asked_in query.now) looks.old.version.parts) }
    ensures version { looks.new.version ≡ looks.old.version }
    ensures log { looks.new.log ≡ looks.old.log }
    ensures looks { IfOk result (λ asked. sum_by (looks_for query.now least) looks.old.version.parts ≤ looks.new.spare) }
    ensures rows { IfOk result (λ asked. sum_by (rows_for query.now least) looks.old.version.parts ≤ asked.1) }
{
    let hashed = HashedQuery::new(alloc, query, looks.parts())?;
    let asked = looks.tokens_of_parts(alloc, &hashed)?;
    let mut rows = 0;
    for part in 0..looks.parts() {
        let tokens: &[u32] = &asked[part as usize];
        let read = (tokens.len() + 1).saturating_sub(least as usize);
        let probes = most_probes(looks, part, &tokens[..read]) as usize;
        looks.reserve_log(read + probes)?;
        // There are at most as many rows as looks.
        prove!(probes <= looks.log_spare());
        rows += probes;
    }
    Ok((asked, rows))
}

impl<'a, 'q> PreparedContain<'a, 'q> {
    /// Returns all columns of the live tables that hold at least a of b parts of the query's keys, and at least one
    /// key. They are ordered by greater overlap, then by the bytes of the table's name, then by those of the column's
    /// name, and then by place.
    ///
    /// No list is read and no column is probed twice, and a part with fewer of the query's keys than are needed is not
    /// looked at. It takes no memory, and cannot fail.
    pub fn run(self) -> Answer<'a>
        ensures rows { result.rows ≡ contain (live_of self.entry.version.parts) self.entry.keys self.entry.a self.entry.b }
        ensures log { result.looks.log ≡ contain_log self.entry.keys self.entry.a self.entry.b self.entry.version.parts }
        ensures version { result.looks.version ≡ self.entry.version }
    {
        let PreparedContain {
            mut looks,
            fraction,
            tokens,
            mut columns,
            mut found,
            mut rows,
        } = self;
        let least = fraction.least();
        for part in 0..looks.parts() {
            columns.clear();
            let asked = &tokens[part as usize];
            contain_part(
                &mut looks,
                part,
                asked,
                least,
                &mut columns,
                &mut found,
                &mut rows,
            );
        }
        rows.sort_unstable();
        Answer {
            rows: Rows::new(rows),
            looks,
        }
    }
}

//! The runs of members in token order.
ghost use Rattle.std.specs.Prelude.{◌≡◌, ◌<◌, ◌^◌, length, map, sum_by, IfOk};
ghost use Rattle.std.specs.List.Sorted.{IsNonDecreasingBy, IsPermutation};
ghost use Rattle.lake_model.specs.Tables.{members};
ghost use Rattle.token_order.specs.Counted.{AreNumbers, ArePlaces};
ghost use Rattle.token_order.specs.Runs.{run_number};
ghost use Rattle.token_order.specs.Vocabulary.{IsVocabulary};

use crate::columns::ColumnAt;
use crate::runs::{CountedRuns, Run, counted_runs, run_number};
use column_set::SharedTable;
use no_memory::NoMemory;
use search_model::TokenAt;
use std::alloc::Global;

/// The columns; where the tokens' keys are and how frequent the tokens are, in token order; the numbers of the tokens
/// by the bytes of their keys; and, for each member at its number, the rank of its key among the distinct keys by their
/// bytes.
#[derive(Drop)]
pub struct OrderedTokens {
    pub columns: Vec<ColumnAt>,
    pub tokens: Vec<TokenAt>,
    pub frequencies: Vec<u32>,
    pub by_key: Vec<u32>,
    pub ranks: Vec<u32>,
}

/// Returns the tokens of the tables. The runs are numbered by their keys, so that ordering them compares no keys.
pub fn ordered_tokens(alloc: Global, tables: &[SharedTable]) -> Result<OrderedTokens, NoMemory>
    requires { sum_by members tables.now < 2 ^ 32 }
    ensures { IfOk result (λ made. IsVocabulary tables.now made.columns.items made.tokens.items made.frequencies.items made.by_key.items made.ranks.items) }
{
    let CountedRuns {
        columns,
        runs,
        ranks,
    } = counted_runs(alloc, tables)?;
    let runs = sorted_runs(runs);
    let by_key = numbers_by_rank(alloc, &runs)?;
    let tokens = places_of(alloc, &runs)?;
    let frequencies = frequencies_of(alloc, &runs)?;
    Ok(OrderedTokens {
        columns,
        tokens,
        frequencies,
        by_key,
        ranks,
    })
}

// Returns the runs sorted by their frequencies, and then by their ranks.
fn sorted_runs(mut runs: Vec<Run>) -> Vec<Run>
    ensures same { IsPermutation runs.items result.items }
    ensures rising { IsNonDecreasingBy run_number result.items }
{
    runs.sort_unstable_by(|a, b| run_number(*a).cmp(&run_number(*b)));
    runs
}

// Returns the number of the run that has each rank. It takes one write for each run.
fn numbers_by_rank(alloc: Global, runs: &[Run]) -> Result<Vec<u32>, NoMemory>
    requires few { length runs.now < 2 ^ 32 }
    requires ranks { AreNumbers (map (λ r. r.rank) runs.now) }
    ensures { IfOk result (λ numbers. ArePlaces (map (λ r. r.rank) runs.now) numbers.items) }
{
    let mut numbers = vec![in alloc; 0; runs.len()]?;
    number_runs(runs, &mut numbers);
    Ok(numbers)
}

// Writes the number of each run at its rank.
fn number_runs(runs: &[Run], numbers: &mut [u32])
    requires few { length runs.now < 2 ^ 32 }
    requires ranks { AreNumbers (map (λ r. r.rank) runs.now) }
    requires room { length numbers.old ≡ length runs.now }
    ensures places { ArePlaces (map (λ r. r.rank) runs.now) numbers.new }
    ensures long { length numbers.new ≡ length numbers.old }
{
    for number in 0..runs.len() as u32 {
        numbers[runs[number as usize].rank as usize] = number;
    }
}

// Returns where the keys of the runs are.
fn places_of(alloc: Global, runs: &[Run]) -> Result<Vec<TokenAt>, NoMemory>
    ensures { IfOk result (λ tokens. tokens.items ≡ map (λ r. r.first) runs.now) }
{
    let mut tokens = Vec::with_capacity(alloc, runs.len())?;
    for run in runs {
        tokens.push(run.first)?;
    }
    Ok(tokens)
}

// Returns how many members the runs have.
fn frequencies_of(alloc: Global, runs: &[Run]) -> Result<Vec<u32>, NoMemory>
    ensures { IfOk result (λ frequencies. frequencies.items ≡ map (λ r. r.frequency) runs.now) }
{
    let mut frequencies = Vec::with_capacity(alloc, runs.len())?;
    for run in runs {
        frequencies.push(run.frequency)?;
    }
    Ok(frequencies)
}

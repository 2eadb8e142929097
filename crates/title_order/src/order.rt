//! The numbers of columns in the order of their names, and their ranks in that order.
ghost use Rattle.std.specs.Prelude.{◌≡◌, ◌<◌, ◌^◌, length, map, true, IfOk};
ghost use Rattle.std.specs.List.{AllAdjacentBelow};
ghost use Rattle.std.specs.List.Sorted.{IsSorted};
ghost use Rattle.search_model.specs.Ranks.{number_cmp, ranked, AreInverse, AreRanks, AreRising};
ghost use Rattle.search_model.specs.Segment.{columns_of, segment};
ghost use Rattle.title_order.specs.Titles.{RowsDiffer};
ghost use Rattle.token_order.specs.Counted.{AreNumbers, ArePlaces};

use crate::title::{Title, all_titles};
use column_set::SharedTable;
use no_memory::NoMemory;
use std::alloc::Global;

/// The order of the columns of a list of tables: by the bytes of their tables' names, then those of their own names,
/// then by their places, then by their numbers, which count from 0 by table and then by place. `ranks` has, at each
/// column's number, how many columns come before it; `by_rank` has the numbers of the columns in that order. If
/// `is_strict` is set, no two columns have the same titles, so that none needs its number to tell where it stands.
#[derive(Drop)]
pub struct TitleOrder {
    pub ranks: Vec<u32>,
    pub by_rank: Vec<u32>,
    pub is_strict: bool,
}

/// Returns the order of the columns of the tables. It sorts the columns, which costs as much as sorting the names of
/// one table, or those of all tables and columns together. It takes 28 bytes for each column while they are sorted, of
/// which 8 are kept. Returns `Err(NoMemory)` if memory runs out, and also if there are 2^32 columns or more.
pub fn order_columns(alloc: Global, tables: &[SharedTable]) -> Result<TitleOrder, NoMemory>
    ensures ranks { IfOk result (λ order. AreRanks (segment tables.now).columns order.ranks.items) }
    ensures inverse { IfOk result (λ order. AreInverse order.ranks.items order.by_rank.items) }
    ensures strict { IfOk result (λ order. order.is_strict ≡ true → AreRising (ranked (segment tables.now).columns order.by_rank.items)) }
{
    let ByTitle { by_rank, is_strict } = columns_by_title(alloc, tables)?;
    let ranks = places_of(alloc, &by_rank)?;
    Ok(TitleOrder {
        ranks,
        by_rank,
        is_strict,
    })
}

// The numbers of the columns in their order. If `is_strict` is set, no two columns have the same titles.
#[derive(Drop)]
struct ByTitle {
    by_rank: Vec<u32>,
    is_strict: bool,
}

// Returns the numbers of the columns in their order.
fn columns_by_title(alloc: Global, tables: &[SharedTable]) -> Result<ByTitle, NoMemory>
    ensures sorted { IfOk result (λ order. IsSorted (number_cmp (columns_of tables.now)) order.by_rank.items) }
    ensures long { IfOk result (λ order. length order.by_rank.items ≡ length (columns_of tables.now)) }
    ensures all { IfOk result (λ order. AreNumbers order.by_rank.items) }
    ensures few { IfOk result (λ order. length order.by_rank.items < 2 ^ 32) }
    ensures strict { IfOk result (λ order. order.is_strict ≡ true → AreRising (ranked (columns_of tables.now) order.by_rank.items)) }
{
    let mut titles = all_titles(alloc, tables)?;
    titles.sort_unstable_by(|a, b| a.order(b));
    let is_strict = neighbours_differ(&titles);
    let by_rank = numbers_of(alloc, &titles)?;
    Ok(ByTitle { by_rank, is_strict })
}

// Returns whether the rows of any two neighbours differ. In the sorted order equal rows are neighbours, so this tells
// whether any two are equal.
fn neighbours_differ(titles: &[Title<'_>]) -> bool
    ensures { result ≡ true → AllAdjacentBelow RowsDiffer titles.now (length titles.now) }
{
    titles.is_sorted_by(|a, b| a.row_differs(b))
}

// Returns the numbers of these columns.
fn numbers_of(alloc: Global, titles: &[Title<'_>]) -> Result<Vec<u32>, NoMemory>
    ensures { IfOk result (λ numbers. numbers.items ≡ map (λ t. t.number) titles.now) }
{
    let mut numbers = Vec::with_capacity(alloc, titles.len())?;
    for title in titles {
        numbers.push(title.number)?;
    }
    Ok(numbers)
}

// Returns the index of each number in the list, which holds 0, 1, and so on in some order. It takes one write for each
// number.
fn places_of(alloc: Global, numbers: &[u32]) -> Result<Vec<u32>, NoMemory>
    requires few { length numbers.now < 2 ^ 32 }
    requires all { AreNumbers numbers.now }
    ensures { IfOk result (λ places. ArePlaces numbers.now places.items) }
{
    let mut places = vec![in alloc; 0; numbers.len()]?;
    write_places(numbers, &mut places);
    Ok(places)
}

// Writes the index of each number at that number.
fn write_places(numbers: &[u32], places: &mut [u32])
    requires few { length numbers.now < 2 ^ 32 }
    requires all { AreNumbers numbers.now }
    requires room { length places.old ≡ length numbers.now }
    ensures { ArePlaces numbers.now places.new }
{
    for place in 0..numbers.len() as u32 {
        places[numbers[place as usize] as usize] = place;
    }
}

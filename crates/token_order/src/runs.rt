//! Members with equal keys, counted.
ghost use Rattle.std.specs.Prelude.{◌≡◌, ◌<◌, ◌^◌, [], get_or, length, map, sum_by, IfOk, OnOk};
ghost use Rattle.std.specs.List.{All};
ghost use Rattle.column_set.specs.Columns.{HasDistinctKeys};
ghost use Rattle.lake_model.specs.Tables.{members};
ghost use Rattle.search_model.specs.Arrays.{owner_of, token_keys, token_with};
ghost use Rattle.search_model.specs.Segment.{columns_of};
ghost use Rattle.token_order.specs.Columns.{keys_through, owner_there, AreColumns};
ghost use Rattle.token_order.specs.Counted.{AreCounted, AreNumbers};
ghost use Rattle.token_order.specs.Groups.{group_token};
ghost use Rattle.token_order.specs.Keyed.{IsKeyed};
ghost use Rattle.token_order.specs.Places.{keys_of, pointed_by, IsThere};
ghost use Rattle.token_order.specs.Ranks.{HaveRanks};
ghost use Rattle.token_order.specs.Runs.{run_number, run_token, runs_from, runs_of, AreRanked};

use crate::columns::{ColumnAt, all_columns};
use crate::groups::{Group, Groups, grouped_members, sorted_groups};
use crate::keyed::{Keyed, same_key};
use column_set::SharedTable;
use no_memory::NoMemory;
use search_model::TokenAt;
use std::alloc::Global;

/// All members that have one key: the first of them, how many they are, and the number of the key among the distinct
/// keys sorted by their bytes, from 0.
#[derive(Clone, Copy)]
pub struct Run {
    pub first: TokenAt,
    pub frequency: u32,
    pub rank: u32,
}

/// The columns, the runs of their members by the bytes of their keys, and, at each member's number, the number of its
/// run.
#[derive(Drop)]
pub struct CountedRuns {
    pub columns: Vec<ColumnAt>,
    pub runs: Vec<Run>,
    pub ranks: Vec<u32>,
}

// The same without the columns.
#[derive(Drop)]
struct RankedRuns {
    runs: Vec<Run>,
    ranks: Vec<u32>,
}

/// Returns the runs of the members of all columns of the tables.
pub fn counted_runs(alloc: Global, tables: &[SharedTable]) -> Result<CountedRuns, NoMemory>
    requires { sum_by members tables.now < 2 ^ 32 }
    ensures counted { IfOk result (λ made. AreCounted tables.now made.columns.items made.runs.items made.ranks.items) }
    ensures different { OnOk result (All HasDistinctKeys tables.now) }
{
    let columns = all_columns(alloc, tables)?;
    let RankedRuns { runs, ranks } = ranked_runs(alloc, tables, &columns)?;
    Ok(CountedRuns {
        columns,
        runs,
        ranks,
    })
}

// Returns the runs of the members of these columns, which are those of the tables. The members are grouped first, so
// that only one of each group is sorted.
fn ranked_runs(
    alloc: Global,
    tables: &[SharedTable],
    columns: &[ColumnAt],
) -> Result<RankedRuns, NoMemory>
    requires columns { AreColumns tables.now columns.now }
    requires owned { map owner_there columns.now ≡ map owner_of (columns_of tables.now) }
    requires few { length columns.now < 2 ^ 32 }
    requires all { keys_through tables.now columns.now ≡ keys_of tables.now }
    requires members { length (keys_of tables.now) < 2 ^ 32 }
    ensures { IfOk result (λ made. AreCounted tables.now columns.now made.runs.items made.ranks.items) }
{
    let Groups { groups, numbers } = grouped_members(alloc, tables, columns)?;
    let groups = sorted_groups(groups, tables, columns);
    let mut ranks = vec![in alloc; 0; groups.len()]?;
    let runs = count_runs(alloc, tables, columns, &groups, &mut ranks)?;
    drop(groups);
    Ok(RankedRuns {
        runs,
        ranks: ranks_of_members(numbers, &ranks),
    })
}

/// Returns the number by which runs are sorted: the frequency, and then the rank, which is that of the key. To compare
/// such numbers takes no branch.
pub fn run_number(run: Run) -> u64
    ensures { result ≡ run_number run }
{
    run.frequency as u64 * 0x1_0000_0000 + run.rank as u64
}

// Returns the runs of these groups, which are sorted by their keys. The number of each group's run is written to `ranks`
// at the number of the group.
fn count_runs(
    alloc: Global,
    tables: &[SharedTable],
    columns: &[ColumnAt],
    groups: &[Group],
    ranks: &mut [u32],
) -> Result<Vec<Run>, NoMemory>
    requires keyed { All (λ g. IsKeyed tables.now columns.now g.keyed) groups.now }
    requires within { All (λ g. IsThere tables.now columns.now g.keyed.member) groups.now }
    requires numbers { AreNumbers (map (λ g. g.number) groups.now) }
    requires few { sum_by (λ g. g.frequency) groups.now < 2 ^ 32 }
    requires many { length groups.now < 2 ^ 32 }
    requires room { length ranks.old ≡ length groups.now }
    ensures runs { IfOk result (λ runs. map (run_token tables.now columns.now) runs.items ≡ runs_of (map (group_token tables.now columns.now) groups.now)) }
    ensures within { IfOk result (λ runs. All (λ r. IsThere tables.now columns.now r.first) runs.items) }
    ensures numbered { IfOk result (λ runs. AreRanked runs.items) }
    ensures ranked { OnOk result (HaveRanks (token_keys (runs_of (map (group_token tables.now columns.now) groups.now))) tables.now columns.now ranks.new groups.now) }
    ensures long { length ranks.new ≡ length ranks.old }
{
    let Some(first) = groups.first() else {
        return Ok(Vec::new(alloc));
    };
    count_from(alloc, tables, columns, first.keyed, groups, ranks)
}

// Returns the runs. The first one begins at the first member of a group that has not been counted yet.
fn count_from(
    alloc: Global,
    tables: &[SharedTable],
    columns: &[ColumnAt],
    first: Keyed,
    groups: &[Group],
    ranks: &mut [u32],
) -> Result<Vec<Run>, NoMemory>
    requires first { IsThere tables.now columns.now first.member }
    requires keyed_first { IsKeyed tables.now columns.now first }
    requires keyed { All (λ g. IsKeyed tables.now columns.now g.keyed) groups.now }
    requires within { All (λ g. IsThere tables.now columns.now g.keyed.member) groups.now }
    requires numbers { AreNumbers (map (λ g. g.number) groups.now) }
    requires few { sum_by (λ g. g.frequency) groups.now < 2 ^ 32 }
    requires many { length groups.now < 2 ^ 32 }
    requires room { length ranks.old ≡ length groups.now }
    ensures runs { IfOk result (λ runs. map (run_token tables.now columns.now) runs.items ≡ runs_from (token_with (pointed_by tables.now columns.now first.member) 0) (map (group_token tables.now columns.now) groups.now)) }
    ensures within { IfOk result (λ runs. All (λ r. IsThere tables.now columns.now r.first) runs.items) }
    ensures numbered { IfOk result (λ runs. AreRanked runs.items) }
    ensures ranked { OnOk result (HaveRanks (token_keys (runs_from (token_with (pointed_by tables.now columns.now first.member) 0) (map (group_token tables.now columns.now) groups.now))) tables.now columns.now ranks.new groups.now) }
    ensures long { length ranks.new ≡ length ranks.old }
{
    let mut runs = Vec::new(alloc);
    let mut held = first;
    let mut run = Run {
        first: first.member,
        frequency: 0,
        rank: 0,
    };
    for group in groups {
        if same_key(tables, columns, &group.keyed, &held) {
            run.frequency += group.frequency;
        } else {
            runs.push(run)?;
            held = group.keyed;
            run = Run {
                first: group.keyed.member,
                frequency: group.frequency,
                rank: run.rank + 1,
            };
        }
        ranks[group.number as usize] = run.rank;
    }
    runs.push(run)?;
    Ok(runs)
}

// Returns at each member's number the number of its run, given the numbers of the members' groups and at each group's
// number that of its run. It takes no memory.
fn ranks_of_members(mut numbers: Vec<u32>, ranks: &[u32]) -> Vec<u32>
    requires { All (λ number. number < length ranks.now) numbers.items }
    ensures { result.items ≡ map (λ number. get_or ranks.now number 0) numbers.items }
{
    for i in 0..numbers.len() {
        numbers[i] = ranks[numbers[i] as usize];
    }
    numbers
}

//! The result of a plan.
ghost use Rattle.std.specs.Prelude.{◌≡◌, ◌⊎◌, ◌*◌, ◌<◌, ◌≤◌, ◌^◌, [], length, map, option_map, sum_by, unwrap_or, IfOk, IfSome};
ghost use Rattle.lake_model.specs.Tables.{members};
ghost use Rattle.segment_core.specs.Plans.{merged_with};
ghost use Rattle.segment_merge.specs.Planned.{load_positions, load_tables};

use column_set::SharedTable;
use no_memory::NoMemory;
use segment_build::build;
use segment_core::{Merged, Numbers, Plan, Segment};
use std::alloc::Global;
use std::sync::Arc;

/// Merges a plan: returns the segment of the tables that it keeps, or `None` for the segment if it keeps none, with the
/// rest of the plan. No table is copied. It costs as much as building that segment, and fails only if memory runs out.
pub fn merge(alloc: Global, plan: Plan) -> Result<Merged, NoMemory>
    // the columns have numbers of 32 bits, as those of fewer than 2^20 tables always do
    requires columns { (sum_by (λ t. length t.columns) (load_tables plan.kept) < 2 ^ 32) ⊎ (length plan.kept < 2 ^ 20) }
    requires members { sum_by members (load_tables plan.kept) < 2 ^ 32 }
    ensures { IfOk result (λ merged. merged ≡ merged_with plan.from (load_positions plan.kept) (load_tables plan.kept) plan.at) }
{
    let Plan { from, kept, at } = plan;
    let (positions, tables) = split_loads(alloc, &kept)?;
    let segment = segment_of(alloc, tables)?;
    Ok(Merged {
        from,
        kept: Numbers::new(positions),
        segment,
        at,
    })
}

// Returns the positions of loads, and their tables. A table has at most 4,096 columns.
fn split_loads(
    alloc: Global,
    loads: &[(u64, SharedTable)],
) -> Result<(Vec<u64>, Vec<SharedTable>), NoMemory>
    ensures positions { IfOk result (λ lists. lists.0.items ≡ load_positions loads.now) }
    ensures tables { IfOk result (λ lists. lists.1.items ≡ load_tables loads.now) }
    ensures narrow { IfOk result (λ lists. sum_by (λ t. length t.columns) (load_tables loads.now) ≤ 4096 * length loads.now) }
{
    let mut positions = Vec::with_capacity(alloc, loads.len())?;
    let mut tables = Vec::with_capacity(alloc, loads.len())?;
    for load in loads {
        positions.push(load.0)?;
        prove!(load.1.table().columns() <= 4_096);
        tables.push(load.1.share()?)?;
    }
    Ok((positions, tables))
}

// Returns the segment of the tables, or `None` if there are none.
fn segment_of(alloc: Global, tables: Vec<SharedTable>) -> Result<Option<Arc<Segment>>, NoMemory>
    requires columns { sum_by (λ t. length t.columns) tables.items < 2 ^ 32 }
    requires members { sum_by members tables.items < 2 ^ 32 }
    ensures tables { IfOk result (λ segment. unwrap_or (option_map (λ s. s.value) segment) [] ≡ tables.items) }
    ensures some { IfOk result (λ segment. IfSome segment (λ s. 0 < length s.value)) }
{
    if tables.is_empty() {
        return Ok(None);
    }
    Ok(Some(Arc::new(alloc, build(alloc, tables)?)?))
}

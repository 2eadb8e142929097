//! Plans of merges, and their results.
ghost use Rattle.std.specs.Prelude.{◌≡◌, ◌++◌, length, IfOk, OnOk};
ghost use Rattle.segment_core.specs.Plans.{kept_loads, loads_without, named, plan_run};

use crate::numbers::Numbers;
use crate::segment::Segment;
use crate::version::Part;
use column_set::SharedTable;
use no_memory::NoMemory;
use std::alloc::Global;
use std::marker::Model;
use std::sync::Arc;

/// A plan of a merge. `from` has, for each part to be merged, in the order of the layout, its number and the positions
/// of its loads. `kept` has, for each load that is kept, in the same order, its position and its table. `at` is the
/// position of the version for which it was planned. Its model is these lists and that position.
#[derive(Drop)]
pub struct Plan {
    pub from: Vec<(u64, Numbers)>,
    pub kept: Vec<(u64, SharedTable)>,
    pub at: u64,
}

impl Model for Plan {
    ghost use Rattle.segment_core.specs.Plans.{PlanOf, plan_with};

    ghost Value = { PlanOf };

    ghost view = { λ p. plan_with p.from.items p.kept.items p.at };
}

/// The result of merging a plan: the parts that were merged and the positions that are kept, as in the plan; the
/// segment of the tables that were loaded at those positions, or `None` if none is kept; and the position of the plan.
/// In its model the tables take the place of their segment.
#[derive(Drop)]
pub struct Merged {
    pub from: Vec<(u64, Numbers)>,
    pub kept: Numbers,
    pub segment: Option<Arc<Segment>>,
    pub at: u64,
}

impl Model for Merged {
    ghost use Rattle.std.specs.Prelude.{◌≡◌, ◌<◌, [], length, option_map, unwrap_or, IfSome};
    ghost use Rattle.segment_core.specs.Plans.{MergedOf, merged_with};

    ghost Value = { MergedOf };

    ghost view = { λ m. merged_with m.from.items m.kept (unwrap_or (option_map (λ s. s.value) m.segment) []) m.at };

    ghost invariant = { λ m. (length m.kept ≡ length (unwrap_or (option_map (λ s. s.value) m.segment) [])) × IfSome m.segment (λ s. 0 < length s.value) };
}

// Returns the plan of these parts at a position.
pub(crate) fn plan_parts(alloc: Global, at: u64, run: &[Part]) -> Result<Plan, NoMemory>
    ensures { IfOk result (λ plan. plan ≡ plan_run at run.now) }
{
    Ok(Plan {
        from: named_parts(alloc, run)?,
        kept: unmarked_loads(alloc, run)?,
        at,
    })
}

// Returns the number of each part, and the positions of its loads.
fn named_parts(alloc: Global, run: &[Part]) -> Result<Vec<(u64, Numbers)>, NoMemory>
    ensures { IfOk result (λ all. all.items ≡ named run.now) }
{
    let mut all = Vec::with_capacity(alloc, run.len())?;
    for part in run {
        all.push((part.number, part.positions.copy()?))?;
    }
    Ok(all)
}

// Returns the position and the table of each unmarked load.
fn unmarked_loads(alloc: Global, run: &[Part]) -> Result<Vec<(u64, SharedTable)>, NoMemory>
    ensures { IfOk result (λ loads. loads.items ≡ kept_loads run.now) }
{
    let mut loads = Vec::new(alloc);
    for part in run {
        add_loads(
            part.loads(),
            part.segment().tables(),
            part.marks(),
            &mut loads,
        )?;
    }
    Ok(loads)
}

// Appends the unmarked loads of a part.
fn add_loads(
    positions: &[u64],
    tables: &[SharedTable],
    marks: &[bool],
    loads: &mut Vec<(u64, SharedTable)>,
) -> Result<(), NoMemory>
    requires positions { length positions.now ≡ length tables.now }
    requires marks { length marks.now ≡ length tables.now }
    ensures { OnOk result (loads.new.items ≡ loads.old.items ++ loads_without positions.now tables.now marks.now) }
{
    for (i, table) in tables.iter().enumerate() {
        if !marks[i] {
            loads.push((positions[i], table.share()?))?;
        }
    }
    Ok(())
}

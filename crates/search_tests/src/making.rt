//! Small tables, and lakes in which each table is a part of its own, numbered by the position of its load.
ghost use Rattle.std.specs.Prelude.{◌≡◌, ◌<◌, ◌^◌, ◌∷◌, [], ℕ, length, map, option_map, sum_by, unwrap_or, IfOk, IfSome};
ghost use Rattle.std.specs.Bool.{OnTrue};
ghost use Rattle.lake_model.specs.Layout.{layout};
ghost use Rattle.lake_model.specs.Tables.{members, Table};
ghost use Rattle.catalogue.specs.Swaps.{IsMergeOf};

use catalogue::{Catalogue, Limits, Who};
use column_set::{Keys, Name, SharedTable, TableSets};
use csv_table::read_table;
use segment_build::build;
use segment_core::{Merged, Numbers, Plan, Segment};
use std::alloc::Global;
use std::sync::Arc;
use std::test::Fail;

/// Who makes each entry of a journal.
pub(crate) const WHO: Who = Who {
    caller: 1,
    command: 1,
};

/// An entry of a journal: the name of its table, and the table's CSV bytes; or the merge of the first two parts.
#[derive(Clone, Copy)]
pub(crate) enum Change<'c> {
    Load(&'c str, &'c str),
    Replace(&'c str, &'c str),
    Drop(&'c str),
    Merge,
}

/// Reads a text as a name.
pub(crate) fn name(text: &str) -> Result<Name, Fail> {
    Ok(Name::read(text.as_bytes()).ok_or("no name")?)
}

/// Returns the table of this name and these CSV bytes.
pub(crate) fn table(alloc: Global, title: &str, text: &str) -> Result<SharedTable, Fail> {
    let raw = read_table(alloc, text.as_bytes(), 1_024)?;
    let sets = TableSets::build(alloc, Keys::Canonical, name(title)?, &raw)?;
    Ok(SharedTable::new(alloc, sets)?)
}

/// Returns the segment of a small table.
pub(crate) fn segment(alloc: Global, table: &SharedTable) -> Result<Arc<Segment>, Fail>
    ensures { IfOk result (λ segment. segment.value ≡ table.now ∷ []) }
{
    segment_of(alloc, vec![in alloc; table.share()?]?)
}

/// Returns the segment of at most four small tables.
pub(crate) fn segment_of(alloc: Global, tables: Vec<SharedTable>) -> Result<Arc<Segment>, Fail>
    ensures { IfOk result (λ segment. segment.value ≡ tables.items) }
{
    if !are_few(&tables) {
        return Err(Fail::from("large tables"));
    }
    Ok(Arc::new(alloc, build(alloc, tables)?)?)
}

// Returns whether the tables are few and small enough to make a segment of them.
fn are_few(tables: &[SharedTable]) -> bool
    ensures columns { OnTrue result (sum_by (λ t. length t.columns) tables.now < 2 ^ 32) }
    ensures members { OnTrue result (sum_by members tables.now < 2 ^ 32) }
{
    if tables.len() > 4 {
        return false;
    }
    for table in tables {
        if table.table().columns() > 1000 || table.table().members() > 1000 {
            return false;
        }
    }
    true
}

/// Returns a lake without tables.
pub(crate) fn empty(alloc: Global) -> Result<Catalogue, Fail> {
    Ok(Catalogue::new(alloc, Limits::standard())?)
}

/// Loads a table.
pub(crate) fn load(
    lake: &mut Catalogue,
    alloc: Global,
    title: &str,
    text: &str,
) -> Result<(), Fail> {
    let table = table(alloc, title, text)?;
    let segment = segment(alloc, &table)?;
    if lake.load(WHO, table, segment).is_err() {
        return Err(Fail::from("a load was refused"));
    }
    Ok(())
}

/// Drops a table, which marks it.
pub(crate) fn drop_table(lake: &mut Catalogue, title: &str) -> Result<(), Fail> {
    if lake.drop_table(WHO, &name(title)?).is_err() {
        return Err(Fail::from("a drop was refused"));
    }
    Ok(())
}

// Returns the positions of the loads that a plan keeps.
fn kept_positions(alloc: Global, kept: &[(u64, SharedTable)]) -> Result<Vec<u64>, Fail>
    ensures { IfOk result (λ all. all.items ≡ map (λ (load : ℕ × Table). load.0) kept.now) }
{
    let mut all = Vec::new(alloc);
    for (position, _) in kept {
        all.push(*position)?;
    }
    Ok(all)
}

// Returns the tables that a plan keeps.
fn kept_tables(alloc: Global, kept: &[(u64, SharedTable)]) -> Result<Vec<SharedTable>, Fail>
    ensures { IfOk result (λ all. all.items ≡ map (λ (load : ℕ × Table). load.1) kept.now) }
{
    let mut all = Vec::new(alloc);
    for load in kept {
        all.push(load.1.share()?)?;
    }
    Ok(all)
}

// Returns the segment of the tables that are kept, or none if none is kept.
fn kept_segment(alloc: Global, kept: &[(u64, SharedTable)]) -> Result<Option<Arc<Segment>>, Fail>
    ensures tables { IfOk result (λ segment. unwrap_or (option_map (λ s. s.value) segment) [] ≡ map (λ (load : ℕ × Table). load.1) kept.now) }
    ensures some { IfOk result (λ segment. IfSome segment (λ s. 0 < length s.value)) }
{
    let tables = kept_tables(alloc, kept)?;
    if tables.is_empty() {
        return Ok(None);
    }
    Ok(Some(segment_of(alloc, tables)?))
}

// Returns what the first `count` parts, two or more, are merged into.
fn merged(lake: &Catalogue, alloc: Global, count: u32) -> Result<Merged, Fail>
    requires { 1 < count }
    ensures at { IfOk result (λ merged. merged.at ≡ length lake.now.journal) }
    ensures merges { IfOk result (λ merged. IsMergeOf (layout lake.now.journal) merged) }
{
    let _journal = lake.journal();
    let pin = lake.pin()?;
    if pin.parts() < count {
        return Err(Fail::from("fewer parts"));
    }
    let Plan { from, kept, at } = pin.plan_run(alloc, 0, count)?;
    let segment = kept_segment(alloc, &kept)?;
    let kept = Numbers::new(kept_positions(alloc, &kept)?);
    Ok(Merged {
        from,
        kept,
        segment,
        at,
    })
}

/// Merges the first `count` parts, two or more, which have at most four live tables.
pub(crate) fn merge(lake: &mut Catalogue, alloc: Global, count: u32) -> Result<(), Fail>
    requires { 1 < count }
{
    let merged = merged(lake, alloc, count)?;
    if lake.swap(WHO, merged).is_err() {
        return Err(Fail::from("a swap was refused"));
    }
    Ok(())
}

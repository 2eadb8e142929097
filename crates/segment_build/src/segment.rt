//! Segments with their indexes, and pins whose parts get theirs.
ghost use Rattle.std.specs.Prelude.{◌≡◌, ◌<◌, ◌^◌, length, map, sum_by, IfOk, IfSome};
ghost use Rattle.lake_model.specs.Tables.{members};
ghost use Rattle.segment_core.specs.Versions.{tables_of};

use crate::index::build_index;
use column_set::SharedTable;
use no_memory::NoMemory;
use segment_core::{IndexedPin, PartIndex, Pin, Segment};
use std::alloc::Global;
use std::boxed::Box;

/// Builds the segment of these tables, with its index. It costs what [`build_index`] does, and fails only if memory runs
/// out.
pub fn build(alloc: Global, tables: Vec<SharedTable>) -> Result<Segment, NoMemory>
    requires columns { sum_by (λ t. length t.columns) tables.items < 2 ^ 32 }
    requires members { sum_by members tables.items < 2 ^ 32 }
    ensures { IfOk result (λ segment. segment ≡ tables.items) }
{
    let segment = Segment::new(tables);
    let _ = index_of(alloc, &segment)?;
    Ok(segment)
}

/// Returns a pin with the indexes of its parts, so that it can be searched. Segments that have no index yet get it
/// first: it is built when the segment is first searched, and stays for later searches. It takes 16 bytes for each part,
/// and what [`build_index`] does for each index that is missing, and fails only if memory runs out.
///
/// Several callers may need the indexes of the same segments at the same time. Each first builds those that nobody has
/// begun, and then those that are still missing, so an index is seldom built twice.
pub fn index_pin(alloc: Global, pin: &Pin) -> Result<IndexedPin<'_>, NoMemory>
    ensures { IfOk result (λ indexed. indexed ≡ pin.now) }
{
    if let Some(indexes) = kept_indexes(alloc, pin)? {
        return Ok(IndexedPin::new(pin, indexes));
    }
    add_begun(alloc, pin)?;
    Ok(IndexedPin::new(pin, all_indexes(alloc, pin)?))
}

// Returns the indexes of the parts of a pin, or `None` if one is missing.
fn kept_indexes(alloc: Global, pin: &Pin) -> Result<Option<Vec<PartIndex<'_>>>, NoMemory>
    ensures { IfOk result (λ found. IfSome found (λ indexes. indexes.items ≡ map tables_of pin.now.parts)) }
{
    let mut indexes = Vec::with_capacity(alloc, pin.parts() as usize)?;
    for part in 0..pin.parts() {
        let Some(index) = pin.segment(part).index() else {
            return Ok(None);
        };
        indexes.push(PartIndex::kept(index))?;
    }
    Ok(Some(indexes))
}

// Builds the indexes that are missing and that nobody has begun.
fn add_begun(alloc: Global, pin: &Pin) -> Result<(), NoMemory> {
    for part in 0..pin.parts() {
        let segment = pin.segment(part);
        if segment.index().is_none() && segment.begins_index() {
            let _ = index_of(alloc, segment)?;
        }
    }
    Ok(())
}

// Returns the indexes of the parts of a pin, and builds those that are missing.
fn all_indexes(alloc: Global, pin: &Pin) -> Result<Vec<PartIndex<'_>>, NoMemory>
    ensures { IfOk result (λ indexes. indexes.items ≡ map tables_of pin.now.parts) }
{
    let mut indexes = Vec::with_capacity(alloc, pin.parts() as usize)?;
    for part in 0..pin.parts() {
        indexes.push(index_of(alloc, pin.segment(part))?)?;
    }
    Ok(indexes)
}

// Returns the index of a segment, and builds it if it is missing.
fn index_of(alloc: Global, segment: &Segment) -> Result<PartIndex<'_>, NoMemory>
    ensures { IfOk result (λ index. index ≡ segment.now) }
{
    if let Some(index) = segment.index() {
        return Ok(PartIndex::kept(index));
    }
    segment.is_small();
    let index = build_index(alloc, shares(alloc, segment.tables())?)?;
    Ok(segment.keep_index(Box::new(alloc, index)?))
}

// Returns shares of these tables.
fn shares(alloc: Global, tables: &[SharedTable]) -> Result<Vec<SharedTable>, NoMemory>
    ensures { IfOk result (λ shared. shared.items ≡ tables.now) }
{
    let mut shared = Vec::with_capacity(alloc, tables.len())?;
    for table in tables {
        shared.push(table.share()?)?;
    }
    Ok(shared)
}

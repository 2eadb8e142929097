//! The parts in which an earlier position is searched: blocks of puts, with a segment each.
ghost use Rattle.std.specs.Prelude.{◌≡◌, ◌⊎◌, ◌*◌, ◌<◌, ◌≤◌, ◌^◌, [], drop, filter, flat_map, get_or, length, map, not, sum_by, take, true, false, IfOk};
ghost use Rattle.lake_model.specs.Layout.{positions_of};
ghost use Rattle.lake_model.specs.Tables.{members};
ghost use Rattle.list_laws.specs.Distinct.{Rises, AreDistinct};
ghost use Rattle.segment_core.specs.Versions.{live_of};
ghost use Rattle.asof_search.specs.Puts.{place_of, positions_put, tables_put, was_live, AreBlocks, IsKeptAt};

use crate::put::Put;
use column_set::SharedTable;
use no_memory::NoMemory;
use segment_build::build;
use segment_core::{Marks, Numbers, Part, Segment};
use std::alloc::Global;
use std::sync::Arc;

/// Returns the parts in which the tables are searched that were live after the first `asked` entries: a part for each
/// block of `size` puts, up to the last block with a put of these entries. A table is marked if it was not live then.
/// The segment of a block is built when it is first asked for, and kept; that of the last block is built again if the
/// block has more tables by then.
pub(crate) fn past_parts(
    alloc: Global,
    size: usize,
    blocks: &mut Vec<Arc<Segment>>,
    puts: &[Put],
    asked: u64,
) -> Result<Vec<Part>, NoMemory>
    requires some { 0 < size }
    requires small { size ≤ 256 }
    requires light { sum_by members (tables_put puts.now) < 2 ^ 32 }
    requires rising { Rises (positions_put puts.now) }
    requires blocks { AreBlocks size (tables_put puts.now) (map (λ b. b.value) blocks.old.items) }
    ensures blocks { AreBlocks size (tables_put puts.now) (map (λ b. b.value) blocks.new.items) }
    ensures few { IfOk result (λ parts. length parts.items ≤ length puts.now) }
    ensures live { IfOk result (λ parts. live_of parts.items ≡ tables_put (filter (was_live asked) puts.now)) }
    ensures positions { IfOk result (λ parts. AreDistinct (positions_of parts.items)) }
{
    let mut parts = Vec::new(alloc);
    let mut rest = puts;
    for block in 0..puts.len() {
        if is_later(rest, asked) {
            return Ok(parts);
        }
        let count = size.min(rest.len());
        let these = &rest[..count];
        let segment = block_segment(alloc, blocks, block, these)?;
        parts.push(past_part(alloc, block as u64 + 1, segment, these, asked)?)?;
        rest = &rest[count..];
    }
    Ok(parts)
}

// Returns whether none of these puts is of the first `asked` entries.
fn is_later(puts: &[Put], asked: u64) -> bool
    requires { Rises (positions_put puts.now) }
    ensures later { result ≡ true → filter (was_live asked) puts.now ≡ [] }
    ensures some { result ≡ false → 0 < length puts.now }
{
    match puts.get(0) {
        Some(first) => first.position() > asked,
        None => true,
    }
}

// Returns the segment of the block at index `block`, from 0, that has these puts. The segment is kept, unless that of
// an earlier block is not.
fn block_segment(
    alloc: Global,
    blocks: &mut Vec<Arc<Segment>>,
    block: usize,
    puts: &[Put],
) -> Result<Arc<Segment>, NoMemory>
    requires few { length puts.now ≤ 256 }
    requires light { sum_by members (tables_put puts.now) < 2 ^ 32 }
    requires kept { block < length blocks.old.items → get_or (map (λ b. b.value) blocks.old.items) block [] ≡ take (length (get_or (map (λ b. b.value) blocks.old.items) block [])) (tables_put puts.now) }
    ensures tables { IfOk result (λ segment. segment.value ≡ tables_put puts.now) }
    ensures blocks { (map (λ b. b.value) blocks.new.items ≡ map (λ b. b.value) blocks.old.items) ⊎ IsKeptAt block (tables_put puts.now) (map (λ b. b.value) blocks.old.items) (map (λ b. b.value) blocks.new.items) }
{
    if block < blocks.len() && blocks[block].tables().len() == puts.len() {
        return Ok(Arc::try_clone(&blocks[block])?);
    }
    let segment = Arc::new(alloc, built(alloc, puts)?)?;
    keep(blocks, block, Arc::try_clone(&segment)?)?;
    Ok(segment)
}

// Keeps the segment of the block at an index, after the others or in place of what was kept of this block.
fn keep(blocks: &mut Vec<Arc<Segment>>, block: usize, segment: Arc<Segment>) -> Result<(), NoMemory>
    ensures { (map (λ b. b.value) blocks.new.items ≡ map (λ b. b.value) blocks.old.items) ⊎ IsKeptAt block segment.value (map (λ b. b.value) blocks.old.items) (map (λ b. b.value) blocks.new.items) }
{
    if block < blocks.len() {
        blocks[block] = segment;
    } else if block == blocks.len() {
        blocks.push(segment)?;
    }
    Ok(())
}

// Returns the segment of the tables of at most 256 puts.
fn built(alloc: Global, puts: &[Put]) -> Result<Segment, NoMemory>
    requires few { length puts.now ≤ 256 }
    requires light { sum_by members (tables_put puts.now) < 2 ^ 32 }
    ensures { IfOk result (λ segment. segment ≡ tables_put puts.now) }
{
    build(alloc, tables_of(alloc, puts)?)
}

// Returns a share of each table. A table has at most 4,096 columns.
fn tables_of(alloc: Global, puts: &[Put]) -> Result<Vec<SharedTable>, NoMemory>
    ensures same { IfOk result (λ tables. tables.items ≡ tables_put puts.now) }
    ensures narrow { IfOk result (λ tables. sum_by (λ t. length t.columns) (tables_put puts.now) ≤ 4096 * length puts.now) }
{
    let mut tables = Vec::with_capacity(alloc, puts.len())?;
    for put in puts {
        let table = put.table();
        prove!(table.table().columns() <= 4_096);
        tables.push(table.share()?)?;
    }
    Ok(tables)
}

// Returns the part of these puts, over their segment, with a mark on each table that was not live after the first
// `asked` entries.
fn past_part(
    alloc: Global,
    number: u64,
    segment: Arc<Segment>,
    puts: &[Put],
    asked: u64,
) -> Result<Part, NoMemory>
    requires { segment.value ≡ tables_put puts.now }
    ensures { IfOk result (λ part. part.places ≡ map (place_of asked) puts.now) }
{
    let positions = Numbers::new(put_positions(alloc, puts)?);
    let marks = Marks::new(put_marks(alloc, puts, asked)?);
    Ok(Part::new(number, segment, positions, marks))
}

// Returns the position of each put.
fn put_positions(alloc: Global, puts: &[Put]) -> Result<Vec<u64>, NoMemory>
    ensures { IfOk result (λ positions. positions.items ≡ positions_put puts.now) }
{
    let mut positions = Vec::with_capacity(alloc, puts.len())?;
    for put in puts {
        positions.push(put.position())?;
    }
    Ok(positions)
}

// Returns, for each put, whether its table was not live after the first `asked` entries.
fn put_marks(alloc: Global, puts: &[Put], asked: u64) -> Result<Vec<bool>, NoMemory>
    ensures { IfOk result (λ marks. marks.items ≡ map (λ put. not (was_live asked put)) puts.now) }
{
    let mut marks = Vec::with_capacity(alloc, puts.len())?;
    for put in puts {
        marks.push(!put.was_live(asked))?;
    }
    Ok(marks)
}

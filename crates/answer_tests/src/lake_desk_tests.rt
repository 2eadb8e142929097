//! Tests of batches one after another, with a merger. No clause promises that a thread runs, or that memory is
//! available.
ghost use Rattle.std.specs.Prelude.{◌≡◌, false, true, None};
ghost use Rattle.script_model.specs.Lanes.{IsOfLanes};
ghost use Rattle.record_model.specs.Record.{empty};
ghost use Rattle.lake_model.specs.declared.Keys.TheVariants.{Canonical};
ghost use Rattle.script_model.specs.Options.{options_with};

use crate::making::{Asked, batch};
use catalogue::Limits;
use column_set::Keys;
use commands::{Batch, Options};
use lake::Lake;
use lake_desk::{Standard, answer_batch, open_desks};
use lake_io::NoGate;
use run_record::{Reply, RunRecord};
use std::alloc::Global;
use std::sync::Wait;
use std::test::Fail;
use std::thread::Threads;

// Lane 1 loads two tables, asks for the live ones, for columns like one of them and for what was live after the first
// load, drops a table that does not exist, loads a file that does not exist, and merges.
const ONE_OF_EACH: [(u32, Asked); 8] = [
    (1, Asked::Load("a", "c\nx\n")),
    (1, Asked::Load("b", "c\nx\n")),
    (1, Asked::Tables),
    (1, Asked::Like(1, "a", 1)),
    (1, Asked::AsOf(1, 2, "x\n")),
    (1, Asked::Drop("c")),
    (1, Asked::Missing("d")),
    (1, Asked::Merge(true)),
];

// Makes the record of a run with two lanes and a merger in which nothing was done yet.
fn record_of_two_lanes(alloc: Global) -> RunRecord
    ensures { result.made ≡ empty (options_with 2 None true false Canonical) }
{
    let mut record = RunRecord::new(alloc);
    record.set_options(Options {
        lanes: 2,
        order: None,
        merge: true,
        trace: false,
        keys: Keys::Canonical,
    });
    record
}

// Returns the record of this batch, answered twice over a new lake, with a merger.
fn answered_twice<R: Threads + Wait + Sync>(
    rt: &R,
    alloc: Global,
    batch: &Batch,
) -> Result<RunRecord, Fail>
    requires { IsOfLanes 2 batch.now }
{
    let gate = NoGate;
    let updates = batch.updates();
    if updates > 100 {
        return Err("too many".into());
    }
    let mut record = record_of_two_lanes(alloc);
    let (lake, opening) = Lake::<Standard>::new(alloc, Limits::standard(), 3)?;
    let mut desks = open_desks(alloc, Keys::Canonical, &lake, opening, 2)?;
    answer_batch(rt, alloc, &mut desks, batch, Some(1), &gate, &mut record)?;
    answer_batch(
        rt,
        alloc,
        &mut desks,
        batch,
        Some(1 + updates),
        &gate,
        &mut record,
    )?;
    Ok(record)
}

// Returns the position at which a reply was made, for the kinds of reply that occur in these tests.
fn position(reply: &Reply) -> Option<u64> {
    match reply {
        Reply::Found { layout, .. } => Some(layout.at()),
        Reply::NothingToMerge { layout } => Some(layout.at()),
        Reply::Loaded { at, .. } => Some(*at),
        Reply::Repeated { at, .. } => Some(*at),
        Reply::Unknown { at, .. } => Some(*at),
        Reply::Listed { at, .. } => Some(*at),
        Reply::Past { at, .. } => Some(*at),
        Reply::Merged { at, .. } => Some(*at),
        _ => None,
    }
}

// Returns the positions of the record's replies.
fn positions(alloc: Global, record: &RunRecord) -> Result<Vec<Option<u64>>, Fail> {
    let mut positions = Vec::new(alloc);
    for answered in record.answers() {
        positions.push(position(&answered.reply))?;
    }
    Ok(positions)
}

// The positions of the commands' replies in the first batch, and in the second.
const FIRST: [Option<u64>; 8] = [
    Some(1),
    Some(2),
    Some(2),
    Some(2),
    Some(2),
    Some(2),
    None,
    Some(3),
];

const SECOND: [Option<u64>; 8] = [
    Some(3),
    Some(3),
    Some(3),
    Some(3),
    Some(3),
    Some(3),
    None,
    Some(3),
];

// The positions of the merger's replies in the second batch.
const LAST: [Option<u64>; 4] = [Some(3), Some(3), Some(3), Some(3)];

// The merger has a merge for each load and drop, and finds nothing to merge. In the second batch the names exist
// already.
#[test]
fn one_lane_answers_in_its_order(rt: HostRuntime) -> Result<(), Fail> {
    let batch = batch(rt.alloc(), 2, &ONE_OF_EACH)?;
    let record = answered_twice(&rt, rt.alloc(), &batch)?;
    assert!(rt; record.syncs() == [3, 3].as_slice() && record.journal().len() == 3);
    let positions = positions(rt.alloc(), &record)?;
    if positions.len() != 24 {
        return Err("not so many answers".into());
    }
    assert!(rt; &positions[..8] == FIRST.as_slice());
    assert!(rt; &positions[12..20] == SECOND.as_slice());
    assert!(rt; &positions[20..] == LAST.as_slice());
    Ok(())
}

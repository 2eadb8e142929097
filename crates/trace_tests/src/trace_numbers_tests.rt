//! Tests with the positions of small runs, right and wrong, counted by hand, and with the order of their answers.
ghost use Rattle.std.specs.Prelude.{IfOk};
ghost use Rattle.script_model.specs.Lanes.{IsOfLanes};

use column_set::Name;
use commands::{Batch, Command, Task};
use std::alloc::Global;
use std::process::Abort;
use std::test::Fail;
use trace_hints::Hint;
use trace_numbers::{Plan, Turn, find_owners, plans_of, turns_of};

// Makes a batch in which each of these lanes, which are 1 and 2, drops a table.
fn drops(alloc: Global, lanes: &[u32]) -> Result<Batch, Fail>
    ensures { IfOk result (IsOfLanes 2) }
{
    let mut commands = Vec::new(alloc);
    for (index, lane) in lanes.iter().enumerate() {
        let name = Name::read(b"t").ok_or("no name")?;
        commands.push(Command {
            number: index as u64,
            lane: (*lane).clamp(1, 2),
            task: Task::Drop { name },
        })?;
    }
    Ok(Batch::new(commands))
}

// Checks which commands made the entries, for drops in these lanes, batch by batch, with these hints, or that the hints
// are not those of a right run.
fn tells(
    rt: &(impl Abort + AllocGlobal),
    merge: bool,
    lanes: &[&[u32]],
    hints: &[Hint],
    wanted: Option<&[usize]>,
) -> Result<(), Fail> {
    let mut batches = Vec::new(rt.alloc());
    for of_batch in lanes {
        batches.push(drops(rt.alloc(), of_batch)?)?;
    }
    let found = find_owners(rt.alloc(), 2, merge, &batches, hints)?;
    match (found, wanted) {
        (Some(owners), Some(wanted)) => assert_eq!(rt; owners.indices.as_slice(), wanted),
        (None, None) => {}
        (Some(_), None) => return Err(Fail::from("it is taken for right")),
        (None, Some(_)) => return Err(Fail::from("it is taken for wrong")),
    }
    Ok(())
}

const NOWHERE: Hint = Hint::Nowhere;

// Makes the hint of an answer that was made at a position.
const fn saw(at: u64) -> Hint {
    Hint::Saw { at }
}

// Makes the hint of an answer whose entry has a position.
const fn added(at: u64) -> Hint {
    Hint::Added { at }
}

// Makes the hint of a merge whose entry has a position.
const fn merged(pinned: u64, at: u64) -> Hint {
    Hint::PlannedAndAdded { pinned, at }
}

#[test]
fn either_lane_first(rt: HostRuntime) -> Result<(), Fail> {
    tells(&rt, false, &[&[1, 2]], &[added(1), added(2)], Some(&[0, 1]))?;
    tells(&rt, false, &[&[1, 2]], &[added(2), added(1)], Some(&[1, 0]))?;
    tells(&rt, false, &[&[1, 2]], &[NOWHERE, Hint::Wanting], Some(&[]))?;
    tells(&rt, false, &[], &[], Some(&[]))
}

#[test]
fn positions_that_are_not_filled_once(rt: HostRuntime) -> Result<(), Fail> {
    tells(&rt, false, &[&[1, 2]], &[added(1), added(1)], None)?;
    tells(&rt, false, &[&[1, 2]], &[added(1), added(3)], None)?;
    tells(&rt, false, &[&[1, 2]], &[added(0), added(1)], None)?;
    tells(&rt, false, &[&[1]], &[added(2)], None)
}

#[test]
fn numbers_of_hints(rt: HostRuntime) -> Result<(), Fail> {
    tells(&rt, false, &[&[1, 2]], &[added(1)], None)?;
    tells(&rt, false, &[&[1]], &[added(1), NOWHERE], None)?;
    tells(&rt, false, &[&[1], &[2]], &[added(1)], None)?;
    tells(&rt, false, &[], &[NOWHERE], None)
}

#[test]
fn positions_along_lanes(rt: HostRuntime) -> Result<(), Fail> {
    tells(
        &rt,
        false,
        &[&[1, 2, 1]],
        &[saw(1), added(1), saw(1)],
        Some(&[1]),
    )?;
    tells(&rt, false, &[&[1, 2, 1]], &[saw(1), added(1), saw(0)], None)?;
    tells(&rt, false, &[&[1, 2, 2]], &[saw(1), added(1), saw(0)], None)?;
    tells(&rt, false, &[&[1, 1]], &[saw(1), added(1)], None)?;
    tells(&rt, false, &[&[1, 1]], &[saw(0), added(1)], Some(&[1]))
}

// No answer of a batch is made before the sync that precedes it, or after the one that ends it.
#[test]
fn positions_between_syncs(rt: HostRuntime) -> Result<(), Fail> {
    tells(&rt, false, &[&[1], &[2]], &[added(1), saw(1)], Some(&[0]))?;
    tells(&rt, false, &[&[1], &[2]], &[added(1), saw(0)], None)?;
    tells(&rt, false, &[&[1], &[2]], &[saw(1), added(1)], None)?;
    tells(&rt, false, &[&[1], &[2]], &[added(2), added(1)], None)
}

// The merger makes as many merges as a batch has updates.
#[test]
fn merges(rt: HostRuntime) -> Result<(), Fail> {
    let stale = Hint::PlannedAndSaw { pinned: 0, at: 1 };
    tells(&rt, true, &[&[1]], &[added(1), merged(1, 2)], Some(&[0, 1]))?;
    tells(&rt, true, &[&[1]], &[added(2), merged(0, 1)], Some(&[1, 0]))?;
    tells(&rt, true, &[&[1]], &[added(1), stale], Some(&[0]))?;
    tells(&rt, true, &[&[1]], &[added(1), merged(2, 2)], None)?;
    tells(&rt, true, &[&[1]], &[added(1)], None)?;
    let later = [added(1), merged(1, 2), saw(2), saw(2)];
    tells(&rt, true, &[&[1], &[1]], &later, Some(&[0, 1]))?;
    let before = [added(1), merged(1, 2), saw(1), saw(2)];
    tells(&rt, true, &[&[1], &[1]], &before, None)
}

#[test]
fn answers_in_turn(rt: HostRuntime) -> Result<(), Fail> {
    let stale = Hint::PlannedAndSaw { pinned: 1, at: 2 };
    let hints = [
        added(2),
        saw(1),
        NOWHERE,
        merged(0, 1),
        stale,
        saw(1),
        Hint::Wanting,
    ];
    let turn = |at, adds, index| Turn { at, adds, index };
    let wanted = [
        turn(0, false, 2),
        turn(0, false, 6),
        turn(0, true, 3),
        turn(1, false, 1),
        turn(1, false, 5),
        turn(1, true, 0),
        turn(2, false, 4),
    ];
    assert_eq!(rt; turns_of(rt.alloc(), &hints)?.as_slice(), wanted.as_slice());
    let plans = [Plan { at: 0, index: 3 }, Plan { at: 1, index: 4 }];
    assert_eq!(rt; plans_of(rt.alloc(), &hints)?.as_slice(), plans.as_slice());
    Ok(())
}

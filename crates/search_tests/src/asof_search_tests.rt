//! Tests timelines of small lakes, whose live tables at each position were worked out by hand.

use crate::making::{Change, WHO, drop_table, empty, load, merge, segment, table};
use asof_search::{PastRefused, Timeline};
use catalogue::Catalogue;
use std::alloc::Global;
use std::process::Abort;
use std::test::Fail;

fn replace(lake: &mut Catalogue, alloc: Global, title: &str, text: &str) -> Result<(), Fail> {
    let table = table(alloc, title, text)?;
    let segment = segment(alloc, &table)?;
    if lake.replace(WHO, table, segment).is_err() {
        return Err(Fail::from("a replace was refused"));
    }
    Ok(())
}

fn change(lake: &mut Catalogue, alloc: Global, change: Change<'_>) -> Result<(), Fail> {
    match change {
        Change::Load(title, text) => load(lake, alloc, title, text),
        Change::Replace(title, text) => replace(lake, alloc, title, text),
        Change::Drop(title) => drop_table(lake, title),
        Change::Merge => merge(lake, alloc, 2),
    }
}

// Returns the timeline of a small lake's journal.
fn retell(alloc: Global, lake: &Catalogue) -> Result<Timeline, Fail> {
    let counts = lake.counts();
    if counts.updates > 1_000 || counts.members > 1_000 {
        return Err(Fail::from("a large lake"));
    }
    let mut timeline = Timeline::new(alloc);
    timeline.take_all(lake.journal())?;
    Ok(timeline)
}

// Returns the timeline of these entries.
fn timeline(alloc: Global, changes: &[Change<'_>]) -> Result<Timeline, Fail> {
    let mut lake = empty(alloc)?;
    for entry in changes {
        change(&mut lake, alloc, *entry)?;
    }
    retell(alloc, &lake)
}

// The name, the columns and the members of each table that was live after the first so many entries.
type Live<'l> = (u64, &'l [(&'l str, u32, u64)]);

// Expects the tables of a pin.
fn expect(
    rt: &(impl Abort + AllocGlobal),
    timeline: &mut Timeline,
    live: Live<'_>,
) -> Result<(), Fail> {
    let (asked, want) = live;
    let Ok(pin) = timeline.pin(asked) else {
        return Err(Fail::from("no pin"));
    };
    let tables = pin.tables(rt.alloc())?;
    assert_eq!(rt; pin.at(), asked);
    assert_eq!(rt; tables.list().len(), want.len(), "at {asked}");
    for (line, (title, columns, members)) in tables.list().iter().zip(want) {
        let same = line.0.text() == *title && line.1 == *columns && line.2 == *members;
        assert!(rt; same, "not {title} at {asked}");
    }
    Ok(())
}

// Expects the tables of pins, one after another, of the timeline of these entries.
fn expect_all(
    rt: &(impl Abort + AllocGlobal),
    changes: &[Change<'_>],
    want: &[Live<'_>],
) -> Result<(), Fail> {
    let mut timeline = timeline(rt.alloc(), changes)?;
    assert_eq!(rt; timeline.taken(), changes.len() as u64);
    for live in want {
        expect(rt, &mut timeline, *live)?;
    }
    Ok(())
}

// A table is loaded, dropped, loaded again with other values, and replaced by a wider one.
const ONE_NAME: [Change<'_>; 4] = [
    Change::Load("a", "x\nkey\n"),
    Change::Drop("a"),
    Change::Load("a", "x\none\ntwo\n"),
    Change::Replace("a", "x,y\none,two\nkey,two\n"),
];

const ONE_NAME_LIVE: [Live<'_>; 5] = [
    (4, &[("a", 2, 3)]),
    (0, &[]),
    (1, &[("a", 1, 1)]),
    (2, &[]),
    (3, &[("a", 1, 2)]),
];

#[test]
fn one_name(rt: HostRuntime) -> Result<(), Fail> {
    expect_all(&rt, &ONE_NAME, &ONE_NAME_LIVE)
}

// The tables are in the order of their loads, and a replace puts its table at the end. A merge, which is the fourth
// entry, changes nothing.
const ORDER_AND_A_MERGE: [Change<'_>; 6] = [
    Change::Load("a", "x\nkey\n"),
    Change::Load("b", "x\none\ntwo\n"),
    Change::Drop("a"),
    Change::Merge,
    Change::Load("a", "x\nkey\n"),
    Change::Replace("b", "x\none\n"),
];

const ORDER_AND_A_MERGE_LIVE: [Live<'_>; 5] = [
    (2, &[("a", 1, 1), ("b", 1, 2)]),
    (3, &[("b", 1, 2)]),
    (4, &[("b", 1, 2)]),
    (5, &[("b", 1, 2), ("a", 1, 1)]),
    (6, &[("a", 1, 1), ("b", 1, 1)]),
];

#[test]
fn order_and_a_merge(rt: HostRuntime) -> Result<(), Fail> {
    expect_all(&rt, &ORDER_AND_A_MERGE, &ORDER_AND_A_MERGE_LIVE)
}

// One position is pinned twice in a row, and again after another.
const ONE_POSITION_AGAIN: [Change<'_>; 3] = [
    Change::Load("a", "x\nkey\n"),
    Change::Drop("a"),
    Change::Load("b", "x\none\ntwo\n"),
];

const ONE_POSITION_AGAIN_LIVE: [Live<'_>; 5] = [
    (1, &[("a", 1, 1)]),
    (1, &[("a", 1, 1)]),
    (3, &[("b", 1, 2)]),
    (3, &[("b", 1, 2)]),
    (1, &[("a", 1, 1)]),
];

#[test]
fn one_position_again(rt: HostRuntime) -> Result<(), Fail> {
    expect_all(&rt, &ONE_POSITION_AGAIN, &ONE_POSITION_AGAIN_LIVE)
}

// Returns a lake of three hundred tables of one value, n0 to n299.
fn large_lake(alloc: Global) -> Result<Catalogue, Fail> {
    let mut lake = empty(alloc)?;
    for i in 0..300u32 {
        let title = format!(in alloc; "n{i}")?;
        load(&mut lake, alloc, &title, "x\nkey\n")?;
    }
    Ok(lake)
}

// Expects a pin of as many tables as there are entries, in blocks of 256 tables.
fn expect_blocks(
    rt: &(impl Abort + AllocGlobal),
    timeline: &mut Timeline,
    asked: u64,
) -> Result<(), Fail> {
    let Ok(pin) = timeline.pin(asked) else {
        return Err(Fail::from("no pin"));
    };
    let tables = pin.tables(rt.alloc())?;
    assert_eq!(rt; tables.list().len() as u64, asked);
    let parts = if asked > 256 { 2 } else { asked.min(1) };
    assert_eq!(rt; u64::from(pin.parts()), parts, "at {asked}");
    Ok(())
}

// Positions around the end of the first block of 256 tables, and one more than there are.
#[test]
fn blocks(rt: HostRuntime) -> Result<(), Fail> {
    let alloc = rt.alloc();
    let lake = large_lake(alloc)?;
    let mut timeline = retell(alloc, &lake)?;
    for asked in [300u64, 0, 255, 256, 257] {
        expect_blocks(&rt, &mut timeline, asked)?;
    }
    let Err(refused) = timeline.pin(301) else {
        return Err(Fail::from("a pin of what is to come"));
    };
    assert_eq!(rt; refused, PastRefused::Later { at: 300 });
    Ok(())
}

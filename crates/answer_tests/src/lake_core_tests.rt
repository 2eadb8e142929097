//! Tests of lanes whose steps are taken in several orders, with merges among them.
ghost use Rattle.script_model.specs.Lanes.{IsOfLanes};

use crate::making::{Asked, batch};
use asof_search::Timeline;
use catalogue::{Catalogue, Limits};
use column_set::Keys;
use commands::Batch;
use lake_core::drive;
use run_record::{Answered, Reply, RunRecord};
use std::alloc::Global;
use std::process::Abort;
use std::test::Fail;

// The kind of an answer, with two numbers, of which the second is its position. A search has the number of its rows
// first, a swap and a stale merge the position of their plan, and every other answer 0.
type Said = (&'static str, u64, u64);

// Returns what a reply says.
fn said(reply: &Reply) -> Said {
    match reply {
        Reply::Loaded { at, .. } => ("loaded", 0, *at),
        Reply::Dropped { at, .. } => ("dropped", 0, *at),
        Reply::Found { rows, layout, .. } => ("found", rows.list().len() as u64, layout.at()),
        Reply::Past { rows, at, .. } => ("past", rows.list().len() as u64, *at),
        Reply::Later { at, .. } => ("later", 0, *at),
        Reply::Merged { layout, at, .. } => ("merged", layout.at(), *at),
        Reply::NothingToMerge { layout } => ("nothing", 0, layout.at()),
        Reply::Stale { layout, at, .. } => ("stale", layout.at(), *at),
        _ => ("other", 0, 0),
    }
}

// Returns whether answers say this.
fn are(answers: &[Answered], wanted: &[Said]) -> bool {
    if answers.len() != wanted.len() {
        return false;
    }
    for (answered, (word, first, at)) in answers.iter().zip(wanted.iter()) {
        let (said, number, position) = said(&answered.reply);
        if said != *word || number != *first || position != *at {
            return false;
        }
    }
    true
}

// An order of the lanes, and what the last answers say.
struct Case {
    piece: &'static [u32],
    wanted: &'static [Said],
}

// Returns the record of a batch of two lanes in a new lake, with a merger if `merge` is set.
fn driven(alloc: Global, batch: &Batch, piece: &[u32], merge: bool) -> Result<RunRecord, Fail>
    requires { IsOfLanes 2 batch.now }
{
    if batch.updates() > 100 {
        return Err("too many".into());
    }
    let merger = if merge { Some(1) } else { None };
    let mut catalogue = Catalogue::new(alloc, Limits::standard())?;
    let mut record = RunRecord::new(alloc);
    drive(
        alloc,
        &mut catalogue,
        Keys::Canonical,
        &mut Timeline::new(alloc),
        batch,
        piece,
        2,
        merger,
        &mut record,
    )?;
    Ok(record)
}

// Expects of each case that the answers from an index on say what it wants.
fn expect(
    rt: &impl Abort,
    alloc: Global,
    asked: &[(u32, Asked)],
    merge: bool,
    from: usize,
    cases: &[Case],
) -> Result<(), Fail> {
    let batch = batch(alloc, 2, asked)?;
    for Case { piece, wanted } in cases {
        let record = driven(alloc, &batch, piece, merge)?;
        let Some(answers) = record.answers().get(from..) else {
            return Err("too few answers".into());
        };
        assert!(rt; are(answers, wanted), "{piece:?}");
    }
    Ok(())
}

// The text of every table, and the body of every search.
const TABLE: &str = "c\nx\n";

const X: &str = "x\n";

// Lane 1 loads two tables and searches them, and lane 2 drops the second and searches as well.
const SEARCHES: [(u32, Asked); 5] = [
    (1, Asked::Load("a1", TABLE)),
    (1, Asked::Load("a2", TABLE)),
    (2, Asked::Drop("a2")),
    (2, Asked::Search(9, X)),
    (1, Asked::Search(9, X)),
];

const ORDERS: [Case; 3] = [
    Case {
        piece: &[],
        wanted: &[("found", 1, 3), ("found", 2, 2)],
    },
    Case {
        piece: &[1, 1, 2, 1],
        wanted: &[("found", 1, 3), ("found", 1, 3)],
    },
    Case {
        piece: &[2, 2, 1, 1, 2],
        wanted: &[("found", 0, 0), ("found", 2, 2)],
    },
];

#[test]
fn orders(rt: HostRuntime) -> Result<(), Fail> {
    expect(&rt, rt.alloc(), &SEARCHES, false, 3, &ORDERS)
}

// Lane 1 loads a table and drops it, and lane 2 searches what was live after the load, and after the drop.
const SEARCHES_OF_THE_PAST: [(u32, Asked); 4] = [
    (1, Asked::Load("a1", TABLE)),
    (1, Asked::Drop("a1")),
    (2, Asked::AsOf(1, 9, X)),
    (2, Asked::AsOf(2, 9, X)),
];

const PAST: [Case; 3] = [
    Case {
        piece: &[],
        wanted: &[("past", 1, 2), ("past", 0, 2)],
    },
    Case {
        piece: &[1, 2, 2, 1],
        wanted: &[("past", 1, 1), ("later", 0, 1)],
    },
    Case {
        piece: &[2, 1, 1, 2],
        wanted: &[("later", 0, 0), ("past", 0, 2)],
    },
];

// A search of an earlier position has one step. Its reply has the position of that step, and finds what was live at the
// position asked for.
#[test]
fn past(rt: HostRuntime) -> Result<(), Fail> {
    expect(&rt, rt.alloc(), &SEARCHES_OF_THE_PAST, false, 2, &PAST)
}

// Lane 1 loads four tables and merges, and lane 2 merges as well.
const MERGES: [(u32, Asked); 6] = [
    (1, Asked::Load("a1", TABLE)),
    (1, Asked::Load("a2", TABLE)),
    (1, Asked::Load("a3", TABLE)),
    (1, Asked::Load("a4", TABLE)),
    (1, Asked::Merge(false)),
    (2, Asked::Merge(false)),
];

const TWO_MERGES: [Case; 2] = [
    Case {
        piece: &[],
        wanted: &[("merged", 4, 5), ("nothing", 0, 5)],
    },
    Case {
        piece: &[1, 1, 1, 1, 1, 2, 1, 2],
        wanted: &[("merged", 4, 5), ("stale", 4, 5)],
    },
];

// If lane 1 swaps before lane 2 plans, nothing is left to merge; if it swaps after that, the plan of lane 2 is stale.
#[test]
fn two_merges(rt: HostRuntime) -> Result<(), Fail> {
    expect(&rt, rt.alloc(), &MERGES, false, 4, &TWO_MERGES)
}

// Lane 1 loads four tables and drops one.
const UPDATES: [(u32, Asked); 5] = [
    (1, Asked::Load("a1", TABLE)),
    (1, Asked::Load("a2", TABLE)),
    (1, Asked::Load("a3", TABLE)),
    (1, Asked::Load("a4", TABLE)),
    (1, Asked::Drop("a1")),
];

const MERGER: [Case; 1] = [Case {
    piece: &[1, 1, 1, 1, 0, 1, 0],
    wanted: &[
        ("loaded", 0, 4),
        ("dropped", 0, 5),
        ("merged", 4, 6),
        ("nothing", 0, 6),
        ("nothing", 0, 6),
        ("nothing", 0, 6),
        ("nothing", 0, 6),
    ],
}];

// The merger plans before the drop, and swaps after it. The other four of its five commands find nothing to merge.
#[test]
fn merger(rt: HostRuntime) -> Result<(), Fail> {
    expect(&rt, rt.alloc(), &UPDATES, true, 3, &MERGER)
}

//! Tests what the clauses mean on small lakes whose answers were worked out by hand, and that the calls succeed.
ghost use Rattle.std.specs.Prelude.{◌≡◌, ◌<◌, ◌∷◌, [], ℕ, length, map, option_map, unwrap_or, IfOk, IfSome};
ghost use Rattle.lake_model.specs.Layout.{layout};
ghost use Rattle.lake_model.specs.Tables.{Table};
ghost use Rattle.catalogue.specs.Swaps.{IsMergeOf};

use crate::making::{holds, name, segment, shows, table};
use catalogue::{
    Catalogue, Counts, DropRefused, Entry, KeptName, Limits, LoadRefused, ReplaceRefused,
    SwapRefused, What, Which, Who,
};
use column_set::{Keys, QuerySet, SharedTable};
use no_memory::NoMemory;
use segment_build::index_pin;
use segment_core::{HashedQuery, Merged, Numbers, Plan, Segment};
use std::alloc::Global;
use std::process::Abort;
use std::sync::Arc;
use std::test::Fail;

const FIRST: Who = Who {
    caller: 1,
    command: 7,
};

const SECOND: Who = Who {
    caller: 16,
    command: 8,
};

// The CSV text of every table: one column of one value. So each load and each replace adds one member of three bytes.
const KEY: &str = "x\nkey\n";

// What is asked of a lake, and the answer that is expected.
enum Step {
    Load(&'static str, Result<u64, LoadRefused>),
    Replace(&'static str, Result<u64, ReplaceRefused>),
    Drop(&'static str, Result<u64, DropRefused>),
    // Whether a table of the name is live.
    Live(&'static str, bool),
    // The number of entries of the journal.
    Entries(u64),
    Counts(Counts),
}

// Loads a table, and returns whether this is the answer.
fn loads(
    lake: &mut Catalogue,
    alloc: Global,
    title: &str,
    answer: &Result<u64, LoadRefused>,
) -> Result<bool, Fail> {
    let table = table(alloc, title, KEY)?;
    let segment = segment(alloc, &table)?;
    Ok(lake.load(FIRST, table, segment) == *answer)
}

// Replaces a table, and returns whether this is the answer.
fn replaces(
    lake: &mut Catalogue,
    alloc: Global,
    title: &str,
    answer: &Result<u64, ReplaceRefused>,
) -> Result<bool, Fail> {
    let table = table(alloc, title, KEY)?;
    let segment = segment(alloc, &table)?;
    Ok(lake.replace(SECOND, table, segment) == *answer)
}

// Takes a step, and returns whether its answer is the expected one.
fn takes(lake: &mut Catalogue, alloc: Global, step: &Step) -> Result<bool, Fail> {
    match step {
        Step::Load(title, answer) => loads(lake, alloc, title, answer),
        Step::Replace(title, answer) => replaces(lake, alloc, title, answer),
        Step::Drop(title, answer) => Ok(lake.drop_table(SECOND, &name(title)?) == *answer),
        Step::Live(title, live) => Ok(lake.live(&name(title)?) == *live),
        Step::Entries(at) => Ok(lake.at() == *at && lake.journal().len() as u64 == *at),
        Step::Counts(counts) => Ok(lake.counts() == *counts),
    }
}

// Takes steps, and expects the answer of each.
fn plays(rt: &impl Abort, lake: &mut Catalogue, alloc: Global, steps: &[Step]) -> Result<(), Fail> {
    for (number, step) in steps.iter().enumerate() {
        assert!(rt; takes(lake, alloc, step)?, "step {number}");
    }
    Ok(())
}

// Returns a lake of the standard limits after these steps.
fn played(rt: &impl Abort, alloc: Global, steps: &[Step]) -> Result<Catalogue, Fail> {
    let mut lake = Catalogue::new(alloc, Limits::standard())?;
    plays(rt, &mut lake, alloc, steps)?;
    Ok(lake)
}

// Returns whether the newest pin shows these parts, each with its number and its one load or replace, marked or not, and
// so many live tables.
fn shows_now(
    lake: &Catalogue,
    alloc: Global,
    tables: usize,
    parts: &[(u64, u64, bool)],
) -> Result<bool, NoMemory> {
    let pin = lake.pin()?;
    let layout = pin.layout()?;
    Ok(holds(alloc, &pin, lake.at(), tables)? && shows(&layout, lake.at(), parts))
}

// Returns the positions of kept loads.
fn kept_positions(alloc: Global, kept: &[(u64, SharedTable)]) -> Result<Vec<u64>, NoMemory>
    ensures { IfOk result (λ all. all.items ≡ map (λ (load : ℕ × Table). load.0) kept.now) }
{
    let mut all = Vec::new(alloc);
    for (position, _) in kept {
        all.push(*position)?;
    }
    Ok(all)
}

// Returns the segment of the one table that is kept, or none if none is kept.
fn kept_segment(alloc: Global, kept: &[(u64, SharedTable)]) -> Result<Option<Arc<Segment>>, Fail>
    ensures tables { IfOk result (λ segment. unwrap_or (option_map (λ s. s.value) segment) [] ≡ map (λ (load : ℕ × Table). load.1) kept.now) }
    ensures some { IfOk result (λ segment. IfSome segment (λ s. 0 < length s.value)) }
{
    match kept {
        [] => Ok(None),
        [(_, table)] => Ok(Some(segment(alloc, table)?)),
        _ => Err(Fail::from("more than one table is kept")),
    }
}

// Merges two adjacent parts, from an index on, of which at most one table is kept.
fn merged(lake: &Catalogue, alloc: Global, first: u32) -> Result<Merged, Fail>
    ensures at { IfOk result (λ merged. merged.at ≡ length lake.now.journal) }
    ensures merges { IfOk result (λ merged. IsMergeOf (layout lake.now.journal) merged) }
{
    let _journal = lake.journal();
    let pin = lake.pin()?;
    if pin.parts() < 2 || first > pin.parts() - 2 {
        return Err(Fail::from("no two parts"));
    }
    let Plan { from, kept, at } = pin.plan_run(alloc, first, 2)?;
    let segment = kept_segment(alloc, &kept)?;
    let kept = Numbers::new(kept_positions(alloc, &kept)?);
    Ok(Merged {
        from,
        kept,
        segment,
        at,
    })
}

// Plans a merge of the first two parts and swaps it in, and returns whether it is at this position.
fn swaps(lake: &mut Catalogue, alloc: Global, at: u64) -> Result<bool, Fail> {
    let merged = merged(lake, alloc, 0)?;
    Ok(lake.swap(FIRST, merged) == Ok(at))
}

// Does the same where a table is dropped between the plan and the swap.
fn drops_then_swaps(
    lake: &mut Catalogue,
    alloc: Global,
    title: &str,
    at: u64,
) -> Result<bool, Fail> {
    let name = name(title)?;
    let merged = merged(lake, alloc, 0)?;
    let Ok(_) = lake.drop_table(SECOND, &name) else {
        return Err(Fail::from("a refused drop"));
    };
    Ok(lake.swap(FIRST, merged) == Ok(at))
}

// Does the same where a table is replaced between the plan and the swap.
fn replaces_then_swaps(
    lake: &mut Catalogue,
    alloc: Global,
    title: &str,
    at: u64,
) -> Result<bool, Fail> {
    let table = table(alloc, title, KEY)?;
    let segment = segment(alloc, &table)?;
    let merged = merged(lake, alloc, 0)?;
    let Ok(_) = lake.replace(SECOND, table, segment) else {
        return Err(Fail::from("a refused replace"));
    };
    Ok(lake.swap(FIRST, merged) == Ok(at))
}

// Swaps in the first of two merges of the newest version, and returns whether the second is refused as this.
fn second_is_refused(
    lake: &mut Catalogue,
    alloc: Global,
    refused: SwapRefused,
) -> Result<bool, Fail> {
    let first = merged(lake, alloc, 0)?;
    let second = merged(lake, alloc, 0)?;
    let Ok(_) = lake.swap(FIRST, first) else {
        return Err(Fail::from("a refused swap"));
    };
    Ok(lake.swap(SECOND, second) == Err(refused))
}

// One live table, after four loads, drops and replaces of which three brought a table.
const FULL_COUNTS: Counts = Counts {
    live: 1,
    updates: 4,
    members: 3,
    key_bytes: 9,
};

// At least one step of each kind: then `a` is live, and `b` is not.
const FILL: [Step; 5] = [
    Step::Load("a", Ok(1)),
    Step::Load("b", Ok(2)),
    Step::Replace("a", Ok(3)),
    Step::Drop("b", Ok(4)),
    Step::Counts(FULL_COUNTS),
];

// Returns a lake that allows four updates and had them.
fn full_lake(rt: &impl Abort, alloc: Global) -> Result<Catalogue, Fail> {
    let limits = Counts {
        updates: 4,
        ..Limits::standard()
    };
    let mut lake = Catalogue::new(alloc, limits)?;
    plays(rt, &mut lake, alloc, &FILL)?;
    Ok(lake)
}

const PAST_THE_LIMIT: [Step; 5] = [
    Step::Load(
        "b",
        Err(LoadRefused::Full {
            which: Which::Updates,
            count: 4,
            more: 1,
            at: 4,
        }),
    ),
    Step::Drop(
        "a",
        Err(DropRefused::Full {
            which: Which::Updates,
            count: 4,
            more: 1,
            at: 4,
        }),
    ),
    Step::Replace(
        "a",
        Err(ReplaceRefused::Full {
            which: Which::Updates,
            count: 4,
            more: 1,
            at: 4,
        }),
    ),
    Step::Entries(4),
    Step::Counts(FULL_COUNTS),
];

#[test]
fn loads_drops_and_replaces_up_to_their_limit(rt: HostRuntime) -> Result<(), Fail> {
    let mut lake = full_lake(&rt, rt.alloc())?;
    plays(&rt, &mut lake, rt.alloc(), &PAST_THE_LIMIT)
}

const REPEATED_OR_UNKNOWN: [Step; 4] = [
    Step::Load("a", Err(LoadRefused::Repeated { at: 4 })),
    Step::Drop("b", Err(DropRefused::Unknown { at: 4 })),
    Step::Replace("b", Err(ReplaceRefused::Unknown { at: 4 })),
    Step::Counts(FULL_COUNTS),
];

#[test]
fn a_full_lake_says_first_what_is_repeated_or_unknown(rt: HostRuntime) -> Result<(), Fail> {
    let mut lake = full_lake(&rt, rt.alloc())?;
    plays(&rt, &mut lake, rt.alloc(), &REPEATED_OR_UNKNOWN)
}

// One live table, which was loaded and replaced.
const REPLACED_COUNTS: Counts = Counts {
    live: 1,
    updates: 2,
    members: 2,
    key_bytes: 6,
};

const TWO_MEMBERS: [Step; 4] = [
    Step::Load("a", Ok(1)),
    Step::Replace("a", Ok(2)),
    Step::Replace(
        "a",
        Err(ReplaceRefused::Full {
            which: Which::Members,
            count: 2,
            more: 1,
            at: 2,
        }),
    ),
    Step::Counts(REPLACED_COUNTS),
];

#[test]
fn a_replace_counts_its_members_and_no_live_table(rt: HostRuntime) -> Result<(), Fail> {
    let limits = Counts {
        live: 1,
        members: 2,
        ..Limits::standard()
    };
    let mut lake = Catalogue::new(rt.alloc(), limits)?;
    plays(&rt, &mut lake, rt.alloc(), &TWO_MEMBERS)
}

const REPLACED: [Step; 7] = [
    Step::Load("t", Ok(1)),
    Step::Replace("t", Ok(2)),
    Step::Live("t", true),
    Step::Live("z", false),
    Step::Replace("z", Err(ReplaceRefused::Unknown { at: 2 })),
    Step::Entries(2),
    Step::Counts(REPLACED_COUNTS),
];

#[test]
fn a_replace_leaves_the_new_table_alone(rt: HostRuntime) -> Result<(), Fail> {
    let lake = played(&rt, rt.alloc(), &REPLACED)?;
    assert!(rt; shows_now(&lake, rt.alloc(), 1, &[(1, 1, true), (2, 2, false)])?);
    Ok(())
}

const LOAD: [Step; 1] = [Step::Load("a", Ok(1))];

const REPLACE_DROP: [Step; 2] = [Step::Replace("a", Ok(2)), Step::Drop("a", Ok(3))];

const LOAD_AGAIN: [Step; 2] = [Step::Load("a", Ok(4)), Step::Counts(FULL_COUNTS)];

#[test]
fn a_pin_keeps_what_comes_later(rt: HostRuntime) -> Result<(), Fail> {
    let mut lake = played(&rt, rt.alloc(), &LOAD)?;
    let pin = lake.pin()?;
    plays(&rt, &mut lake, rt.alloc(), &REPLACE_DROP)?;
    plays(&rt, &mut lake, rt.alloc(), &LOAD_AGAIN)?;
    assert!(rt; holds(rt.alloc(), &pin, 1, 1)?);
    Ok(())
}

#[test]
fn a_layout_keeps_what_comes_later(rt: HostRuntime) -> Result<(), Fail> {
    let mut lake = played(&rt, rt.alloc(), &LOAD)?;
    let layout = lake.pin()?.layout()?;
    plays(&rt, &mut lake, rt.alloc(), &REPLACE_DROP)?;
    assert!(rt; shows(&layout, 1, &[(1, 1, false)]));
    assert!(rt; shows_now(&lake, rt.alloc(), 0, &[(1, 1, true), (2, 2, true)])?);
    Ok(())
}

const TWO_LOADS_AND_A_DROP: [Step; 3] = [
    Step::Load("a", Ok(1)),
    Step::Load("b", Ok(2)),
    Step::Drop("a", Ok(3)),
];

#[test]
fn a_layout_keeps_what_a_swap_replaces(rt: HostRuntime) -> Result<(), Fail> {
    let mut lake = played(&rt, rt.alloc(), &TWO_LOADS_AND_A_DROP)?;
    let layout = lake.pin()?.layout()?;
    assert!(rt; swaps(&mut lake, rt.alloc(), 4)?);
    assert!(rt; shows(&layout, 3, &[(1, 1, true), (2, 2, false)]));
    assert!(rt; shows_now(&lake, rt.alloc(), 1, &[(4, 2, false)])?);
    Ok(())
}

// The last parts of the first two blocks of 64 parts, the first parts of the next ones, and a part within a block.
const ASKED: [usize; 5] = [3, 63, 64, 127, 128];

// Returns a lake of 130 parts. Part n has one table, whose one column has the keys `x` and n + 100.
fn many_parts(alloc: Global) -> Result<Catalogue, Fail> {
    let mut lake = Catalogue::new(alloc, Limits::standard())?;
    for number in 100..230 {
        let title = format!(in alloc; "t{number}")?;
        let text = format!(in alloc; "v\nx\n{number}\n")?;
        let table = table(alloc, title.as_str(), text.as_str())?;
        let segment = segment(alloc, &table)?;
        let Ok(_) = lake.load(FIRST, table, segment) else {
            return Err(Fail::from("a refused load"));
        };
    }
    Ok(lake)
}

// Returns the tokens that a query has in each part of the lake.
fn asked_of_parts(lake: &Catalogue, alloc: Global, body: &str) -> Result<Vec<Vec<u32>>, Fail> {
    let query = QuerySet::read(alloc, Keys::Canonical, body.as_bytes())?;
    let pin = lake.pin()?;
    let indexed = index_pin(alloc, &pin)?;
    let looks = indexed.looks(alloc);
    let hashed = HashedQuery::new(alloc, &query, looks.parts())?;
    Ok(looks.tokens_of_parts(alloc, &hashed)?)
}

#[test]
fn each_of_many_parts_is_asked(rt: HostRuntime) -> Result<(), Fail> {
    let lake = many_parts(rt.alloc())?;
    let some = asked_of_parts(&lake, rt.alloc(), "none\n103\n163\n164\n227\n228\n")?;
    assert!(rt; some.len() == 130);
    for (part, tokens) in some.iter().enumerate() {
        let wanted: &[u32] = if ASKED.contains(&part) { &[0] } else { &[] };
        assert!(rt; tokens.as_slice() == wanted, "part {part}");
    }
    let all = asked_of_parts(&lake, rt.alloc(), "x\n")?;
    assert!(rt; all.len() == 130);
    for (part, tokens) in all.iter().enumerate() {
        assert!(rt; tokens.as_slice() == [1].as_slice(), "part {part}");
    }
    Ok(())
}

const SWAPPED: [Step; 2] = [
    Step::Entries(4),
    Step::Counts(Counts {
        live: 1,
        updates: 3,
        members: 2,
        key_bytes: 6,
    }),
];

#[test]
fn the_second_of_two_swaps_is_stale(rt: HostRuntime) -> Result<(), Fail> {
    let mut lake = played(&rt, rt.alloc(), &TWO_LOADS_AND_A_DROP)?;
    let stale = SwapRefused::Stale { gone: 1, at: 4 };
    assert!(rt; second_is_refused(&mut lake, rt.alloc(), stale)?);
    plays(&rt, &mut lake, rt.alloc(), &SWAPPED)
}

#[test]
fn a_swap_leaves_out_what_was_dropped_before_its_plan(rt: HostRuntime) -> Result<(), Fail> {
    let mut lake = played(&rt, rt.alloc(), &TWO_LOADS_AND_A_DROP)?;
    assert!(rt; swaps(&mut lake, rt.alloc(), 4)?);
    assert!(rt; shows_now(&lake, rt.alloc(), 1, &[(4, 2, false)])?);
    plays(&rt, &mut lake, rt.alloc(), &SWAPPED)
}

#[test]
fn a_swap_keeps_the_mark_of_a_drop_since_its_plan(rt: HostRuntime) -> Result<(), Fail> {
    let mut lake = played(&rt, rt.alloc(), &TWO_LOADS_AND_A_DROP)?;
    assert!(rt; drops_then_swaps(&mut lake, rt.alloc(), "b", 5)?);
    assert!(rt; shows_now(&lake, rt.alloc(), 0, &[(5, 2, true)])?);
    Ok(())
}

#[test]
fn a_swap_keeps_the_mark_of_a_replace_since_its_plan(rt: HostRuntime) -> Result<(), Fail> {
    let mut lake = played(&rt, rt.alloc(), &TWO_LOADS_AND_A_DROP)?;
    assert!(rt; replaces_then_swaps(&mut lake, rt.alloc(), "b", 5)?);
    assert!(rt; shows_now(&lake, rt.alloc(), 1, &[(5, 2, true), (4, 4, false)])?);
    Ok(())
}

#[test]
fn a_shared_drop_is_the_drop(rt: HostRuntime) -> Result<(), Fail> {
    let kept = KeptName::new(rt.alloc(), &name("a")?)?;
    let entry = Entry::dropped(SECOND, kept).share()?;
    match &entry.what {
        What::Dropped(name) if name.text() == "a" => Ok(()),
        _ => Err(Fail::from("no drop")),
    }
}

#[test]
fn a_kept_name_has_the_bytes_of_the_name(rt: HostRuntime) -> Result<(), Fail> {
    let kept = KeptName::new(rt.alloc(), &name("t-1")?)?;
    let copy = kept.copy()?;
    drop(kept);
    assert!(rt; copy.bytes() == "t-1".as_bytes());
    assert!(rt; copy.text() == "t-1");
    Ok(())
}

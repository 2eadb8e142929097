//! Tests with traces of small runs, written by hand, and with one thing changed.
ghost use Rattle.std.specs.Prelude.{◌≡◌, IfOk};
ghost use Rattle.script_model.specs.Lanes.{IsOfLanes};

use crate::making::{load, search};
use catalogue::Limits;
use commands::{Batch, Options};
use lake_model::Keys;
use std::alloc::Global;
use std::test::Fail;
use trace_check::Checker;

// Makes a checker of traced runs on two lanes, with or without a merger.
fn checker(alloc: Global, merge: bool) -> Checker
    ensures { result.options.lanes ≡ 2 }
{
    let options = Options {
        lanes: 2,
        order: None,
        merge,
        trace: true,
        keys: Keys::Canonical,
    };
    Checker::new(alloc, options, Limits::standard())
}

// Returns the verdict on a trace of one batch.
fn judge_one(alloc: Global, merge: bool, batch: Batch, trace: &str) -> Result<bool, Fail>
    requires { IsOfLanes 2 batch }
{
    let mut checker = checker(alloc, merge);
    checker.add(batch)?;
    Ok(checker.verdict(trace.as_bytes())?)
}

// Returns the verdict on a trace of two batches.
fn judge_two(
    alloc: Global,
    merge: bool,
    first: Batch,
    second: Batch,
    trace: &str,
) -> Result<bool, Fail>
    requires first { IsOfLanes 2 first }
    requires second { IsOfLanes 2 second }
{
    let mut checker = checker(alloc, merge);
    checker.add(first)?;
    checker.add(second)?;
    Ok(checker.verdict(trace.as_bytes())?)
}

// Makes a batch of a load and a search, both on lane 1.
fn load_and_search(alloc: Global) -> Result<Batch, Fail>
    ensures { IfOk result (λ batch. IsOfLanes 2 batch) }
{
    let commands = [load(alloc, 1, 1, "a")?, search(alloc, 2, 1)?];
    Ok(Batch::new(Vec::from_array(alloc, commands)?))
}

// Makes a batch of one load, on lane 1.
fn one_load(alloc: Global, number: u64, table: &str) -> Result<Batch, Fail>
    ensures { IfOk result (λ batch. IsOfLanes 2 batch) }
{
    let commands = [load(alloc, number, 1, table)?];
    Ok(Batch::new(Vec::from_array(alloc, commands)?))
}

// Makes a batch in which lane 1 searches twice, and lane 2 loads.
fn two_lanes(alloc: Global) -> Result<Batch, Fail>
    ensures { IfOk result (λ batch. IsOfLanes 2 batch) }
{
    let commands = [
        search(alloc, 1, 1)?,
        search(alloc, 2, 1)?,
        load(alloc, 3, 2, "a")?,
    ];
    Ok(Batch::new(Vec::from_array(alloc, commands)?))
}

const RIGHT: &str =
    "1 loaded a columns 1 members 1 at 1\n2 answer 1 of 1 at 1\n  1 a 1 \"c\"\n  work reads 1 probes 0\n  layout at 1 parts 1:1\njournal 1\n  1 load lane 1 command 1 a\n";

#[test]
fn a_right_trace(rt: HostRuntime) -> Result<(), Fail> {
    let alloc = rt.alloc();
    assert!(rt; judge_one(alloc, false, load_and_search(alloc)?, RIGHT)?);
    Ok(())
}

#[test]
fn no_batch(rt: HostRuntime) -> Result<(), Fail> {
    let alloc = rt.alloc();
    assert!(rt; checker(alloc, false).verdict(b"journal 0\n")?);
    assert!(rt; !checker(alloc, false).verdict(b"")?);
    assert!(rt; !checker(alloc, false).verdict(b"journal 0\n  \n")?);
    assert!(rt; !checker(alloc, false).verdict(b"journal 0")?);
    Ok(())
}

#[test]
fn lines_behind_the_journal(rt: HostRuntime) -> Result<(), Fail> {
    let alloc = rt.alloc();
    let more =
        "1 loaded a columns 1 members 1 at 1\njournal 1\n  1 load lane 1 command 1 a\njournal 1\n";
    assert!(rt; !judge_one(alloc, false, one_load(alloc, 1, "a")?, more)?);
    Ok(())
}

#[test]
fn a_forged_row(rt: HostRuntime) -> Result<(), Fail> {
    let alloc = rt.alloc();
    let forged =
        "1 loaded a columns 1 members 1 at 1\n2 answer 1 of 1 at 1\n  1 b 1 \"c\"\n  work reads 1 probes 0\n  layout at 1 parts 1:1\njournal 1\n  1 load lane 1 command 1 a\n";
    assert!(rt; !judge_one(alloc, false, load_and_search(alloc)?, forged)?);
    Ok(())
}

// Memory may have run out for any command; a load then adds no entry.
#[test]
fn want_of_memory(rt: HostRuntime) -> Result<(), Fail> {
    let alloc = rt.alloc();
    let search =
        "1 loaded a columns 1 members 1 at 1\n2 no memory\njournal 1\n  1 load lane 1 command 1 a\n";
    assert!(rt; judge_one(alloc, false, load_and_search(alloc)?, search)?);
    let load =
        "1 no memory\n2 answer 0 of 1 at 0\n  work reads 0 probes 0\n  layout at 0 parts none\njournal 0\n";
    assert!(rt; judge_one(alloc, false, load_and_search(alloc)?, load)?);
    Ok(())
}

// Each search of lane 1 may come before the load of lane 2 or after it, but the second may not have an earlier position
// than the first.
#[test]
fn positions_along_a_lane(rt: HostRuntime) -> Result<(), Fail> {
    let alloc = rt.alloc();
    let rising =
        "1 answer 0 of 1 at 0\n  work reads 0 probes 0\n  layout at 0 parts none\n2 answer 1 of 1 at 1\n  1 a 1 \"c\"\n  work reads 1 probes 0\n  layout at 1 parts 1:1\n3 loaded a columns 1 members 1 at 1\njournal 1\n  1 load lane 2 command 3 a\n";
    assert!(rt; judge_one(alloc, false, two_lanes(alloc)?, rising)?);
    let falling =
        "1 answer 1 of 1 at 1\n  1 a 1 \"c\"\n  work reads 1 probes 0\n  layout at 1 parts 1:1\n2 answer 0 of 1 at 0\n  work reads 0 probes 0\n  layout at 0 parts none\n3 loaded a columns 1 members 1 at 1\njournal 1\n  1 load lane 2 command 3 a\n";
    assert!(rt; !judge_one(alloc, false, two_lanes(alloc)?, falling)?);
    Ok(())
}

#[test]
fn an_update_behind_its_sync(rt: HostRuntime) -> Result<(), Fail> {
    let alloc = rt.alloc();
    let before =
        "1 loaded a columns 1 members 1 at 1\n2 loaded b columns 1 members 1 at 2\njournal 2\n  1 load lane 1 command 1 a\n  2 load lane 1 command 2 b\n";
    let first = one_load(alloc, 1, "a")?;
    assert!(rt; judge_two(alloc, false, first, one_load(alloc, 2, "b")?, before)?);
    let behind =
        "1 loaded a columns 1 members 1 at 2\n2 loaded b columns 1 members 1 at 1\njournal 2\n  1 load lane 1 command 2 b\n  2 load lane 1 command 1 a\n";
    let first = one_load(alloc, 1, "a")?;
    assert!(rt; !judge_two(alloc, false, first, one_load(alloc, 2, "b")?, behind)?);
    Ok(())
}

// The merger numbers its commands through all batches.
#[test]
fn merges_of_two_batches(rt: HostRuntime) -> Result<(), Fail> {
    let alloc = rt.alloc();
    let merged =
        "1 loaded a columns 1 members 1 at 1\nm1 refused nothing to merge at 1\n  layout at 1 parts 1:1\n2 loaded b columns 1 members 1 at 2\nm2 refused nothing to merge at 2\n  layout at 2 parts 1:1 2:2\njournal 2\n  1 load lane 1 command 1 a\n  2 load lane 1 command 2 b\n";
    let first = one_load(alloc, 1, "a")?;
    assert!(rt; judge_two(alloc, true, first, one_load(alloc, 2, "b")?, merged)?);
    let first = one_load(alloc, 1, "a")?;
    assert!(rt; !judge_two(alloc, false, first, one_load(alloc, 2, "b")?, merged)?);
    Ok(())
}

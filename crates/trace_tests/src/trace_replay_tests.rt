//! Tests with traces of small runs, like those in the checks of the repository, unchanged and with one thing changed.
ghost use Rattle.std.specs.Prelude.{IfOk};
ghost use Rattle.script_model.specs.Lanes.{IsOfLanes};

use crate::making::{body, command, load, name, search};
use batch_work::works_of;
use catalogue::Limits;
use commands::{Batch, Task};
use lake_model::Keys;
use std::alloc::Global;
use std::test::Fail;
use trace_ends::within_law;
use trace_groups::cut_trace;
use trace_numbers::find_owners;
use trace_replay::{hints_of, replay};

// Makes a batch in which lane 1 loads two tables, searches them and drops the first.
fn drops(alloc: Global) -> Result<Batch, Fail>
    ensures { IfOk result (λ batch. IsOfLanes 2 batch) }
{
    let task = Task::Drop { name: name("a")? };
    let commands = [
        load(alloc, 1, 1, "a")?,
        load(alloc, 2, 1, "b")?,
        search(alloc, 3, 1)?,
        command(4, 1, task),
    ];
    Ok(Batch::new(Vec::from_array(alloc, commands)?))
}

// Makes a batch in which lane 1 loads two tables, merges all and searches, and lane 2 replaces the first table.
fn merges(alloc: Global) -> Result<Batch, Fail>
    ensures { IfOk result (λ batch. IsOfLanes 2 batch) }
{
    let task = Task::Replace {
        name: name("a")?,
        body: body(alloc, "c\ny\n")?,
    };
    let commands = [
        load(alloc, 1, 1, "a")?,
        load(alloc, 2, 1, "b")?,
        command(3, 1, Task::Merge { all: true }),
        command(4, 2, task),
        search(alloc, 5, 1)?,
    ];
    Ok(Batch::new(Vec::from_array(alloc, commands)?))
}

// Returns whether these groups are a trace of a batch. There have to be as many as the batch requires, with the
// positions of a run.
fn replays(alloc: Global, batch: &Batch, groups: &[&str]) -> Result<bool, Fail>
    requires { IsOfLanes 2 batch.now }
{
    let mut trace = Vec::new(alloc);
    for group in groups {
        trace.extend_from_slice(group.as_bytes())?;
    }
    let works = works_of(alloc, batch, None)?;
    let groups = cut_trace(alloc, &trace)?.ok_or("no groups")?;
    if groups.len() != works.len() + 1 {
        return Err(Fail::from("other groups"));
    }
    let hints = hints_of(alloc, &groups, works.len())?;
    let batches = std::slice::from_ref(batch);
    let owners = find_owners(alloc, 2, false, batches, &hints)?.ok_or("no owners")?;
    within_law();
    let keys = Keys::Canonical;
    let limits = Limits::standard();
    Ok(replay(alloc, keys, limits, &works, &groups, &owners)?)
}

const LOADED_A: &str = "1 loaded a columns 1 members 1 at 1\n";

const LOADED_B: &str = "2 loaded b columns 1 members 1 at 2\n";

const FOUND: &str =
    "3 answer 2 of 1 at 2\n  1 a 1 \"c\"\n  1 b 1 \"c\"\n  work reads 2 probes 0\n  layout at 2 parts 1:1 2:2\n";

const DROPPED: &str = "4 dropped a at 3\n";

const JOURNAL: &str =
    "journal 3\n  1 load lane 1 command 1 a\n  2 load lane 1 command 2 b\n  3 drop lane 1 command 4 a\n";

#[test]
fn a_trace_as_it_is_written(rt: HostRuntime) -> Result<(), Fail> {
    let alloc = rt.alloc();
    let trace = [LOADED_A, LOADED_B, FOUND, DROPPED, JOURNAL];
    assert!(rt; replays(alloc, &drops(alloc)?, &trace)?);
    Ok(())
}

#[test]
fn another_number_in_an_answer(rt: HostRuntime) -> Result<(), Fail> {
    let alloc = rt.alloc();
    let loaded = "2 loaded b columns 1 members 2 at 2\n";
    let trace = [LOADED_A, loaded, FOUND, DROPPED, JOURNAL];
    assert!(rt; !replays(alloc, &drops(alloc)?, &trace)?);
    Ok(())
}

// The tables are listed before the load or after it.
#[test]
fn an_answer_of_another_position(rt: HostRuntime) -> Result<(), Fail> {
    let alloc = rt.alloc();
    let commands = [load(alloc, 1, 1, "a")?, command(2, 2, Task::Tables)];
    let batch = Batch::new(Vec::from_array(alloc, commands)?);
    let journal = "journal 1\n  1 load lane 1 command 1 a\n";
    let listed = "2 tables 1 at 1\n  a columns 1 members 1\n";
    assert!(rt; replays(alloc, &batch, &[LOADED_A, listed, journal])?);
    let early = "2 tables 1 at 0\n  a columns 1 members 1\n";
    assert!(rt; !replays(alloc, &batch, &[LOADED_A, early, journal])?);
    assert!(rt; replays(alloc, &batch, &[LOADED_A, "2 tables 0 at 0\n", journal])?);
    Ok(())
}

#[test]
fn a_journal_that_lacks_a_line(rt: HostRuntime) -> Result<(), Fail> {
    let alloc = rt.alloc();
    let journal = "journal 3\n  1 load lane 1 command 1 a\n  2 load lane 1 command 2 b\n";
    let trace = [LOADED_A, LOADED_B, FOUND, DROPPED, journal];
    assert!(rt; !replays(alloc, &drops(alloc)?, &trace)?);
    Ok(())
}

// Memory may have run out for any command. The drop then adds no entry.
#[test]
fn want_of_memory(rt: HostRuntime) -> Result<(), Fail> {
    let alloc = rt.alloc();
    let batch = drops(alloc)?;
    let trace = [LOADED_A, LOADED_B, "3 no memory\n", DROPPED, JOURNAL];
    assert!(rt; replays(alloc, &batch, &trace)?);
    let journal = "journal 2\n  1 load lane 1 command 1 a\n  2 load lane 1 command 2 b\n";
    let trace = [LOADED_A, LOADED_B, FOUND, "4 no memory\n", journal];
    assert!(rt; replays(alloc, &batch, &trace)?);
    let trace = [LOADED_A, LOADED_B, FOUND, "4 no memory at all\n", journal];
    assert!(rt; !replays(alloc, &batch, &trace)?);
    Ok(())
}

const REPLACED: &str = "4 replaced a columns 1 members 1 at 3\n";

// The merge is planned before the replace and swapped in after it, or also planned after it.
#[test]
fn a_merge_that_was_planned_before(rt: HostRuntime) -> Result<(), Fail> {
    let alloc = rt.alloc();
    let batch = merges(alloc)?;
    let before = "3 merged 2 parts into 2 tables at 4\n  layout at 2 parts 1:1 2:2\n";
    let found =
        "5 answer 1 of 1 at 4\n  1 b 1 \"c\"\n  work reads 1 probes 0\n  layout at 4 parts 4:1-,2 3:3\n";
    let journal =
        "journal 4\n  1 load lane 1 command 1 a\n  2 load lane 1 command 2 b\n  3 replace lane 2 command 4 a\n  4 swap lane 1 command 3 from 1,2 kept 1,2\n";
    let trace = [LOADED_A, LOADED_B, before, REPLACED, found, journal];
    assert!(rt; replays(alloc, &batch, &trace)?);
    let behind = "3 merged 3 parts into 2 tables at 4\n  layout at 3 parts 1:1- 2:2 3:3\n";
    let trace = [LOADED_A, LOADED_B, behind, REPLACED, found, journal];
    assert!(rt; !replays(alloc, &batch, &trace)?);
    let found =
        "5 answer 1 of 1 at 4\n  1 b 1 \"c\"\n  work reads 1 probes 0\n  layout at 4 parts 4:2,3\n";
    let journal =
        "journal 4\n  1 load lane 1 command 1 a\n  2 load lane 1 command 2 b\n  3 replace lane 2 command 4 a\n  4 swap lane 1 command 3 from 1,2,3 kept 2,3\n";
    let trace = [LOADED_A, LOADED_B, behind, REPLACED, found, journal];
    assert!(rt; replays(alloc, &batch, &trace)?);
    Ok(())
}

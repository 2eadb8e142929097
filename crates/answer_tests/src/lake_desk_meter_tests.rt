//! Tests of how much a desk looks at in the segments of a lake: what the reply to each search states, one column for
//! each like, and nothing else.
ghost use Rattle.std.specs.Prelude.{◌≡◌};

use crate::making::{Asked, LIKES, Looked, ONE_LIST_DECIDES, batch};
use catalogue::Limits;
use column_set::Keys;
use commands::Command;
use lake::{Lake, Pass};
use lake_desk::{LakeDesk, Standard};
use lake_io::NoGate;
use lane_run::Desk;
use run_record::{By, Reply};
use std::alloc::Global;
use std::sync::Wait;
use std::test::Fail;
use std::thread::Threads;

// Adds the reads and the probes that a reply states.
fn add(looked: &mut Looked, reply: &Reply) {
    if let Reply::Found { reads, probes, .. } = reply {
        looked.reads = looked.reads.saturating_add(*reads);
        looked.probes = looked.probes.saturating_add(*probes);
    }
}

// Sums the meters of all segments.
fn meters<R: Wait>(rt: &R, lake: &Lake<Standard>, pass: &mut Pass<Standard>) -> Result<u64, Fail>
    requires { pass.old.lock ≡ lake.now }
{
    let pin = lake.pin(rt, pass)?;
    let mut sum = 0u64;
    for part in 0..pin.parts() {
        sum = sum.saturating_add(pin.meter(part));
    }
    Ok(sum)
}

// Returns how much was looked at in a lake after commands at one desk.
fn metered<R: Threads + Wait + Sync>(
    rt: &R,
    alloc: Global,
    commands: &[Command],
) -> Result<Looked, Fail> {
    let mut looked = Looked {
        meters: 0,
        reads: 0,
        probes: 0,
    };
    let (lake, opening) = Lake::<Standard>::new(alloc, Limits::standard(), 1)?;
    let mut desk = LakeDesk::new(alloc, Keys::Canonical, &lake, opening, None);
    for command in commands {
        let by = By::Command {
            number: command.number(),
            lane: command.lane(),
        };
        let reply = desk.answer(rt, by, command.task(), &NoGate);
        add(&mut looked, &reply);
    }
    let (mut pass, _past) = desk.into_pass();
    looked.meters = meters(rt, &lake, &mut pass)?;
    Ok(looked)
}

#[test]
fn one_list_and_one_set(rt: HostRuntime) -> Result<(), Fail> {
    let batch = batch(rt.alloc(), 1, &ONE_LIST_DECIDES)?;
    let looked = metered(&rt, rt.alloc(), batch.commands())?;
    assert!(rt; looked.meters == 2 && looked.reads == 1 && looked.probes == 1);
    Ok(())
}

#[test]
fn twelve_lists_three_sets_and_two_columns(rt: HostRuntime) -> Result<(), Fail> {
    let batch = batch(rt.alloc(), 1, &LIKES)?;
    let looked = metered(&rt, rt.alloc(), batch.commands())?;
    assert!(rt; looked.meters == 17 && looked.reads == 12 && looked.probes == 3);
    Ok(())
}

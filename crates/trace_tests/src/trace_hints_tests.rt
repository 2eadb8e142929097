//! Tests of the hints of lines as a run writes them, and of the last positions of two lanes.
use std::alloc::Global;
use std::process::Abort;
use std::test::Fail;
use trace_hints::{Hint, hint_of_lines, one_more};

// Checks the hint that two lines give.
fn tells(
    rt: &(impl Abort + AllocGlobal),
    first: &str,
    next: &str,
    wanted: Hint,
) -> Result<(), Fail> {
    let got = hint_of_lines(rt.alloc(), first.as_bytes(), next.as_bytes())?;
    assert_eq!(rt; got, wanted, "{first}");
    Ok(())
}

#[test]
fn updates(rt: HostRuntime) -> Result<(), Fail> {
    tells(
        &rt,
        "1 loaded t columns 2 members 4 at 1",
        "",
        Hint::Added { at: 1 },
    )?;
    tells(
        &rt,
        "2 replaced at columns 1 members 1 at 20",
        "",
        Hint::Added { at: 20 },
    )?;
    tells(
        &rt,
        "3 dropped no at 3",
        "4 no memory",
        Hint::Added { at: 3 },
    )?;
    tells(&rt, "4 refused repeated t at 3", "", Hint::Saw { at: 3 })?;
    tells(&rt, "5 refused csv no-header", "", Hint::Nowhere)
}

#[test]
fn searches(rt: HostRuntime) -> Result<(), Fail> {
    tells(
        &rt,
        "6 answer 0 of 1 at 7",
        "  work reads 0 probes 0",
        Hint::Saw { at: 7 },
    )?;
    tells(
        &rt,
        "7 answer 1 of 1 as of 4 at 9",
        "  1 t 1 \"c\"",
        Hint::Saw { at: 9 },
    )?;
    tells(&rt, "8 refused later 12 at 9", "", Hint::Saw { at: 9 })?;
    tells(&rt, "9 refused query line 2 not UTF-8", "", Hint::Nowhere)?;
    tells(&rt, "10 no memory", "", Hint::Wanting)
}

#[test]
fn merges(rt: HostRuntime) -> Result<(), Fail> {
    let layout = "  layout at 5 parts 1:1 2:2,3-";
    tells(
        &rt,
        "m1 merged 2 parts into 2 tables at 9",
        layout,
        Hint::PlannedAndAdded { pinned: 5, at: 9 },
    )?;
    tells(
        &rt,
        "m2 refused stale part 2 at 8",
        layout,
        Hint::PlannedAndSaw { pinned: 5, at: 8 },
    )?;
    tells(
        &rt,
        "m3 refused nothing to merge at 8",
        layout,
        Hint::Saw { at: 8 },
    )
}

// A number above 2^64 - 1 is read as 2^64 - 1.
#[test]
fn large_numbers(rt: HostRuntime) -> Result<(), Fail> {
    tells(
        &rt,
        "1 tables 0 at 18446744073709551615",
        "",
        Hint::Saw { at: u64::MAX },
    )?;
    tells(
        &rt,
        "1 tables 0 at 18446744073709551617",
        "",
        Hint::Saw { at: u64::MAX },
    )
}

#[test]
fn lows_of_two_lanes(rt: HostRuntime) {
    let mut lows = [0, 0];
    assert!(rt; one_more(&mut lows, 0, Hint::Added { at: 1 }));
    assert!(rt; one_more(&mut lows, 1, Hint::Saw { at: 0 }));
    assert!(rt; one_more(&mut lows, 0, Hint::Saw { at: 1 }));
    assert!(rt; !one_more(&mut lows, 0, Hint::Added { at: 1 }));
    assert!(rt; !one_more(&mut lows, 0, Hint::PlannedAndAdded { pinned: 0, at: 3 }));
    assert!(rt; one_more(&mut lows, 1, Hint::PlannedAndSaw { pinned: 2, at: 2 }));
    assert_eq!(rt; lows, [1, 2]);
}

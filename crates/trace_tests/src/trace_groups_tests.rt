//! Tests of the groups of traces as a run writes them, and of texts that are not traces.
use std::alloc::Global;
use std::process::Abort;
use std::test::Fail;
use trace_groups::cut_trace;
use trace_hints::Hint;

const TRACE: &str =
    "1 loaded t columns 1 members 1 at 1\n2 answer 1 of 1 at 1\n  1 t 1 \"c\"\n  work reads 1 probes 0\n  layout at 1 parts 1:1\nm1 merged 1 parts into 1 tables at 2\n  layout at 1 parts 1:1\njournal 1\n  1 load lane 1 command 1 t\n";

// Checks that the groups of a trace have these hints and these numbers of bytes.
fn cuts(
    rt: &(impl Abort + AllocGlobal),
    trace: &str,
    wanted: &[(usize, Hint)],
) -> Result<(), Fail> {
    let Some(groups) = cut_trace(rt.alloc(), trace.as_bytes())? else {
        return Err(Fail::from("it is not cut"));
    };
    assert_eq!(rt; groups.len(), wanted.len());
    for (group, (size, hint)) in groups.iter().zip(wanted) {
        assert_eq!(rt; group.text.len(), *size);
        assert_eq!(rt; group.hint, *hint);
    }
    Ok(())
}

// Checks that a text has no groups.
fn is_not_cut(rt: &(impl Abort + AllocGlobal), text: &str) -> Result<(), Fail> {
    let groups = cut_trace(rt.alloc(), text.as_bytes())?;
    assert!(rt; groups.is_none(), "{text}");
    Ok(())
}

#[test]
fn a_trace(rt: HostRuntime) -> Result<(), Fail> {
    cuts(
        &rt,
        TRACE,
        &[
            (36, Hint::Added { at: 1 }),
            (81, Hint::Saw { at: 1 }),
            (61, Hint::PlannedAndAdded { pinned: 1, at: 2 }),
            (38, Hint::Nowhere),
        ],
    )
}

#[test]
fn short_texts(rt: HostRuntime) -> Result<(), Fail> {
    cuts(&rt, "", &[])?;
    cuts(&rt, "\n", &[(1, Hint::Nowhere)])?;
    cuts(
        &rt,
        "1 no memory\n\n",
        &[(12, Hint::Wanting), (1, Hint::Nowhere)],
    )
}

#[test]
fn no_traces(rt: HostRuntime) -> Result<(), Fail> {
    is_not_cut(&rt, "journal 0")?;
    is_not_cut(&rt, "  layout\njournal 0\n")?;
    is_not_cut(&rt, "journal 1\n  1 load lane 1 command 1 t")
}

//! Runs over streams in memory, which work or fail.
use josie_top::{GivenWhy, Reason, RunRecord, Status, run};
use lake_io::{Gate, MemoryShelf, MemorySink, MemorySource, NoGate, Point};
use std::alloc::Global;
use std::sync::Wait;
use std::sync::atomic::{AtomicBool, Ordering};
use std::test::*;
use std::thread;
use std::thread::Threads;

mod faults;

const SCRIPT: &str =
    "load stations\nid,city,country\n1,\"Sao Paulo, SP\",Brazil\n2,Zurich,Switzerland\n3,\"New\nYork\",USA\n.\nsearch 2\n ZURICH\nnew\nsao paulo, sp\n.\nsearch 1\nSwitzerland\nBRAZIL\n.\n";

const WRITTEN: &str =
    "1 loaded stations columns 3 members 9 at 1\n2 answer 1 of 3 at 1\n  2 stations 2 \"city\"\n3 answer 1 of 2 at 1\n  2 stations 3 \"country\"\n";

// Streams in memory: the source gives, and the sink takes, pieces of `piece` bytes. For each stream and for the store
// there is the number of the call that fails, or 0. The store has one file, `here.csv`, which holds this text.
#[derive(Clone, Copy)]
struct Streams {
    piece: usize,
    failing_read: u64,
    sink_piece: usize,
    failing_write: u64,
    failing_fetch: u64,
    file: &'static str,
}

// No call fails, and the file holds the values `c` and `x`.
const SOUND: Streams = Streams {
    piece: 64,
    failing_read: 0,
    sink_piece: 64,
    failing_write: 0,
    failing_fetch: 0,
    file: "c\nx\n",
};

// A gate that holds lane 1 at its pin until a command of lane 2 has ended, and holds lane 2 at the start of a command
// until lane 1 has its pin. It holds no lane for ever: after a while it gives up and sets `late`.
#[derive(Drop)]
struct Crossing {
    pinned: AtomicBool,
    ended: AtomicBool,
    late: AtomicBool,
}

impl Crossing {
    fn new() -> Crossing {
        Crossing {
            pinned: AtomicBool::new(false),
            ended: AtomicBool::new(false),
            late: AtomicBool::new(false),
        }
    }

    // Lets other threads run until the flag is set, at most 10,000,000 times.
    fn wait_for(&self, flag: &AtomicBool) {
        for _ in 0..10_000_000 {
            if flag.load(Ordering::SeqCst) {
                return;
            }
            thread::yield_now();
        }
        self.late.store(true, Ordering::SeqCst);
    }
}

impl Gate for Crossing {
    fn at(&self, lane: u32, _command: u64, point: Point) {
        match (lane, point) {
            (1, Point::Pinned) => {
                self.pinned.store(true, Ordering::SeqCst);
                self.wait_for(&self.ended);
            }
            (2, Point::Begin) => self.wait_for(&self.pinned),
            (2, Point::Ended) => self.ended.store(true, Ordering::SeqCst),
            _ => (),
        }
    }
}

// Returns how a run of these words without a gate ends, and whether it wrote exactly this text.
fn ends_with<R: Threads + Wait + Sync>(
    rt: &R,
    alloc: Global,
    texts: &[&str],
    script: &str,
    streams: Streams,
    written: &str,
) -> Result<(Status, bool), Fail> {
    ends_at(rt, alloc, &NoGate, texts, script, streams, written)
}

// Returns how a run of these words with this gate ends, and whether it wrote exactly this text.
fn ends_at<R: Threads + Wait + Sync, G: Gate + Sync>(
    rt: &R,
    alloc: Global,
    gate: &G,
    texts: &[&str],
    script: &str,
    streams: Streams,
    written: &str,
) -> Result<(Status, bool), Fail> {
    let mut words = Vec::new(alloc);
    for text in texts {
        words.push(String::from_str(alloc, text)?)?;
    }
    let mut source = MemorySource::new(
        alloc,
        script.as_bytes(),
        streams.piece.max(1),
        &[streams.failing_read],
    )
    .ok()
    .ok_or("memory")?;
    let mut sink = MemorySink::new(
        alloc,
        4096,
        streams.sink_piece.max(1),
        &[streams.failing_write],
    )
    .ok()
    .ok_or("memory")?;
    let mut shelf = MemoryShelf::new(alloc);
    shelf
        .add("here.csv", streams.file.as_bytes())
        .ok()
        .ok_or("memory")?;
    shelf.fail_at(streams.failing_fetch).ok().ok_or("memory")?;
    let mut record = RunRecord::new(alloc);
    let status = run(
        rt,
        alloc,
        words.as_slice(),
        &mut source,
        &mut sink,
        &mut shelf,
        gate,
        &mut record,
    );
    Ok((status, sink.written() == written.as_bytes()))
}

// Does the same for the single word `run`.
fn ends<R: Threads + Wait + Sync>(
    rt: &R,
    alloc: Global,
    script: &str,
    streams: Streams,
    written: &str,
) -> Result<(Status, bool), Fail> {
    ends_with(rt, alloc, &["run"], script, streams, written)
}

#[test]
fn answers_a_script(rt: HostRuntime) -> Result<(), Fail> {
    for piece in [1usize, 7, 64, 4096] {
        let streams = Streams {
            piece,
            sink_piece: piece,
            ..SOUND
        };
        let (status, same) = ends(&rt, rt.alloc(), SCRIPT, streams, WRITTEN)?;
        assert!(rt; status == Status::Done && same);
    }
    Ok(())
}

#[test]
fn writes_nothing_for_an_empty_input(rt: HostRuntime) -> Result<(), Fail> {
    let (status, same) = ends(
        &rt,
        rt.alloc(),
        "",
        Streams {
            failing_write: 1,
            ..SOUND
        },
        "",
    )?;
    assert!(rt; status == Status::Done && same);
    Ok(())
}

// There is one call for each piece, and one that finds the end.
#[test]
fn ends_at_each_failing_read_with_nothing_written(rt: HostRuntime) -> Result<(), Fail> {
    for (piece, calls) in [(1usize, 163u64), (7, 25), (64, 4)] {
        for failing in 1..=calls {
            let streams = Streams {
                piece,
                failing_read: failing,
                ..SOUND
            };
            let (status, same) = ends(&rt, rt.alloc(), SCRIPT, streams, "")?;
            assert!(rt; status == Status::ReadFault && same);
        }
        let streams = Streams {
            piece,
            failing_read: calls.saturating_add(1),
            ..SOUND
        };
        let (status, _) = ends(&rt, rt.alloc(), SCRIPT, streams, "")?;
        assert!(rt; status == Status::Done);
    }
    Ok(())
}

#[test]
fn ends_at_each_failing_write_with_what_was_taken(rt: HostRuntime) -> Result<(), Fail> {
    for (piece, calls) in [(1usize, 132u64), (7, 19), (64, 3)] {
        let mut taken = 0usize;
        for failing in 1..=calls {
            let first = WRITTEN.get(..taken).ok_or("the text is shorter")?;
            let streams = Streams {
                sink_piece: piece,
                failing_write: failing,
                ..SOUND
            };
            let (status, same) = ends(&rt, rt.alloc(), SCRIPT, streams, first)?;
            assert!(rt; status == Status::WriteFault && same);
            taken = taken.saturating_add(piece);
        }
    }
    Ok(())
}

#[test]
fn writes_each_batch_before_it_reads_the_next(rt: HostRuntime) -> Result<(), Fail> {
    let script = "tables\nsync\ntables";
    let third_read = Streams {
        piece: 12,
        failing_read: 3,
        ..SOUND
    };
    let (status, same) = ends(&rt, rt.alloc(), script, third_read, "1 tables 0 at 0\n")?;
    assert!(rt; status == Status::ReadFault && same);
    let second_write = Streams {
        sink_piece: 5,
        failing_write: 2,
        ..SOUND
    };
    let (status, same) = ends(&rt, rt.alloc(), script, second_write, "1 tab")?;
    assert!(rt; status == Status::WriteFault && same);
    let second_read = Streams {
        piece: 17,
        failing_read: 2,
        ..SOUND
    };
    let (status, same) = ends(
        &rt,
        rt.alloc(),
        "tables\nsync\nfind\ntables\n",
        second_read,
        "1 tables 0 at 0\n",
    )?;
    assert!(rt;
        same && status
            == Status::Script {
                line: 3,
                reason: Reason::Unknown
            }
    );
    Ok(())
}

// Returns how a run ends whose first write fails, and whether its source then has exactly this text left.
fn leaves<R: Threads + Wait + Sync>(
    rt: &R,
    alloc: Global,
    script: &str,
    piece: usize,
    left: &str,
) -> Result<(Status, bool), Fail> {
    let mut words = Vec::new(alloc);
    words.push(String::from_str(alloc, "run")?)?;
    let mut source = MemorySource::new(alloc, script.as_bytes(), piece.max(1), &[])
        .ok()
        .ok_or("memory")?;
    let mut sink = MemorySink::new(alloc, 64, 64, &[1]).ok().ok_or("memory")?;
    let mut shelf = MemoryShelf::new(alloc);
    let mut record = RunRecord::new(alloc);
    let status = run(
        rt,
        alloc,
        words.as_slice(),
        &mut source,
        &mut sink,
        &mut shelf,
        &NoGate,
        &mut record,
    );
    Ok((status, source.left() == left.as_bytes()))
}

#[test]
fn leaves_the_batch_behind_a_failed_write_unread(rt: HostRuntime) -> Result<(), Fail> {
    let script = "tables\nsync\ntables\nsync\n";
    for (piece, left) in [
        (6usize, "tables\nsync\n"),
        (8, "es\nsync\n"),
        (12, "tables\nsync\n"),
    ] {
        let (status, same) = leaves(&rt, rt.alloc(), script, piece, left)?;
        assert!(rt; status == Status::WriteFault && same);
    }
    Ok(())
}

#[test]
fn loads_from_files(rt: HostRuntime) -> Result<(), Fail> {
    let script = "loadfile f missing.csv\nloadfile g here.csv\n";
    for (failing_fetch, written) in [
        (
            0u64,
            "1 refused file missing\n2 loaded g columns 1 members 1 at 1\n",
        ),
        (2, "1 refused file missing\n2 refused file failed\n"),
    ] {
        let streams = Streams {
            piece: 9,
            failing_fetch,
            ..SOUND
        };
        let (status, same) = ends(&rt, rt.alloc(), script, streams, written)?;
        assert!(rt; status == Status::Done && same);
    }
    Ok(())
}

#[test]
fn traces_a_run(rt: HostRuntime) -> Result<(), Fail> {
    let script = "load a\nc\nx\n.\ndrop a\nload b\nc\nx\n.\nsearch 1\nx\n.\n";
    let written =
        "1 loaded a columns 1 members 1 at 1\n2 dropped a at 2\n3 loaded b columns 1 members 1 at 3\n4 answer 1 of 1 at 3\n  1 b 1 \"c\"\n  work reads 2 probes 0\n  layout at 3 parts 1:1- 3:3\njournal 3\n  1 load lane 1 command 1 a\n  2 drop lane 1 command 2 a\n  3 load lane 1 command 3 b\n";
    let (status, same) = ends_with(&rt, rt.alloc(), &["run", "--trace"], script, SOUND, written)?;
    assert!(rt; status == Status::Done && same);
    Ok(())
}

#[test]
fn finds_what_holds_half_of_a_query(rt: HostRuntime) -> Result<(), Fail> {
    let script =
        "load t1\nc\na\nb\nc\nd\n.\nload t2\nc\na\nb\n.\nload t3\nc\na\n.\ncontain 1 2\na\nb\nc\nd\n.\n";
    let written =
        "1 loaded t1 columns 1 members 4 at 1\n2 loaded t2 columns 1 members 2 at 2\n3 loaded t3 columns 1 members 1 at 3\n4 answer 2 of 4 at 3\n  4 t1 1 \"c\"\n  2 t2 1 \"c\"\n  work reads 4 probes 2\n  layout at 3 parts 1:1 2:2 3:3\njournal 3\n  1 load lane 1 command 1 t1\n  2 load lane 1 command 2 t2\n  3 load lane 1 command 3 t3\n";
    let (status, same) = ends_with(&rt, rt.alloc(), &["run", "--trace"], script, SOUND, written)?;
    assert!(rt; status == Status::Done && same);
    Ok(())
}

#[test]
fn runs_lanes_in_a_stated_order(rt: HostRuntime) -> Result<(), Fail> {
    let script = "load a\nc\nx\n.\nload b\nc\nx\n.\nmerge all\n@2 merge all\n";
    let written =
        "1 loaded a columns 1 members 1 at 1\n2 loaded b columns 1 members 1 at 2\n3 merged 2 parts into 2 tables at 3\n4 refused stale part 1 at 3\n";
    let (status, same) = ends_with(
        &rt,
        rt.alloc(),
        &["run", "--lanes", "2", "--order", "1,1,1,2,1,2"],
        script,
        SOUND,
        written,
    )?;
    assert!(rt; status == Status::Done && same);
    Ok(())
}

#[test]
fn replaces_a_table_between_a_plan_and_its_swap(rt: HostRuntime) -> Result<(), Fail> {
    let script =
        "load a\nc\nx\n.\nload b\nc\nx\n.\nmerge all\n@2 replace a\nc\ny\n.\nsearch 9\nx\n.\n";
    let written =
        "1 loaded a columns 1 members 1 at 1\n2 loaded b columns 1 members 1 at 2\n3 merged 2 parts into 2 tables at 4\n  layout at 2 parts 1:1 2:2\n4 replaced a columns 1 members 1 at 3\n5 answer 1 of 1 at 4\n  1 b 1 \"c\"\n  work reads 1 probes 0\n  layout at 4 parts 4:1-,2 3:3\njournal 4\n  1 load lane 1 command 1 a\n  2 load lane 1 command 2 b\n  3 replace lane 2 command 4 a\n  4 swap lane 1 command 3 from 1,2 kept 1,2\n";
    let words = ["run", "--lanes", "2", "--order", "1,1,1,2,1,1,1", "--trace"];
    let (status, same) = ends_with(&rt, rt.alloc(), &words, script, SOUND, written)?;
    assert!(rt; status == Status::Done && same);
    Ok(())
}

// Circled one and the digit match by compatibility alone.
#[test]
fn compares_values_by_the_profile(rt: HostRuntime) -> Result<(), Fail> {
    let script = "load a\nc\n①\n.\nsearch 1\n1\n.\n";
    for (profile, written) in [
        (
            "1",
            "1 loaded a columns 1 members 1 at 1\n2 answer 0 of 1 at 1\n",
        ),
        (
            "2",
            "1 loaded a columns 1 members 1 at 1\n2 answer 1 of 1 at 1\n  1 a 1 \"c\"\n",
        ),
    ] {
        let words = ["run", "--profile", profile];
        let (status, same) = ends_with(&rt, rt.alloc(), &words, script, SOUND, written)?;
        assert!(rt; status == Status::Done && same);
    }
    Ok(())
}

#[test]
fn tells_what_changes_for_a_watched_query(rt: HostRuntime) -> Result<(), Fail> {
    let script = "load a\nd\nx\n.\nload b\nd\ny\n.\nsync\nload e\nd\nx\nc\n.\ndrop a\ndrop e\n";
    let written =
        "1 query 1 rows 1\n  1 a 1 \"d\"\n3 query 1 rows 1\n  2 e 1 \"d\"\n5 query 1 rows 0\nend 5\n";
    let words = ["watch", "1", "here.csv"];
    let streams = Streams { piece: 7, ..SOUND };
    let (status, same) = ends_with(&rt, rt.alloc(), &words, script, streams, written)?;
    assert!(rt; status == Status::Done && same);
    Ok(())
}

// The first read and the first write would fail.
#[test]
fn names_the_path_that_gives_no_query(rt: HostRuntime) -> Result<(), Fail> {
    let streams = Streams {
        failing_read: 1,
        failing_write: 1,
        ..SOUND
    };
    for (second, failing_fetch, path, why) in [
        ("missing.csv", 0u64, 2, GivenWhy::Missing),
        ("here.csv", 1, 1, GivenWhy::Failed),
        ("here.csv", 2, 2, GivenWhy::Failed),
    ] {
        let words = ["watch", "1", "here.csv", second];
        let streams = Streams {
            failing_fetch,
            ..streams
        };
        let (status, same) = ends_with(&rt, rt.alloc(), &words, "", streams, "")?;
        assert!(rt; status == Status::Given { path, why } && same);
    }
    Ok(())
}

// A load and a search, for which the tests below have traces.
const AUDITED: &str = "load a\nc\nx\n.\nsearch 1\nx\n.\n";

const AUDIT: &str =
    "1 loaded a columns 1 members 1 at 1\n2 answer 1 of 1 at 1\n  1 a 1 \"c\"\n  work reads 1 probes 0\n  layout at 1 parts 1:1\njournal 1\n  1 load lane 1 command 1 a\n";

#[test]
fn checks_a_trace(rt: HostRuntime) -> Result<(), Fail> {
    let forged =
        "1 loaded a columns 1 members 1 at 1\n2 answer 1 of 1 at 1\n  2 a 1 \"c\"\n  work reads 1 probes 0\n  layout at 1 parts 1:1\njournal 1\n  1 load lane 1 command 1 a\n";
    for (script, file, wanted, written) in [
        (AUDITED, AUDIT, Status::Done, "yes\n"),
        (AUDITED, forged, Status::Refuted, "no\n"),
        (AUDITED, "journal 0\n", Status::Refuted, "no\n"),
        ("", "journal 0\n", Status::Done, "yes\n"),
        ("", "", Status::Refuted, "no\n"),
    ] {
        let streams = Streams { file, ..SOUND };
        let words = ["check", "here.csv"];
        let (status, same) = ends_with(&rt, rt.alloc(), &words, script, streams, written)?;
        assert!(rt; status == wanted && same);
    }
    Ok(())
}

// A fault of the trace's file, of the script, of the source or of the sink, with what was written before it.
#[test]
fn ends_at_what_fails_in_a_check(rt: HostRuntime) -> Result<(), Fail> {
    let fault = Status::Script {
        line: 1,
        reason: Reason::Unknown,
    };
    let missing = Status::Given {
        path: 1,
        why: GivenWhy::Missing,
    };
    let failed = Status::Given {
        path: 1,
        why: GivenWhy::Failed,
    };
    for (path, script, [fetch, read, write], wanted, written) in [
        ("there.csv", AUDITED, [0u64, 1, 1], missing, ""),
        ("here.csv", AUDITED, [1, 1, 1], failed, ""),
        ("here.csv", "what\n", [0, 0, 0], fault, ""),
        ("here.csv", AUDITED, [0, 1, 0], Status::ReadFault, ""),
        ("here.csv", AUDITED, [0, 0, 1], Status::WriteFault, ""),
        ("here.csv", AUDITED, [0, 0, 2], Status::WriteFault, "ye"),
    ] {
        let streams = Streams {
            sink_piece: 2,
            failing_read: read,
            failing_write: write,
            failing_fetch: fetch,
            file: AUDIT,
            ..SOUND
        };
        let words = ["check", path];
        let (status, same) = ends_with(&rt, rt.alloc(), &words, script, streams, written)?;
        assert!(rt; status == wanted && same);
    }
    Ok(())
}

// Lane 1 searches the version that it pinned, although lane 2 has changed the lake meanwhile. In the last batch the
// gate holds no lane.
#[test]
fn a_search_at_its_pin_holds_up_no_other_lane(rt: HostRuntime) -> Result<(), Fail> {
    let loads = "load a\nc\nx\ny\n.\nload b\nc\nx\n.\nsync\nsearch 1\nx\ny\n.\n";
    let last = "sync\nsearch 1\nx\ny\n.\n";
    let first =
        "1 loaded a columns 1 members 2 at 1\n2 loaded b columns 1 members 1 at 2\n3 answer 1 of 2 at 2\n  2 a 1 \"c\"\n";
    for (other, later) in [
        (
            "@2 load 1\nc\ny\nx\n.\n",
            "4 loaded 1 columns 1 members 2 at 3\n5 answer 1 of 2 at 3\n  2 1 1 \"c\"\n",
        ),
        (
            "@2 drop a\n",
            "4 dropped a at 3\n5 answer 1 of 2 at 3\n  1 b 1 \"c\"\n",
        ),
        (
            "@2 merge all\n",
            "4 merged 2 parts into 2 tables at 3\n5 answer 1 of 2 at 3\n  2 a 1 \"c\"\n",
        ),
    ] {
        let gate = Crossing::new();
        let script = format!(in rt.alloc(); "{loads}{other}{last}")?;
        let written = format!(in rt.alloc(); "{first}{later}")?;
        let words = ["run", "--lanes", "2"];
        let (status, same) = ends_at(&rt, rt.alloc(), &gate, &words, &script, SOUND, &written)?;
        assert!(rt; status == Status::Done && same);
        assert!(rt; !gate.late.load(Ordering::SeqCst));
    }
    Ok(())
}

// The first read would fail.
#[test]
fn makes_a_lake_without_reading(rt: HostRuntime) -> Result<(), Fail> {
    let written =
        "tables 1\nmembers 6\nmerges 0\nanswers 50 rows 0 overlap 0\nreads 100 probes 0\n";
    let (status, same) = ends_with(
        &rt,
        rt.alloc(),
        &["make", "0", "1", "2"],
        "",
        Streams {
            failing_read: 1,
            ..SOUND
        },
        written,
    )?;
    assert!(rt; status == Status::Done && same);
    Ok(())
}

#[test]
fn names_the_first_line_at_fault(rt: HostRuntime) -> Result<(), Fail> {
    for (script, line, reason) in [
        ("find\nfind\n", 1, Reason::Unknown),
        ("search 1\na", 1, Reason::NoEnd),
        ("search 10001\n", 1, Reason::Words),
        ("# no command\n\n \n@2 tables\n", 4, Reason::Lane),
    ] {
        let streams = Streams { piece: 5, ..SOUND };
        let (status, same) = ends(&rt, rt.alloc(), script, streams, "")?;
        assert!(rt; status == Status::Script { line, reason } && same);
    }
    Ok(())
}

#[test]
fn refuses_words(rt: HostRuntime) -> Result<(), Fail> {
    for texts in [
        ["Run", "--trace"],
        ["run", "run"],
        ["run", "--lanes=17"],
        ["make", "7"],
    ] {
        let (status, same) = ends_with(
            &rt,
            rt.alloc(),
            &texts,
            "search 1\n.\n",
            Streams {
                failing_read: 1,
                failing_write: 1,
                ..SOUND
            },
            "",
        )?;
        assert!(rt; status == Status::Usage && same);
    }
    Ok(())
}

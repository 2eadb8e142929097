//! Runs over several batches in which each call of the source, of the sink and of the store fails in turn: the status,
//! and what was written, are those of the table of statuses.
use super::{SOUND, Streams, ends_with};
use josie_top::Status;
use std::alloc::Global;
use std::test::*;

// Batches that a `sync` ends, each with the replies to it.
const ENDED: [(&str, &str); 2] = [
    (
        "load cities\ncity,country\nOslo,Norway\nRome,Italy\nLima,Peru\n.\nsearch 2\nrome\nOSLO\nQuito\n.\nsync\n",
        "1 loaded cities columns 2 members 6 at 1\n2 answer 1 of 3 at 1\n  2 cities 1 \"city\"\n",
    ),
    (
        "load routes\nfrom,to\nRome,Oslo\nLima,Rome\n.\nmerge all\ndrop cities\nsearch 3\nlima\nrome\noslo\n.\nsync\n",
        "3 loaded routes columns 2 members 4 at 2\n4 merged 2 parts into 2 tables at 3\n5 dropped cities at 4\n6 answer 2 of 3 at 4\n  2 routes 1 \"from\"\n  2 routes 2 \"to\"\n",
    ),
];

// The last batch, which the end of the script ends, and the replies to it.
const LAST: (&str, &str) = (
    "replace routes\nfrom,to\nQuito,Lima\n.\nlike 2 routes 1\ntables\nmerge\n",
    "7 replaced routes columns 2 members 2 at 5\n8 answer 0 of 1 at 5\n9 tables 1 at 5\n  routes columns 2 members 2\n10 merged 1 parts into 0 tables at 6\n",
);

// One read for each piece of 64 bytes of the script, and one that finds the end.
const READS: u64 = 5;

// One write for each piece of 64 bytes of a batch's replies.
const WRITES: u64 = 8;

// Ways to run the commands of lane 1: on threads, and in a stated order.
const WAYS: [[&str; 2]; 3] = [
    ["run", "--lanes=1"],
    ["run", "--lanes=2"],
    ["run", "--order=/"],
];

// The script, and all that is written for it.
fn whole(alloc: Global) -> Result<(String, String), Fail> {
    let mut script = String::new(alloc);
    let mut written = String::new(alloc);
    for (batch, replies) in ENDED {
        script.push_str(batch)?;
        written.push_str(replies)?;
    }
    script.push_str(LAST.0)?;
    written.push_str(LAST.1)?;
    Ok((script, written))
}

// Returns what is written if the source gives `given` bytes of the script and then fails: the replies to the batches
// whose `sync` was read in full.
fn written_of(alloc: Global, given: usize) -> Result<String, Fail> {
    let mut written = String::new(alloc);
    let mut end = 0usize;
    for (batch, replies) in ENDED {
        end = end.saturating_add(batch.len());
        if end <= given {
            written.push_str(replies)?;
        }
    }
    Ok(written)
}

// Returns how much the sink has taken after one more call. The replies to each batch are sent separately, in pieces of
// 64 bytes.
fn one_call_more(taken: usize) -> usize {
    let mut end = 0usize;
    for (_, replies) in ENDED {
        end = end.saturating_add(replies.len());
        if taken < end {
            return end.min(taken.saturating_add(64));
        }
    }
    end.saturating_add(LAST.1.len())
        .min(taken.saturating_add(64))
}

#[test]
fn ends_at_each_failing_read_with_the_batches_that_came_whole(rt: HostRuntime) -> Result<(), Fail> {
    let (script, written) = whole(rt.alloc())?;
    for words in WAYS {
        let mut given = 0usize;
        for failing_read in 1..=READS {
            let streams = Streams {
                failing_read,
                ..SOUND
            };
            let before = written_of(rt.alloc(), given)?;
            let (status, same) = ends_with(&rt, rt.alloc(), &words, &script, streams, &before)?;
            assert!(rt;
                status == Status::ReadFault && same,
                "at read {failing_read}"
            );
            given = given.saturating_add(64);
        }
        let streams = Streams {
            failing_read: READS.saturating_add(1),
            ..SOUND
        };
        let (status, same) = ends_with(&rt, rt.alloc(), &words, &script, streams, &written)?;
        assert!(rt; status == Status::Done && same);
    }
    Ok(())
}

#[test]
fn ends_at_each_failing_write_with_what_was_taken_before(rt: HostRuntime) -> Result<(), Fail> {
    let (script, written) = whole(rt.alloc())?;
    for words in WAYS {
        let mut taken = 0usize;
        for failing_write in 1..=WRITES {
            let streams = Streams {
                failing_write,
                ..SOUND
            };
            let before = written.get(..taken).ok_or("the text is shorter")?;
            let (status, same) = ends_with(&rt, rt.alloc(), &words, &script, streams, before)?;
            assert!(rt;
                status == Status::WriteFault && same,
                "at write {failing_write}"
            );
            taken = one_call_more(taken);
        }
        let streams = Streams {
            failing_write: WRITES.saturating_add(1),
            ..SOUND
        };
        let (status, same) = ends_with(&rt, rt.alloc(), &words, &script, streams, &written)?;
        assert!(rt; status == Status::Done && same && taken == written.len());
    }
    Ok(())
}

// Four files are fetched, of which the second is missing.
const FILES: &str =
    "loadfile a here.csv\nloadfile b missing.csv\nsearch 2\nx\n.\nsync\nloadfile c here.csv\nmerge all\ndrop a\nsearch 2\nX\n.\nsync\nloadfile a here.csv\ntables\n";

// The number of the fetch that fails, and what is written. A failed fetch is the reply to its command, which adds
// nothing; the source and the sink carry on.
const FETCHED: [(u64, &str); 6] = [
    (
        0,
        "1 loaded a columns 1 members 1 at 1\n2 refused file missing\n3 answer 1 of 1 at 1\n  1 a 1 \"c\"\n4 loaded c columns 1 members 1 at 2\n5 merged 2 parts into 2 tables at 3\n6 dropped a at 4\n7 answer 1 of 1 at 4\n  1 c 1 \"c\"\n8 loaded a columns 1 members 1 at 5\n9 tables 2 at 5\n  c columns 1 members 1\n  a columns 1 members 1\n",
    ),
    (
        1,
        "1 refused file failed\n2 refused file missing\n3 answer 0 of 1 at 0\n4 loaded c columns 1 members 1 at 1\n5 refused nothing to merge at 1\n6 refused unknown a at 1\n7 answer 1 of 1 at 1\n  1 c 1 \"c\"\n8 loaded a columns 1 members 1 at 2\n9 tables 2 at 2\n  c columns 1 members 1\n  a columns 1 members 1\n",
    ),
    (
        2,
        "1 loaded a columns 1 members 1 at 1\n2 refused file failed\n3 answer 1 of 1 at 1\n  1 a 1 \"c\"\n4 loaded c columns 1 members 1 at 2\n5 merged 2 parts into 2 tables at 3\n6 dropped a at 4\n7 answer 1 of 1 at 4\n  1 c 1 \"c\"\n8 loaded a columns 1 members 1 at 5\n9 tables 2 at 5\n  c columns 1 members 1\n  a columns 1 members 1\n",
    ),
    (
        3,
        "1 loaded a columns 1 members 1 at 1\n2 refused file missing\n3 answer 1 of 1 at 1\n  1 a 1 \"c\"\n4 refused file failed\n5 refused nothing to merge at 1\n6 dropped a at 2\n7 answer 0 of 1 at 2\n8 loaded a columns 1 members 1 at 3\n9 tables 1 at 3\n  a columns 1 members 1\n",
    ),
    (
        4,
        "1 loaded a columns 1 members 1 at 1\n2 refused file missing\n3 answer 1 of 1 at 1\n  1 a 1 \"c\"\n4 loaded c columns 1 members 1 at 2\n5 merged 2 parts into 2 tables at 3\n6 dropped a at 4\n7 answer 1 of 1 at 4\n  1 c 1 \"c\"\n8 refused file failed\n9 tables 1 at 4\n  c columns 1 members 1\n",
    ),
    (
        5,
        "1 loaded a columns 1 members 1 at 1\n2 refused file missing\n3 answer 1 of 1 at 1\n  1 a 1 \"c\"\n4 loaded c columns 1 members 1 at 2\n5 merged 2 parts into 2 tables at 3\n6 dropped a at 4\n7 answer 1 of 1 at 4\n  1 c 1 \"c\"\n8 loaded a columns 1 members 1 at 5\n9 tables 2 at 5\n  c columns 1 members 1\n  a columns 1 members 1\n",
    ),
];

#[test]
fn answers_each_failing_fetch_with_its_command(rt: HostRuntime) -> Result<(), Fail> {
    for words in WAYS {
        for (failing_fetch, written) in FETCHED {
            let streams = Streams {
                failing_fetch,
                ..SOUND
            };
            let (status, same) = ends_with(&rt, rt.alloc(), &words, FILES, streams, written)?;
            assert!(rt; status == Status::Done && same, "at fetch {failing_fetch}");
        }
    }
    Ok(())
}

//! Tests of what no clause states: that the calls succeed while there is enough memory, on small runs worked out by
//! hand.
use lake_io::{Failed, MemoryShelf, MemorySink, MemorySource, Shelf, ShelfRefused, Sink, Source};
use std::alloc::{AllocError, Global};
use std::test::Fail;

// A read into the first bytes of a room: how many, what it returns, and the room, the bytes that are left and the faults
// after it.
struct ReadCall {
    size: usize,
    given: Result<usize, Failed>,
    room: &'static str,
    left: &'static str,
    faults: u64,
}

const READS: [ReadCall; 6] = [
    ReadCall {
        size: 4,
        given: Ok(3),
        room: "abc.",
        left: "def",
        faults: 0,
    },
    ReadCall {
        size: 4,
        given: Err(Failed),
        room: "abc.",
        left: "def",
        faults: 1,
    },
    ReadCall {
        size: 2,
        given: Ok(2),
        room: "dec.",
        left: "f",
        faults: 1,
    },
    ReadCall {
        size: 0,
        given: Ok(0),
        room: "dec.",
        left: "f",
        faults: 1,
    },
    ReadCall {
        size: 4,
        given: Ok(1),
        room: "fec.",
        left: "",
        faults: 1,
    },
    ReadCall {
        size: 4,
        given: Ok(0),
        room: "fec.",
        left: "",
        faults: 1,
    },
];

// Makes a read, and returns whether it is as expected.
fn reads(source: &mut MemorySource, room: &mut [u8], call: &ReadCall) -> bool {
    if call.size > room.len() {
        return false;
    }
    let given = source.read(&mut room[..call.size]);
    given == call.given
        && *room == *call.room.as_bytes()
        && *source.left() == *call.left.as_bytes()
        && source.faults() == call.faults
}

#[test]
fn source_gives_its_bytes_in_pieces(rt: HostRuntime) -> Result<(), Fail> {
    let bytes = "abcdef".as_bytes();
    let mut source = MemorySource::new(rt.alloc(), bytes, 3, &[2])?;
    assert!(rt; *source.left() == *bytes);
    let mut room = [b'.'; 4];
    for (number, call) in READS.iter().enumerate() {
        assert!(rt; reads(&mut source, &mut room, call), "call {number}");
    }
    Ok(())
}

// A write: the bytes, what it returns, and the faults after it.
struct WriteCall {
    bytes: &'static str,
    taken: Result<usize, Failed>,
    faults: u64,
}

const WRITES: [WriteCall; 5] = [
    WriteCall {
        bytes: "abcd",
        taken: Ok(3),
        faults: 0,
    },
    WriteCall {
        bytes: "d",
        taken: Err(Failed),
        faults: 1,
    },
    WriteCall {
        bytes: "def",
        taken: Ok(2),
        faults: 1,
    },
    WriteCall {
        bytes: "f",
        taken: Err(Failed),
        faults: 2,
    },
    WriteCall {
        bytes: "",
        taken: Ok(0),
        faults: 2,
    },
];

// Makes a write, and returns whether it is as expected.
fn writes(sink: &mut MemorySink, call: &WriteCall) -> bool {
    sink.write(call.bytes.as_bytes()) == call.taken && sink.faults() == call.faults
}

#[test]
fn sink_takes_bytes_until_it_is_full(rt: HostRuntime) -> Result<(), Fail> {
    let mut sink = MemorySink::new(rt.alloc(), 5, 3, &[2])?;
    for (number, call) in WRITES.iter().enumerate() {
        assert!(rt; writes(&mut sink, call), "call {number}");
    }
    assert!(rt; *sink.written() == *"abcde".as_bytes());
    Ok(())
}

// The files of a shelf. The last one replaces the first.
const STORED: [(&str, &str); 3] = [("here", "abc"), ("other", ""), ("here", "abcd")];

// A fetch: the file and the most bytes that it may have, what it returns, and the faults after it.
struct FetchCall {
    file: &'static str,
    limit: usize,
    given: Result<&'static str, ShelfRefused>,
    faults: u64,
}

const FETCHES: [FetchCall; 5] = [
    FetchCall {
        file: "here",
        limit: 4,
        given: Ok("abcd"),
        faults: 0,
    },
    FetchCall {
        file: "here",
        limit: 3,
        given: Err(ShelfRefused::TooLong),
        faults: 0,
    },
    FetchCall {
        file: "there",
        limit: 3,
        given: Err(ShelfRefused::Missing),
        faults: 0,
    },
    FetchCall {
        file: "here",
        limit: 4,
        given: Err(ShelfRefused::Failed),
        faults: 1,
    },
    FetchCall {
        file: "other",
        limit: 0,
        given: Ok(""),
        faults: 1,
    },
];

// Makes a fetch, and returns whether it is as expected.
fn fetches(shelf: &mut MemoryShelf, alloc: Global, call: &FetchCall) -> bool {
    let fetched = match (shelf.fetch(alloc, call.file, call.limit), call.given) {
        (Ok(bytes), Ok(text)) => bytes.as_slice() == text.as_bytes(),
        (Err(refused), Err(why)) => refused == why,
        _ => false,
    };
    fetched && shelf.faults() == call.faults
}

#[test]
fn shelf_gives_what_was_added(rt: HostRuntime) -> Result<(), Fail> {
    let mut shelf = MemoryShelf::new(rt.alloc());
    for (file, text) in &STORED {
        shelf.add(file, text.as_bytes())?;
    }
    shelf.fail_at(4)?;
    for (number, call) in FETCHES.iter().enumerate() {
        assert!(rt; fetches(&mut shelf, rt.alloc(), call), "call {number}");
    }
    Ok(())
}

const SAID: [(ShelfRefused, &str); 4] = [
    (ShelfRefused::Failed, "failed"),
    (ShelfRefused::Missing, "missing"),
    (ShelfRefused::TooLong, "too long"),
    (ShelfRefused::NoMemory, "no memory"),
];

// Returns whether this is the text of a refusal.
fn says(alloc: Global, refusal: ShelfRefused, text: &str) -> Result<bool, AllocError> {
    Ok(format!(in alloc; "{refusal}")?.as_str() == text)
}

#[test]
fn refusals_say_what_they_are(rt: HostRuntime) -> Result<(), Fail> {
    assert_eq!(rt; format!(in rt.alloc(); "{Failed}")?.as_str(), "failed");
    for (refusal, text) in SAID {
        assert!(rt; says(rt.alloc(), refusal, text)?, "{text}");
    }
    Ok(())
}

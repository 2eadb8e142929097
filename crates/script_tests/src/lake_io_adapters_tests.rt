//! Tests of what the system's own streams and files do, which no clause states.
use lake_io::{FileShelf, Shelf, ShelfRefused, Sink, Source, StdSink, StdSource};
use std::alloc::{AllocError, Global};
use std::fs;
use std::test::Fail;

const FOLDER: &str = "lake_io_test";

const FILE: &str = "lake_io_test/file";

/// Returns the bytes of a file that is read in three pieces. No two pieces are alike, since 251 divides the length of
/// no piece.
fn long_bytes(alloc: Global) -> Result<Vec<u8>, AllocError> {
    let mut bytes = Vec::new(alloc);
    for i in 0..140000u32 {
        bytes.push((i % 251) as u8)?;
    }
    Ok(bytes)
}

/// A file that is not fetched: its path, the most bytes that it may have, and why.
const REFUSED: [(&str, usize, ShelfRefused); 4] = [
    (FILE, 139999, ShelfRefused::TooLong),
    ("lake_io_test/gone", 140000, ShelfRefused::Missing),
    (FOLDER, 140000, ShelfRefused::Failed),
    ("lake_io_test/file/x", 140000, ShelfRefused::Failed),
];

/// Returns whether a shelf refuses to give a file, for this reason.
fn refuses(
    shelf: &mut impl Shelf,
    alloc: Global,
    file: &str,
    limit: usize,
    why: ShelfRefused,
) -> bool {
    match shelf.fetch(alloc, file, limit) {
        Ok(_) => false,
        Err(refused) => refused == why,
    }
}

#[test]
fn file_shelf_gives_whole_files_and_refuses_the_rest(rt: HostRuntime) -> Result<(), Fail> {
    let _ = fs::remove_dir_all(&rt, FOLDER);
    fs::create_dir(&rt, FOLDER)?;
    let bytes = long_bytes(rt.alloc())?;
    fs::write(&rt, FILE, bytes.as_slice())?;
    fs::write(&rt, "lake_io_test/empty", "".as_bytes())?;
    let mut shelf = FileShelf::new(&rt);
    assert!(rt; shelf.fetch(rt.alloc(), FILE, 140000)? == bytes);
    assert!(rt; shelf.fetch(rt.alloc(), "lake_io_test/empty", 0)?.is_empty());
    for (file, limit, why) in REFUSED {
        assert!(rt; refuses(&mut shelf, rt.alloc(), file, limit, why), "{file}");
    }
    fs::remove_dir_all(&rt, FOLDER)?;
    Ok(())
}

#[test]
fn standard_input_is_read_and_ends(rt: HostRuntime) {
    // A test run has nothing on its standard input.
    let mut source = StdSource::new(rt.stdin());
    let mut room = [b'.'; 4];
    assert!(rt; source.read(&mut room) == Ok(0) && room == [b'.'; 4]);
}

#[test]
fn standard_output_takes_what_is_written(rt: HostRuntime) {
    let mut sink = StdSink::new(rt.stdout());
    assert!(rt; sink.write("a line on standard output\n".as_bytes()) == Ok(26));
    assert!(rt; sink.write("".as_bytes()) == Ok(0));
}

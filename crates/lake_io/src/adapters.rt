//! The system's own streams and files. Their contents are not known to contracts, and each error is counted. This is
//! the trusted edge, a few lines for each.
ghost use Rattle.std.specs.Prelude.{None, ◌≡◌, ◌≢◌, ◌↔◌, ◌<◌, ◌≤◌, ℕ, is_ok, IfOk, IfErr, IfSome, IsErrOf, length, vec_len, if◌then◌else◌};
ghost use Rattle.std.specs.Io.{ReadsAtMost, WritesAtMost};
ghost use Rattle.std.specs.Io.KnownBytes.{ReadConsumes, WriteAppends};
ghost use Rattle.lake_io.specs.Causes.{HasCause, one_more};
ghost use Rattle.lake_io.specs.Files.{HasFile};
ghost use Rattle.lake_io.specs.Refusals.{Refuses, is_failed};

use super::{Failed, Shelf, ShelfRefused, Sink, Source};
use std::alloc::{AllocError, Global};
use std::fs::File;
use std::io::{ErrorKind, Read, Stdin, Stdout, Write};
use std::marker::Model;
use std::rt::Files;

/// The most bytes of a file that are asked for at once: 64 KiB.
const PIECE: usize = 65536;

/// Counts a fault. A count that has reached 2^64 - 1 stays there.
fn count_fault(faults: &mut u64) -> Failed
    ensures count { faults.new ≡ one_more faults.old }
    ensures later { faults.old ≤ faults.new }
{
    *faults = faults.saturating_add(1);
    Failed
}

/// Reads from a stream once, and counts an error as a fault.
fn read_counted<R: Read>(stream: &mut R, faults: &mut u64, into: &mut [u8]) -> Result<usize, Failed>
    ensures bound { ReadsAtMost result into.new }
    ensures bytes { ReadConsumes (R.remaining stream.old) (R.remaining stream.new) result into.new }
    ensures cause { HasCause faults.old faults.new result }
    ensures count { faults.new ≡ (if is_ok result then faults.old else one_more faults.old) }
{
    match stream.read(into) {
        Ok(count) => Ok(count),
        Err(_) => Err(count_fault(faults)),
    }
}

/// Writes to a stream once, or not at all if the piece is empty. It counts as a fault an error, or that the stream
/// takes nothing.
fn write_counted<W: Write>(stream: &mut W, faults: &mut u64, piece: &[u8]) -> Result<usize, Failed>
    ensures bound { WritesAtMost result piece.now }
    ensures some { IfOk result (λ count. 0 < length piece.now → 0 < count) }
    ensures bytes { WriteAppends (W.contents stream.old) (W.contents stream.new) result piece.now }
    ensures cause { HasCause faults.old faults.new result }
    ensures count { faults.new ≡ (if is_ok result then faults.old else one_more faults.old) }
{
    if piece.is_empty() {
        return Ok(0);
    }
    match stream.write(piece) {
        Ok(0) => Err(count_fault(faults)),
        Ok(count) => Ok(count),
        Err(_) => Err(count_fault(faults)),
    }
}

/// Standard input. Its bytes are not known to contracts; its model is its count of faults.
#[derive(Drop)]
pub struct StdSource {
    stream: Stdin,
    faults: u64,
}

impl Model for StdSource {
    ghost use Rattle.std.specs.Prelude.{ℕ};

    ghost Value = { ℕ };

    ghost view = { λ s. s.faults };
}

impl StdSource {
    /// Returns a source over the stream, with no fault counted.
    pub fn new(stream: Stdin) -> StdSource
        ensures { result ≡ 0 }
    {
        StdSource { stream, faults: 0 }
    }
}

impl Source for StdSource {
    ghost left = { λ _. None };

    ghost faults = { λ s. s };

    /// Reads once. Each error of the system is a fault.
    fn read(&mut self, into: &mut [u8]) -> Result<usize, Failed>
        ensures bound { ReadsAtMost result into.new }
        ensures bytes { ReadConsumes None None result into.new }
        ensures cause { HasCause self.old self.new result }
        // what exactly it counts
        ensures state { self.new ≡ (if is_ok result then self.old else one_more self.old) }
    {
        read_counted(&mut self.stream, &mut self.faults, into)
    }
}

/// Standard output. Its bytes are not known to contracts; its model is its count of faults.
#[derive(Drop)]
pub struct StdSink {
    stream: Stdout,
    faults: u64,
}

impl Model for StdSink {
    ghost use Rattle.std.specs.Prelude.{ℕ};

    ghost Value = { ℕ };

    ghost view = { λ s. s.faults };
}

impl StdSink {
    /// Returns a sink over the stream, with no fault counted.
    pub fn new(stream: Stdout) -> StdSink
        ensures { result ≡ 0 }
    {
        StdSink { stream, faults: 0 }
    }
}

impl Sink for StdSink {
    ghost written = { λ _. None };

    ghost faults = { λ s. s };

    /// Writes once, or not at all if the piece is empty. Each error of the system is a fault, and so is a nonempty
    /// piece of which the system takes nothing.
    fn write(&mut self, piece: &[u8]) -> Result<usize, Failed>
        ensures bound { WritesAtMost result piece.now }
        ensures some { IfOk result (λ count. 0 < length piece.now → 0 < count) }
        ensures bytes { WriteAppends None None result piece.now }
        ensures cause { HasCause self.old self.new result }
        // what exactly it counts
        ensures state { self.new ≡ (if is_ok result then self.old else one_more self.old) }
    {
        write_counted(&mut self.stream, &mut self.faults, piece)
    }
}

/// The files of the system, by their paths. The files are not known to contracts; its model is its count of faults.
#[derive(Drop)]
pub struct FileShelf<'a, R> {
    rt: &'a R,
    faults: u64,
}

impl<'a, R> Model for FileShelf<'a, R> {
    ghost use Rattle.std.specs.Prelude.{ℕ};

    ghost Value = { ℕ };

    ghost view = { λ s. s.faults };
}

impl<'a, R: Files> FileShelf<'a, R> {
    /// Returns a shelf over the files that the runtime reaches, with no fault counted.
    pub fn new(rt: &'a R) -> FileShelf<'a, R>
        ensures { result ≡ 0 }
    {
        FileShelf { rt, faults: 0 }
    }
}

/// Returns room for a piece of a file, on the heap. No proof needs its exact size.
fn piece_room(alloc: Global) -> Result<Vec<u8>, AllocError>
    ensures { IfOk result (λ room. 0 < vec_len room) }
{
    vec![in alloc; 0u8; PIECE]
}

/// Reads the bytes of a file from its current position to its end, using `room` as a buffer.
///
/// # Errors
///
/// Returns `TooLong` if there are more than `most` bytes, `Failed` after an error of the system, and `NoMemory` if
/// memory runs out.
fn read_file<F: Read>(
    alloc: Global,
    file: &mut F,
    most: usize,
    room: &mut [u8],
) -> Result<Vec<u8>, ShelfRefused>
    requires { 0 < length room.old }
    ensures short { IfOk result (λ bytes. length bytes.items ≤ most) }
    ensures found { result ≢ Err ShelfRefused.Missing }
    // if it is known what the file has left
    ensures whole { IfOk result (λ bytes. IfSome (F.remaining file.old) (λ all. bytes.items ≡ all)) }
    ensures long { IsErrOf result ShelfRefused.TooLong → IfSome (F.remaining file.old) (λ all. most < length all) }
{
    let mut bytes = Vec::new(alloc);
    // Each turn adds at least one byte, and at most `most` are kept.
    'pieces: loop {
        let Ok(count) = file.read(room) else {
            return Err(ShelfRefused::Failed);
        };
        if count == 0 {
            return Ok(bytes);
        }
        if count > most - bytes.len() {
            return Err(ShelfRefused::TooLong);
        }
        if bytes.extend_from_slice(&room[..count]).is_err() {
            return Err(ShelfRefused::NoMemory);
        }
    }
}

/// Returns why a file that cannot be opened is refused.
fn open_refusal(kind: ErrorKind) -> ShelfRefused
    ensures missing { result ≡ ShelfRefused.Missing ↔ (kind ≡ ErrorKind.NotFound) }
    ensures memory { result ≡ ShelfRefused.NoMemory ↔ (kind ≡ ErrorKind.OutOfMemory) }
    ensures failed { result ≢ ShelfRefused.TooLong }
{
    match kind {
        ErrorKind::NotFound => ShelfRefused::Missing,
        ErrorKind::OutOfMemory => ShelfRefused::NoMemory,
        _ => ShelfRefused::Failed,
    }
}

/// Returns the bytes of the file at the path, at most `most` of them, or why the file is refused: by the error if the
/// system does not open it, and otherwise as [`read_file`] describes.
fn open_and_read<R: Files>(
    alloc: Global,
    rt: &R,
    path: &str,
    most: usize,
) -> Result<Vec<u8>, ShelfRefused>
    ensures { IfOk result (λ bytes. length bytes.items ≤ most) }
{
    let mut file = match File::open(rt, path) {
        Ok(file) => file,
        Err(error) => return Err(open_refusal(error.kind())),
    };
    let mut room = piece_room(alloc)?;
    read_file(alloc, &mut file, most, room.as_mut_slice())
}

impl<R: Files> Shelf for FileShelf<'_, R> {
    ghost files = { λ _. None };

    ghost faults = { λ s. s };

    /// Reads the file at the path. A path that the system does not find is `Missing`. Every other error of the system,
    /// except that memory runs out, is a fault: a folder, a path through a file, or a file that may not be read.
    fn fetch(&mut self, alloc: Global, path: &str, most: usize) -> Result<Vec<u8>, ShelfRefused>
        ensures later { self.old ≤ self.new }
        ensures file { IfOk result (λ bytes. HasFile None path.now bytes.items) }
        ensures short { IfOk result (λ bytes. length bytes.items ≤ most) }
        ensures refused { IfErr result (λ why. Refuses None path.now most self.old self.new why) }
        // what exactly it counts
        ensures state { self.new ≡ (if is_failed result then one_more self.old else self.old) }
    {
        let answer = open_and_read(alloc, self.rt, path, most);
        if let Err(ShelfRefused::Failed) = answer {
            let _ = count_fault(&mut self.faults);
        }
        answer
    }
}

//! What the program reads, writes and fetches: a source of bytes, a sink for bytes and a shelf of files, each with a
//! count of its faults; and a gate that is told of each moment of a command.
//!
//! The program uses only these traits. The objects in memory replace the system's streams and files where a run is
//! proved or tested, and contracts know all that they hold. Of the adapters over the system's own streams and files,
//! contracts know only the faults.
#![tactic(auto)]

ghost use Rattle.std.specs.Prelude.{◌≡◌, ◌<◌, ◌≤◌, ℕ, List, Option, length, IfOk, IfErr};
ghost use Rattle.std.specs.Io.{ReadsAtMost, WritesAtMost};
ghost use Rattle.std.specs.Io.KnownBytes.{ReadConsumes, WriteAppends};
ghost use Rattle.lake_io.specs.Causes.{HasCause};
ghost use Rattle.lake_io.specs.Files.{File, HasFile};
ghost use Rattle.lake_io.specs.Refusals.{Refuses};

use std::alloc::{AllocError, Global};
use thiserror::Error;

mod adapters;
mod memory_shelf;
mod memory_sink;
mod memory_source;

pub use adapters::{FileShelf, StdSink, StdSource};
pub use memory_shelf::MemoryShelf;
pub use memory_sink::MemorySink;
pub use memory_source::MemorySource;

/// A read or a write that failed. It was counted as a fault, and moved no bytes.
#[derive(Clone, Copy, Debug, PartialEq, Eq, Hash, Error)]
#[error("failed")]
pub struct Failed;

/// Why a shelf gives no file.
#[derive(Clone, Copy, Debug, PartialEq, Eq, Hash, Error)]
pub enum ShelfRefused {
    /// The shelf failed, and counted a fault.
    #[error("failed")]
    Failed,
    /// No file has the path. No fault is counted.
    #[error("missing")]
    Missing,
    /// The file has more bytes than were asked for. No fault is counted.
    #[error("too long")]
    TooLong,
    /// Memory ran out for the file's bytes.
    #[error("no memory")]
    NoMemory,
}

impl From<AllocError> for ShelfRefused {
    ghost use Rattle.std.specs.Prelude.{◌≡◌};
    ghost use Rattle.lake_io.specs.declared.ShelfRefused.TheVariants as refused;

    ghost from_gives = { λ _ e. e ≡ refused.NoMemory };

    fn from(_error: AllocError) -> ShelfRefused {
        ShelfRefused::NoMemory
    }
}

/// A source of bytes.
///
/// In contracts, `left` is the list of the bytes that it will still give, if these are known, and `faults` is the count
/// of its failures, which never falls. A count that has reached 2^64 - 1 stays there, and from then on is taken to rise
/// with each failure.
pub trait Source {
    ghost left: { Self → Option (List ℕ) };

    ghost faults: { Self → ℕ };

    /// Moves the next bytes from what is left to the front of `into`. It returns how many: at most the length of
    /// `into`, and 0 for a nonempty slice only at the end.
    ///
    /// # Errors
    ///
    /// Returns `Failed` only with a fault counted; then nothing was moved.
    fn read(&mut self, into: &mut [u8]) -> Result<usize, Failed>
        ensures bound { ReadsAtMost result into.new }
        ensures bytes { ReadConsumes (left self.old) (left self.new) result into.new }
        ensures cause { HasCause (faults self.old) (faults self.new) result };
}

/// A sink for bytes.
///
/// In contracts, `written` is the list of the bytes that it has taken, if these are known, and `faults` is the count of
/// its failures, as for a [`Source`].
pub trait Sink {
    ghost written: { Self → Option (List ℕ) };

    ghost faults: { Self → ℕ };

    /// Appends the first bytes of `piece` to what is written. It returns how many: at least 1 if the piece is not
    /// empty.
    ///
    /// # Errors
    ///
    /// Returns `Failed` only with a fault counted; then nothing was appended. A sink that takes nothing of a nonempty
    /// piece fails.
    fn write(&mut self, piece: &[u8]) -> Result<usize, Failed>
        ensures bound { WritesAtMost result piece.now }
        ensures some { IfOk result (λ count. 0 < length piece.now → 0 < count) }
        ensures bytes { WriteAppends (written self.old) (written self.new) result piece.now }
        ensures cause { HasCause (faults self.old) (faults self.new) result };
}

/// A shelf from which files are fetched.
///
/// In contracts, `files` is the list of its files, if these are known, and `faults` is the count of its failures, as
/// for a [`Source`]. A fetch changes no file, whatever its result.
pub trait Shelf {
    ghost files: { Self → Option (List File) };

    ghost faults: { Self → ℕ };

    /// Returns the bytes of the file at `path`, at most `most` of them.
    ///
    /// # Errors
    ///
    /// Returns `Failed` only with a fault counted. `Missing` and `TooLong` count no fault; if the files are known,
    /// `Missing` is returned only if no file has the path, and `TooLong` only if the file has more than `most` bytes.
    /// Returns `NoMemory` if memory runs out.
    fn fetch(&mut self, alloc: Global, path: &str, most: usize) -> Result<Vec<u8>, ShelfRefused>
        ensures files { files self.new ≡ files self.old }
        ensures later { faults self.old ≤ faults self.new }
        ensures file { IfOk result (λ bytes. HasFile (files self.old) path.now bytes.items) }
        ensures short { IfOk result (λ bytes. length bytes.items ≤ most) }
        ensures refused { IfErr result (λ why. Refuses (files self.old) path.now most (faults self.old) (faults self.new) why) };
}

/// A moment of a command.
#[derive(Clone, Copy, Debug, PartialEq, Eq, Hash)]
pub enum Point {
    /// Before the command first calls the lake.
    Begin,
    /// After the lake is pinned, before the command answers from the pin or swaps parts of it.
    Pinned,
    /// After the command's reply is made.
    Ended,
}

/// A gate that is told of each moment of a command. No lock is held during the call.
pub trait Gate {
    /// Tells the gate that the command with the number `command`, counted from 1 in the script, has reached `point` on
    /// `lane`. Lane 0 is the merger's, which counts its own commands.
    fn at(&self, lane: u32, command: u64, point: Point);
}

/// A gate that does nothing.
#[derive(Clone, Copy, Debug)]
pub struct NoGate;

impl Gate for NoGate {
    fn at(&self, _lane: u32, _command: u64, _point: Point) {}
}

//! The fetch of a file.
ghost use Rattle.std.specs.Prelude.{◌≡◌, ◌≤◌, IfErr, IfOk};
ghost use Rattle.commands.specs.Tasks.{file_of};
ghost use Rattle.script_text.specs.Outcomes.{CameOf};

use crate::refused::ScriptEnd;
use commands::{Body, FileBody};
use lake_io::{Shelf, ShelfRefused};
use std::alloc::Global;

/// The most bytes that a file may have: 64 MiB.
const MOST_FILE_BYTES: usize = 67108864;

/// Fetches the file at a path, of at most 67,108,864 bytes, and returns its bytes, or why there are none.
///
/// # Errors
///
/// Returns `Err(ScriptEnd::NoMemory)` if memory runs out; there is no other error.
pub fn fetch_file<F: Shelf>(alloc: Global, shelf: &mut F, path: &str) -> Result<FileBody, ScriptEnd>
    ensures came { IfOk result (λ file. CameOf (F.files shelf.old) (F.faults shelf.old) (F.faults shelf.new) path.now (file_of file)) }
    ensures refused { IfErr result (λ e. e ≡ ScriptEnd.NoMemory) }
    ensures later { F.faults shelf.old ≤ F.faults shelf.new }
    ensures files { F.files shelf.new ≡ F.files shelf.old }
{
    match shelf.fetch(alloc, path, MOST_FILE_BYTES) {
        Ok(bytes) => match Body::new(bytes) {
            Some(body) => Ok(FileBody::Bytes(body)),
            None => unreachable!(),
        },
        Err(ShelfRefused::Failed) => Ok(FileBody::Failed),
        Err(ShelfRefused::Missing) => Ok(FileBody::Missing),
        Err(ShelfRefused::TooLong) => Ok(FileBody::TooLong),
        Err(ShelfRefused::NoMemory) => Err(ScriptEnd::NoMemory),
    }
}

//! A shelf in memory, which gives the files that were added, and fails at chosen calls.
ghost use Rattle.std.specs.Prelude.{◌≡◌, ◌<◌, ◌≤◌, ◌++◌, ◌∷◌, ℕ, List, [], Option, Some, None, map, length, not, is_ok, option_map, MatchOption, IfOk, IfErr, IsOkUnless, IsErrOf, OnOk, OnErr, string_bytes};
ghost use Rattle.lake_io.specs.Files.{File, HasFile, file_at, put_file};
ghost use Rattle.lake_io.specs.Refusals.{Refuses};
ghost use Rattle.lake_io.specs.Memory.{ShelfState, fetch_refusal, after_fetch};
ghost use Rattle.lake_io.specs.Seen.{seen_file};

use super::{Shelf, ShelfRefused};
use no_memory::NoMemory;
use std::alloc::Global;
use std::marker::Model;

/// A stored file: its path and a copy of its bytes.
#[derive(Drop)]
struct StoredFile {
    path: String,
    bytes: Vec<u8>,
}

/// A shelf in memory. Contracts know its files: those that were added, one for each path.
#[derive(Drop)]
pub struct MemoryShelf {
    alloc: Global,
    files: Vec<StoredFile>,
    failing: Vec<u64>,
    calls: u64,
    faults: u64,
}

impl Model for MemoryShelf {
    ghost use Rattle.std.specs.Prelude.{map};
    ghost use Rattle.lake_io.specs.Memory.{ShelfState};

    ghost Value = { ShelfState };

    ghost use Rattle.lake_io.specs.Seen.{seen_file};

    ghost view = { λ s. record { files = map seen_file s.files.items; failing = s.failing.items; calls = s.calls; faults = s.faults } };
}

/// Returns the bytes of the file at the path. It walks over the files once.
fn find<'a>(files: &'a [StoredFile], path: &str) -> Option<&'a [u8]>
    ensures { option_map (λ bytes. bytes.now) result ≡ file_at (map seen_file files.now) path.now }
{
    for file in files {
        if file.path.as_str() == path {
            return Some(file.bytes.as_slice());
        }
    }
    None
}

/// Puts a file with this path among the files, in the place of one that has the path. It walks over the files once.
fn put(files: &mut Vec<StoredFile>, path: &str, file: StoredFile) -> Result<(), NoMemory>
    requires { string_bytes file.path ≡ path.now }
    ensures ok { OnOk result (map seen_file files.new.items ≡ put_file (map seen_file files.old.items) path.now file.bytes.items) }
    ensures err { OnErr result (files.new.items ≡ files.old.items) }
{
    for i in 0..files.len() {
        if files[i].path.as_str() == path {
            files[i] = file;
            return Ok(());
        }
    }
    files.push(file)?;
    Ok(())
}

impl MemoryShelf {
    /// Returns a shelf without files, none of whose calls is to fail.
    pub fn new(alloc: Global) -> MemoryShelf
        ensures { result ≡ record { files = []; failing = []; calls = 0; faults = 0 } }
    {
        MemoryShelf {
            alloc,
            files: Vec::new(alloc),
            failing: Vec::new(alloc),
            calls: 0,
            faults: 0,
        }
    }

    /// Adds a file with a copy of `bytes`, in the place of one that has the path. If memory runs out the shelf is
    /// unchanged.
    pub fn add(&mut self, path: &str, bytes: &[u8]) -> Result<(), NoMemory>
        ensures ok { OnOk result (self.new ≡ record self.old { files = put_file self.old.files path.now bytes.now }) }
        ensures err { OnErr result (self.new ≡ self.old) }
    {
        let alloc = self.alloc;
        let name = String::from_str(alloc, path)?;
        let bytes = Vec::from_slice(alloc, bytes)?;
        put(&mut self.files, path, StoredFile { path: name, bytes })
    }

    /// Makes the call of `fetch` with this number fail, counted from 1 since the shelf was made. If memory runs out the
    /// shelf is unchanged.
    pub fn fail_at(&mut self, call: u64) -> Result<(), NoMemory>
        ensures ok { OnOk result (self.new ≡ record self.old { failing = self.old.failing ++ call ∷ [] }) }
        ensures err { OnErr result (self.new ≡ self.old) }
    {
        self.failing.push(call)?;
        Ok(())
    }

    /// Returns how many of its calls have failed.
    pub fn faults(&self) -> u64
        ensures { result ≡ self.now.faults }
    {
        self.faults
    }
}

impl Shelf for MemoryShelf {
    ghost files = { λ s. Some s.files };

    ghost faults = { λ s. s.faults };

    fn fetch(&mut self, alloc: Global, path: &str, most: usize) -> Result<Vec<u8>, ShelfRefused>
        ensures files { Some self.new.files ≡ Some self.old.files }
        ensures later { self.old.faults ≤ self.new.faults }
        ensures file { IfOk result (λ bytes. HasFile (Some self.old.files) path.now bytes.items) }
        ensures short { IfOk result (λ bytes. length bytes.items ≤ most) }
        ensures refused { IfErr result (λ why. Refuses (Some self.old.files) path.now most self.old.faults self.new.faults why) }
        // what exactly it does
        ensures answer { MatchOption (fetch_refusal self.old path.now most) (IsOkUnless result ShelfRefused.NoMemory) (λ why. IsErrOf result why) }
        ensures state { self.new ≡ after_fetch self.old }
    {
        self.calls = self.calls.saturating_add(1);
        if self.failing.contains(&self.calls) {
            self.faults = self.faults.saturating_add(1);
            return Err(ShelfRefused::Failed);
        }
        let Some(bytes) = find(self.files.as_slice(), path) else {
            return Err(ShelfRefused::Missing);
        };
        if bytes.len() > most {
            return Err(ShelfRefused::TooLong);
        }
        Ok(Vec::from_slice(alloc, bytes)?)
    }
}

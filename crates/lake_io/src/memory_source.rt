//! A source in memory, which gives the bytes that it was made with, and fails at chosen calls.
ghost use Rattle.std.specs.Prelude.{◌≡◌, ◌<◌, ℕ, List, Option, Some, length, take, not, is_ok, IfOk, IfErr};
ghost use Rattle.std.specs.Io.{ReadsAtMost};
ghost use Rattle.std.specs.Io.KnownBytes.{ReadConsumes};
ghost use Rattle.lake_io.specs.Causes.{HasCause};
ghost use Rattle.lake_io.specs.Memory.{SourceState, read_fails, read_count, after_read};

use super::{Failed, Source};
use no_memory::NoMemory;
use std::alloc::Global;
use std::marker::Model;

/// A source in memory. Contracts know the bytes left.
#[derive(Drop)]
pub struct MemorySource {
    bytes: Vec<u8>,
    position: usize,
    piece: usize,
    failing: Vec<u64>,
    calls: u64,
    faults: u64,
}

impl Model for MemorySource {
    ghost use Rattle.std.specs.Prelude.{◌<◌, ◌≤◌, drop, length};
    ghost use Rattle.lake_io.specs.Memory.{SourceState};

    ghost Value = { SourceState };

    ghost view = { λ s. record { left = drop s.position s.bytes.items; piece = s.piece; failing = s.failing.items; calls = s.calls; faults = s.faults } };

    ghost invariant = { λ s. (s.position ≤ length s.bytes.items) × (0 < s.piece) };
}

impl MemorySource {
    /// Returns a source of a copy of `bytes`, which gives at most `piece` bytes a call. The calls of `read` whose
    /// numbers, counted from 1, are in `failing` fail.
    pub fn new(
        alloc: Global,
        bytes: &[u8],
        piece: usize,
        failing: &[u64],
    ) -> Result<MemorySource, NoMemory>
        requires { 0 < piece }
        ensures { IfOk result (λ s. s ≡ record { left = bytes.now; piece = piece; failing = failing.now; calls = 0; faults = 0 }) }
    {
        let bytes = Vec::from_slice(alloc, bytes)?;
        let failing = Vec::from_slice(alloc, failing)?;
        Ok(MemorySource {
            bytes,
            position: 0,
            piece,
            failing,
            calls: 0,
            faults: 0,
        })
    }

    /// Returns the bytes that it has not given yet.
    pub fn left(&self) -> &[u8]
        ensures { result.now ≡ self.now.left }
    {
        &self.bytes.as_slice()[self.position..]
    }

    /// Returns how many of its calls have failed.
    pub fn faults(&self) -> u64
        ensures { result ≡ self.now.faults }
    {
        self.faults
    }
}

impl Source for MemorySource {
    ghost left = { λ s. Some s.left };

    ghost faults = { λ s. s.faults };

    fn read(&mut self, into: &mut [u8]) -> Result<usize, Failed>
        ensures bound { ReadsAtMost result into.new }
        ensures bytes { ReadConsumes (Some self.old.left) (Some self.new.left) result into.new }
        ensures cause { HasCause self.old.faults self.new.faults result }
        // what exactly it does
        ensures answer { is_ok result ≡ not (read_fails self.old) }
        ensures count { IfOk result (λ n. n ≡ read_count self.old (length into.old)) }
        ensures state { self.new ≡ after_read self.old (length into.old) }
    {
        self.calls = self.calls.saturating_add(1);
        if self.failing.contains(&self.calls) {
            self.faults = self.faults.saturating_add(1);
            return Err(Failed);
        }
        let rest = &self.bytes.as_slice()[self.position..];
        let count = self.piece.min(into.len()).min(rest.len());
        into[..count].copy_from_slice(&rest[..count]);
        self.position += count;
        Ok(count)
    }
}

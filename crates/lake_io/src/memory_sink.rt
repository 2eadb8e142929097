//! A sink in memory, which keeps what it takes, and fails at chosen calls or when it is full.
ghost use Rattle.std.specs.Prelude.{◌≡◌, ◌<◌, ◌≤◌, ℕ, List, [], Option, Some, length, not, is_ok, IfOk, IfErr};
ghost use Rattle.std.specs.Io.{WritesAtMost};
ghost use Rattle.std.specs.Io.KnownBytes.{WriteAppends};
ghost use Rattle.lake_io.specs.Causes.{HasCause};
ghost use Rattle.lake_io.specs.Memory.{SinkState, write_fails, write_count, after_write};

use super::{Failed, Sink};
use no_memory::NoMemory;
use std::alloc::Global;
use std::marker::Model;

/// A sink in memory. Contracts know the bytes written.
#[derive(Drop)]
pub struct MemorySink {
    written: Vec<u8>,
    capacity: usize,
    piece: usize,
    failing: Vec<u64>,
    calls: u64,
    faults: u64,
}

impl Model for MemorySink {
    ghost use Rattle.std.specs.Prelude.{◌<◌, ◌≤◌, vec_len, vec_capacity};
    ghost use Rattle.lake_io.specs.Memory.{SinkState};

    ghost Value = { SinkState };

    ghost view = { λ s. record { written = s.written.items; capacity = s.capacity; piece = s.piece; failing = s.failing.items; calls = s.calls; faults = s.faults } };

    ghost invariant = { λ s. (vec_len s.written ≤ s.capacity) × (s.capacity ≤ vec_capacity s.written) × (0 < s.piece) };
}

impl MemorySink {
    /// Returns a sink with nothing written, which takes at most `piece` bytes a call and `capacity` bytes in all. The
    /// calls of `write` whose numbers, counted from 1, are in `failing` fail. All its memory is taken here.
    pub fn new(
        alloc: Global,
        capacity: usize,
        piece: usize,
        failing: &[u64],
    ) -> Result<MemorySink, NoMemory>
        requires { 0 < piece }
        ensures { IfOk result (λ s. s ≡ record { written = []; capacity = capacity; piece = piece; failing = failing.now; calls = 0; faults = 0 }) }
    {
        let written = Vec::with_capacity(alloc, capacity)?;
        let failing = Vec::from_slice(alloc, failing)?;
        Ok(MemorySink {
            written,
            capacity,
            piece,
            failing,
            calls: 0,
            faults: 0,
        })
    }

    /// Returns the bytes that it has taken.
    pub fn written(&self) -> &[u8]
        ensures { result.now ≡ self.now.written }
    {
        self.written.as_slice()
    }

    /// Returns how many of its calls have failed.
    pub fn faults(&self) -> u64
        ensures { result ≡ self.now.faults }
    {
        self.faults
    }
}

impl Sink for MemorySink {
    ghost written = { λ s. Some s.written };

    ghost faults = { λ s. s.faults };

    fn write(&mut self, piece: &[u8]) -> Result<usize, Failed>
        ensures bound { WritesAtMost result piece.now }
        ensures some { IfOk result (λ count. 0 < length piece.now → 0 < count) }
        ensures bytes { WriteAppends (Some self.old.written) (Some self.new.written) result piece.now }
        ensures cause { HasCause self.old.faults self.new.faults result }
        // what exactly it does
        ensures answer { is_ok result ≡ not (write_fails self.old (length piece.now)) }
        ensures count { IfOk result (λ n. n ≡ write_count self.old (length piece.now)) }
        ensures state { self.new ≡ after_write self.old piece.now }
    {
        self.calls = self.calls.saturating_add(1);
        let room = self.capacity - self.written.len();
        if self.failing.contains(&self.calls) || (piece.len() != 0 && room == 0) {
            self.faults = self.faults.saturating_add(1);
            return Err(Failed);
        }
        let count = self.piece.min(piece.len()).min(room);
        self.written.extend_from_slice(&piece[..count]).unwrap();
        Ok(count)
    }
}

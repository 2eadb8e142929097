//! The bytes at hand: they were read from a source, and have not been used yet.
ghost use Rattle.std.specs.Prelude.{◌≡◌, ◌<◌, ◌≤◌, ◌+◌, ◌++◌, ◌⊎◌, Err, IfErr, IfNone, IfOk, IfSome, OnErr, OnOk, [], drop, length, take, vec_len};
ghost use Rattle.std.specs.Io.KnownBytes.{Consumes, IsAtEnd, Keeps};
ghost use Rattle.script_model.specs.Words.{NoFeed};
ghost use Rattle.lake_io.specs.Causes.{Rose};
ghost use Rattle.script_text.specs.Inputs.{Came, EndsLine};

use crate::refused::ScriptEnd;
use lake_io::Source;
use memchr::memchr;
use no_memory::NoMemory;
use std::alloc::Global;
use std::marker::Model;

/// The longest buffer that is kept once its lines have been used: 1 MiB, which is many pieces.
const MOST_KEPT: usize = 1048576;

/// The bytes that were read from a source and have not been used yet. Its model is the list of these bytes.
#[derive(Drop)]
pub(crate) struct Input {
    /// The buffer. What is added to it is zeroed once.
    bytes: Vec<u8>,
    /// Where the bytes at hand begin, and where they end.
    start: usize,
    filled: usize,
    /// How many of the bytes at hand are known to have no line feed.
    searched: usize,
}

impl Model for Input {
    ghost use Rattle.std.specs.Prelude.{◌-◌, List, ℕ, drop, take};
    ghost use Rattle.script_text.specs.Inputs.{IsHeld};

    ghost Value = { List ℕ };

    ghost view = { λ i. take (i.filled - i.start) (drop i.start i.bytes.items) };

    ghost invariant = { λ i. IsHeld i.start i.filled i.searched i.bytes.items };
}

impl Input {
    // Returns an input without bytes.
    pub(crate) fn new(alloc: Global) -> Input
        ensures { result ≡ [] }
    {
        Input {
            bytes: Vec::new(alloc),
            start: 0,
            filled: 0,
            searched: 0,
        }
    }

    // Returns the bytes at hand.
    pub(crate) fn held(&self) -> &[u8]
        ensures { result.now ≡ self.now }
    {
        &self.bytes.as_slice()[self.start..self.filled]
    }

    // Returns where the first line ends that lies whole in the first `most` bytes at hand.
    pub(crate) fn find_line(&mut self, most: usize) -> Option<usize>
        ensures same { self.new ≡ self.old }
        ensures found { IfSome result (λ at. EndsLine self.old at × (at < most)) }
        ensures none { IfNone result (NoFeed (take most self.old)) }
    {
        let held = self.held();
        let end = held.len().min(most);
        let from = self.searched.min(end);
        let found = first_feed(&held[..end], from);
        if found.is_none() {
            self.searched = end;
        }
        found
    }

    // Drops the first `count` bytes, which have been used. If a long line was among them, its room is given back at
    // once: a batch may be answered before the next bytes are asked for.
    pub(crate) fn use_up(&mut self, count: usize)
        requires { count ≤ length self.old }
        ensures { self.new ≡ drop count self.old }
    {
        self.start += count;
        self.searched = 0;
        self.give_back();
    }

    // Gives back the room that the bytes at hand do not need, if the buffer is long. They are few then, fewer than were
    // read at once, since a line among the bytes that were read last has been used.
    fn give_back(&mut self)
        ensures { self.new ≡ self.old }
    {
        if self.bytes.len() <= MOST_KEPT {
            return;
        }
        self.move_to_front();
        self.bytes.truncate(self.filled);
        self.bytes.shrink_to_fit();
    }

    // Reads once from the source, at most `most` bytes. It returns how many bytes the source gave, 0 only at its end.
    pub(crate) fn read<S: Source>(
        &mut self,
        source: &mut S,
        most: usize,
    ) -> Result<usize, ScriptEnd>
        requires some { 0 < most }
        requires few { most ≤ 65536 }
        ensures came { IfOk result (λ count. Came (S.left source.old) (S.left source.new) self.old self.new count) }
        ensures within { IfOk result (λ count. count ≤ most) }
        ensures kept { OnErr result (Keeps (S.left source.old) (S.left source.new) × (self.new ≡ self.old)) }
        ensures read_fault { result ≡ Err ScriptEnd.ReadFault → Rose (S.faults source.old) (S.faults source.new) }
        ensures refused { IfErr result (λ e. (e ≡ ScriptEnd.ReadFault) ⊎ (e ≡ ScriptEnd.NoMemory)) }
        ensures later { S.faults source.old ≤ S.faults source.new }
    {
        self.move_for(most);
        lengthen(&mut self.bytes, self.filled, most)?;
        let count = read_behind(source, self.bytes.as_mut_slice(), self.filled, most)?;
        self.filled += count;
        Ok(count)
    }

    // Moves the bytes at hand to the front if there is no room for `more` bytes after them.
    fn move_for(&mut self, more: usize)
        ensures { self.new ≡ self.old }
    {
        if self.start == self.filled {
            self.start = 0;
            self.filled = 0;
        }
        if self.start == 0 || self.bytes.len() - self.filled >= more {
            return;
        }
        self.move_to_front();
    }

    // Moves the bytes at hand to the front of the buffer.
    fn move_to_front(&mut self)
        ensures { self.new ≡ self.old }
    {
        self.bytes.copy_within(self.start..self.filled, 0);
        self.filled -= self.start;
        self.start = 0;
    }
}

// Makes room for `more` bytes after the first `filled`.
fn lengthen(bytes: &mut Vec<u8>, filled: usize, more: usize) -> Result<(), NoMemory>
    requires filled { filled ≤ vec_len bytes.old }
    requires few { more ≤ 65536 }
    ensures same { take filled bytes.new.items ≡ take filled bytes.old.items }
    ensures filled { filled ≤ vec_len bytes.new }
    ensures room { OnOk result (filled + more ≤ vec_len bytes.new) }
{
    if bytes.len() - filled >= more {
        return Ok(());
    }
    let len = bytes.len();
    let longer = len.saturating_add(len / 2).max(filled + more);
    bytes.reserve_exact(longer - len)?;
    bytes.resize(longer, 0)?;
    Ok(())
}

// Reads once from the source, at most `most` bytes, into the place after the first `filled`.
fn read_behind<S: Source>(
    source: &mut S,
    bytes: &mut [u8],
    filled: usize,
    most: usize,
) -> Result<usize, ScriptEnd>
    requires some { 0 < most }
    requires room { filled + most ≤ length bytes.old }
    ensures same { take filled bytes.new ≡ take filled bytes.old }
    ensures size { length bytes.new ≡ length bytes.old }
    ensures gave { IfOk result (λ count. Consumes (S.left source.old) (S.left source.new) (take count (drop filled bytes.new))) }
    ensures end { IfOk result (λ count. count ≡ 0 → IsAtEnd (S.left source.new)) }
    ensures within { IfOk result (λ count. count ≤ most) }
    ensures kept { OnErr result (Keeps (S.left source.old) (S.left source.new)) }
    ensures read_fault { OnErr result (Rose (S.faults source.old) (S.faults source.new)) }
    ensures refused { IfErr result (λ e. e ≡ ScriptEnd.ReadFault) }
    ensures later { S.faults source.old ≤ S.faults source.new }
{
    match source.read(&mut bytes[filled..filled + most]) {
        Ok(count) => Ok(count),
        Err(_) => Err(ScriptEnd::ReadFault),
    }
}

// Returns where the first line feed is. The first `from` bytes have none.
fn first_feed(text: &[u8], from: usize) -> Option<usize>
    requires within { from ≤ length text.now }
    requires searched { NoFeed (take from text.now) }
    ensures found { IfSome result (EndsLine text.now) }
    ensures none { IfNone result (NoFeed text.now) }
{
    let at = memchr(b'\n', &text[from..])?;
    Some(from + at)
}

//! Texts in one region. They hold the keys of columns and queries, and the names of columns.
ghost use Rattle.std.specs.Prelude.{◌≡◌, ◌<◌, ◌≤◌, ◌+◌, ◌^◌, ◌++◌, ◌∷◌, [], drop, get_or, length, map, string_bytes, sum_by, take, IfNone, IfOk, IfSome, OnErr, OnOk};
ghost use Rattle.column_set.specs.Sorted.{unmarked};

use no_memory::NoMemory;
use std::alloc::Global;
use std::marker::Model;
use text_region::{Region, Span};

/// Fewer than 2^32 texts, one after another in one region. Its model is the list of the texts.
#[derive(Drop)]
pub struct Texts {
    region: Region,
    spans: Vec<Span>,
}

impl Model for Texts {
    ghost use Rattle.std.specs.Prelude.{List, ℕ, map};
    ghost use Rattle.text_region.specs.Spans.{text_at};
    ghost use Rattle.column_set.specs.Lists.{AreTexts};

    ghost Value = { List (List ℕ) };

    ghost view = { λ t. map (text_at t.region) t.spans.items };

    ghost invariant = { λ t. AreTexts t.region t.spans.items };
}

impl Texts {
    /// Returns no texts, with room for the given number of texts and for the given number of bytes in all of them.
    pub fn with_room(alloc: Global, texts: usize, bytes: usize) -> Result<Texts, NoMemory>
        ensures { IfOk result (λ texts. texts ≡ []) }
    {
        let region = Region::new(alloc, bytes)?;
        let spans = Vec::with_capacity(alloc, texts)?;
        Ok(Texts { region, spans })
    }

    /// Returns these texts, with no spare capacity.
    pub fn of_strings(alloc: Global, strings: &[String]) -> Result<Texts, NoMemory>
        ensures { IfOk result (λ texts. texts ≡ map string_bytes strings.now) }
    {
        let Some(bytes) = byte_count(strings) else {
            return Err(NoMemory);
        };
        let mut texts = Texts::with_room(alloc, strings.len(), bytes as usize)?;
        texts.push_all(strings)?;
        Ok(texts)
    }

    /// Returns the number of texts.
    pub fn len(&self) -> u32
        ensures value { result ≡ length self.now }
        ensures few { length self.now < 2 ^ 32 }
    {
        self.spans.len() as u32
    }

    /// Returns a text by its index, from 0, or an empty text past the last.
    pub fn text(&self, i: u32) -> &str
        ensures { result.now ≡ get_or self.now i [] }
    {
        match self.spans.get(i as usize) {
            Some(span) => self.region.text(*span),
            None => "",
        }
    }

    /// Returns a text by its index, from 0, among the texts from index `from` on, or an empty text past the last.
    pub fn text_behind(&self, from: u32, i: u32) -> &str
        ensures { result.now ≡ get_or (drop from self.now) i [] }
    {
        match self.spans.get(from as usize + i as usize) {
            Some(span) => self.region.text(*span),
            None => "",
        }
    }

    /// Appends a text, and takes more memory if the room made so far does not suffice. Returns `Err(NoMemory)` if
    /// memory runs out, and also if there would be more than 2^32 - 1 texts or bytes; the texts are then unchanged.
    pub fn push(&mut self, text: &str) -> Result<(), NoMemory>
        ensures added { OnOk result (self.new ≡ self.old ++ text.now ∷ []) }
        ensures refused { OnErr result (self.new ≡ self.old) }
    {
        if self.spans.len() >= u32::MAX as usize {
            return Err(NoMemory);
        }
        self.region.reserve(text.len())?;
        let span = self.region.put(text);
        self.spans.push(span)?;
        Ok(())
    }

    /// Appends the text of a buffer, which is then empty. A text that is longer than all texts so far, and than the
    /// room made so far, is not copied: its memory is taken over. Returns `Err(NoMemory)` as `push` does; the texts are
    /// then unchanged.
    pub fn push_buffer(&mut self, text: &mut String) -> Result<(), NoMemory>
        ensures added { OnOk result (self.new ≡ self.old ++ string_bytes text.old ∷ []) }
        ensures empty { OnOk result (string_bytes text.new ≡ []) }
        ensures refused { OnErr result (self.new ≡ self.old) }
    {
        if self.spans.len() >= u32::MAX as usize {
            return Err(NoMemory);
        }
        let span = self.region.put_buffer(text)?;
        self.spans.push(span)?;
        Ok(())
    }

    /// Appends these texts.
    pub fn push_all(&mut self, strings: &[String]) -> Result<(), NoMemory>
        ensures { OnOk result (self.new ≡ self.old ++ map string_bytes strings.now) }
    {
        for string in strings {
            self.push(string.as_str())?;
        }
        Ok(())
    }

    /// Releases the spare capacity.
    pub fn shrink_to_fit(&mut self)
        ensures { self.new ≡ self.old }
    {
        self.region.shrink_to_fit();
        self.spans.shrink_to_fit();
    }

    /// Removes the marked texts among those from index `from` on; there is one mark for each of these. The bytes of the
    /// removed texts stay in the region.
    pub fn leave_out(&mut self, from: u32, marks: &[bool])
        requires { from + length marks.now ≡ length self.old }
        ensures { self.new ≡ take from self.old ++ unmarked marks.now (drop from self.old) }
    {
        keep_unmarked(&mut self.spans, from as usize, marks);
    }

    /// Returns the number of bytes in all texts together, or `None` only if it is 2^64 or more.
    pub fn byte_count(&self) -> Option<u64>
        ensures count { IfSome result (λ count. count ≡ sum_by length self.now) }
        ensures too_many { IfNone result (2 ^ 64 ≤ sum_by length self.now) }
    {
        let mut count = 0u64;
        for i in 0..self.len() {
            count = count.checked_add(self.text(i).len() as u64)?;
        }
        Some(count)
    }
}

/// Returns the number of bytes in all strings together, or `None` only if it is 2^64 or more.
pub fn byte_count(strings: &[String]) -> Option<u64>
    ensures count { IfSome result (λ count. count ≡ sum_by (λ string. length (string_bytes string)) strings.now) }
    ensures too_many { IfNone result (2 ^ 64 ≤ sum_by (λ string. length (string_bytes string)) strings.now) }
{
    let mut count = 0u64;
    for string in strings {
        count = count.checked_add(string.len() as u64)?;
    }
    Some(count)
}

// Removes the marked spans among those from index `from` on; there is one mark for each of these.
fn keep_unmarked(spans: &mut Vec<Span>, from: usize, marks: &[bool])
    requires { from + length marks.now ≡ length spans.old.items }
    ensures { spans.new.items ≡ take from spans.old.items ++ unmarked marks.now (drop from spans.old.items) }
{
    let mut kept = from;
    for (i, mark) in marks.iter().enumerate() {
        if !*mark {
            spans[kept] = spans[from + i];
            kept += 1;
        }
    }
    spans.truncate(kept);
}

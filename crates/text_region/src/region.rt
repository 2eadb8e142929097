//! The region and its spans.
ghost use Rattle.std.specs.Prelude.{◌≡◌, ◌≤◌, ◌+◌, ◌++◌, [], length, string_bytes, IfOk, IsOk, OnErr, OnOk};
ghost use Rattle.text_region.specs.Spans.{IsSpan, start_of, text_at, KeepsSpans};

use no_memory::NoMemory;
use std::alloc::Global;
use std::marker::Model;
use std::mem;

/// Where a text is in its region: 8 bytes, which mean nothing without the region that returned them.
#[derive(Clone, Copy, Debug, PartialEq, Eq)]
pub struct Span {
    /// The number of bytes in the region before the text.
    start: u32,
    /// The number of bytes in the text.
    len: u32,
}

/// Texts one after another in memory of their own, and how many more bytes fit.
#[derive(Drop)]
pub struct Region {
    text: String,
    spare: u32,
}

impl Model for Region {
    ghost use Rattle.std.specs.Prelude.{◌≤◌, ◌<◌, ◌+◌, ◌^◌, string_bytes, string_len, string_capacity};
    ghost use Rattle.text_region.specs.Written.{Written, written};

    ghost Value = { Written };

    ghost view = { λ r. written (string_bytes r.text) r.spare };

    ghost invariant = { λ r. (string_len r.text + r.spare ≤ string_capacity r.text) × (string_len r.text + r.spare < 2 ^ 32) };
}

impl Region {
    /// Returns an empty region with room for `bytes` bytes, or `Err(NoMemory)` if memory runs out. With 0 bytes it
    /// never fails. More than 2^32 - 1 bytes, which no span can count, are also refused with `Err(NoMemory)`.
    pub fn new(alloc: Global, bytes: usize) -> Result<Region, NoMemory>
        ensures empty { IfOk result (λ region. region.bytes ≡ []) }
        ensures spare { IfOk result (λ region. region.spare ≡ bytes) }
        ensures succeeds { bytes ≡ 0 → IsOk result }
    {
        let Ok(spare) = u32::try_from(bytes) else {
            return Err(NoMemory);
        };
        Ok(Region {
            text: String::with_capacity(alloc, bytes)?,
            spare,
        })
    }

    /// Returns how many more bytes of text can be put, below 2^32.
    pub fn spare(&self) -> usize
        ensures { result ≡ self.now.spare }
    {
        self.spare as usize
    }

    /// Makes room for at least `bytes` more bytes, or for more than that if the region has to grow. Returns
    /// `Err(NoMemory)` if memory runs out, and also if the region would have more than 2^32 - 1 bytes; the region is
    /// then unchanged.
    pub fn reserve(&mut self, bytes: usize) -> Result<(), NoMemory>
        ensures bytes { self.new.bytes ≡ self.old.bytes }
        ensures spare { OnOk result (bytes ≤ self.new.spare) }
        ensures refused { OnErr result (self.new ≡ self.old) }
        ensures kept { KeepsSpans self.old self.new }
    {
        if bytes <= self.spare() {
            return Ok(());
        }
        let len = self.text.as_str().len();
        let most = u32::MAX as usize - len;
        if bytes > most {
            return Err(NoMemory);
        }
        self.text.reserve(bytes)?;
        self.spare = (self.text.capacity() - len).min(most) as u32;
        Ok(())
    }

    /// Appends a text, and returns its span. It neither allocates nor fails, and the spans that the region returned
    /// before keep their texts.
    pub fn put(&mut self, text: &str) -> Span
        requires { length text.now ≤ self.old.spare }
        ensures bytes { self.new.bytes ≡ self.old.bytes ++ text.now }
        ensures spare { self.new.spare + length text.now ≡ self.old.spare }
        ensures span { IsSpan self.new result }
        ensures text { text_at self.new result ≡ text.now }
        ensures behind { start_of result ≡ length self.old.bytes }
        ensures kept { KeepsSpans self.old self.new }
    {
        let span = Span {
            start: self.text.as_str().len() as u32,
            len: text.len() as u32,
        };
        match self.text.push_str(text) {
            Ok(()) => {
                self.spare -= span.len;
                span
            }
            Err(_) => unreachable!(),
        }
    }

    /// Appends the text of a buffer, and returns its span; the buffer is then empty. The spans that the region returned
    /// before keep their texts. Returns `Err(NoMemory)` if memory runs out, and also if the region would have more than
    /// 2^32 - 1 bytes; the region and the text in the buffer are then unchanged.
    ///
    /// A text that fits into the room made so far is copied. So is one that is no longer than what the region holds. A
    /// longer text is not: the region takes over the memory of the buffer, so that a long text is never held twice.
    pub fn put_buffer(&mut self, text: &mut String) -> Result<Span, NoMemory>
        ensures bytes { OnOk result (self.new.bytes ≡ self.old.bytes ++ string_bytes text.old) }
        ensures span { IfOk result (IsSpan self.new) }
        ensures text { IfOk result (λ span. text_at self.new span ≡ string_bytes text.old) }
        ensures behind { IfOk result (λ span. start_of span ≡ length self.old.bytes) }
        ensures kept { KeepsSpans self.old self.new }
        ensures empty { OnOk result (string_bytes text.new ≡ []) }
        ensures refused { OnErr result ((self.new ≡ self.old) × (string_bytes text.new ≡ string_bytes text.old)) }
    {
        let len = text.as_str().len();
        if len > self.spare() && len > self.text.as_str().len() {
            return self.take_over(text);
        }
        self.reserve(len)?;
        let span = self.put(text.as_str());
        text.clear();
        Ok(span)
    }

    // Puts the region's bytes in front of the text of a buffer, which becomes the region's. The caller sees that the
    // text is longer than what the region holds, so that the region is at least doubled each time.
    fn take_over(&mut self, text: &mut String) -> Result<Span, NoMemory>
        ensures bytes { OnOk result (self.new.bytes ≡ self.old.bytes ++ string_bytes text.old) }
        ensures span { IfOk result (IsSpan self.new) }
        ensures text { IfOk result (λ span. text_at self.new span ≡ string_bytes text.old) }
        ensures behind { IfOk result (λ span. start_of span ≡ length self.old.bytes) }
        ensures kept { KeepsSpans self.old self.new }
        ensures empty { OnOk result (string_bytes text.new ≡ []) }
        ensures refused { OnErr result ((self.new ≡ self.old) × (string_bytes text.new ≡ string_bytes text.old)) }
    {
        let start = self.text.as_str().len();
        let len = text.as_str().len();
        let most = u32::MAX as usize - start;
        if len > most {
            return Err(NoMemory);
        }
        text.reserve_exact(start)?;
        match text.insert_str(0, self.text.as_str()) {
            Ok(()) => mem::swap(&mut self.text, text),
            Err(_) => unreachable!(),
        }
        self.spare = (self.text.capacity() - start - len).min(most - len) as u32;
        text.clear();
        text.shrink_to_fit();
        Ok(Span {
            start: start as u32,
            len: len as u32,
        })
    }

    /// Releases the spare capacity. The spans keep their texts.
    pub fn shrink_to_fit(&mut self)
        ensures bytes { self.new.bytes ≡ self.old.bytes }
        ensures kept { KeepsSpans self.old self.new }
    {
        self.spare = 0;
        self.text.shrink_to_fit();
    }

    /// Returns the text at a span of this region, without copying it.
    pub fn text(&self, at: Span) -> &str
        requires { IsSpan self.now at }
        ensures { result.now ≡ text_at self.now at }
    {
        let start = at.start as usize;
        &self.text.as_str()[start..start + at.len as usize]
    }

    /// Returns the bytes of the text at a span, without copying them. A span of another region may be asked for, too: it
    /// gives the bytes of this region that lie there, if any.
    pub fn bytes(&self, at: Span) -> &[u8]
        ensures { result.now ≡ text_at self.now at }
    {
        let bytes = self.text.as_str().as_bytes();
        let end = (at.start as usize + at.len as usize).min(bytes.len());
        &bytes[(at.start as usize).min(end)..end]
    }
}

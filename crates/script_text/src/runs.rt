//! Runs of whole lines of a block.
ghost use Rattle.std.specs.Prelude.{◌==◌, ◌≡◌, ◌≤◌, count_by, length, take};
ghost use Rattle.lake_model.specs.Texts.{lines_of};
ghost use Rattle.script_text.specs.Runs.{EndsInFeed, IsRun, NoDotBehind};

use crate::line::begins_with_dot;
use memchr::{memmem, memrchr};

/// The most bytes that are counted at once: below 256, so that a count fits into one byte.
const COUNTED: usize = 192;

// Returns the longest run of whole lines at the beginning of the text, none of which begins with a dot.
pub(crate) fn run_of(text: &[u8]) -> &[u8]
    ensures run { IsRun result.now }
    ensures first { result.now ≡ take (length result.now) text.now }
{
    if begins_with_dot(text) {
        return &text[..0];
    }
    whole_lines(before_dot(text))
}

// Returns the text up to the first of its lines that begins with a dot, not counting the very first line.
fn before_dot(text: &[u8]) -> &[u8]
    ensures none { NoDotBehind result.now }
    ensures first { result.now ≡ take (length result.now) text.now }
{
    match memmem::find(text, b"\n.") {
        Some(at) => &text[..at + 1],
        None => text,
    }
}

// Returns the text up to and including its last line feed.
fn whole_lines(text: &[u8]) -> &[u8]
    ensures whole { EndsInFeed result.now }
    ensures first { result.now ≡ take (length result.now) text.now }
{
    match memrchr(b'\n', text) {
        Some(at) => &text[..at + 1],
        None => &text[..0],
    }
}

// Returns how many lines of the text are ended by a line feed.
pub(crate) fn line_count(text: &[u8]) -> usize
    ensures count { result ≡ length (lines_of text.now).ended }
    ensures few { result ≤ length text.now }
{
    let mut count = 0;
    let mut rest = text;
    while !rest.is_empty() {
        let (front, behind) = rest.split_at(rest.len().min(COUNTED));
        count += feed_count(front) as usize;
        rest = behind;
    }
    count
}

// Returns how many line feeds a short text has. A counter of one byte lets the compiler count many bytes at once.
fn feed_count(text: &[u8]) -> u8
    requires { length text.now ≤ 192 }
    ensures { result ≡ count_by (λ byte. byte == 0x0A) text.now }
{
    let mut count = 0;
    for byte in text {
        if *byte == b'\n' {
            count += 1;
        }
    }
    count
}

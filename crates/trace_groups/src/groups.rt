//! The groups of a trace, each a slice of it.
ghost use Rattle.std.specs.Prelude.{◌≡◌, ◌==◌, ◌<◌, IfNone, IfOk, IfSome, false, flat_map, get_or, length, map};
ghost use Rattle.lake_model.specs.Texts.{lines_of};
ghost use Rattle.script_model.specs.Words.{line_text};
ghost use Rattle.trace_laws.specs.Reading.{groups_of, hint_read, is_cut};
ghost use Rattle.trace_hints.specs.Told.{hint_as};
ghost use Rattle.trace_groups.specs.Pieces.{IsGroup, group_text};

use crate::lines::{begins_with_space, first_line, split_line};
use no_memory::NoMemory;
use std::alloc::Global;
use trace_hints::{Hint, hint_of_lines};

/// The lines of one answer, or of the journal.
#[derive(Drop)]
pub struct Group<'a> {
    /// The lines, each with its line feed.
    pub text: &'a [u8],
    /// The hint that they give of where the answer was made.
    pub hint: Hint,
}

/// Cuts a trace into its groups, before each line that does not begin with a space.
///
/// The result is `None` if the first line begins with a space, or the last line has no line feed; no record has such a
/// text. Returns `Err(NoMemory)` if memory runs out.
pub fn cut_trace(alloc: Global, trace: &[u8]) -> Result<Option<Vec<Group<'_>>>, NoMemory>
    ensures hints { IfOk result (λ cut. IfSome cut (λ groups. map (λ group. hint_as group.hint) groups.items ≡ map hint_read (groups_of trace.now))) }
    ensures texts { IfOk result (λ cut. IfSome cut (λ groups. map (λ group. group.text.now) groups.items ≡ map group_text (groups_of trace.now))) }
    ensures whole { IfOk result (λ cut. IfSome cut (λ groups. flat_map (λ group. group.text.now) groups.items ≡ trace.now)) }
    ensures none { IfOk result (λ cut. IfNone cut (is_cut trace.now ≡ false)) }
{
    if begins_with_space(trace) {
        return Ok(None);
    }
    let mut groups = Vec::new(alloc);
    let mut rest = trace;
    while !rest.is_empty() {
        let Some((text, behind)) = split_group(rest) else {
            return Ok(None);
        };
        let hint = hint_of_group(alloc, text)?;
        groups.push(Group { text, hint })?;
        rest = behind;
    }
    Ok(Some(groups))
}

// Splits a text, whose first line begins a group, into this group and the rest. Returns `None` if the last line has no
// line feed.
fn split_group(text: &[u8]) -> Option<(&[u8], &[u8])>
    requires some { 0 < length text.now }
    requires first { (get_or text.now 0 0 == 0x20) ≡ false }
    ensures group { IfSome result (λ pair. IsGroup text.now pair.0.now pair.1.now) }
    ensures none { IfNone result (is_cut text.now ≡ false) }
{
    let (_first, mut behind) = split_line(text)?;
    while begins_with_space(behind) {
        let (_more, rest) = split_line(behind)?;
        behind = rest;
    }
    Some(text.split_at(text.len() - behind.len()))
}

// Returns the hint of the lines of a group.
fn hint_of_group(alloc: Global, text: &[u8]) -> Result<Hint, NoMemory>
    ensures { IfOk result (λ hint. hint_as hint ≡ hint_read (lines_of text.now).ended) }
{
    let (first, behind) = first_line(text);
    let (second, _) = first_line(behind);
    hint_of_lines(alloc, first, second)
}

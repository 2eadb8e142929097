//! The line of a layout: its position, and its parts, each with its load positions and marks on those of dropped
//! tables.
ghost use Rattle.std.specs.Prelude.{◌≡◌, ◌++◌, ◌∷◌, [], Bool, List, ℕ, flat_map, if◌then◌else◌, OnOk};
ghost use Rattle.std.specs.List.{join_by};
ghost use Rattle.record_model.specs.Texts.{layout_line, part_text, parts_text, position_text};
ghost use Rattle.script_model.specs.Words.{line_text};
ghost use Rattle.reply_text.specs.Keeping.{Keeps};

use crate::words::Word::Text;
use crate::words::{push_byte, push_bytes, push_number, push_words};
use no_memory::NoMemory;
use segment_core::{Layout, Places};

// What follows the position of a table that was dropped.
fn drop_mark(marked: bool) -> &'static str
    ensures { result.now ≡ (if marked then 0x2D ∷ [] else []) }
{
    if marked { "-" } else { "" }
}

// A load position, with its mark.
fn push_position(place: &(u64, bool), into: &mut Vec<u8>) -> Result<(), NoMemory>
    ensures ok { OnOk result (into.new.items ≡ into.old.items ++ position_text place.now) }
    ensures kept { Keeps into.old.items into.new.items }
{
    let (position, marked) = place;
    push_number(*position, into)?;
    push_bytes(drop_mark(*marked).as_bytes(), into)
}

// Load positions with their marks, each after a comma.
fn push_further_positions(places: &[(u64, bool)], into: &mut Vec<u8>) -> Result<(), NoMemory>
    ensures ok { OnOk result (into.new.items ≡ into.old.items ++ flat_map (λ (place : ℕ × Bool). 0x2C ∷ position_text place) places.now) }
    ensures kept { Keeps into.old.items into.new.items }
{
    for place in places {
        push_byte(b',', into)?;
        push_position(place, into)?;
    }
    Ok(())
}

// Load positions with their marks, separated by commas.
fn push_positions(places: &[(u64, bool)], into: &mut Vec<u8>) -> Result<(), NoMemory>
    ensures ok { OnOk result (into.new.items ≡ into.old.items ++ join_by position_text (0x2C ∷ []) places.now) }
    ensures kept { Keeps into.old.items into.new.items }
{
    let [first, rest @ ..] = places else {
        return Ok(());
    };
    push_position(first, into)?;
    push_further_positions(rest, into)
}

// `NUMBER:POSITIONS`
fn push_part(number: u64, places: &Places, into: &mut Vec<u8>) -> Result<(), NoMemory>
    ensures ok { OnOk result (into.new.items ≡ into.old.items ++ part_text (number, places.now)) }
    ensures kept { Keeps into.old.items into.new.items }
{
    push_number(number, into)?;
    push_byte(b':', into)?;
    push_positions(places.list(), into)
}

// Parts, each after a space.
fn push_parts(parts: &[(u64, Places)], into: &mut Vec<u8>) -> Result<(), NoMemory>
    ensures ok { OnOk result (into.new.items ≡ into.old.items ++ flat_map (λ (part : ℕ × List (ℕ × Bool)). 0x20 ∷ part_text part) parts.now) }
    ensures kept { Keeps into.old.items into.new.items }
{
    for (number, places) in parts {
        push_byte(b' ', into)?;
        push_part(*number, places, into)?;
    }
    Ok(())
}

// Parts, or `none`, after a space.
fn push_parts_or_none(parts: &[(u64, Places)], into: &mut Vec<u8>) -> Result<(), NoMemory>
    ensures ok { OnOk result (into.new.items ≡ into.old.items ++ flat_map (λ word. 0x20 ∷ word) (parts_text parts.now)) }
    ensures kept { Keeps into.old.items into.new.items }
{
    if parts.is_empty() {
        return push_bytes(b" none", into);
    }
    push_parts(parts, into)
}

/// Appends the line of a layout, `  layout at P parts LIST`. Each part is its number, a colon, and its load positions
/// separated by commas, each followed by `-` if its table was dropped. The list is `none` if there are no parts.
pub fn push_layout(layout: &Layout, into: &mut Vec<u8>) -> Result<(), NoMemory>
    ensures ok { OnOk result (into.new.items ≡ into.old.items ++ line_text (layout_line layout.now)) }
    ensures kept { Keeps into.old.items into.new.items }
{
    push_bytes(b"  layout at ", into)?;
    push_number(layout.at(), into)?;
    push_words(&[Text("parts")], into)?;
    push_parts_or_none(layout.parts(), into)?;
    push_byte(b'\n', into)
}

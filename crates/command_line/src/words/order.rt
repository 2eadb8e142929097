//! A stated order, as it is written: pieces separated by `/`, each of them empty, or lane numbers separated by `,`.
ghost use Rattle.std.specs.Prelude.{◌≡◌, ◌==◌, IfOk, map};
ghost use Rattle.std.specs.List.{slice_split};
ghost use Rattle.option_model.specs.Plain.{all_there, lane_number, order_of, piece_of};

use crate::numbers::{read_number, read_number_or_zero};
use commands::{Order, Piece};
use no_memory::NoMemory;
use std::alloc::Global;

// Reads the order that a text states. The result is `None` if the text breaks the rule of orders.
pub(super) fn read_order(
    alloc: Global,
    lanes: u32,
    merge: bool,
    text: &[u8],
) -> Result<Option<Order>, NoMemory>
    ensures { IfOk result (λ order. order ≡ order_of lanes merge text.now) }
{
    let parts = parts(alloc, text, b'/')?;
    read_pieces(alloc, lanes, merge, parts.as_slice())
}

// Returns the parts of a text, split at the byte.
fn parts<'a>(alloc: Global, text: &'a [u8], byte: u8) -> Result<Vec<&'a [u8]>, NoMemory>
    ensures { IfOk result (λ parts. map (λ part. part.now) parts.items ≡ slice_split (λ b. b == byte) text.entry.now) }
{
    Ok(text.split(|b| *b == byte).collect(alloc)?)
}

// Reads the order whose pieces are these parts.
fn read_pieces(
    alloc: Global,
    lanes: u32,
    merge: bool,
    parts: &[&[u8]],
) -> Result<Option<Order>, NoMemory>
    ensures { IfOk result (λ order. order ≡ all_there (map (λ part. piece_of lanes merge part.now) parts.now)) }
{
    let mut pieces = Vec::new(alloc);
    for part in parts {
        let Some(piece) = read_piece(alloc, lanes, merge, part)? else {
            return Ok(None);
        };
        pieces.push(piece)?;
    }
    Ok(Some(Order::new(pieces)))
}

// Reads a piece, which is empty or lane numbers.
fn read_piece(
    alloc: Global,
    lanes: u32,
    merge: bool,
    text: &[u8],
) -> Result<Option<Piece>, NoMemory>
    ensures { IfOk result (λ piece. piece ≡ piece_of lanes merge text.now) }
{
    if text.is_empty() {
        return Ok(Some(Piece::new(Vec::new(alloc))));
    }
    let parts = parts(alloc, text, b',')?;
    read_lanes(alloc, lanes, merge, parts.as_slice())
}

// Reads the piece whose lanes are these parts.
fn read_lanes(
    alloc: Global,
    lanes: u32,
    merge: bool,
    parts: &[&[u8]],
) -> Result<Option<Piece>, NoMemory>
    ensures { IfOk result (λ piece. piece ≡ all_there (map (λ part. lane_number lanes merge part.now) parts.now)) }
{
    let mut numbers = Vec::new(alloc);
    for part in parts {
        let Some(number) = read_lane(lanes, merge, part) else {
            return Ok(None);
        };
        numbers.push(number)?;
    }
    Ok(Some(Piece::new(numbers)))
}

// Reads the number of a lane, or 0 for the merger if there is one.
fn read_lane(lanes: u32, merge: bool, text: &[u8]) -> Option<u32>
    ensures { result ≡ lane_number lanes merge text.now }
{
    if merge {
        return read_number_or_zero(text, lanes);
    }
    read_number(text, lanes)
}

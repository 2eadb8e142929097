//! Finds a record that has more fields than a table may have columns, without keeping its fields.
ghost use Rattle.std.specs.Prelude.{◌≡◌, IfSome, Some};
ghost use Rattle.csv.specs.Machine.{ends_at_end, in_field, start_field, start_record, step};
ghost use Rattle.csv.specs.Reading.{default_config, records};
ghost use Rattle.lake_model.specs.Records.{records_of};
ghost use Rattle.csv_table.specs.Places.{state_of, IsStep};
ghost use Rattle.csv_table.specs.WideRecords.{first_wide, wide_with};

use crate::behind_mark;

/// The size up to which a block is not searched for a wide record: whatever its records are, they take little memory.
const SMALL_BYTES: usize = 1 << 20;

/// A record that has more fields than a table may have columns.
#[derive(Clone, Copy)]
pub(crate) struct WideRecord {
    /// The number of the record, counted from 1.
    number: u64,
    /// How many fields it has.
    fields: u64,
}

/// Where a byte stands: the states of the crate `csv` that bytes lead to if there are no comments and no escapes.
#[derive(Clone, Copy)]
enum Place {
    StartRecord,
    StartField,
    InField,
    InQuoted,
    /// After a quote in a quoted field, which ends the quoted part unless another quote follows.
    AfterQuote,
    /// After a carriage return that ended a record.
    AfterCr,
}

/// What a byte does to the number of fields.
#[derive(Clone, Copy)]
enum Effect {
    Nothing,
    EndField,
    EndRecord,
}

/// Returns the first record with more than `most` fields if the block is one that may have a record of very many fields. It
/// takes no memory.
///
/// The crate `csv` keeps 8 bytes for each field of a record, in a list that doubles as it grows, and tells their number only
/// after the whole record is read. A record of nothing but commas would take 25 times its size.
pub(crate) fn wide_record(bytes: &[u8], most: u32) -> Option<WideRecord>
    ensures { IfSome result (λ wide. first_wide most 1 (records_of bytes.now) ≡ Some wide) }
{
    if !has_many_commas(bytes) {
        return None;
    }
    // The crate drops a second byte order mark.
    first_wide_record(behind_mark(behind_mark(bytes)), most as u64)
}

/// Returns the number of fields of a wide record if it is the record with this number.
pub(crate) fn fields_if_wide(wide: Option<WideRecord>, number: u64) -> Option<u64>
    ensures { IfSome result (λ fields. wide ≡ Some (wide_with number fields)) }
{
    match wide {
        Some(found) if found.number == number => Some(found.fields),
        _ => None,
    }
}

// Returns whether a block is large and more than a sixth of it is commas. While its lists double, a record takes up to 24 bytes
// for each field and 3 for each other byte, so one of any other large block takes less than eight times the block's size.
fn has_many_commas(bytes: &[u8]) -> bool {
    bytes.len() > SMALL_BYTES
        && bytes.iter().filter(|byte| **byte == b',').count() > bytes.len() / 6
}

// Returns the first record with more than `most` fields.
fn first_wide_record(text: &[u8], most: u64) -> Option<WideRecord>
    ensures { result ≡ first_wide most 1 (records default_config text.now) }
{
    let mut place = Place::StartRecord;
    let mut number = 1;
    // The fields of the record, with the one at hand.
    let mut fields = 1;
    for byte in text {
        let (next, effect) = step(place, *byte);
        place = next;
        match effect {
            Effect::Nothing => {}
            Effect::EndField => fields += 1,
            Effect::EndRecord => {
                if fields > most {
                    return Some(WideRecord { number, fields });
                }
                number += 1;
                fields = 1;
            }
        }
    }
    if !ends_record(place) {
        return None;
    }
    if fields > most {
        return Some(WideRecord { number, fields });
    }
    None
}

// Returns the place after a byte, and what the byte does.
fn step(place: Place, byte: u8) -> (Place, Effect)
    ensures { IsStep result (step default_config (state_of place) byte) }
{
    match place {
        Place::StartRecord => start_record(byte),
        Place::StartField => start_field(byte),
        Place::InField => in_field(byte),
        Place::InQuoted => {
            if byte == b'"' {
                (Place::AfterQuote, Effect::Nothing)
            } else {
                (Place::InQuoted, Effect::Nothing)
            }
        }
        Place::AfterQuote => {
            if byte == b'"' {
                (Place::InQuoted, Effect::Nothing)
            } else {
                in_field(byte)
            }
        }
        Place::AfterCr => {
            if byte == b'\n' {
                (Place::StartRecord, Effect::Nothing)
            } else {
                start_record(byte)
            }
        }
    }
}

fn start_record(byte: u8) -> (Place, Effect)
    ensures { IsStep result (start_record default_config byte) }
{
    match byte {
        b'\r' | b'\n' => (Place::StartRecord, Effect::Nothing),
        _ => start_field(byte),
    }
}

fn start_field(byte: u8) -> (Place, Effect)
    ensures { IsStep result (start_field default_config byte) }
{
    match byte {
        b'"' => (Place::InQuoted, Effect::Nothing),
        _ => in_field(byte),
    }
}

fn in_field(byte: u8) -> (Place, Effect)
    ensures { IsStep result (in_field default_config byte) }
{
    match byte {
        b',' => (Place::StartField, Effect::EndField),
        b'\r' => (Place::AfterCr, Effect::EndRecord),
        b'\n' => (Place::StartRecord, Effect::EndRecord),
        _ => (Place::InField, Effect::Nothing),
    }
}

// Returns whether the end of the text ends a record.
fn ends_record(place: Place) -> bool
    ensures { result ≡ ends_at_end (state_of place) }
{
    !matches!(place, Place::StartRecord | Place::AfterCr)
}

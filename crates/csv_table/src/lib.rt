//! Reads CSV bytes as a table: a header, and records as long as the header, each field UTF-8. Other bytes are refused with
//! the first fault.
#![tactic(auto)]

ghost use Rattle.std.specs.Prelude.{◌≡◌, ◌⊎◌, ◌↔◌, ℕ, List, ◌+◌, ◌<◌, ◌≤◌, length, Some, None, IfOk, IfErr, OnOk};
ghost use Rattle.csv.specs.Reading.{strip_bom};
ghost use Rattle.lake_model.specs.Records.{column_count, csv_fault, field_at, records_of, table_fault, IsTable, Record, text_size};

mod expected;
mod fields;
mod lines;
mod records_left;
mod widths;

use crate::expected::Expected;
use crate::fields::Fields;
use crate::records_left::RecordsLeft;
use crate::widths::{fields_if_wide, wide_record};
pub use lake_model::CsvRefused;
use std::alloc::Global;
use std::marker::Model;

/// How many bytes at the beginning of a table are looked at to guess the number of its fields.
const SAMPLE_BYTES: usize = 65_536;

/// A header of at most 4,096 fields, and fewer than 2^64 records as long as the header, each field UTF-8.
///
/// Rows count from 0, and row 0 is the header. Places in a row, which are the columns, count from 1.
#[derive(Drop)]
pub struct RawTable {
    /// The fields of all records, record by record.
    store: Fields,
    columns: u32,
    /// The number of records, including the header.
    records: u64,
}

impl Model for RawTable {
    ghost use Rattle.std.specs.Prelude.{◌≡◌, ◌*◌, ◌<◌, ◌≤◌, List, ℕ, length};
    ghost use Rattle.csv_table.specs.SplitRecords.{split_records};

    ghost Value = { List (List (List ℕ)) };

    ghost view = { λ table. split_records table.records table.columns table.store };

    ghost invariant = { λ table. (length table.store ≡ table.records * table.columns) × (0 < table.records) × (table.columns ≤ 4096) };
}

impl RawTable {
    /// Returns the number of columns, 0 to 4,096: the fields of the header.
    pub fn columns(&self) -> u32
        ensures value { result ≡ column_count self.now }
        ensures narrow { result ≤ 4096 }
    {
        self.columns
    }

    /// Returns the number of records after the header.
    pub fn rows(&self) -> u64
        ensures { result + 1 ≡ length self.now }
    {
        self.records - 1
    }

    /// Returns the field in a row, from 0 (the header) to `rows()`, at a place, from 1 to `columns()`.
    pub fn field(&self, row: u64, place: u32) -> &str
        requires row { row < length self.now }
        requires low { 0 < place }
        requires high { place ≤ column_count self.now }
        ensures { result.now ≡ field_at self.now row place }
    {
        prove!(self.store.len() <= usize::MAX);
        let index = row as usize * self.columns as usize + (place as usize - 1);
        self.store.field(index)
    }
}

/// Reads CSV bytes (RFC 4180) as a table with at most `most` columns, 1 to 4,096.
///
/// Commas separate the fields of a record. A field in double quotes may contain commas, line breaks and quotes, each quote
/// doubled. A record ends at LF, CR LF or CR, and an empty line is not a record. One byte order mark before the bytes is
/// dropped, and a second one too, which the crate `csv` drops. Fields are not trimmed.
///
/// # Errors
///
/// The first of these that holds, with records and fields numbered from 1 and the header as record 1: `NoHeader` if there is
/// no record; `TooManyColumns` if the header has more than `most` fields; `NotUtf8` at the header's first field that is not
/// UTF-8; and at the first faulty record, `Unequal` if its length is not the header's, or `NotUtf8` at its first field that
/// is not UTF-8. `NoMemory` may take the place of any result, and says nothing about the bytes. It is also the answer if the
/// fields have 2^32 bytes or more in all.
pub fn read_table(alloc: Global, bytes: &[u8], most: u32) -> Result<RawTable, CsvRefused>
    requires low { 1 ≤ most }
    requires high { most ≤ 4096 }
    ensures table { IfOk result (λ t. t ≡ records_of bytes.now) }
    ensures sound { OnOk result (csv_fault most bytes.now ≡ None) }
    ensures is_table { IfOk result (λ t. IsTable most t) }
    ensures size { IfOk result (λ t. text_size t ≤ length bytes.now) }
    ensures refused { IfErr result (λ e. (e ≡ CsvRefused.NoMemory) ⊎ (csv_fault most bytes.now ≡ Some e)) }
{
    let wide = wide_record(bytes, most);
    if let Some(got) = fields_if_wide(wide, 1) {
        return Err(CsvRefused::TooManyColumns { got });
    }
    let mut left = RecordsLeft::of(alloc, bytes)?;
    // While the store grows, it takes half as much memory again.
    let mut store = Fields::with_capacity(alloc, bytes.len(), likely_fields(bytes))?;
    let Some(columns) = left.add_next(&mut store, Expected::Header { most })? else {
        return Err(CsvRefused::NoHeader);
    };
    for records in 1..u64::MAX {
        let number = records + 1;
        if let Some(got) = fields_if_wide(wide, number) {
            return Err(CsvRefused::Unequal {
                row: number,
                want: columns as u64,
                got,
            });
        }
        let expected = Expected::Record { number, columns };
        if left.add_next(&mut store, expected)?.is_none() {
            return Ok(RawTable {
                store,
                columns,
                records,
            });
        }
    }
    // That many records do not fit into an address space.
    Err(CsvRefused::NoMemory)
}

// Returns a sixteenth more than the number of fields that there are if the rest of the bytes is as their beginning, but no
// more than there can be: each field but the last is followed by at least one byte.
fn likely_fields(bytes: &[u8]) -> usize {
    let sample = bytes.len().min(SAMPLE_BYTES);
    let ends = field_ends(&bytes[..sample]);
    let fields = ends as u128 * bytes.len() as u128 / sample.max(1) as u128;
    let most = bytes.len() + 1;
    (fields + fields / 16 + 1).min(most as u128) as usize
}

// Returns how many bytes end a field if there are no quotation marks. A sum without branches, of which the compiler works out
// many terms at once.
fn field_ends(sample: &[u8]) -> u32
    requires { length sample.now ≤ 65536 }
{
    let mut ends = 0;
    for byte in sample {
        ends += u32::from(*byte == b',' || *byte == b'\n' || *byte == b'\r');
    }
    ends
}

// Returns the bytes after one byte order mark, or all of them if they do not begin with one.
fn behind_mark(bytes: &[u8]) -> &[u8]
    ensures { result.now ≡ strip_bom bytes.now }
{
    match bytes.strip_prefix(&[0xEF, 0xBB, 0xBF]) {
        Some(rest) => rest,
        None => bytes,
    }
}

/// A law that states the refusals in plain words: records have no fault exactly if there is a header of at most `most`
/// fields, every record is as long as the header, and every field is UTF-8.
pub fn table_law()
    ensures { (most : ℕ) (rows : List Record) → (table_fault most rows ≡ None) ↔ IsTable most rows }
{}

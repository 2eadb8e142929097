//! The records of CSV bytes, read one after another.
ghost use Rattle.std.specs.Prelude.{◌≡◌, ◌⊎◌, ◌++◌, ◌∷◌, [], true, false, None, Some, IfErr, IfOk, IfSome, OnErr, OnOk};
ghost use Rattle.csv.specs.Reading.{has_failed};
ghost use Rattle.csv.specs.Records.{fields_of};
ghost use Rattle.lake_model.specs.Records.{crate_records, records_of, text_fault};
ghost use Rattle.csv_table.specs.Expected.{IsAdded, IsRefused};
ghost use Rattle.csv_table.specs.RecordsLeft.{left_of, records_left, IsOpen, IsReading};

use crate::behind_mark;
use crate::expected::Expected;
use crate::fields::Fields;
use crate::lines::{add_line, plain_text};
use csv::{ByteRecord, Reader, ReaderBuilder};
use lake_model::CsvRefused;
use no_memory::NoMemory;
use std::alloc::Global;
use std::boxed::Box;
use std::str;

/// The records of CSV bytes that have not been read yet.
#[derive(Drop)]
pub(crate) enum RecordsLeft<'a> {
    /// Those of a text without quotation marks, which are lines split at commas.
    Lines(&'a str),
    /// Those that a reader of the crate `csv` has left.
    Reader(RowReader<'a>),
}

/// A reader of the crate `csv`, and the record that it reads into.
#[derive(Drop)]
pub(crate) struct RowReader<'a> {
    reader: Box<Reader<&'a [u8]>>,
    row: ByteRecord,
}

impl<'a> RecordsLeft<'a> {
    /// Returns the records of the bytes.
    ///
    /// A reader of the crate `csv` fills 8 KB of tables when it is made, and is moved several times with these and a buffer of
    /// 8 KB. For a table of a hundred fields that took about a third of the time of its load, so only bytes with a quotation
    /// mark get a reader, and those that are not UTF-8, of which it tells the fault.
    pub(crate) fn of(alloc: Global, bytes: &'a [u8]) -> Result<RecordsLeft<'a>, NoMemory>
        ensures open { IfOk result IsOpen }
        ensures left { IfOk result (λ left. left_of left ≡ records_of bytes.now) }
    {
        let text = behind_mark(bytes);
        // The crate drops a second byte order mark.
        if let Some(lines) = plain_text(behind_mark(text)) {
            return Ok(RecordsLeft::Lines(lines));
        }
        let reader = Box::new(alloc, reader_of(alloc, text))?;
        let row = ByteRecord::new(alloc);
        Ok(RecordsLeft::Reader(RowReader { reader, row }))
    }

    /// Adds the fields of the next record to the store and returns their number, or `None` if there is no record.
    pub(crate) fn add_next(
        &mut self,
        store: &mut Fields,
        expected: Expected,
    ) -> Result<Option<u32>, CsvRefused>
        requires { IsOpen self.old }
        ensures open { IfOk result (λ next. IfSome next (λ _. IsOpen self.new)) }
        ensures more { IfOk result (λ next. IfSome next (IsAdded expected (left_of self.old) (left_of self.new) store.old store.new)) }
        ensures end { IfOk result (λ next. next ≡ None → left_of self.old ≡ []) }
        ensures kept { IfOk result (λ next. next ≡ None → store.new ≡ store.old) }
        ensures refused { IfErr result (λ e. (e ≡ CsvRefused.NoMemory) ⊎ IsRefused expected (left_of self.old) e) }
    {
        match self {
            RecordsLeft::Lines(text) => add_line(text, store, expected),
            RecordsLeft::Reader(rows) => rows.add_next(store, expected),
        }
    }
}

impl<'a> RowReader<'a> {
    // Adds the fields of the next record to the store and returns their number, or `None` if there is no record.
    fn add_next(
        &mut self,
        store: &mut Fields,
        expected: Expected,
    ) -> Result<Option<u32>, CsvRefused>
        requires { IsReading self.old.reader.value }
        ensures open { IfOk result (λ next. IfSome next (λ _. IsReading self.new.reader.value)) }
        ensures more { IfOk result (λ next. IfSome next (IsAdded expected (records_left self.old.reader.value) (records_left self.new.reader.value) store.old store.new)) }
        ensures end { IfOk result (λ next. next ≡ None → records_left self.old.reader.value ≡ []) }
        ensures kept { IfOk result (λ next. next ≡ None → store.new ≡ store.old) }
        ensures refused { IfErr result (λ e. (e ≡ CsvRefused.NoMemory) ⊎ IsRefused expected (records_left self.old.reader.value) e) }
    {
        if !read_next(&mut self.reader, &mut self.row)? {
            return Ok(None);
        }
        let count = expected.admit(self.row.len())?;
        add_fields(store, &self.row, expected.number())?;
        Ok(Some(count))
    }
}

// Returns a reader of the records of the text.
fn reader_of(alloc: Global, text: &[u8]) -> Reader<&[u8]>
    ensures reading { IsReading result }
    ensures left { records_left result ≡ crate_records text.now }
{
    ReaderBuilder::new()
        .has_headers(false)
        .flexible(true)
        .from_reader(alloc, text)
}

// Reads the next record, and returns whether there is one. A flexible reader over a slice fails only if memory runs out; the
// clause `failed` says that no fault of the text is reported as that.
fn read_next(reader: &mut Reader<&[u8]>, row: &mut ByteRecord) -> Result<bool, NoMemory>
    requires { IsReading reader.old }
    ensures more { IfOk result (λ found. found ≡ true → IsReading reader.new × (records_left reader.old ≡ fields_of row.new ∷ records_left reader.new)) }
    ensures end { IfOk result (λ found. found ≡ false → records_left reader.old ≡ []) }
    ensures failed { OnErr result (has_failed reader.new ≡ true) }
{
    let Ok(found) = reader.read_byte_record(row) else {
        return Err(NoMemory);
    };
    Ok(found)
}

// Adds the fields of the record with this number, up to the first that is not UTF-8, which is refused.
fn add_fields(store: &mut Fields, row: &ByteRecord, number: u64) -> Result<(), CsvRefused>
    ensures ok { OnOk result (text_fault number 1 (fields_of row.now) ≡ None) }
    ensures added { OnOk result (store.new ≡ store.old ++ fields_of row.now) }
    ensures refused { IfErr result (λ e. (e ≡ CsvRefused.NoMemory) ⊎ (text_fault number 1 (fields_of row.now) ≡ Some e)) }
{
    for (i, field) in row.iter().enumerate() {
        let Ok(text) = str::from_utf8(field) else {
            return Err(CsvRefused::NotUtf8 {
                row: number,
                field: i as u64 + 1,
            });
        };
        store.push(text)?;
    }
    Ok(())
}

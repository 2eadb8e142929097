//! The records of a text without quotation marks: the lines that are not empty, each split at its commas.
ghost use Rattle.std.specs.Prelude.{◌≡◌, ◌⊎◌, [], None, IfErr, IfOk, IfSome};
ghost use Rattle.csv_table.specs.Expected.{IsAdded, IsRefused};
ghost use Rattle.csv_table.specs.Lines.{behind_breaks, first_line, is_break, lines_of, HasNoQuotes};

use crate::expected::Expected;
use crate::fields::Fields;
use lake_model::CsvRefused;
use memchr::memchr;
use no_memory::NoMemory;
use simdutf8::basic::from_utf8;

/// Returns the bytes as a text if they are UTF-8 without a quotation mark.
pub(crate) fn plain_text(bytes: &[u8]) -> Option<&str>
    ensures same { IfSome result (λ text. text.now ≡ bytes.now) }
    ensures plain { IfSome result (λ text. HasNoQuotes text.now) }
{
    if memchr(b'"', bytes).is_some() {
        return None;
    }
    from_utf8(bytes).ok()
}

/// Adds the fields of the first record of a text to the store, takes the record off the text and returns the number of its
/// fields, or `None` if there is no record.
///
/// Pieces of a text that is cut at commas are texts, so only the number of the fields is checked.
pub(crate) fn add_line(
    text: &mut &str,
    store: &mut Fields,
    expected: Expected,
) -> Result<Option<u32>, CsvRefused>
    requires { HasNoQuotes text.old.now }
    ensures left { IfOk result (λ next. IfSome next (λ _. HasNoQuotes text.new.now)) }
    ensures more { IfOk result (λ next. IfSome next (IsAdded expected (lines_of text.old.now) (lines_of text.new.now) store.old store.new)) }
    ensures end { IfOk result (λ next. next ≡ None → lines_of text.old.now ≡ []) }
    ensures kept { IfOk result (λ next. next ≡ None → store.new ≡ store.old) }
    ensures refused { IfErr result (λ e. (e ≡ CsvRefused.NoMemory) ⊎ IsRefused expected (lines_of text.old.now) e) }
{
    let line = behind_breaks(*text);
    if line.is_empty() {
        return Ok(None);
    }
    let before = store.len();
    *text = split_line(line, store)?;
    let count = expected.admit(store.len() - before)?;
    Ok(Some(count))
}

// Returns the text from its first byte on that ends no line.
fn behind_breaks(text: &str) -> &str
    ensures { result.now ≡ behind_breaks text.now }
{
    let bytes = text.as_bytes();
    for i in 0..bytes.len() {
        if !is_break(bytes[i]) {
            return &text[i..];
        }
    }
    ""
}

// Returns whether a byte ends a line. CR LF ends one line, and then an empty one, which is no record.
fn is_break(byte: u8) -> bool
    ensures { result ≡ is_break byte }
{
    byte == b'\r' || byte == b'\n'
}

// Splits the first line of the text at its commas, adds the fields to the store, and returns the text from the end of the line
// on.
fn split_line<'a>(text: &'a str, store: &mut Fields) -> Result<&'a str, NoMemory>
    ensures { IfOk result (λ rest. first_line store.old [] text.now ≡ (store.new, rest.now)) }
{
    let bytes = text.as_bytes();
    let mut from = 0;
    for i in 0..bytes.len() {
        if is_break(bytes[i]) {
            store.push(&text[from..i])?;
            return Ok(&text[i..]);
        }
        if bytes[i] == b',' {
            store.push(&text[from..i])?;
            from = i + 1;
        }
    }
    store.push(&text[from..])?;
    Ok("")
}

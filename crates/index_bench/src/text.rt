//! The text of a table of a given size: CSV with numbers as its values. The value of a row in a column is `row * 7 +
//! column * 13` modulo [`modulus`]. The values of a column are distinct, and most columns share values with others,
//! since the modulus is about twice the number of rows: with ten columns a value is in five of them.
ghost use Rattle.std.specs.Prelude.{◌<◌};

use crate::size::Size;
use std::alloc::{AllocError, Global};
use std::fmt::Write;

/// Returns the CSV text of the table of this size, with its header.
pub fn table_text(alloc: Global, size: Size) -> Result<String, AllocError> {
    let mut text = String::new(alloc);
    push_header(&mut text, size)?;
    for row in 0..size.rows {
        push_row(&mut text, size, row)?;
    }
    Ok(text)
}

// Returns how many values the columns choose from. It is greater than the number of rows, and not divisible by 7.
fn modulus(rows: u32) -> u64
    ensures { rows < result }
{
    rows as u64 / 7 * 14 + 15
}

// Returns the value of a row in a column.
fn value_at(size: Size, row: u32, column: u32) -> u64 {
    (row as u64 * 7 + column as u64 * 13) % modulus(size.rows)
}

// Adds the line of the header: the name of each column is its number.
fn push_header(text: &mut String, size: Size) -> Result<(), AllocError> {
    for column in 0..size.columns {
        push_comma(text, column)?;
        write!(text, "{column}")?;
    }
    text.push('\n')
}

// Adds the line of a row.
fn push_row(text: &mut String, size: Size, row: u32) -> Result<(), AllocError> {
    for column in 0..size.columns {
        push_comma(text, column)?;
        let value = value_at(size, row, column);
        write!(text, "{value}")?;
    }
    text.push('\n')
}

// Adds the comma before the field of a column; the first column has none.
fn push_comma(text: &mut String, column: u32) -> Result<(), AllocError> {
    if column == 0 {
        return Ok(());
    }
    text.push(',')
}

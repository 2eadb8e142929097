//! The size of a table, as it is asked for.
ghost use Rattle.std.specs.Prelude.{◌≤◌, IfSome};

/// The most columns that the table may have.
const MOST_COLUMNS: u32 = 1024;

/// The most rows that the table may have.
const MOST_ROWS: u32 = 10_000_000;

/// The number of columns of a table, 1 to 1,024, and of its rows below the header, 1 to 10,000,000.
#[derive(Clone, Copy)]
pub struct Size {
    pub columns: u32,
    pub rows: u32,
}

impl Size {
    /// Reads the size from two words. The result is `None` if they are not numbers in range.
    pub fn read(columns: &str, rows: &str) -> Option<Size>
        ensures some_columns { IfSome result (λ size. 1 ≤ size.columns) }
        ensures few_columns { IfSome result (λ size. size.columns ≤ 1024) }
        ensures some_rows { IfSome result (λ size. 1 ≤ size.rows) }
        ensures few_rows { IfSome result (λ size. size.rows ≤ 10000000) }
    {
        Some(Size {
            columns: number_to(columns, MOST_COLUMNS)?,
            rows: number_to(rows, MOST_ROWS)?,
        })
    }
}

// Reads the number in a word, from 1 to `most`.
fn number_to(word: &str, most: u32) -> Option<u32>
    ensures low { IfSome result (λ number. 1 ≤ number) }
    ensures high { IfSome result (λ number. number ≤ most) }
{
    match word.parse::<u32>() {
        Ok(number) if 1 <= number && number <= most => Some(number),
        _ => None,
    }
}

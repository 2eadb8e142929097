//! What bytes are read as and what they are refused for, on a few files whose answers were worked out by hand.
ghost use Rattle.std.specs.Prelude.{◌≤◌};

use csv_table::{CsvRefused, RawTable, read_table};
use std::alloc::{AllocError, Global};
use std::process::Abort;
use std::test::Fail;

// Returns the table of this text.
fn table(alloc: Global, text: &str) -> Result<RawTable, Fail> {
    Ok(read_table(alloc, text.as_bytes(), 1_024)?)
}

// Expects a table of this many columns, and of this many rows below its header.
fn expect_shape(rt: &impl Abort, table: &RawTable, columns: u32, rows: u64) {
    assert_eq!(rt; table.columns(), columns);
    assert_eq!(rt; table.rows(), rows);
}

// Expects this field.
fn expect_field(rt: &impl Abort, table: &RawTable, row: u64, place: u32, want: &str) {
    assert!(rt; row <= table.rows() && place > 0 && place <= table.columns());
    assert_eq!(rt; table.field(row, place), want);
}

// Expects that bytes are refused for this.
fn expect_refused(rt: &(impl Abort + AllocGlobal), bytes: &[u8], most: u32, refused: CsvRefused)
    requires low { 1 ≤ most }
    requires high { most ≤ 4096 }
{
    let why = read_table(rt.alloc(), bytes, most).err();
    assert_eq!(rt; why, Some(refused), "{bytes:?}");
}

// A line of empty fields, one more than the commas.
fn commas(alloc: Global, count: u32) -> Result<Vec<u8>, AllocError> {
    let mut line = Vec::new(alloc);
    for _ in 0..count {
        line.push(b',')?;
    }
    Ok(line)
}

#[test]
fn fields_of_plain_rows(rt: HostRuntime) -> Result<(), Fail> {
    let table = table(rt.alloc(), "id,city\n1,Rome\n\n2,\"Oslo, \"\"N\"\"\"")?;
    expect_shape(&rt, &table, 2, 2);
    expect_field(&rt, &table, 0, 1, "id");
    expect_field(&rt, &table, 0, 2, "city");
    expect_field(&rt, &table, 1, 2, "Rome");
    expect_field(&rt, &table, 2, 1, "2");
    expect_field(&rt, &table, 2, 2, "Oslo, \"N\"");
    Ok(())
}

// One byte order mark, lines that end in CR LF, and a line break within quotes, which is kept as it stands.
#[test]
fn mark_and_line_breaks(rt: HostRuntime) -> Result<(), Fail> {
    let table = table(rt.alloc(), "\u{feff}a,b\r\n\"x, y\",\"New\r\nYork\"\r\n")?;
    expect_shape(&rt, &table, 2, 1);
    expect_field(&rt, &table, 0, 1, "a");
    expect_field(&rt, &table, 1, 1, "x, y");
    expect_field(&rt, &table, 1, 2, "New\r\nYork");
    Ok(())
}

// Without quotation marks: two byte order marks, lines that end in CR, in CR LF and in LF, empty lines, empty fields, and a
// last line without an end.
#[test]
fn lines_without_quotes(rt: HostRuntime) -> Result<(), Fail> {
    let table = table(rt.alloc(), "\r\u{feff}\u{feff}a,b\r\rc,\r\n\n,d'\n,")?;
    expect_shape(&rt, &table, 2, 3);
    expect_field(&rt, &table, 0, 1, "\u{feff}\u{feff}a");
    expect_field(&rt, &table, 0, 2, "b");
    expect_field(&rt, &table, 1, 1, "c");
    expect_field(&rt, &table, 1, 2, "");
    expect_field(&rt, &table, 2, 1, "");
    expect_field(&rt, &table, 2, 2, "d'");
    expect_field(&rt, &table, 3, 2, "");
    Ok(())
}

// Of three byte order marks two are dropped, with and without quotation marks.
#[test]
fn marks_before_lines(rt: HostRuntime) -> Result<(), Fail> {
    for text in [
        "\u{feff}\u{feff}\u{feff}a\n1",
        "\u{feff}\u{feff}\u{feff}a\n\"1\"",
    ] {
        let table = table(rt.alloc(), text)?;
        expect_shape(&rt, &table, 1, 1);
        expect_field(&rt, &table, 0, 1, "\u{feff}a");
        expect_field(&rt, &table, 1, 1, "1");
    }
    Ok(())
}

const REFUSED: [(&[u8], CsvRefused); 8] = [
    (b"", CsvRefused::NoHeader),
    (b"\xEF\xBB\xBF\r\n\n", CsvRefused::NoHeader),
    (
        b"a,b,c,d\n1,2,3\n",
        CsvRefused::Unequal {
            row: 2,
            want: 4,
            got: 3,
        },
    ),
    (b"a\n\xFF\n", CsvRefused::NotUtf8 { row: 2, field: 1 }),
    (b"a,\xC3\n1\n", CsvRefused::NotUtf8 { row: 1, field: 2 }),
    // The record is too long and no UTF-8: its length comes first.
    (
        b"a\n1\n\xFF,2\n",
        CsvRefused::Unequal {
            row: 3,
            want: 1,
            got: 2,
        },
    ),
    // Of two records at fault the first is named.
    (
        b"a,b\n1,\xFF\n1\n",
        CsvRefused::NotUtf8 { row: 2, field: 2 },
    ),
    (
        b"a,b\n1\n1,\xFF\n",
        CsvRefused::Unequal {
            row: 2,
            want: 2,
            got: 1,
        },
    ),
];

#[test]
fn refusals(rt: HostRuntime) {
    for (bytes, refused) in REFUSED {
        expect_refused(&rt, bytes, 1_024, refused);
    }
}

// Expects that a header of `most` fields is read, and one of a field more is refused.
fn expect_widest(rt: &(impl Abort + AllocGlobal), most: u32) -> Result<(), Fail>
    requires low { 1 ≤ most }
    requires high { most ≤ 4096 }
{
    let widest = commas(rt.alloc(), most - 1)?;
    let table = read_table(rt.alloc(), &widest, most)?;
    expect_shape(rt, &table, most, 0);
    expect_field(rt, &table, 0, most, "");
    let wider = commas(rt.alloc(), most)?;
    let got = u64::from(most) + 1;
    expect_refused(rt, &wider, most, CsvRefused::TooManyColumns { got });
    Ok(())
}

// A header has at most as many fields as are asked for.
#[test]
fn width(rt: HostRuntime) -> Result<(), Fail> {
    expect_widest(&rt, 2)?;
    expect_widest(&rt, 1_024)?;
    expect_widest(&rt, 4_096)
}

// Headers of more than two fields, and how many they have. The commas of a first line without quotes are counted before it is
// read, also after byte order marks; the crate `csv` reads the others.
const TOO_WIDE: [(&[u8], u64); 8] = [
    (b"a,b,c\n1,2\n", 3),
    (b",,,", 4),
    (b"a,b,c,d\r1,2,\"3\"\r", 4),
    (b"\xEF\xBB\xBFa,b,c\r\n1,2\n", 3),
    (b"\xEF\xBB\xBF\xEF\xBB\xBFa,b,c\n1,2\n", 3),
    (b"\na,b,c\n1,2\n", 3),
    (b"\"a,b\",c,d\n1,2\n", 3),
    (b"a,\"b\nb\",c,d,e\n1,2\n", 5),
];

#[test]
fn too_wide(rt: HostRuntime) {
    for (bytes, got) in TOO_WIDE {
        expect_refused(&rt, bytes, 2, CsvRefused::TooManyColumns { got });
    }
}

// Commas in quotes separate no fields.
#[test]
fn commas_in_quotes(rt: HostRuntime) -> Result<(), Fail> {
    let table = read_table(rt.alloc(), "\"a,b,c\",d\n1,2\n".as_bytes(), 2)?;
    expect_shape(&rt, &table, 2, 1);
    expect_field(&rt, &table, 0, 1, "a,b,c");
    Ok(())
}

//! A lake of real tables, with accents, letters of both cases and a line feed in a value, before and after a merge:
//! compared with the plain model.
use super::comparing::Laid;
use super::model::{Column, Counted, Part, search};
use crate::making::{empty, load, merge, name};
use cost_model::AlwaysRead;
use josie_search::SearchRoom;
use segment_core::Pin;
use std::alloc::Global;
use std::test::Fail;

// The tables: their names and their CSV bytes.
const TABLES: [(&str, &str); 3] = [
    (
        "stations",
        "\u{FEFF}station_id,city,country\r\n1,\"S\u{E3}o Paulo, SP\",Brazil\n2,Z\u{FC}rich,Switzerland\n3,\"New\nYork\",USA\n",
    ),
    (
        "weather",
        "place,temp\nZ\u{DC}RICH,12\n\"S\u{E3}o Paulo, SP\",25\nLima,18\n",
    ),
    (
        "census",
        "City,Country,Pop\nz\u{FC}rich,switzerland,400000\nOslo,Norway,700000\n\"s\u{E3}o paulo, sp\",Brazil,12000000\n",
    ),
];

// The same for the plain model, with the first letters of the columns' names, and a letter for each of the 18 keys, in
// the order of the keys' bytes: 1, 12, 12000000, 18, 2, 25, 3, 400000, 700000, brazil, lima, new york, norway, oslo, são
// paulo, switzerland, usa, zürich.
const LETTERS: [(&str, &str, u32); 3] = [
    ("stations", "s,c,c\na,o,j\ne,r,p\ng,l,q\n", 3),
    ("weather", "p,t\nr,b\no,f\nk,d\n", 2),
    ("census", "C,C,P\nr,p,h\nn,m,i\no,j,c\n", 3),
];

// The queries, each by the place of its column in `stations` and the letters of the column's keys: cities and countries.
const QUERIES: [(u32, &str); 2] = [(2, "orl"), (3, "jpq")];

// Returns the columns of a table of the plain model.
fn columns_of(
    alloc: Global,
    table: (&str, &'static str, u32),
    except: &str,
) -> Result<Vec<Column>, Fail> {
    let (title, text, count) = table;
    let mut columns = Vec::new(alloc);
    for place in 0..count.min(3) {
        columns.push(Column::new(title, text, place + 1, title != except))?;
    }
    Ok(columns)
}

// Returns the parts of the plain model as they are loaded, each with one table and numbered by its load.
fn loaded(alloc: Global, except: &str) -> Result<Vec<Part>, Fail> {
    let mut parts = Vec::new(alloc);
    for (i, table) in LETTERS.iter().enumerate() {
        let columns = columns_of(alloc, *table, except)?;
        parts.push(Part::new(alloc, i as u64 + 1, &columns)?)?;
    }
    Ok(parts)
}

// Returns the one part of the plain model that a merge makes; it is numbered by the swap, the fourth entry.
fn merged(alloc: Global, except: &str) -> Result<Vec<Part>, Fail> {
    let mut all = Vec::new(alloc);
    for table in LETTERS {
        let columns = columns_of(alloc, table, except)?;
        all.extend_from_slice(&columns)?;
    }
    let part = Part::new(alloc, 4, &all)?;
    Ok(vec![in alloc; part]?)
}

// Returns pins of the lake before and after all of its parts are merged.
fn pins(alloc: Global) -> Result<(Pin, Pin), Fail> {
    let mut lake = empty(alloc)?;
    for (title, text) in TABLES {
        load(&mut lake, alloc, title, text)?;
    }
    let before = lake.pin()?;
    merge(&mut lake, alloc, 3)?;
    Ok((before, lake.pin()?))
}

// Searches for the keys of a column of `stations`, with all choosers, without the columns of the excepted table.
fn compare(
    alloc: Global,
    pin: &Pin,
    parts: &[Part],
    query: (u32, &str),
    k: u32,
    except: &str,
) -> Result<(), Fail> {
    let (place, letters) = query;
    let query = pin.column(alloc, &name("stations")?, place)?;
    let (rows, _log) = search(alloc, parts, letters, k as usize, &AlwaysRead)?;
    let excepted = name(except)?;
    let laid = Laid {
        pin,
        parts,
        query: &query,
        letters,
        k,
        except: Some(&excepted),
        rows: &rows,
    };
    laid.compare_all(alloc, &mut SearchRoom::new())
}

// Searches for both columns, for one row, for two and for ten.
fn compare_each(alloc: Global, pin: &Pin, parts: &[Part], except: &str) -> Result<(), Fail> {
    for query in QUERIES {
        for k in [1, 2, 10] {
            compare(alloc, pin, parts, query, k, except)?;
        }
    }
    Ok(())
}

// `none` is not the name of a table.
#[test]
fn real_tables(rt: HostRuntime) -> Result<(), Fail> {
    let alloc = rt.alloc();
    let (before, after) = pins(alloc)?;
    for except in ["stations", "none"] {
        compare_each(alloc, &before, &loaded(alloc, except)?, except)?;
        compare_each(alloc, &after, &merged(alloc, except)?, except)?;
    }
    Ok(())
}

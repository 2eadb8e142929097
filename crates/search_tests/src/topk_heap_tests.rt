//! Tests which rows are kept, and in which order, of rows that are offered in another order.
use column_set::{Keys, Name, Row, Rows, TableSets};
use csv_table::read_table;
use std::alloc::Global;
use std::process::Abort;
use std::test::Fail;
use topk_heap::TopK;

// Returns a table of this name with the columns x, y and x.
fn table(alloc: Global, name: &str) -> Result<TableSets, Fail> {
    let name = Name::read(name.as_bytes()).ok_or("no name")?;
    let Ok(raw) = read_table(alloc, "x,y,x\n1,2,3\n".as_bytes(), 1_024) else {
        return Err(Fail::from("no table"));
    };
    let Ok(table) = TableSets::build(alloc, Keys::Canonical, name, &raw) else {
        return Err(Fail::from("no sets"));
    };
    Ok(table)
}

// Offers the row of a column.
fn offer<'a>(
    top: &mut TopK<'a>,
    table: &'a TableSets,
    place: u32,
    overlap: u32,
) -> Result<(), Fail> {
    if place == 0 || place > table.columns() {
        return Err(Fail::from("no such column"));
    }
    top.offer(Row {
        overlap,
        titles: table.titles(),
        place,
    });
    Ok(())
}

// Expects these rows, given by overlap and place.
fn expect_rows(rt: &impl Abort, rows: &Rows<'_>, want: &[(u32, u32)]) {
    assert_eq!(rt; rows.list().len(), want.len());
    for (row, (overlap, place)) in rows.list().iter().zip(want) {
        assert!(rt;
            row.overlap == *overlap && row.place == *place,
            "not {overlap} at {place}"
        );
    }
}

// Of the columns of two tables, the three with the greatest overlap are kept. Of equal ones the lower table name is
// kept, then the lower column name, and then the lower place.
#[test]
fn first_three(rt: HostRuntime) -> Result<(), Fail> {
    let alloc = rt.alloc();
    let b = table(alloc, "b")?;
    let a = table(alloc, "a")?;
    let mut top = TopK::new(alloc, 3)?;
    assert!(rt; !top.full() && top.worst().is_none());
    for (table, place, overlap) in [(&b, 1, 2), (&a, 3, 2), (&a, 2, 2), (&b, 2, 7), (&a, 1, 2)] {
        offer(&mut top, table, place, overlap)?;
    }
    assert!(rt; top.full());
    expect_rows(&rt, &top.into_rows(), &[(7, 2), (2, 1), (2, 3)]);
    Ok(())
}

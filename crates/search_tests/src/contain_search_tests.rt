//! Worked runs of the search for a fraction of a query: the looks and the rows of a small lake, which follow from the
//! rules by hand. All columns are named c.

use crate::answers::{expect_looks, expect_rows, probe, read};
use crate::making::{drop_table, empty, load};
use catalogue::Catalogue;
use column_set::{Keys, QuerySet};
use contain_search::prepare_contain;
use segment_build::index_pin;
use segment_core::Look;
use std::alloc::Global;
use std::process::Abort;
use std::test::Fail;

// Returns a lake of three tables, which have four, two and one of the keys.
fn three(alloc: Global) -> Result<Catalogue, Fail> {
    let mut lake = empty(alloc)?;
    load(&mut lake, alloc, "t1", "c\na\nb\nc\nd\n")?;
    load(&mut lake, alloc, "t2", "c\na\nb\n")?;
    load(&mut lake, alloc, "t3", "c\na\n")?;
    Ok(lake)
}

// Searches for 1 / b of a query, and expects these rows and looks.
fn expect(
    rt: &(impl Abort + AllocGlobal),
    lake: &Catalogue,
    body: &str,
    b: u32,
    rows: &[(u32, &str)],
    looks: &[Look],
) -> Result<(), Fail> {
    if b == 0 || b > 10_000 {
        return Err(Fail::from("no fraction"));
    }
    let alloc = rt.alloc();
    let pin = lake.pin()?;
    let query = QuerySet::read(alloc, Keys::Canonical, body.as_bytes())?;
    let indexed = index_pin(alloc, &pin)?;
    let answer = prepare_contain(alloc, indexed.looks(alloc), &query, 1, b)?.run();
    expect_rows(rt, &answer.rows, rows);
    expect_looks(rt, &answer.looks, looks);
    Ok(())
}

// Returns the looks if two of the four keys are needed. Three lists of the first part leave its column at a count of 3
// and a bound of 4; one list of the second part leaves its column at 1 and 2; and the third part has only one token.
fn looks_for_two() -> [Look; 6] {
    [
        read(1, 0),
        read(1, 1),
        read(1, 2),
        probe(1, 0, 2),
        read(2, 0),
        probe(2, 0, 0),
    ]
}

#[test]
fn half_of_the_query(rt: HostRuntime) -> Result<(), Fail> {
    let lake = three(rt.alloc())?;
    expect(
        &rt,
        &lake,
        "a\nb\nc\nd\n",
        2,
        &[(4, "t1"), (2, "t2")],
        &looks_for_two(),
    )
}

// Four keys are needed, and only the first part has them.
#[test]
fn all_of_the_query(rt: HostRuntime) -> Result<(), Fail> {
    let lake = three(rt.alloc())?;
    let looks = [read(1, 0), probe(1, 0, 0)];
    expect(&rt, &lake, "a\nb\nc\nd\n", 1, &[(4, "t1")], &looks)
}

// A third of four keys is rounded up to two, so the looks are those for half of the query. One part in ten thousand is
// rounded up to one key, so all lists are read, and no column is left to probe.
#[test]
fn a_fraction_is_rounded_up(rt: HostRuntime) -> Result<(), Fail> {
    let lake = three(rt.alloc())?;
    let rows = [(4, "t1"), (2, "t2"), (1, "t3")];
    let lists = [
        read(1, 0),
        read(1, 1),
        read(1, 2),
        read(1, 3),
        read(2, 0),
        read(2, 1),
        read(3, 0),
    ];
    expect(&rt, &lake, "a\nb\nc\nd\n", 3, &rows[..2], &looks_for_two())?;
    expect(&rt, &lake, "a\nb\nc\nd\n", 10_000, &rows, &lists)
}

// The lists of a part with a marked table are read, but its column is neither probed nor found.
#[test]
fn a_marked_table(rt: HostRuntime) -> Result<(), Fail> {
    let alloc = rt.alloc();
    let mut lake = three(alloc)?;
    drop_table(&mut lake, "t1")?;
    let looks = [
        read(1, 0),
        read(1, 1),
        read(1, 2),
        read(2, 0),
        probe(2, 0, 0),
    ];
    expect(&rt, &lake, "a\nb\nc\nd\n", 2, &[(2, "t2")], &looks)
}

// A query without keys has no rows, and an empty lake has none for any query.
#[test]
fn nothing_to_find(rt: HostRuntime) -> Result<(), Fail> {
    let alloc = rt.alloc();
    expect(&rt, &three(alloc)?, "\n", 2, &[], &[])?;
    expect(&rt, &empty(alloc)?, "a\nb\nc\nd\n", 2, &[], &[])
}

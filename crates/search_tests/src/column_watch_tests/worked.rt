//! Worked runs: rows that follow by hand from the definition of an answer. All columns are named c.

use super::entries::{take, watch};
use crate::making::Change;
use column_set::Row;
use column_watch::Watches;
use std::process::Abort;
use std::test::Fail;

// What is expected of a query: whether the last entry changed its answer, how many columns share a key with it, and the
// overlap, the table and the place of each row of the answer.
type Want<'w> = (bool, u64, &'w [(u32, &'w str, u32)]);

// An entry, and what is expected of each of the three queries after it.
type Step<'s> = (Change<'s>, [Want<'s>; 3]);

fn is_row(row: &Row<'_>, overlap: u32, table: &str, place: u32) -> bool {
    row.overlap == overlap && row.table().text() == table && row.place == place
}

fn expect(rt: &impl Abort, watches: &Watches, w: u32, want: Want<'_>) -> Result<(), Fail> {
    if w == 0 || w > watches.queries() {
        return Err(Fail::from("no such query"));
    }
    let (changed, kept, first) = want;
    assert_eq!(rt;
        watches.changed(w),
        changed,
        "query {w} after {}",
        watches.at()
    );
    assert_eq!(rt; watches.kept(w), kept, "query {w} after {}", watches.at());
    let rows = watches.rows(w)?;
    assert_eq!(rt; rows.list().len(), first.len());
    for (row, (overlap, table, place)) in rows.list().iter().zip(first) {
        assert!(rt;
            is_row(row, *overlap, table, *place),
            "not {overlap} of {table}"
        );
    }
    Ok(())
}

fn expect_all(rt: &impl Abort, watches: &Watches, want: &[Want<'_>; 3]) -> Result<(), Fail> {
    expect(rt, watches, 1, want[0])?;
    expect(rt, watches, 2, want[1])?;
    expect(rt, watches, 3, want[2])
}

// Watches three queries of k rows each, and takes the entries one after another.
fn run(
    rt: &(impl Abort + AllocGlobal),
    bodies: [&str; 3],
    k: u32,
    steps: &[Step<'_>],
) -> Result<(), Fail> {
    let alloc = rt.alloc();
    let mut watches = watch(alloc, bodies, k)?;
    expect_all(rt, &watches, &[(false, 0, &[]); 3])?;
    for (change, want) in steps {
        take(&mut watches, alloc, *change)?;
        expect_all(rt, &watches, want)?;
    }
    assert_eq!(rt; watches.at(), steps.len() as u64);
    Ok(())
}

// The row of s moves behind the first one, and comes back when t goes. A table that shares no key changes nothing.
const FIRST_ROW: [Step<'_>; 4] = [
    (
        Change::Load("s", "c\na\n"),
        [(true, 1, &[(1, "s", 1)]), (false, 0, &[]), (false, 0, &[])],
    ),
    (
        Change::Load("t", "c\na\nb\n"),
        [(true, 2, &[(2, "t", 1)]), (false, 0, &[]), (false, 0, &[])],
    ),
    (
        Change::Drop("t"),
        [(true, 1, &[(1, "s", 1)]), (false, 0, &[]), (false, 0, &[])],
    ),
    (
        Change::Load("u", "c\nz\n"),
        [
            (false, 1, &[(1, "s", 1)]),
            (true, 1, &[(1, "u", 1)]),
            (false, 0, &[]),
        ],
    ),
];

#[test]
fn first_row(rt: HostRuntime) -> Result<(), Fail> {
    run(&rt, ["a\nb\n", "z\n", "y\n"], 1, &FIRST_ROW)
}

// With two rows, and a query of the key z: the first three entries change the first query, and the last changes the
// second.
const TWO_ROWS: [Step<'_>; 4] = [
    (
        Change::Load("s", "c\na\n"),
        [
            (true, 1, &[(1, "s", 1)]),
            (false, 0, &[]),
            (true, 1, &[(1, "s", 1)]),
        ],
    ),
    (
        Change::Load("t", "c\na\nb\n"),
        [
            (true, 2, &[(2, "t", 1), (1, "s", 1)]),
            (false, 0, &[]),
            (true, 2, &[(1, "s", 1), (1, "t", 1)]),
        ],
    ),
    (
        Change::Drop("t"),
        [
            (true, 1, &[(1, "s", 1)]),
            (false, 0, &[]),
            (true, 1, &[(1, "s", 1)]),
        ],
    ),
    (
        Change::Load("u", "c\nz\n"),
        [
            (false, 1, &[(1, "s", 1)]),
            (true, 1, &[(1, "u", 1)]),
            (true, 2, &[(1, "s", 1), (1, "u", 1)]),
        ],
    ),
];

#[test]
fn two_rows(rt: HostRuntime) -> Result<(), Fail> {
    run(&rt, ["a\nb\n", "z\n", "a\nz\n"], 2, &TWO_ROWS)
}

// A replace removes the rows of the old table; a replace by the same keys changes nothing, and neither does a merge.
const REPLACES: [Step<'_>; 5] = [
    (
        Change::Load("s", "c,c\na,z\nb,a\n"),
        [
            (true, 2, &[(2, "s", 1), (1, "s", 2)]),
            (true, 1, &[(1, "s", 2)]),
            (false, 0, &[]),
        ],
    ),
    (
        Change::Load("t", "c\nb\n"),
        [
            (true, 3, &[(2, "s", 1), (1, "s", 2), (1, "t", 1)]),
            (false, 1, &[(1, "s", 2)]),
            (false, 0, &[]),
        ],
    ),
    (
        Change::Merge,
        [
            (false, 3, &[(2, "s", 1), (1, "s", 2), (1, "t", 1)]),
            (false, 1, &[(1, "s", 2)]),
            (false, 0, &[]),
        ],
    ),
    (
        Change::Replace("s", "c\nb\n"),
        [
            (true, 2, &[(1, "s", 1), (1, "t", 1)]),
            (true, 0, &[]),
            (false, 0, &[]),
        ],
    ),
    (
        Change::Replace("s", "c\na\n"),
        [
            (false, 2, &[(1, "s", 1), (1, "t", 1)]),
            (false, 0, &[]),
            (false, 0, &[]),
        ],
    ),
];

#[test]
fn replaces_and_a_merge(rt: HostRuntime) -> Result<(), Fail> {
    run(&rt, ["a\nb\n", "z\n", "y\n"], 10, &REPLACES)
}

// Each table has two columns. Rows behind the third come forward when a table before them goes or is replaced, and
// names come back with other keys.
const ROWS_BEHIND: [Step<'_>; 12] = [
    (
        Change::Load("ant", "c,c\na,d\nb,e\nc, \n"),
        [
            (true, 2, &[(3, "ant", 1), (1, "ant", 2)]),
            (true, 2, &[(2, "ant", 2), (1, "ant", 1)]),
            (true, 1, &[(1, "ant", 2)]),
        ],
    ),
    (
        Change::Load("bee", "c,c\nb,a\n ,b\n ,d\n"),
        [
            (true, 4, &[(3, "ant", 1), (3, "bee", 2), (1, "ant", 2)]),
            (true, 4, &[(2, "ant", 2), (2, "bee", 2), (1, "ant", 1)]),
            (false, 1, &[(1, "ant", 2)]),
        ],
    ),
    (
        Change::Load("cat", "c,c\ne,a\n ,c\n ,d\n"),
        [
            (true, 5, &[(3, "ant", 1), (3, "bee", 2), (3, "cat", 2)]),
            (false, 6, &[(2, "ant", 2), (2, "bee", 2), (1, "ant", 1)]),
            (true, 2, &[(1, "ant", 2), (1, "cat", 1)]),
        ],
    ),
    (
        Change::Load("dog", "c,c\na,b\nb,e\nc, \nd, \n"),
        [
            (true, 7, &[(4, "dog", 1), (3, "ant", 1), (3, "bee", 2)]),
            (true, 8, &[(2, "ant", 2), (2, "bee", 2), (2, "dog", 1)]),
            (true, 3, &[(1, "ant", 2), (1, "cat", 1), (1, "dog", 2)]),
        ],
    ),
    (
        Change::Drop("ant"),
        [
            (true, 5, &[(4, "dog", 1), (3, "bee", 2), (3, "cat", 2)]),
            (true, 6, &[(2, "bee", 2), (2, "dog", 1), (2, "dog", 2)]),
            (true, 2, &[(1, "cat", 1), (1, "dog", 2)]),
        ],
    ),
    (
        Change::Replace("bee", "c,c\ne,a\n ,e\n"),
        [
            (true, 4, &[(4, "dog", 1), (3, "cat", 2), (1, "bee", 2)]),
            (true, 6, &[(2, "dog", 1), (2, "dog", 2), (1, "bee", 1)]),
            (true, 4, &[(1, "bee", 1), (1, "bee", 2), (1, "cat", 1)]),
        ],
    ),
    (
        Change::Load("ant", "c,c\n ,c\n ,d\n"),
        [
            (true, 5, &[(4, "dog", 1), (3, "cat", 2), (2, "ant", 2)]),
            (true, 7, &[(2, "dog", 1), (2, "dog", 2), (1, "ant", 2)]),
            (false, 4, &[(1, "bee", 1), (1, "bee", 2), (1, "cat", 1)]),
        ],
    ),
    (
        Change::Drop("dog"),
        [
            (true, 3, &[(3, "cat", 2), (2, "ant", 2), (1, "bee", 2)]),
            (true, 5, &[(1, "ant", 2), (1, "bee", 1), (1, "bee", 2)]),
            (false, 3, &[(1, "bee", 1), (1, "bee", 2), (1, "cat", 1)]),
        ],
    ),
    (
        Change::Replace("cat", "c,c\nb, \nd, \ne, \n"),
        [
            (true, 3, &[(2, "ant", 2), (2, "cat", 1), (1, "bee", 2)]),
            (true, 4, &[(3, "cat", 1), (1, "ant", 2), (1, "bee", 1)]),
            (false, 3, &[(1, "bee", 1), (1, "bee", 2), (1, "cat", 1)]),
        ],
    ),
    (
        Change::Load("dog", "c,c\ne,e\n"),
        [
            (false, 3, &[(2, "ant", 2), (2, "cat", 1), (1, "bee", 2)]),
            (false, 6, &[(3, "cat", 1), (1, "ant", 2), (1, "bee", 1)]),
            (false, 5, &[(1, "bee", 1), (1, "bee", 2), (1, "cat", 1)]),
        ],
    ),
    (
        Change::Drop("bee"),
        [
            (true, 2, &[(2, "ant", 2), (2, "cat", 1)]),
            (true, 4, &[(3, "cat", 1), (1, "ant", 2), (1, "dog", 1)]),
            (true, 3, &[(1, "cat", 1), (1, "dog", 1), (1, "dog", 2)]),
        ],
    ),
    (
        Change::Drop("cat"),
        [
            (true, 1, &[(2, "ant", 2)]),
            (true, 3, &[(1, "ant", 2), (1, "dog", 1), (1, "dog", 2)]),
            (true, 2, &[(1, "dog", 1), (1, "dog", 2)]),
        ],
    ),
];

#[test]
fn rows_behind_the_first(rt: HostRuntime) -> Result<(), Fail> {
    run(&rt, ["a\nb\nc\nd\n", "b\nd\ne\n", "e\n"], 3, &ROWS_BEHIND)
}

//! The order of the columns of a few tables, and whether it is strict: of three tables, two of which have the same
//! name, and of two with different names, or with the same name and columns that differ in place or name alone.
use crate::making::table;
use column_set::SharedTable;
use std::process::Abort;
use std::test::Fail;
use title_order::order_columns;

// Expects this order of the columns of the tables, and that it is strict or not.
fn expect_order(
    rt: &(impl Abort + AllocGlobal),
    tables: &[SharedTable],
    by_rank: &[u32],
    ranks: &[u32],
    is_strict: bool,
) -> Result<(), Fail> {
    let order = order_columns(rt.alloc(), tables)?;
    assert_eq!(rt; order.by_rank.as_slice(), by_rank);
    assert_eq!(rt; order.ranks.as_slice(), ranks);
    assert_eq!(rt; order.is_strict, is_strict);
    Ok(())
}

// The table `a` has the columns q, p and q, the table `b` a column p, and another table `a` the columns q and b. Tables
// are ordered by their names, then columns by theirs, and equal names by their places; if these are equal, too, the
// table that is first in the list comes first. The order is not strict, since two tables `a` begin with a column q.
#[test]
fn names_places_numbers(rt: HostRuntime) -> Result<(), Fail> {
    let first = table(rt.alloc(), "a", "q,p,q\n1,2,3\n")?;
    let second = table(rt.alloc(), "b", "p\n1\n")?;
    let third = table(rt.alloc(), "a", "q,b\n1,2\n")?;
    let tables = vec![in rt.alloc(); first, second, third]?;
    expect_order(
        &rt,
        &tables,
        &[5, 1, 0, 4, 2, 3],
        &[2, 1, 4, 5, 3, 0],
        false,
    )
}

// Columns of tables with different names differ, even if they have the same name and place.
#[test]
fn distinct_tables(rt: HostRuntime) -> Result<(), Fail> {
    let first = table(rt.alloc(), "a", "q,p\n1,2\n")?;
    let second = table(rt.alloc(), "b", "q\n1\n")?;
    let tables = vec![in rt.alloc(); first, second]?;
    expect_order(&rt, &tables, &[1, 0, 2], &[1, 0, 2], true)
}

// Columns of tables with the same name differ if their places or their names do: of two tables `a`, the one has the
// columns p and q, and the other r and p.
#[test]
fn distinct_columns(rt: HostRuntime) -> Result<(), Fail> {
    let first = table(rt.alloc(), "a", "p,q\n1,2\n")?;
    let second = table(rt.alloc(), "a", "r,p\n1,2\n")?;
    let tables = vec![in rt.alloc(); first, second]?;
    expect_order(&rt, &tables, &[0, 3, 1, 2], &[0, 2, 3, 1], true)
}

// Two tables with the same name and one column of the same name each have an order by their numbers, which is not
// strict.
#[test]
fn same_titles(rt: HostRuntime) -> Result<(), Fail> {
    let first = table(rt.alloc(), "a", "p\n1\n")?;
    let second = table(rt.alloc(), "a", "p\n2\n")?;
    let tables = vec![in rt.alloc(); first, second]?;
    expect_order(&rt, &tables, &[0, 1], &[0, 1], false)
}

// A list of no tables has no columns, and its order is strict.
#[test]
fn no_table(rt: HostRuntime) -> Result<(), Fail> {
    expect_order(&rt, &[], &[], &[], true)
}

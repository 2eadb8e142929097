//! Two worked segments. The first is that of the table `t`, whose column `p` has the keys z and a, and whose column `q`
//! has a: its token 0 is z, which one column holds, and its token 1 is a, which both hold. The second is that of 300
//! tables of one column, each with the key x and with its own number, so that its list of x is too long for a one-byte
//! count.
ghost use Rattle.std.specs.Prelude.{◌<◌, ◌≤◌, ◌^◌, length, sum_by, IfOk};
ghost use Rattle.lake_model.specs.Tables.{members};

use crate::making::{segment, table};
use column_set::SharedTable;
use segment_build::build;
use segment_core::Segment;
use std::alloc::Global;
use std::test::Fail;

// Returns the table with this number. Its one column has the keys x and the number.
fn numbered_table(alloc: Global, number: u32) -> Result<SharedTable, Fail>
    ensures columns { IfOk result (λ table. length table.columns ≤ 3) }
    ensures members { IfOk result (λ table. members table ≤ 3) }
{
    let title = format!(in alloc; "t{number}")?;
    let text = format!(in alloc; "v\nx\n{number}\n")?;
    let numbered = table(alloc, title.as_str(), text.as_str())?;
    if numbered.table().members() > 3 || numbered.table().columns() > 3 {
        return Err(Fail::from("a large table"));
    }
    Ok(numbered)
}

// Returns the tables with the 300 numbers from 100 on, which have three digits each.
fn numbered_tables(alloc: Global) -> Result<Vec<SharedTable>, Fail>
    ensures columns { IfOk result (λ tables. sum_by (λ t. length t.columns) tables.items < 2 ^ 32) }
    ensures members { IfOk result (λ tables. sum_by members tables.items < 2 ^ 32) }
{
    let mut tables = Vec::new(alloc);
    for number in 100..400 {
        tables.push(numbered_table(alloc, number)?)?;
    }
    Ok(tables)
}

// Returns whether a key has this token, and so many columns hold it.
fn holds(segment: &Segment, key: &str, token: u32, held: u32) -> bool {
    let Some(index) = segment.index() else {
        return false;
    };
    match index.lookup(key) {
        Some(found) => found == token && index.list_len(found) == held,
        None => false,
    }
}

// Returns whether the index of the segment shows that no column has the key.
fn lacks(segment: &Segment, key: &str) -> bool {
    match segment.index() {
        Some(index) => index.lookup(key).is_none(),
        None => false,
    }
}

// The tokens of keys, and how many columns hold them.
#[test]
fn tokens(rt: HostRuntime) -> Result<(), Fail> {
    let worked = table(rt.alloc(), "t", "p,q\nz,a\na,\n")?;
    let segment = segment(rt.alloc(), &worked)?;
    assert!(rt; segment.sets() == 2 && lacks(&segment, "b"));
    assert!(rt; holds(&segment, "z", 0, 1));
    assert!(rt; holds(&segment, "a", 1, 2));
    Ok(())
}

// Two pairs of keys with the same low 32 bits of SipHash-1-3: each key that the column has is found, and the other one
// is not.
#[test]
fn colliding_keys(rt: HostRuntime) -> Result<(), Fail> {
    let colliding = table(rt.alloc(), "t", "v\namuailfi\naifkedci\narwenplj\n")?;
    let segment = segment(rt.alloc(), &colliding)?;
    assert!(rt; holds(&segment, "aifkedci", 0, 1));
    assert!(rt; holds(&segment, "arwenplj", 2, 1));
    assert!(rt; holds(&segment, "amuailfi", 1, 1));
    assert!(rt; lacks(&segment, "azqqhdww"));
    Ok(())
}

// A key in each of 300 tables: its token is the last, and its list has all the columns.
#[test]
fn long_list(rt: HostRuntime) -> Result<(), Fail> {
    let segment = build(rt.alloc(), numbered_tables(rt.alloc())?)?;
    assert_eq!(rt; segment.sets(), 300);
    assert!(rt; holds(&segment, "100", 0, 1));
    assert!(rt; holds(&segment, "399", 299, 1));
    assert!(rt; holds(&segment, "x", 300, 300));
    Ok(())
}

//! What an answer is expected to be: its rows, and its looks.

use column_set::{Row, Rows};
use segment_core::{Look, Looks};
use std::process::Abort;

/// Returns the look that reads the list of a token.
pub(crate) fn read(part: u64, token: u32) -> Look {
    Look::Read { part, token }
}

/// Returns the look that probes a set.
pub(crate) fn probe(part: u64, set: u32, after: u32) -> Look {
    Look::Probe { part, set, after }
}

fn is_row(row: &Row<'_>, overlap: u32, table: &str) -> bool {
    row.overlap == overlap && row.table().text() == table && row.column() == "c" && row.place == 1
}

/// Expects these rows, given by overlap and table; each is of the first column, which is named c.
pub(crate) fn expect_rows(rt: &impl Abort, rows: &Rows<'_>, want: &[(u32, &str)]) {
    assert_eq!(rt; rows.list().len(), want.len());
    for (row, (overlap, table)) in rows.list().iter().zip(want) {
        assert!(rt; is_row(row, *overlap, table), "not {overlap} of {table}");
    }
}

/// Expects these looks, and that they are counted.
pub(crate) fn expect_looks(rt: &impl Abort, looks: &Looks<'_>, want: &[Look]) {
    assert_eq!(rt; looks.log(), want);
    let mut reads = 0u64;
    for look in want {
        if let Look::Read { .. } = look {
            reads = reads.saturating_add(1);
        }
    }
    assert_eq!(rt; looks.reads(), reads);
    assert_eq!(rt; looks.probes(), (want.len() as u64).saturating_sub(reads));
}

//! The reply to a command.

use catalogue::KeptName;
use column_set::KeptRows;
use lake_model::Which;
use segment_core::{Layout, TableLines};

/// The reply to a command. A position `at` is the length of the journal at which the reply was made.
#[derive(Drop)]
pub enum Reply {
    /// The table was loaded, as entry `at` of the journal.
    Loaded {
        name: KeptName,
        columns: u32,
        members: u64,
        at: u64,
    },
    /// The table was dropped, by entry `at` of the journal.
    Dropped {
        name: KeptName,
        at: u64,
    },
    /// The table replaced the live table of its name, as entry `at` of the journal.
    Replaced {
        name: KeptName,
        columns: u32,
        members: u64,
        at: u64,
    },
    /// The live tables, in the order of their loads.
    Listed {
        tables: TableLines,
        at: u64,
    },
    /// The rows that answer a query of `query` keys, over the layout that was searched. To find them, `reads` posting
    /// lists were read and `probes` sets probed.
    Found {
        query: u32,
        rows: KeptRows,
        reads: u64,
        probes: u64,
        layout: Layout,
    },
    /// The rows that answer a query of `query` keys over the tables that were live after the first `asked` entries of
    /// the journal.
    Past {
        query: u32,
        rows: KeptRows,
        asked: u64,
        at: u64,
    },
    /// The `parts` parts that were planned were replaced by one part of `tables` tables, or by none if `tables` is 0,
    /// by entry `at` of the journal. The layout is the one in which the merge was planned.
    Merged {
        layout: Layout,
        parts: u64,
        tables: u64,
        at: u64,
    },
    /// The bytes have no record.
    NoHeader,
    /// The header has `got` fields, more than a table may have columns.
    TooManyColumns {
        got: u64,
    },
    /// The record `row`, counted from 1 with the header, has `got` fields, but the header has `want`.
    Unequal {
        row: u64,
        want: u64,
        got: u64,
    },
    /// This field of this record, both counted from 1, is not UTF-8.
    NotUtf8 {
        row: u64,
        field: u64,
    },
    /// The column at this place, counted from 1, has more than 4,194,304 distinct keys.
    TooManyValues {
        place: u32,
    },
    /// The shelf failed when the file was fetched, and counted a fault.
    FileFailed,
    /// No file has the path.
    FileMissing,
    /// The file has more than 67,108,864 bytes.
    FileTooLong,
    /// A table of this name is live.
    Repeated {
        name: KeptName,
        at: u64,
    },
    /// No table of this name is live.
    Unknown {
        name: KeptName,
        at: u64,
    },
    /// The live table of this name has no column at this place, which counts from 1.
    NoColumn {
        name: KeptName,
        place: u32,
        at: u64,
    },
    /// The limit `which` would be passed: there are `count`, and the command would add `more`.
    Full {
        which: Which,
        count: u64,
        more: u64,
        at: u64,
    },
    /// This line of the query, counted from 1, is not UTF-8.
    QueryNotUtf8 {
        line: u64,
    },
    /// The query has more than 4,194,304 distinct keys.
    QueryTooLarge,
    /// This layout has no parts to merge.
    NothingToMerge {
        layout: Layout,
    },
    /// A search of the past names `asked` entries, but the journal is shorter.
    Later {
        asked: u64,
        at: u64,
    },
    /// The merge was planned in this layout, and `gone` is the number of the first planned part that is no longer there
    /// at `at`.
    Stale {
        layout: Layout,
        gone: u64,
        at: u64,
    },
    /// Memory ran out.
    NoMemory,
}

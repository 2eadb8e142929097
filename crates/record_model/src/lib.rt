//! The definitions of the result of a run: replies, the record of a run, the play of batches in a stated order, right
//! records, the texts that are written, and the table of statuses. There is no code here except the plain types that
//! both the code and the definitions use, and the laws of the definitions.
#![tactic(auto)]

mod laws;

pub use laws::{batches_law, in_turn_law, played_is_right_law, right_lanes_law};
use script_model::Reason;

/// Why a file that the command line names gives no query.
#[derive(Clone, Copy, Debug, PartialEq, Eq)]
pub enum GivenWhy {
    /// It could not be read.
    Failed,
    /// There is no such file.
    Missing,
    /// It has more than 67,108,864 bytes.
    TooLong,
    /// The line, counted from 1, is the first that is not UTF-8.
    NotUtf8 { line: u64 },
    /// Its lines have more than 4,194,304 distinct keys.
    TooManyValues,
}

/// How a run ended.
#[derive(Clone, Copy, Debug, PartialEq, Eq)]
pub enum Status {
    /// The source was read to its end, and all text was written.
    Done,
    /// The line, counted from 1, is the first that is at fault.
    Script { line: u64, reason: Reason },
    /// The command line is refused, and nothing was read or written.
    Usage,
    /// The path with this number on the command line, counted from 1, is the first that gives no query, for this
    /// reason. The source was not read, and nothing was written.
    Given { path: u32, why: GivenWhy },
    /// The source failed.
    ReadFault,
    /// The sink failed.
    WriteFault,
    /// The source was read to its end, but the trace that was checked is not that of any right run of the script. All
    /// text was written.
    Refuted,
    /// Memory ran out.
    NoMemory,
}

//! What a search returns.

use column_set::Rows;
use segment_core::Looks;

/// The rows of an answer, and the looks with the log of what was read for it.
#[derive(Drop)]
pub struct Answer<'a> {
    pub rows: Rows<'a>,
    pub looks: Looks<'a>,
}

//! What the lists read so far say of each column.

/// How many of the lists read hold a column, and how many of its tokens come after the last of these.
#[derive(Clone, Copy)]
pub struct Tally {
    pub count: u32,
    pub rest: u32,
}

impl Tally {
    /// The tally of a column that is in no list.
    pub const NONE: Tally = Tally { count: 0, rest: 0 };
}

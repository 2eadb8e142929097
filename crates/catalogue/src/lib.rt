//! The journal of a lake, entry by entry, with what follows from it: the version in which its live tables are searched,
//! their names, and what counts against the limits of the lake. A load, a drop, a replace or a swap that is refused
//! changes nothing.
#![tactic(auto)]

mod catalogue;
mod entry;
mod kept_name;
mod names;
mod refusal;
mod replacing;
mod swapping;

pub use catalogue::Catalogue;
pub use entry::{Entry, What};
pub use kept_name::KeptName;
pub use lake_model::{Counts, Which, Who};
pub use refusal::{DropRefused, LoadRefused, ReplaceRefused, SwapRefused};

/// The limits of a lake: the most that its counts may be. `Limits::standard()` returns those of a lake as shipped.
pub type Limits = Counts;

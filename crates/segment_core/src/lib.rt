//! Segments of a lake, the versions that hold them, and everything that a search may ask of a version, with a log of
//! what it reads.
#![tactic(auto)]

mod column;
mod find;
mod finding;
mod hashed;
mod hashes;
mod index;
mod indexed;
mod layout;
mod looks;
mod numbers;
mod order;
mod pin;
mod plan;
mod segment;
mod sorting;
mod swap;
mod version;

pub use column::ColumnRefused;
pub use hashed::HashedQuery;
pub use hashes::{HashOrder, HashedToken, hash_key, order_by_hash};
pub use index::SegmentIndex;
pub use indexed::{IndexedPin, PartIndex};
pub use layout::{Layout, Places, TableLines};
pub use looks::Looks;
pub use numbers::{Marks, Numbers};
pub use order::{ColumnOrder, RankedTitles};
pub use pin::Pin;
pub use plan::{Merged, Plan};
pub use search_model::{Look, Owner, Posting, TokenAt};
pub use segment::Segment;
pub use version::{Part, Version};

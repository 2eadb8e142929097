//! The tests on the positions in the hints of a trace, which find most wrong traces before any reply is made again, and
//! the order in which the replies of the other traces are made again.
#![tactic(auto)]

ghost use Rattle.trace_numbers.specs.Positions.{CountedIsAccepted, OwnerIsFound, PassesNumbers};

mod numbers;
mod order;
mod owners;
mod rising;

pub use numbers::find_owners;
pub use order::{Plan, Turn, planned_at, plans_of, turns_of};
pub use owners::Owners;

/// What passes has passed the tests on numbers; the entry at a position is rebuilt from the command of its owner; and
/// there are as many owners as entries.
pub fn numbers_law()
    ensures passes { PassesNumbers }
    ensures found { OwnerIsFound }
    ensures counted { CountedIsAccepted }
{}

//! The laws on which the replay of a trace relies: where the positions of answers are, what the journal is at each of
//! them, and which facts at the end decide the verdict. There is no code here: each law is the contract of a function
//! that does nothing.
#![tactic(auto)]

ghost use Rattle.trace_ends.specs.Ends.{EndsDecide};
ghost use Rattle.trace_ends.specs.Fronts.{FrontsAreTaken, FrontsAreWhole, NextIsPut, NextIsRebuilt, ReplyIsMade, UnplannedIsNow};
ghost use Rattle.trace_ends.specs.Within.{AcceptedOwns, OwnerIsMade, PositionsWithin};

use trace_numbers::numbers_law;

/// If hints pass the tests on numbers, all their positions are within the journal; the owner of an entry is made
/// immediately before it, and each accepted answer is an owner.
pub fn within_law()
    ensures within { PositionsWithin }
    ensures made { OwnerIsMade }
    ensures owns { AcceptedOwns }
{}

/// The journal of the remade record at each position, and the replies that are made there.
pub fn fronts_law()
    ensures unplanned { UnplannedIsNow }
    ensures reply { ReplyIsMade }
    ensures rebuilt { NextIsRebuilt }
    ensures next { NextIsPut }
    ensures taken { FrontsAreTaken }
    ensures whole { FrontsAreWhole }
{}

/// The verdict is true exactly if the facts at the end of a replay hold.
pub fn ends_law()
    ensures { EndsDecide }
{
    numbers_law();
}

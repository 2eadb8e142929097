//! The laws of play. Each is the contract of a function that does nothing.

ghost use Rattle.record_model.specs.PlayLaws.{AnswersGoOn, AnswersStayRight, BatchIsPlayed, BatchesGoOn, GoesOnInTurn, PlayedIsRight};

use layout_laws::plans_law;

/// A record that batches played is right: its journal is legal, the caller of each entry is at most the number of
/// lanes, and each lane's answers are right between the lengths of the journal that its syncs give. It may be played in
/// any stated order, on any number of lanes, with merges in its batches and a merger beside them, and memory may run
/// out at any turn.
pub fn played_is_right_law()
    ensures { PlayedIsRight }
{
    // A merge may end at a later journal than the one at which it was planned.
    plans_law();
}

/// On one lane without a stated order, play is one command after another: each is answered at the journal at that
/// moment, or memory runs out for it. So a caller that answers the commands of a batch in turn has played it.
pub fn in_turn_law()
    ensures one_more { GoesOnInTurn }
    ensures batch { BatchIsPlayed }
{}

/// Batches are played one after another: the record of some batches and one more is the record of that one, played from
/// the record of the others.
pub fn batches_law()
    ensures { BatchesGoOn }
{}

/// Right answers of a lane stay right when entries of other callers follow. Two consecutive lists of a lane's answers,
/// each right over its own stretch of the journal, are right together.
pub fn right_lanes_law()
    ensures stay { AnswersStayRight }
    ensures go_on { AnswersGoOn }
{}

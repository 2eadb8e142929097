//! The laws by which a trace is checked: whether its bytes are the text of some right record of the batches. Only a
//! hint is read of each answer, which gives the positions at which it was made. The hints and the commands determine
//! one record, and the trace is right exactly if this record passes the tests and has the trace as its text. So no
//! reply and no entry is read back, and the verdict is a definition that can be computed. There is no code here: each
//! law is the contract of a function that does nothing.
#![tactic(auto)]

ghost use Rattle.trace_laws.specs.Checks.{ChecksDecide, PositionsDecide};
ghost use Rattle.trace_laws.specs.Lows.{PassDecides, PassIsTest};
ghost use Rattle.trace_laws.specs.Passing.{PassingIsRight, RightPasses, VerdictDecides, VerdictGroups};
ghost use Rattle.trace_laws.specs.Rebuilt.{HintsTell};
ghost use Rattle.trace_laws.specs.Verdict.{HintsDecide};

/// The test of the positions along a lane decides whether they rise.
pub fn positions_law()
    ensures { PositionsDecide }
{}

/// One pass over the answers in the order of the script, which keeps the last position of each lane, decides whether
/// the positions rise along each lane.
pub fn pass_law()
    ensures each { PassDecides }
    ensures batch { PassIsTest }
{}

/// A record is right exactly if it passes the tests: each reply is the same when it is made again, each accepted update
/// has its entry at its position, each batch has as many accepted updates as entries, and the positions rise along each
/// lane.
pub fn checks_law()
    ensures { ChecksDecide }
{}

/// A right record is the one that its commands and the hints of its answers determine.
pub fn hints_law()
    ensures { HintsTell }
{}

/// A trace is the text of at most one right record of the batches, which is the one that the hints in the trace
/// determine.
pub fn one_record_law()
    ensures { HintsDecide }
{}

/// What passes is right, and what is right passes. The test can be computed, from the hints alone.
pub fn passing_law()
    ensures sound { PassingIsRight }
    ensures complete { RightPasses }
{}

/// The verdict is true exactly if some right record has the trace as its text. If it is true, the groups of the trace
/// are the lines of the answers that are made again, and those of the journal.
pub fn verdict_law()
    ensures decides { VerdictDecides }
    ensures groups { VerdictGroups }
{}

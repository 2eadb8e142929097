//! Exchanges what the desks have seen of the journal, after the commands of a batch.
ghost use Rattle.std.specs.Prelude.{◌<◌, length};
ghost use Rattle.lake_desk.specs.Gathered.{AreFree, AreHandedOut, AreOfOneLock, IsBehindAll, IsGathered};

use crate::desk::LakeDesk;
use lake::Bounds;

/// Shows the first desk, one after another, what each of the others has seen.
pub(crate) fn gather<'a, B: Bounds>(desks: &mut [LakeDesk<'a, B>])
    requires some { 0 < length desks.old }
    requires lock { AreOfOneLock desks.old }
    requires free { AreFree desks.old }
    ensures { IsGathered desks.old desks.new }
{
    for lane in 1..desks.len() {
        let note = desks[lane].note();
        desks[0].meet(note);
    }
}

/// Shows each of the other desks all that the first has seen. What follows its own list there is of other callers.
pub(crate) fn hand_out<'a, B: Bounds>(desks: &mut [LakeDesk<'a, B>])
    requires lock { AreOfOneLock desks.old }
    requires behind { IsBehindAll desks.old }
    ensures { AreHandedOut desks.old desks.new }
{
    for lane in 1..desks.len() {
        let note = desks[0].note();
        desks[lane].meet(note);
    }
}

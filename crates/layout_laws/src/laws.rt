//! The laws of layouts. Each is the contract of a function that does nothing.

ghost use Rattle.layout_laws.specs.LayoutLaws.{AnswersStay, LegalIsLaidOut, NumbersFix, PassesOverSwaps, PlansMaySwap, PlansStay, SwapsAreFew, SwapsLower, SwapsStay};

/// States that swaps change neither the live tables nor the counts, and change no answer.
pub fn swaps_law()
    ensures live { PassesOverSwaps }
    ensures answers { AnswersStay }
{}

/// States that after each entry of a legal journal the unmarked places of its layout are those of the live tables, each
/// once and in the order of their loads and replaces; and that the number of a part fixes its places, of which only
/// marks change.
pub fn layout_law()
    ensures legal { LegalIsLaidOut }
    ensures fixed { NumbersFix }
{}

/// States that what is planned at a journal may be swapped there, and also at each longer journal that lacks none of
/// the planned parts. The same holds for any swap that was possible at the earlier journal.
pub fn plans_law()
    ensures stay { SwapsStay }
    ensures planned { PlansMaySwap }
    ensures plans_stay { PlansStay }
{}

/// States that a swap that takes two parts or more, or leaves a position out, lowers the number of parts and marks. So
/// if each swap does this, there are at most twice as many swaps as loads, drops and replaces.
pub fn weight_law()
    ensures lower { SwapsLower }
    ensures few { SwapsAreFew }
{}

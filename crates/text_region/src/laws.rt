//! Laws of spans, for crates that keep them. Each function here does nothing: its contract is the law. Proofs cite the
//! underlying lemmas in `proofs/SpanLemmas.antt`.
ghost use Rattle.text_region.specs.Laws.{SpansAreDisjoint, SpansDiffer, SpansAreOfTheirRegion, SpansAreKept};

/// A text in a region shares no byte with one that is put there later, whatever is put between them.
pub fn spans_are_disjoint()
    ensures { SpansAreDisjoint }
{}

/// The spans of two texts that were put at different times differ if the first text is not empty. (The span of an empty
/// text may equal that of the next empty one.)
pub fn spans_differ()
    ensures { SpansDiffer }
{}

/// A span belongs to its region: the region's bytes are those before the span, its text, and those after it.
pub fn spans_are_of_their_region()
    ensures { SpansAreOfTheirRegion }
{}

/// A span keeps its text while bytes are appended.
pub fn spans_are_kept()
    ensures { SpansAreKept }
{}

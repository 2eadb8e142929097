//! Tests whether an answer that was made again is as in a trace.
ghost use Rattle.std.specs.Prelude.{◌≡◌, IfOk, false, true};
ghost use Rattle.trace_laws.specs.Hints.{Wanting, hint_of};
ghost use Rattle.trace_laws.specs.Passing.{same_hint};
ghost use Rattle.trace_hints.specs.Told.{hint_as};
ghost use Rattle.trace_ends.specs.Ends.{IsAnswered};
ghost use Rattle.run_record.specs.Callers.{who_by};
ghost use Rattle.run_record.specs.Replies.{reply_of};

use no_memory::NoMemory;
use reply_text::push_traced_answer;
use run_record::{Answered, By, Reply};
use trace_hints::Hint;

// Returns the hint that the text of a reply gives.
fn hint_of(reply: &Reply) -> Hint
    ensures { hint_as result ≡ hint_of (reply_of reply.now) }
{
    match reply {
        Reply::NoMemory => Hint::Wanting,
        Reply::Loaded { at, .. } | Reply::Dropped { at, .. } | Reply::Replaced { at, .. } =>
            Hint::Added { at: *at },
        Reply::Merged { layout, at, .. } => Hint::PlannedAndAdded {
            pinned: layout.at(),
            at: *at,
        },
        Reply::Stale { layout, at, .. } => Hint::PlannedAndSaw {
            pinned: layout.at(),
            at: *at,
        },
        Reply::Found { layout, .. } | Reply::NothingToMerge { layout } => Hint::Saw {
            at: layout.at(),
        },
        Reply::Listed { at, .. }
        | Reply::Past { at, .. }
        | Reply::Repeated { at, .. }
        | Reply::Unknown { at, .. }
        | Reply::NoColumn { at, .. }
        | Reply::Full { at, .. }
        | Reply::Later { at, .. } => Hint::Saw { at: *at },
        Reply::NoHeader
        | Reply::TooManyColumns { .. }
        | Reply::Unequal { .. }
        | Reply::NotUtf8 { .. }
        | Reply::TooManyValues { .. }
        | Reply::FileFailed
        | Reply::FileMissing
        | Reply::FileTooLong
        | Reply::QueryNotUtf8 { .. }
        | Reply::QueryTooLarge => Hint::Nowhere,
    }
}

/// Returns whether the hint is that memory ran out.
pub(crate) fn is_wanting(hint: Hint) -> bool
    ensures yes { result ≡ true → hint_as hint ≡ Wanting }
    ensures no { result ≡ false → hint_as hint ≡ Wanting → ⊥ }
{
    match hint {
        Hint::Wanting => true,
        Hint::Nowhere
        | Hint::Saw { .. }
        | Hint::Added { .. }
        | Hint::PlannedAndSaw { .. }
        | Hint::PlannedAndAdded { .. } => false,
    }
}

// Returns whether two hints are the same.
fn is_same(hint: Hint, other: Hint) -> bool
    ensures { result ≡ same_hint (hint_as hint) (hint_as other) }
{
    hint == other
}

/// Returns whether a reply has this hint, and its answer has these lines. The lines of the answer are written to
/// `scratch`, which is cleared first. Returns `Err(NoMemory)` if memory runs out for that.
pub(crate) fn is_told(
    by: By,
    reply: Reply,
    hint: Hint,
    text: &[u8],
    scratch: &mut Vec<u8>,
) -> Result<bool, NoMemory>
    ensures sound { IfOk result (λ yes. yes ≡ true → IsAnswered (who_by by) (hint_as hint) (reply_of reply) text.now) }
    ensures complete { IfOk result (λ yes. IsAnswered (who_by by) (hint_as hint) (reply_of reply) text.now → yes ≡ true) }
{
    is_told_by(&Answered { by, reply }, hint, text, scratch)
}

// Returns the same for an answer.
fn is_told_by(
    answered: &Answered,
    hint: Hint,
    text: &[u8],
    scratch: &mut Vec<u8>,
) -> Result<bool, NoMemory>
    ensures sound { IfOk result (λ yes. yes ≡ true → IsAnswered answered.now.who (hint_as hint) answered.now.reply text.now) }
    ensures complete { IfOk result (λ yes. IsAnswered answered.now.who (hint_as hint) answered.now.reply text.now → yes ≡ true) }
{
    if !is_same(hint_of(&answered.reply), hint) {
        return Ok(false);
    }
    scratch.clear();
    push_traced_answer(answered, scratch)?;
    Ok(scratch.as_slice() == text)
}

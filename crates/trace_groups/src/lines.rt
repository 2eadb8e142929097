//! The first line of a text.
ghost use Rattle.std.specs.Prelude.{◌≡◌, ◌==◌, ◌∷◌, ◌++◌, [], IfNone, IfSome, get_or};
ghost use Rattle.lake_model.specs.Texts.{lines_of};
ghost use Rattle.script_model.specs.Words.{NoFeed};
ghost use Rattle.trace_groups.specs.Pieces.{IsSplit};

use memchr::memchr;

// Returns the first line of a text and what follows its line feed, or `None` if there is no line feed.
pub(crate) fn split_line(text: &[u8]) -> Option<(&[u8], &[u8])>
    ensures line { IfSome result (λ pair. IsSplit text.now pair.0.now pair.1.now) }
    ensures none { IfNone result (NoFeed text.now) }
{
    let at = memchr(b'\n', text)?;
    Some((&text[..at], &text[at + 1..]))
}

// Returns the same, or two empty slices if there is no line feed.
pub(crate) fn first_line(text: &[u8]) -> (&[u8], &[u8])
    ensures line { result.0.now ≡ get_or (lines_of text.now).ended 0 [] }
    ensures next { get_or (lines_of result.1.now).ended 0 [] ≡ get_or (lines_of text.now).ended 1 [] }
{
    match split_line(text) {
        Some(pair) => pair,
        None => (&[], &[]),
    }
}

pub(crate) fn begins_with_space(text: &[u8]) -> bool
    ensures { result ≡ (get_or text.now 0 0 == 0x20) }
{
    matches!(text, [b' ', ..])
}

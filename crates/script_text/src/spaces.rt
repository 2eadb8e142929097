//! The words of a line.
ghost use Rattle.std.specs.Prelude.{◌≡◌, ◌∷◌, [], IfNone, IfSome, not, position, take_while};
ghost use Rattle.script_model.specs.Words.{before_spaces, behind_spaces, behind_word, first_word, is_space, words};
ghost use Rattle.script_text.specs.Fronts.{IsNotOne, has_none};

// Returns the text without the spaces that it begins with.
pub(crate) fn behind_spaces(text: &[u8]) -> &[u8]
    ensures { result.now ≡ behind_spaces text.now }
{
    let mut text = text;
    while let [b' ', rest @ ..] = text {
        text = rest;
    }
    text
}

// Returns the text without the spaces that it ends with.
pub(crate) fn before_spaces(text: &[u8]) -> &[u8]
    ensures { result.now ≡ before_spaces text.now }
{
    let mut text = text;
    while let [rest @ .., b' '] = text {
        text = rest;
    }
    text
}

// Returns the first word of the text, empty if there is none.
pub(crate) fn first_word(text: &[u8]) -> &[u8]
    ensures { result.now ≡ first_word text.now }
{
    before_space(behind_spaces(text))
}

// Returns the text up to its first space.
fn before_space(text: &[u8]) -> &[u8]
    ensures { result.now ≡ take_while (λ byte. not (is_space byte)) text.now }
{
    match first_space(text) {
        Some(end) => &text[..end],
        None => text,
    }
}

// Returns where the first space is.
fn first_space(text: &[u8]) -> Option<usize>
    ensures { result ≡ position is_space text.now }
{
    text.iter().position(|byte| *byte == b' ')
}

// Returns what follows the first word of the text and the spaces after it.
pub(crate) fn behind_word(text: &[u8]) -> &[u8]
    ensures { result.now ≡ behind_word text.now }
{
    let text = behind_spaces(text);
    let word = before_space(text);
    behind_spaces(&text[word.len()..])
}

// Returns whether the text has no word.
pub(crate) fn has_no_word(text: &[u8]) -> bool
    ensures { result ≡ has_none (words text.now) }
{
    first_word(text).is_empty()
}

// Returns the word of the text if it has exactly one.
pub(crate) fn only_word(text: &[u8]) -> Option<&[u8]>
    ensures one { IfSome result (λ word. words text.now ≡ word.now ∷ []) }
    ensures other { IfNone result (IsNotOne (words text.now)) }
{
    let word = first_word(text);
    if word.is_empty() {
        return None;
    }
    if !has_no_word(behind_word(text)) {
        return None;
    }
    Some(word)
}

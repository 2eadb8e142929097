//! The lines of a script and of a block.
ghost use Rattle.std.specs.Prelude.{◌≡◌, ◌==◌, get_or};
ghost use Rattle.std.specs.List.{list_all};
ghost use Rattle.script_model.specs.Words.{without_return};
ghost use Rattle.script_model.specs.Reading.{is_end, undotted};
ghost use Rattle.script_model.specs.Saying.{is_skipped};

// Returns the line without the carriage return at its end, if it has one; only one is dropped.
pub(crate) fn without_return(line: &[u8]) -> &[u8]
    ensures { result.now ≡ without_return line.now }
{
    match line {
        [front @ .., b'\r'] => front,
        _ => line,
    }
}

// Returns whether the line ends a block: a dot, alone or followed by one carriage return.
pub(crate) fn is_end(line: &[u8]) -> bool
    ensures { result ≡ is_end line.now }
{
    matches!(without_return(line), b".")
}

// Returns whether the text begins with a dot.
pub(crate) fn begins_with_dot(text: &[u8]) -> bool
    ensures { result ≡ (get_or text.now 0 0 == 0x2E) }
{
    matches!(text, [b'.', ..])
}

// Returns the line of a block without the dot that it begins with, if it does.
pub(crate) fn undotted(line: &[u8]) -> &[u8]
    ensures { result.now ≡ undotted line.now }
{
    match line {
        [b'.', rest @ ..] => rest,
        _ => line,
    }
}

// Returns whether the line is skipped: it is empty, has only spaces, or begins with `#`.
pub(crate) fn is_skipped(line: &[u8]) -> bool
    ensures { result ≡ is_skipped line.now }
{
    is_blank(line) || matches!(line, [b'#', ..])
}

// Returns whether the line is empty or has only spaces.
fn is_blank(line: &[u8]) -> bool
    ensures { result ≡ list_all (λ byte. byte == 0x20) line.now }
{
    line.iter().all(|byte| *byte == b' ')
}

//! Numbers, as they are written on a command line and in a script.
ghost use Rattle.std.specs.Prelude.{◌≡◌, ◌≤◌, IfSome, min, option_map};
ghost use Rattle.std.specs.List.{list_all};
ghost use Rattle.script_model.specs.Words.{digits_value, is_digit, is_number, number, number_of, number_or_zero};

/// More than any number that is valid on a command line or in a script.
const TOO_GREAT: u64 = 4294967296;

/// Reads a number of at most `most`, in decimal digits of which the first is not 0.
pub fn read_number(text: &[u8], most: u32) -> Option<u32>
    ensures value { result ≡ number most text.now }
    ensures positive { IfSome result (λ n. 1 ≤ n) }
{
    if !is_number(text) {
        return None;
    }
    let value = digits_value(text);
    if value > u64::from(most) {
        return None;
    }
    Some(value as u32)
}

/// Reads a number of at most `most`, in decimal digits of which the first is not 0, or the single digit 0.
pub fn read_number_or_zero(text: &[u8], most: u32) -> Option<u32>
    ensures { result ≡ number_or_zero most text.now }
{
    if matches!(text, [b'0']) {
        return Some(0);
    }
    read_number(text, most)
}

/// Reads a number in decimal digits of which the first is not 0. It returns 4,294,967,296 if the number is greater.
pub fn read_any_number(text: &[u8]) -> Option<u64>
    ensures value { result ≡ option_map (λ n. min n 4294967296) (number_of text.now) }
    ensures positive { IfSome result (λ n. 1 ≤ n) }
{
    if !is_number(text) {
        return None;
    }
    Some(digits_value(text))
}

// Returns whether the text is decimal digits of which the first is not 0.
fn is_number(text: &[u8]) -> bool
    ensures { result ≡ is_number text.now }
{
    are_digits(text) && !matches!(text, [] | [b'0', ..])
}

// Returns whether the text has only decimal digits.
fn are_digits(text: &[u8]) -> bool
    ensures { result ≡ list_all is_digit text.now }
{
    text.iter().all(|byte| b'0' <= *byte && *byte <= b'9')
}

// Returns the value of decimal digits, or 4,294,967,296 if it is greater.
fn digits_value(digits: &[u8]) -> u64
    ensures { result ≡ min (digits_value digits.now) 4294967296 }
{
    let mut value: u64 = 0;
    for digit in digits {
        let ones = u64::from(digit.saturating_sub(b'0'));
        value = (value * 10 + ones).min(TOO_GREAT);
    }
    value
}

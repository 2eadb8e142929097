//! Numbers, words and lines, appended to a text. If memory runs out, what the text had before is unchanged.
ghost use Rattle.std.specs.Prelude.{◌≡◌, ◌==◌, ◌++◌, ◌∷◌, [], decimal, flat_map, if◌then◌else◌, map, OnOk};
ghost use Rattle.std.specs.List.{join_by};
ghost use Rattle.record_model.specs.Texts.{command_text, listed, spaced};
ghost use Rattle.script_model.specs.Words.{line_text};
ghost use Rattle.reply_text.specs.Keeping.{Keeps};
ghost use Rattle.reply_text.specs.Words.{word_text};

use crate::quoted::push_quoted;
use column_set::Name;
use itoa::Buffer;
use lake_model::Who;
use no_memory::NoMemory;

/// A word of a line.
#[derive(Clone, Copy)]
pub enum Word<'a> {
    /// A text, as it is.
    Text(&'a str),
    /// The name of a table.
    Named(&'a Name),
    /// A number, in decimal.
    Number(u64),
    /// Numbers in decimal, separated by commas; `none` if there are none.
    Numbers(&'a [u64]),
    /// A text in quotes, with escapes.
    Quoted(&'a str),
    /// The number of a command, after `m` if it is the merger's.
    Command(Who),
}

/// Appends these bytes.
pub fn push_bytes(bytes: &[u8], into: &mut Vec<u8>) -> Result<(), NoMemory>
    ensures ok { OnOk result (into.new.items ≡ into.old.items ++ bytes.now) }
    ensures kept { Keeps into.old.items into.new.items }
{
    into.extend_from_slice(bytes)?;
    Ok(())
}

/// Appends a byte. This takes less time than to append a slice of one byte.
pub fn push_byte(byte: u8, into: &mut Vec<u8>) -> Result<(), NoMemory>
    ensures ok { OnOk result (into.new.items ≡ into.old.items ++ byte ∷ []) }
    ensures kept { Keeps into.old.items into.new.items }
{
    into.push(byte)?;
    Ok(())
}

/// Appends a number in decimal.
pub fn push_number(number: u64, into: &mut Vec<u8>) -> Result<(), NoMemory>
    ensures ok { OnOk result (into.new.items ≡ into.old.items ++ decimal number) }
    ensures kept { Keeps into.old.items into.new.items }
{
    let mut buffer = Buffer::new();
    push_bytes(buffer.format(number).as_bytes(), into)
}

/// Returns what precedes the number of a command: `m` for the merger, which is caller 0.
pub fn merger_mark(caller: u32) -> &'static str
    ensures { result.now ≡ (if caller == 0 then 0x6D ∷ [] else []) }
{
    if caller == 0 { "m" } else { "" }
}

// Appends the number of a command, after `m` if it is the merger's.
fn push_command(who: Who, into: &mut Vec<u8>) -> Result<(), NoMemory>
    ensures ok { OnOk result (into.new.items ≡ into.old.items ++ command_text who) }
    ensures kept { Keeps into.old.items into.new.items }
{
    push_bytes(merger_mark(who.caller).as_bytes(), into)?;
    push_number(who.command, into)
}

// Appends numbers in decimal, each after a comma.
fn push_further_numbers(numbers: &[u64], into: &mut Vec<u8>) -> Result<(), NoMemory>
    ensures ok { OnOk result (into.new.items ≡ into.old.items ++ flat_map (λ number. 0x2C ∷ decimal number) numbers.now) }
    ensures kept { Keeps into.old.items into.new.items }
{
    for number in numbers {
        push_byte(b',', into)?;
        push_number(*number, into)?;
    }
    Ok(())
}

// Appends numbers in decimal, separated by commas.
fn push_joined(numbers: &[u64], into: &mut Vec<u8>) -> Result<(), NoMemory>
    ensures ok { OnOk result (into.new.items ≡ into.old.items ++ join_by decimal (0x2C ∷ []) numbers.now) }
    ensures kept { Keeps into.old.items into.new.items }
{
    let [first, rest @ ..] = numbers else {
        return Ok(());
    };
    push_number(*first, into)?;
    push_further_numbers(rest, into)
}

// Appends numbers in decimal, separated by commas, or `none`.
fn push_numbers(numbers: &[u64], into: &mut Vec<u8>) -> Result<(), NoMemory>
    ensures ok { OnOk result (into.new.items ≡ into.old.items ++ listed decimal numbers.now) }
    ensures kept { Keeps into.old.items into.new.items }
{
    if numbers.is_empty() {
        return push_bytes(b"none", into);
    }
    push_joined(numbers, into)
}

// Appends a word.
fn push_word(word: &Word<'_>, into: &mut Vec<u8>) -> Result<(), NoMemory>
    ensures ok { OnOk result (into.new.items ≡ into.old.items ++ word_text word.now) }
    ensures kept { Keeps into.old.items into.new.items }
{
    match word {
        Word::Text(text) => push_bytes(text.as_bytes(), into),
        Word::Named(name) => push_bytes(name.bytes(), into),
        Word::Number(number) => push_number(*number, into),
        Word::Numbers(numbers) => push_numbers(numbers, into),
        Word::Quoted(text) => push_quoted(text, into),
        Word::Command(who) => push_command(*who, into),
    }
}

/// Appends words, each after a space.
pub fn push_words(words: &[Word<'_>], into: &mut Vec<u8>) -> Result<(), NoMemory>
    ensures ok { OnOk result (into.new.items ≡ into.old.items ++ flat_map (λ word. 0x20 ∷ word_text word) words.now) }
    ensures kept { Keeps into.old.items into.new.items }
{
    for word in words {
        push_byte(b' ', into)?;
        push_word(word, into)?;
    }
    Ok(())
}

/// Appends a line: its beginning, a number, and words, each after a space.
pub fn push_line(
    lead: &str,
    number: u64,
    words: &[Word<'_>],
    into: &mut Vec<u8>,
) -> Result<(), NoMemory>
    ensures ok { OnOk result (into.new.items ≡ into.old.items ++ line_text (lead.now ++ spaced (decimal number ∷ map word_text words.now))) }
    ensures kept { Keeps into.old.items into.new.items }
{
    push_bytes(lead.as_bytes(), into)?;
    push_number(number, into)?;
    push_words(words, into)?;
    push_byte(b'\n', into)
}

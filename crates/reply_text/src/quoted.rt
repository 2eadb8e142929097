//! The name of a column in quotes, with escapes for what would break its line.
ghost use Rattle.std.specs.Prelude.{◌≡◌, ◌<◌, ◌++◌, flat_map, OnOk};
ghost use Rattle.std.specs.List.{list_all};
ghost use Rattle.record_model.specs.Texts.{escaped_byte, hexadecimal, quoted};
ghost use Rattle.reply_text.specs.Keeping.{Keeps};
ghost use Rattle.reply_text.specs.Quoted.{is_plain};

use crate::words::{push_byte, push_bytes};
use no_memory::NoMemory;

// Returns a hexadecimal digit, in lower case.
fn hexadecimal(digit: u8) -> u8
    requires { digit < 16 }
    ensures { result ≡ hexadecimal digit }
{
    if digit < 10 {
        b'0' + digit
    } else {
        b'a' + (digit - 10)
    }
}

// Appends a byte of a name, or its escape.
fn push_escaped(byte: u8, into: &mut Vec<u8>) -> Result<(), NoMemory>
    ensures ok { OnOk result (into.new.items ≡ into.old.items ++ escaped_byte byte) }
    ensures kept { Keeps into.old.items into.new.items }
{
    if byte == b'"' {
        push_bytes(b"\\\"", into)
    } else if byte == b'\\' {
        push_bytes(b"\\\\", into)
    } else if byte == b'\n' {
        push_bytes(b"\\n", into)
    } else if byte == b'\r' {
        push_bytes(b"\\r", into)
    } else if byte == b'\t' {
        push_bytes(b"\\t", into)
    } else if byte < 0x20 || byte == 0x7f {
        push_bytes(
            &[b'\\', b'x', hexadecimal(byte / 16), hexadecimal(byte % 16)],
            into,
        )
    } else {
        push_byte(byte, into)
    }
}

// Returns whether a byte of a name is written as it is.
fn is_plain(byte: u8) -> bool
    ensures { result ≡ is_plain byte }
{
    0x20 <= byte && byte != 0x7f && byte != b'"' && byte != b'\\'
}

// Returns whether all bytes of a name are written as they are.
fn are_plain(name: &[u8]) -> bool
    ensures { result ≡ list_all is_plain name.now }
{
    name.iter().all(|byte| is_plain(*byte))
}

// Appends the bytes of a name, or their escapes, byte by byte.
fn push_each_escaped(name: &[u8], into: &mut Vec<u8>) -> Result<(), NoMemory>
    ensures ok { OnOk result (into.new.items ≡ into.old.items ++ flat_map escaped_byte name.now) }
    ensures kept { Keeps into.old.items into.new.items }
{
    for byte in name {
        push_escaped(*byte, into)?;
    }
    Ok(())
}

// Appends the bytes of a name, or their escapes. Hardly any name has a byte that is escaped.
#[tactic(auto, using(crate::proofs::QuotedLemmas::plain_stands))]
fn push_all_escaped(name: &[u8], into: &mut Vec<u8>) -> Result<(), NoMemory>
    ensures ok { OnOk result (into.new.items ≡ into.old.items ++ flat_map escaped_byte name.now) }
    ensures kept { Keeps into.old.items into.new.items }
{
    if are_plain(name) {
        push_bytes(name, into)
    } else {
        push_each_escaped(name, into)
    }
}

/// Appends a name in quotes. A quote or a backslash is preceded by a backslash; a line feed, a carriage return and a
/// tab are written as `\n`, `\r` and `\t`; any other byte below 0x20, and 0x7F, as `\x` and two hexadecimal digits in
/// lower case; and any other byte as it is.
pub fn push_quoted(name: &str, into: &mut Vec<u8>) -> Result<(), NoMemory>
    ensures ok { OnOk result (into.new.items ≡ into.old.items ++ quoted name.now) }
    ensures kept { Keeps into.old.items into.new.items }
{
    push_byte(b'"', into)?;
    push_all_escaped(name.as_bytes(), into)?;
    push_byte(b'"', into)
}

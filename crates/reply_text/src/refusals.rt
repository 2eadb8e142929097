//! The first line of each refusal: the number of its command, `refused`, and the words that give the reason.
ghost use Rattle.std.specs.Prelude.{◌≡◌, ◌++◌, ◌∷◌, decimal, map, OnOk};
ghost use Rattle.record_model.specs.Replies as model;
ghost use Rattle.script_model.specs.Words.{line_text};
ghost use Rattle.record_model.specs.Texts.{refused, spaced, which_text};
ghost use Rattle.reply_text.specs.Keeping.{Keeps};
ghost use Rattle.reply_text.specs.Lines.{first_line};
ghost use Rattle.reply_text.specs.Words.{word_text};

use crate::words::Word::{self, Number, Text};
use crate::words::{push_byte, push_bytes, push_number, push_words};
use catalogue::KeptName;
use lake_model::Which;
use no_memory::NoMemory;
use segment_core::Layout;

// The word for a limit.
fn which_word(which: Which) -> &'static str
    ensures { result.now ≡ which_text which }
{
    match which {
        Which::Live => "tables",
        Which::Updates => "updates",
        Which::Members => "members",
        Which::KeyBytes => "key-bytes",
    }
}

/// Appends `N refused WHAT`, followed by more words.
pub fn push_refused(
    number: u64,
    what: &str,
    words: &[Word<'_>],
    into: &mut Vec<u8>,
) -> Result<(), NoMemory>
    ensures ok { OnOk result (into.new.items ≡ into.old.items ++ line_text (spaced (decimal number ∷ refused (what.now ∷ map word_text words.now)))) }
    ensures kept { Keeps into.old.items into.new.items }
{
    push_number(number, into)?;
    push_words(&[Text("refused"), Text(what)], into)?;
    push_words(words, into)?;
    push_byte(b'\n', into)
}

/// Appends `N refused csv record R want W got G`.
pub fn push_unequal(
    number: u64,
    row: u64,
    want: u64,
    got: u64,
    into: &mut Vec<u8>,
) -> Result<(), NoMemory>
    ensures ok { OnOk result (into.new.items ≡ into.old.items ++ first_line number (model.Unequal row want got)) }
    ensures kept { Keeps into.old.items into.new.items }
{
    let words = [
        Number(row),
        Text("want"),
        Number(want),
        Text("got"),
        Number(got),
    ];
    push_refused(number, "csv record", &words, into)
}

/// Appends `N refused csv record R field F not UTF-8`.
pub fn push_not_utf8(number: u64, row: u64, field: u64, into: &mut Vec<u8>) -> Result<(), NoMemory>
    ensures ok { OnOk result (into.new.items ≡ into.old.items ++ first_line number (model.NotUtf8 row field)) }
    ensures kept { Keeps into.old.items into.new.items }
{
    let words = [Number(row), Text("field"), Number(field), Text("not UTF-8")];
    push_refused(number, "csv record", &words, into)
}

/// Appends `N refused repeated NAME at P`.
pub fn push_repeated(
    number: u64,
    name: &KeptName,
    at: u64,
    into: &mut Vec<u8>,
) -> Result<(), NoMemory>
    ensures ok { OnOk result (into.new.items ≡ into.old.items ++ first_line number (model.Repeated name.now at)) }
    ensures kept { Keeps into.old.items into.new.items }
{
    let words = [Text(name.text()), Text("at"), Number(at)];
    push_refused(number, "repeated", &words, into)
}

/// Appends `N refused unknown NAME at P`.
pub fn push_unknown(
    number: u64,
    name: &KeptName,
    at: u64,
    into: &mut Vec<u8>,
) -> Result<(), NoMemory>
    ensures ok { OnOk result (into.new.items ≡ into.old.items ++ first_line number (model.Unknown name.now at)) }
    ensures kept { Keeps into.old.items into.new.items }
{
    let words = [Text(name.text()), Text("at"), Number(at)];
    push_refused(number, "unknown", &words, into)
}

/// Appends `N refused column NAME PLACE at P`.
pub fn push_no_column(
    number: u64,
    name: &KeptName,
    place: u32,
    at: u64,
    into: &mut Vec<u8>,
) -> Result<(), NoMemory>
    ensures ok { OnOk result (into.new.items ≡ into.old.items ++ first_line number (model.NoColumn name.now place at)) }
    ensures kept { Keeps into.old.items into.new.items }
{
    let words = [
        Text(name.text()),
        Number(u64::from(place)),
        Text("at"),
        Number(at),
    ];
    push_refused(number, "column", &words, into)
}

/// Appends `N refused full WHICH COUNT more MORE at P`.
pub fn push_full(
    number: u64,
    which: Which,
    count: u64,
    more: u64,
    at: u64,
    into: &mut Vec<u8>,
) -> Result<(), NoMemory>
    ensures ok { OnOk result (into.new.items ≡ into.old.items ++ first_line number (model.Full which count more at)) }
    ensures kept { Keeps into.old.items into.new.items }
{
    let words = [
        Text(which_word(which)),
        Number(count),
        Text("more"),
        Number(more),
        Text("at"),
        Number(at),
    ];
    push_refused(number, "full", &words, into)
}

/// Appends `N refused query line L not UTF-8`.
pub fn push_query_not_utf8(number: u64, line: u64, into: &mut Vec<u8>) -> Result<(), NoMemory>
    ensures ok { OnOk result (into.new.items ≡ into.old.items ++ first_line number (model.QueryNotUtf8 line)) }
    ensures kept { Keeps into.old.items into.new.items }
{
    let words = [Number(line), Text("not UTF-8")];
    push_refused(number, "query line", &words, into)
}

/// Appends `N refused nothing to merge at P`.
pub fn push_nothing_to_merge(
    number: u64,
    layout: &Layout,
    into: &mut Vec<u8>,
) -> Result<(), NoMemory>
    ensures ok { OnOk result (into.new.items ≡ into.old.items ++ first_line number (model.NothingToMerge layout.now)) }
    ensures kept { Keeps into.old.items into.new.items }
{
    let words = [Text("at"), Number(layout.at())];
    push_refused(number, "nothing to merge", &words, into)
}

/// Appends `N refused later A at P`.
pub fn push_later(number: u64, asked: u64, at: u64, into: &mut Vec<u8>) -> Result<(), NoMemory>
    ensures ok { OnOk result (into.new.items ≡ into.old.items ++ first_line number (model.Later asked at)) }
    ensures kept { Keeps into.old.items into.new.items }
{
    let words = [Number(asked), Text("at"), Number(at)];
    push_refused(number, "later", &words, into)
}

/// Appends `N refused stale part G at P`.
pub fn push_stale(
    number: u64,
    layout: &Layout,
    gone: u64,
    at: u64,
    into: &mut Vec<u8>,
) -> Result<(), NoMemory>
    ensures ok { OnOk result (into.new.items ≡ into.old.items ++ first_line number (model.Stale layout.now gone at)) }
    ensures kept { Keeps into.old.items into.new.items }
{
    let words = [Number(gone), Text("at"), Number(at)];
    push_refused(number, "stale part", &words, into)
}

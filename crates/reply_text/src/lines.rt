//! The first line of each reply: the number of its command, and the words of the reply.
ghost use Rattle.std.specs.Prelude.{◌≡◌, ◌++◌, ◌∷◌, ℕ, codes, decimal, OnOk};
ghost use Rattle.script_model.specs.Words.{line_text};
ghost use Rattle.record_model.specs.Replies as model;
ghost use Rattle.record_model.specs.Texts.{at_words, spaced};
ghost use Rattle.reply_text.specs.Keeping.{Keeps};
ghost use Rattle.reply_text.specs.Lines.{first_line};
ghost use Rattle.run_record.specs.Replies.{reply_of};

use crate::refusals::{
    push_full, push_later, push_no_column, push_not_utf8, push_nothing_to_merge,
    push_query_not_utf8, push_refused, push_repeated, push_stale, push_unequal, push_unknown,
};
use crate::words::Word::{Number, Text};
use crate::words::push_line;
use catalogue::KeptName;
use column_set::KeptRows;
use no_memory::NoMemory;
use run_record::Reply;
use segment_core::{Layout, TableLines};

// `N WHAT NAME columns C members M at P`
fn push_new_table<'a>(
    number: u64,
    what: &'a str,
    name: &'a KeptName,
    columns: u32,
    members: u64,
    at: u64,
    into: &mut Vec<u8>,
) -> Result<(), NoMemory>
    ensures ok { OnOk result (into.new.items ≡ into.old.items ++ line_text (spaced (decimal number ∷ what.now ∷ name.now ∷ codes "columns" ∷ decimal columns ∷ codes "members" ∷ decimal members ∷ at_words at))) }
    ensures kept { Keeps into.old.items into.new.items }
{
    let words = [
        Text(what),
        Text(name.text()),
        Text("columns"),
        Number(u64::from(columns)),
        Text("members"),
        Number(members),
        Text("at"),
        Number(at),
    ];
    push_line("", number, &words, into)
}

// `N dropped NAME at P`
fn push_dropped(number: u64, name: &KeptName, at: u64, into: &mut Vec<u8>) -> Result<(), NoMemory>
    ensures ok { OnOk result (into.new.items ≡ into.old.items ++ first_line number (model.Dropped name.now at)) }
    ensures kept { Keeps into.old.items into.new.items }
{
    let words = [Text("dropped"), Text(name.text()), Text("at"), Number(at)];
    push_line("", number, &words, into)
}

// `N tables T at P`
fn push_listed(
    number: u64,
    tables: &TableLines,
    at: u64,
    into: &mut Vec<u8>,
) -> Result<(), NoMemory>
    ensures ok { OnOk result (into.new.items ≡ into.old.items ++ first_line number (model.Listed tables.now at)) }
    ensures kept { Keeps into.old.items into.new.items }
{
    let words = [
        Text("tables"),
        Number(tables.list().len() as u64),
        Text("at"),
        Number(at),
    ];
    push_line("", number, &words, into)
}

// `N answer R of Q at P`
fn push_found(
    number: u64,
    query: u32,
    rows: &KeptRows,
    layout: &Layout,
    into: &mut Vec<u8>,
) -> Result<(), NoMemory>
    ensures ok { (reads probes : ℕ) → OnOk result (into.new.items ≡ into.old.items ++ first_line number (model.Found query rows.now reads probes layout.now)) }
    ensures kept { Keeps into.old.items into.new.items }
{
    let words = [
        Text("answer"),
        Number(rows.list().len() as u64),
        Text("of"),
        Number(u64::from(query)),
        Text("at"),
        Number(layout.at()),
    ];
    push_line("", number, &words, into)
}

// `N answer R of Q as of A at P`
fn push_past(
    number: u64,
    query: u32,
    rows: &KeptRows,
    asked: u64,
    at: u64,
    into: &mut Vec<u8>,
) -> Result<(), NoMemory>
    ensures ok { OnOk result (into.new.items ≡ into.old.items ++ first_line number (model.Past query rows.now asked at)) }
    ensures kept { Keeps into.old.items into.new.items }
{
    let words = [
        Text("answer"),
        Number(rows.list().len() as u64),
        Text("of"),
        Number(u64::from(query)),
        Text("as of"),
        Number(asked),
        Text("at"),
        Number(at),
    ];
    push_line("", number, &words, into)
}

// `N merged F parts into K tables at P`
fn push_merged(
    number: u64,
    layout: &Layout,
    parts: u64,
    tables: u64,
    at: u64,
    into: &mut Vec<u8>,
) -> Result<(), NoMemory>
    ensures ok { OnOk result (into.new.items ≡ into.old.items ++ first_line number (model.Merged layout.now parts tables at)) }
    ensures kept { Keeps into.old.items into.new.items }
{
    let words = [
        Text("merged"),
        Number(parts),
        Text("parts"),
        Text("into"),
        Number(tables),
        Text("tables"),
        Text("at"),
        Number(at),
    ];
    push_line("", number, &words, into)
}

/// Appends the first line of a reply to the command with this number.
pub fn push_first_line(number: u64, reply: &Reply, into: &mut Vec<u8>) -> Result<(), NoMemory>
    ensures ok { OnOk result (into.new.items ≡ into.old.items ++ first_line number (reply_of reply.now)) }
    ensures kept { Keeps into.old.items into.new.items }
{
    match reply {
        Reply::Loaded {
            name,
            columns,
            members,
            at,
        } => push_new_table(number, "loaded", name, *columns, *members, *at, into),
        Reply::Dropped { name, at } => push_dropped(number, name, *at, into),
        Reply::Replaced {
            name,
            columns,
            members,
            at,
        } => push_new_table(number, "replaced", name, *columns, *members, *at, into),
        Reply::Listed { tables, at } => push_listed(number, tables, *at, into),
        Reply::Found {
            query,
            rows,
            layout,
            ..
        } => push_found(number, *query, rows, layout, into),
        Reply::Past {
            query,
            rows,
            asked,
            at,
        } => push_past(number, *query, rows, *asked, *at, into),
        Reply::Merged {
            layout,
            parts,
            tables,
            at,
        } => push_merged(number, layout, *parts, *tables, *at, into),
        Reply::NoHeader => push_refused(number, "csv no-header", &[], into),
        Reply::TooManyColumns { got } => push_refused(number, "csv columns", &[Number(*got)], into),
        Reply::Unequal { row, want, got } => push_unequal(number, *row, *want, *got, into),
        Reply::NotUtf8 { row, field } => push_not_utf8(number, *row, *field, into),
        Reply::TooManyValues { place } => push_refused(
            number,
            "values column",
            &[Number(u64::from(*place))],
            into,
        ),
        Reply::FileFailed => push_refused(number, "file failed", &[], into),
        Reply::FileMissing => push_refused(number, "file missing", &[], into),
        Reply::FileTooLong => push_refused(number, "file longer", &[], into),
        Reply::Repeated { name, at } => push_repeated(number, name, *at, into),
        Reply::Unknown { name, at } => push_unknown(number, name, *at, into),
        Reply::NoColumn { name, place, at } => push_no_column(number, name, *place, *at, into),
        Reply::Full {
            which,
            count,
            more,
            at,
        } => push_full(number, *which, *count, *more, *at, into),
        Reply::QueryNotUtf8 { line } => push_query_not_utf8(number, *line, into),
        Reply::QueryTooLarge => push_refused(number, "query values", &[], into),
        Reply::NothingToMerge { layout } => push_nothing_to_merge(number, layout, into),
        Reply::Later { asked, at } => push_later(number, *asked, *at, into),
        Reply::Stale { layout, gone, at } => push_stale(number, layout, *gone, *at, into),
        Reply::NoMemory => push_line("", number, &[Text("no memory")], into),
    }
}

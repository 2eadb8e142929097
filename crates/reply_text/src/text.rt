//! The text of a record: of its answers, of what a trace adds to them, and of its journal.
ghost use Rattle.std.specs.Prelude.{◌≡◌, ◌++◌, false, flat_map, map, true, OnErr, OnOk};
ghost use Rattle.record_model.specs.Texts.{answer_lines, answers_text, layout_line, more_lines, row_line, table_line, text_behind, trace_lines, work_line, written_lines};
ghost use Rattle.script_model.specs.Words.{line_text};
ghost use Rattle.lake_model.specs.Tables.{line_with};
ghost use Rattle.segment_core.specs.Lines.{line_from};
ghost use Rattle.reply_text.specs.Keeping.{Keeps};
ghost use Rattle.run_record.specs.Replies.{reply_of};

use crate::journal::push_journal;
use crate::layout::push_layout;
use crate::lines::push_first_line;
use crate::words::Word::{Named, Number, Quoted, Text};
use crate::words::{merger_mark, push_byte, push_bytes, push_line, push_words};
use column_set::{KeptRow, Name};
use no_memory::NoMemory;
use run_record::{Answered, Reply, RunRecord};
use segment_core::Layout;

// `  OVERLAP TABLE PLACE "COLUMN"`
fn push_row(row: &KeptRow, into: &mut Vec<u8>) -> Result<(), NoMemory>
    ensures ok { OnOk result (into.new.items ≡ into.old.items ++ line_text (row_line row.now)) }
    ensures kept { Keeps into.old.items into.new.items }
{
    let words = [
        Named(row.table()),
        Number(u64::from(row.place())),
        Quoted(row.column()),
    ];
    push_line("  ", u64::from(row.overlap()), &words, into)
}

/// Appends the lines of rows: for each, its overlap, the name of its table, the place of its column in the table,
/// counted from 1, and the name of the column in quotes.
pub fn push_rows(rows: &[KeptRow], into: &mut Vec<u8>) -> Result<(), NoMemory>
    ensures ok { OnOk result (into.new.items ≡ into.old.items ++ flat_map line_text (map row_line rows.now)) }
    ensures kept { Keeps into.old.items into.new.items }
{
    for row in rows {
        push_row(row, into)?;
    }
    Ok(())
}

// `  NAME columns C members M`
fn push_table(name: &Name, columns: u32, members: u64, into: &mut Vec<u8>) -> Result<(), NoMemory>
    ensures ok { OnOk result (into.new.items ≡ into.old.items ++ line_text (table_line (line_with name.now columns members))) }
    ensures kept { Keeps into.old.items into.new.items }
{
    push_bytes(b"  ", into)?;
    push_bytes(name.bytes(), into)?;
    let words = [
        Text("columns"),
        Number(u64::from(columns)),
        Text("members"),
        Number(members),
    ];
    push_words(&words, into)?;
    push_byte(b'\n', into)
}

// The lines of tables.
fn push_tables(tables: &[(Name, u32, u64)], into: &mut Vec<u8>) -> Result<(), NoMemory>
    ensures ok { OnOk result (into.new.items ≡ into.old.items ++ flat_map line_text (map table_line (map line_from tables.now))) }
    ensures kept { Keeps into.old.items into.new.items }
{
    for (name, columns, members) in tables {
        push_table(name, *columns, *members, into)?;
    }
    Ok(())
}

// The lines of a reply after the first.
fn push_more_lines(reply: &Reply, into: &mut Vec<u8>) -> Result<(), NoMemory>
    ensures ok { OnOk result (into.new.items ≡ into.old.items ++ flat_map line_text (more_lines (reply_of reply.now))) }
    ensures kept { Keeps into.old.items into.new.items }
{
    match reply {
        Reply::Listed { tables, .. } => push_tables(tables.list(), into),
        Reply::Found { rows, .. } | Reply::Past { rows, .. } => push_rows(rows.list(), into),
        _ => Ok(()),
    }
}

// `  work reads A probes B`
fn push_work(reads: u64, probes: u64, into: &mut Vec<u8>) -> Result<(), NoMemory>
    ensures ok { OnOk result (into.new.items ≡ into.old.items ++ line_text (work_line reads probes)) }
    ensures kept { Keeps into.old.items into.new.items }
{
    let words = [Text("probes"), Number(probes)];
    push_line("  work reads ", reads, &words, into)
}

// The lines that a trace adds after the rows of a search: what it read, and the layout that it searched.
fn push_found_trace(
    reads: u64,
    probes: u64,
    layout: &Layout,
    into: &mut Vec<u8>,
) -> Result<(), NoMemory>
    ensures ok { OnOk result (into.new.items ≡ into.old.items ++ line_text (work_line reads probes) ++ line_text (layout_line layout.now)) }
    ensures kept { Keeps into.old.items into.new.items }
{
    push_work(reads, probes, into)?;
    push_layout(layout, into)
}

// The lines that a trace adds after a reply: what a search read and the layout that it searched, or the layout in which
// a merge was planned.
fn push_trace_lines(reply: &Reply, into: &mut Vec<u8>) -> Result<(), NoMemory>
    ensures ok { OnOk result (into.new.items ≡ into.old.items ++ flat_map line_text (trace_lines (reply_of reply.now))) }
    ensures kept { Keeps into.old.items into.new.items }
{
    match reply {
        Reply::Found {
            reads,
            probes,
            layout,
            ..
        } => push_found_trace(*reads, *probes, layout, into),
        Reply::Merged { layout, .. }
        | Reply::NothingToMerge { layout }
        | Reply::Stale { layout, .. } => push_layout(layout, into),
        _ => Ok(()),
    }
}

// The lines of an answer, without what a trace adds to them.
fn push_plain_answer(answer: &Answered, into: &mut Vec<u8>) -> Result<(), NoMemory>
    ensures ok { OnOk result (into.new.items ≡ into.old.items ++ flat_map line_text (answer_lines false answer.now)) }
    ensures kept { Keeps into.old.items into.new.items }
{
    push_bytes(merger_mark(answer.by.caller()).as_bytes(), into)?;
    push_first_line(answer.by.number(), &answer.reply, into)?;
    push_more_lines(&answer.reply, into)
}

/// Appends the lines of an answer, with those that a trace adds. If memory runs out some of them may have been
/// appended; what was there before is unchanged.
pub fn push_traced_answer(answer: &Answered, into: &mut Vec<u8>) -> Result<(), NoMemory>
    ensures ok { OnOk result (into.new.items ≡ into.old.items ++ flat_map line_text (answer_lines true answer.now)) }
    ensures kept { Keeps into.old.items into.new.items }
{
    push_plain_answer(answer, into)?;
    push_trace_lines(&answer.reply, into)
}

// The lines of an answer. The merger's are written only with a trace.
fn push_answer(answer: &Answered, trace: bool, into: &mut Vec<u8>) -> Result<(), NoMemory>
    ensures ok { OnOk result (into.new.items ≡ into.old.items ++ flat_map line_text (written_lines trace answer.now)) }
    ensures kept { Keeps into.old.items into.new.items }
{
    if trace {
        return push_traced_answer(answer, into);
    }
    if answer.by.caller() == 0 {
        return Ok(());
    }
    push_plain_answer(answer, into)
}

// The lines of answers.
fn push_answers(answers: &[Answered], trace: bool, into: &mut Vec<u8>) -> Result<(), NoMemory>
    ensures ok { OnOk result (into.new.items ≡ into.old.items ++ answers_text trace answers.now) }
    ensures kept { Keeps into.old.items into.new.items }
{
    for answer in answers {
        push_answer(answer, trace, into)?;
    }
    Ok(())
}

// The text of the answers of a record from an index on, and of its journal if that is due.
fn push_text(of: &RunRecord, first: usize, trace: bool, into: &mut Vec<u8>) -> Result<(), NoMemory>
    ensures ok { OnOk result (into.new.items ≡ into.old.items ++ text_behind trace first of.now.made) }
    ensures kept { Keeps into.old.items into.new.items }
{
    let answers = of.answers();
    push_answers(&answers[first.min(answers.len())..], trace, into)?;
    if trace && of.ended() {
        return push_journal(of.journal(), into);
    }
    Ok(())
}

/// Appends the text of the answers of a record from the index `first` on, which counts from 0: for each, a line with
/// the number of the command and the words of the reply, followed by a line for each table or row. If memory runs out
/// the text is unchanged.
///
/// With a trace, the merger's answers are written too. What a search read follows its answer; the layout follows each
/// answer to a search or a merge; and the journal follows the answers if the source was read to its end.
pub fn write_replies(
    of: &RunRecord,
    first: usize,
    trace: bool,
    into: &mut Vec<u8>,
) -> Result<(), NoMemory>
    ensures ok { OnOk result (into.new.items ≡ into.old.items ++ text_behind trace first of.now.made) }
    ensures err { OnErr result (into.new.items ≡ into.old.items) }
{
    let written = into.len();
    if push_text(of, first, trace, into).is_err() {
        into.truncate(written);
        return Err(NoMemory);
    }
    Ok(())
}

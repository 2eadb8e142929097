//! The text of entries, entry by entry and query by query, and the last line.
ghost use Rattle.std.specs.Prelude.{◌≡◌, ◌≤◌, ◌++◌, ◌∷◌, [], ℕ, List, flat_map, length, map, OnOk};
ghost use Rattle.lake_model.specs.Texts.{Text as TextOf};
ghost use Rattle.lake_model.specs.Journal.{Entry as EntryOf};
ghost use Rattle.script_model.specs.Words.{line_text};
ghost use Rattle.record_model.specs.Watched.{change_lines, end_text, watch_text_behind};
ghost use Rattle.reply_text.specs.Keeping.{Keeps};
ghost use Rattle.column_watch.specs.Watching.{answer_of, before_last, watch_at, watch_with, watches_with};
ghost use Rattle.watch_text.specs.Told.{told_from, told_of, HasTaken};

use catalogue::Entry;
use column_watch::Watches;
use no_memory::NoMemory;
use reply_text::Word::{Number, Text};
use reply_text::{push_line, push_rows};
use std::alloc::Global;

// `AT query NUMBER rows R`, followed by the rows of the query.
fn push_change(
    alloc: Global,
    watches: &Watches,
    number: u32,
    into: &mut Vec<u8>,
) -> Result<(), NoMemory>
    requires low { 1 ≤ number }
    requires high { number ≤ length watches.now.queries }
    ensures ok { OnOk result (into.new.items ≡ into.old.items ++ flat_map line_text (change_lines (length watches.now.journal) number (answer_of watches.now.journal (watch_at watches.now.queries number)))) }
    ensures kept { Keeps into.old.items into.new.items }
{
    let rows = watches.rows(number)?.keep_all(alloc)?;
    let words = [
        Text("query"),
        Number(u64::from(number)),
        Text("rows"),
        Number(rows.list().len() as u64),
    ];
    push_line("", watches.at(), &words, into)?;
    push_rows(rows.list(), into)
}

// Appends what the last entry changed in the rows of the query with this number.
fn tell_query(
    alloc: Global,
    watches: &Watches,
    number: u32,
    into: &mut Vec<u8>,
) -> Result<(), NoMemory>
    requires low { 1 ≤ number }
    requires high { number ≤ length watches.now.queries }
    ensures ok { OnOk result (into.new.items ≡ into.old.items ++ flat_map line_text (told_of (before_last watches.now.journal) watches.now.journal (number, watch_at watches.now.queries number))) }
    ensures kept { Keeps into.old.items into.new.items }
{
    if !watches.changed(number) {
        return Ok(());
    }
    push_change(alloc, watches, number, into)
}

// Appends what the last entry changed in the rows of the queries.
fn tell_queries(alloc: Global, watches: &Watches, into: &mut Vec<u8>) -> Result<(), NoMemory>
    ensures ok { OnOk result (into.new.items ≡ into.old.items ++ flat_map line_text (told_from (before_last watches.now.journal) watches.now.journal 1 watches.now.queries)) }
    ensures kept { Keeps into.old.items into.new.items }
{
    for number in 1..=watches.queries() {
        tell_query(alloc, watches, number, into)?;
    }
    Ok(())
}

// Takes an entry, and appends what it changed in the rows of the queries.
fn tell_entry(
    alloc: Global,
    watches: &mut Watches,
    entry: &Entry,
    into: &mut Vec<u8>,
) -> Result<(), NoMemory>
    ensures taken { OnOk result (watches.new ≡ watches_with (watches.old.journal ++ entry.now ∷ []) watches.old.queries) }
    ensures text { OnOk result (into.new.items ≡ into.old.items ++ flat_map line_text (told_from watches.old.journal (watches.old.journal ++ entry.now ∷ []) 1 watches.old.queries)) }
    ensures begun { HasTaken watches.old watches.new (entry.now ∷ []) }
    ensures kept { Keeps into.old.items into.new.items }
{
    watches.take(entry)?;
    tell_queries(alloc, watches, into)
}

/// Takes entries of the journal, one after another, and appends what each changes: for each query whose first rows
/// differ from those before the entry, in the order of their numbers, a line with the entry's position, followed by the
/// rows.
///
/// # Errors
///
/// Returns `Err(NoMemory)` if memory runs out. Then the first of the entries may have been taken and some text
/// appended; the text that was there before is unchanged.
pub fn tell_entries(
    alloc: Global,
    watches: &mut Watches,
    entries: &[Entry],
    into: &mut Vec<u8>,
) -> Result<(), NoMemory>
    ensures taken { OnOk result (watches.new ≡ watches_with (watches.old.journal ++ entries.now) watches.old.queries) }
    ensures text { OnOk result ((k : ℕ) (queries : List (List TextOf)) → watches.old.queries ≡ map (λ keys. watch_with keys k) queries → into.new.items ≡ into.old.items ++ watch_text_behind k queries watches.old.journal entries.now) }
    ensures begun { HasTaken watches.old watches.new entries.now }
    ensures kept { Keeps into.old.items into.new.items }
{
    for entry in entries {
        tell_entry(alloc, watches, entry, into)?;
    }
    Ok(())
}

/// Appends the last line, `end L`, for a journal of `entries` entries.
pub fn push_end(entries: u64, into: &mut Vec<u8>) -> Result<(), NoMemory>
    ensures ok { (journal : List EntryOf) → length journal ≡ entries → OnOk result (into.new.items ≡ into.old.items ++ end_text journal) }
    ensures kept { Keeps into.old.items into.new.items }
{
    push_line("end ", entries, &[], into)
}

//! The text of a journal: the number of its entries, and a line for each.
ghost use Rattle.std.specs.Prelude.{◌≡◌, ◌++◌, ◌∷◌, [], codes, decimal, flat_map, map, OnOk};
ghost use Rattle.std.specs.List.{enumerate_from};
ghost use Rattle.record_model.specs.Texts.{command_text, entry_line, journal_lines, listed, spaced};
ghost use Rattle.script_model.specs.Words.{line_text};
ghost use Rattle.reply_text.specs.Keeping.{Keeps};

use crate::words::Word::{Command, Number, Numbers, Text};
use crate::words::{push_byte, push_bytes, push_line, push_number};
use catalogue::{Entry, What};
use lake_model::Who;
use no_memory::NoMemory;

// `  P WHAT lane C command N NAME`
fn push_update<'a>(
    position: u64,
    what: &'a str,
    who: Who,
    name: &'a str,
    into: &mut Vec<u8>,
) -> Result<(), NoMemory>
    ensures ok { OnOk result (into.new.items ≡ into.old.items ++ line_text (codes "  " ++ spaced (decimal position ∷ what.now ∷ codes "lane" ∷ decimal who.caller ∷ codes "command" ∷ command_text who ∷ name.now ∷ []))) }
    ensures kept { Keeps into.old.items into.new.items }
{
    let words = [
        Text(what),
        Text("lane"),
        Number(u64::from(who.caller)),
        Text("command"),
        Command(who),
        Text(name),
    ];
    push_line("  ", position, &words, into)
}

// `  P swap lane C command N from NUMBERS kept POSITIONS`
fn push_swap<'a>(
    position: u64,
    who: Who,
    from: &'a [u64],
    kept: &'a [u64],
    into: &mut Vec<u8>,
) -> Result<(), NoMemory>
    ensures ok { OnOk result (into.new.items ≡ into.old.items ++ line_text (codes "  " ++ spaced (decimal position ∷ codes "swap" ∷ codes "lane" ∷ decimal who.caller ∷ codes "command" ∷ command_text who ∷ codes "from" ∷ listed decimal from.now ∷ codes "kept" ∷ listed decimal kept.now ∷ []))) }
    ensures kept { Keeps into.old.items into.new.items }
{
    let words = [
        Text("swap"),
        Text("lane"),
        Number(u64::from(who.caller)),
        Text("command"),
        Command(who),
        Text("from"),
        Numbers(from),
        Text("kept"),
        Numbers(kept),
    ];
    push_line("  ", position, &words, into)
}

// The line of the entry at a position.
fn push_entry(position: u64, entry: &Entry, into: &mut Vec<u8>) -> Result<(), NoMemory>
    ensures ok { OnOk result (into.new.items ≡ into.old.items ++ line_text (entry_line (position, entry.now))) }
    ensures kept { Keeps into.old.items into.new.items }
{
    match &entry.what {
        What::Loaded(table) => push_update(
            position,
            "load",
            entry.who,
            table.table().name().text(),
            into,
        ),
        What::Dropped(name) => push_update(position, "drop", entry.who, name.text(), into),
        What::Replaced(table) => push_update(
            position,
            "replace",
            entry.who,
            table.table().name().text(),
            into,
        ),
        What::Swapped { from, kept } => push_swap(
            position,
            entry.who,
            from.list(),
            kept.list(),
            into,
        ),
    }
}

// The lines of entries, the first of which is at position 1.
fn push_entries(entries: &[Entry], into: &mut Vec<u8>) -> Result<(), NoMemory>
    ensures ok { OnOk result (into.new.items ≡ into.old.items ++ flat_map line_text (map entry_line (enumerate_from 1 entries.now))) }
    ensures kept { Keeps into.old.items into.new.items }
{
    for (index, entry) in entries.iter().enumerate() {
        push_entry(index as u64 + 1, entry, into)?;
    }
    Ok(())
}

/// Appends the text of a journal. It begins with `journal L` for its L entries. Each entry has a line with its
/// position; `load`, `drop`, `replace` or `swap`; the lane and the command that made it; and the name of the table or,
/// for a swap, the numbers of the parts that were replaced and the positions kept of them. Each of these lists is
/// separated by commas, or is `none`.
pub fn push_journal(entries: &[Entry], into: &mut Vec<u8>) -> Result<(), NoMemory>
    ensures ok { OnOk result (into.new.items ≡ into.old.items ++ flat_map line_text (journal_lines entries.now)) }
    ensures kept { Keeps into.old.items into.new.items }
{
    push_bytes(b"journal ", into)?;
    push_number(entries.len() as u64, into)?;
    push_byte(b'\n', into)?;
    push_entries(entries, into)
}

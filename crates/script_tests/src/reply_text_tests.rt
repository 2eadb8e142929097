//! The text of each reply, byte for byte.
use catalogue::{Entry, KeptName};
use column_set::{KeptRow, KeptRows, Keys, Name, Row, SharedTable, TableSets, Titles};
use commands::{Options, Order};
use csv_table::read_table;
use lake_model::{Which, Who};
use no_memory::NoMemory;
use reply_text::{Answered, By, Reply, RunRecord, write_replies};
use segment_core::{Layout, Numbers, Places, TableLines};
use std::alloc::Global;
use std::mem::size_of;
use std::process::Abort;
use std::sync::Arc;
use std::test::Fail;

// Checks that the text of a record is `wanted`, with or without a trace.
fn writes(
    rt: &(impl Abort + AllocGlobal),
    record: &RunRecord,
    trace: bool,
    wanted: &str,
) -> Result<(), NoMemory> {
    let mut text = Vec::new(rt.alloc());
    write_replies(record, 0, trace, &mut text)?;
    assert!(rt; text.as_slice() == wanted.as_bytes(), "not {wanted:?}");
    Ok(())
}

// Reads a text as a name.
fn name(text: &str) -> Result<Name, Fail> {
    Ok(Name::read(text.as_bytes()).ok_or("no name")?)
}

// Reads a text as a name that is kept.
fn kept(alloc: Global, text: &str) -> Result<KeptName, Fail> {
    Ok(KeptName::new(alloc, &name(text)?)?)
}

// Returns the record of this one reply.
fn answered(alloc: Global, by: By, reply: Reply) -> Result<RunRecord, NoMemory> {
    let mut record = RunRecord::new(alloc);
    adds(&mut record, by, reply)?;
    Ok(record)
}

// Checks that the text of a reply to command 7 of lane 1 is `wanted`.
fn shows(rt: &(impl Abort + AllocGlobal), reply: Reply, wanted: &str) -> Result<(), NoMemory> {
    let by = By::Command { number: 7, lane: 1 };
    let record = answered(rt.alloc(), by, reply)?;
    writes(rt, &record, false, wanted)
}

// Checks that with a trace the text of a reply to command 7 of lane 1 is `wanted`.
fn traces(rt: &(impl Abort + AllocGlobal), reply: Reply, wanted: &str) -> Result<(), NoMemory> {
    let by = By::Command { number: 7, lane: 1 };
    let record = answered(rt.alloc(), by, reply)?;
    writes(rt, &record, true, wanted)
}

// Checks that the text of a reply to the merger's command 2 is `wanted` with a trace, and empty without.
fn merger_traces(
    rt: &(impl Abort + AllocGlobal),
    reply: Reply,
    wanted: &str,
) -> Result<(), NoMemory> {
    let record = answered(rt.alloc(), By::Merger { number: 2 }, reply)?;
    writes(rt, &record, true, wanted)?;
    writes(rt, &record, false, "")
}

// Returns the layout at a position with these parts, each given by its number and its load positions.
fn layout(alloc: Global, at: u64, parts: &[(u64, &[(u64, bool)])]) -> Result<Layout, NoMemory> {
    let mut held = Vec::new(alloc);
    for (number, places) in parts {
        let places = Arc::new(alloc, Vec::from_slice(alloc, places)?)?;
        held.push((*number, Places::new(places)))?;
    }
    Layout::new(alloc, at, held)
}

// Returns a reply without rows to a query of one key, which was searched in this layout with two lists read.
fn nothing_found(alloc: Global, layout: Layout) -> Reply {
    Reply::Found {
        query: 1,
        rows: KeptRows::new(Vec::new(alloc)),
        reads: 2,
        probes: 0,
        layout,
    }
}

// Returns the table of this name with the column `c`, which has the value `x`.
fn table(alloc: Global, title: &str) -> Result<SharedTable, Fail> {
    let raw = read_table(alloc, "c\nx\n".as_bytes(), 1_024)?;
    let sets = TableSets::build(alloc, Keys::Canonical, name(title)?, &raw)?;
    Ok(SharedTable::new(alloc, sets)?)
}

// Adds an answer to a record.
fn adds(record: &mut RunRecord, by: By, reply: Reply) -> Result<(), NoMemory> {
    record.room(1, 0)?;
    record.add_answer(Answered { by, reply });
    Ok(())
}

// Adds an entry to the journal of a record.
fn enters(record: &mut RunRecord, entry: Entry) -> Result<(), NoMemory> {
    record.room(0, 1)?;
    record.add_entry(entry);
    Ok(())
}

// Returns the titles of a table whose second column has this name.
fn titles(alloc: Global, table: &str, column: &str) -> Result<Arc<Titles>, Fail> {
    let mut columns = Vec::new(alloc);
    columns.push(String::from_str(alloc, "id")?)?;
    columns.push(String::from_str(alloc, column)?)?;
    let titles = Titles::new(alloc, name(table)?, &columns)?;
    Ok(Arc::new(alloc, titles)?)
}

// Returns the row of a table's column, which is at place 2.
fn row(alloc: Global, overlap: u32, table: &str, column: &str) -> Result<KeptRow, Fail> {
    let titles = titles(alloc, table, column)?;
    if titles.columns() != 2 {
        return Err(Fail::from("other columns"));
    }
    let row = Row {
        overlap,
        titles: &titles,
        place: 2,
    };
    Ok(row.keep()?)
}

// Returns the row `2 t1 2 "city"` as the only one.
fn city(alloc: Global) -> Result<KeptRows, Fail> {
    let row = row(alloc, 2, "t1", "city")?;
    Ok(KeptRows::new(vec![in alloc; row]?))
}

// A record keeps every answer to its end.
#[test]
fn an_answer_takes_at_most_104_bytes(rt: HostRuntime) -> Result<(), Fail> {
    assert!(rt; size_of::<Answered>() <= 104);
    Ok(())
}

#[test]
fn a_replace_shows_the_new_table(rt: HostRuntime) -> Result<(), Fail> {
    let replaced = Reply::Replaced {
        name: kept(rt.alloc(), "t1")?,
        columns: 3,
        members: 0,
        at: 2,
    };
    shows(&rt, replaced, "7 replaced t1 columns 3 members 0 at 2\n")?;
    Ok(())
}

#[test]
fn a_load_shows_what_was_loaded(rt: HostRuntime) -> Result<(), Fail> {
    let loaded = Reply::Loaded {
        name: kept(rt.alloc(), "t1")?,
        columns: 2,
        members: 4,
        at: 1,
    };
    shows(&rt, loaded, "7 loaded t1 columns 2 members 4 at 1\n")?;
    Ok(())
}

#[test]
fn rows_are_lines_and_column_names_are_quoted(rt: HostRuntime) -> Result<(), Fail> {
    let alloc = rt.alloc();
    let city = row(alloc, 2, "t1", "city")?;
    let odd = row(alloc, 1, "zz", "\"\\\n\r\t\u{1}\u{7f}é")?;
    let rows = vec![in alloc; city, odd]?;
    let found = Reply::Found {
        query: 3,
        rows: KeptRows::new(rows),
        reads: 1,
        probes: 1,
        layout: Layout::new(alloc, 18446744073709551615, Vec::new(alloc))?,
    };
    let wanted =
        "7 answer 2 of 3 at 18446744073709551615\n  2 t1 2 \"city\"\n  1 zz 2 \"\\\"\\\\\\n\\r\\t\\x01\\x7fé\"\n";
    shows(&rt, found, wanted)?;
    Ok(())
}

#[test]
fn a_search_of_the_past_shows_the_position_that_it_asked_for(rt: HostRuntime) -> Result<(), Fail> {
    let past = Reply::Past {
        query: 3,
        rows: city(rt.alloc())?,
        asked: 4,
        at: 18446744073709551615,
    };
    let wanted = "7 answer 1 of 3 as of 4 at 18446744073709551615\n  2 t1 2 \"city\"\n";
    traces(&rt, past, wanted)?;
    let later = Reply::Later { asked: 10, at: 9 };
    traces(&rt, later, "7 refused later 10 at 9\n")?;
    Ok(())
}

#[test]
fn a_drop_shows_its_name_and_a_list_its_tables(rt: HostRuntime) -> Result<(), Fail> {
    let dropped = Reply::Dropped {
        name: kept(rt.alloc(), "t1")?,
        at: 3,
    };
    shows(&rt, dropped, "7 dropped t1 at 3\n")?;
    let lines = vec![in rt.alloc(); (name("t2")?, 2, 5), (name("t0")?, 1, 0)]?;
    let tables = TableLines::new(lines);
    shows(
        &rt,
        Reply::Listed { tables, at: 9 },
        "7 tables 2 at 9\n  t2 columns 2 members 5\n  t0 columns 1 members 0\n",
    )?;
    Ok(())
}

#[test]
fn refused_tables(rt: HostRuntime) -> Result<(), Fail> {
    shows(&rt, Reply::NoHeader, "7 refused csv no-header\n")?;
    let wide = Reply::TooManyColumns { got: 1025 };
    shows(&rt, wide, "7 refused csv columns 1025\n")?;
    let unequal = Reply::Unequal {
        row: 2,
        want: 3,
        got: 1,
    };
    shows(&rt, unequal, "7 refused csv record 2 want 3 got 1\n")?;
    let not_utf8 = Reply::NotUtf8 { row: 2, field: 5 };
    shows(&rt, not_utf8, "7 refused csv record 2 field 5 not UTF-8\n")?;
    let large = Reply::TooManyValues { place: 9 };
    shows(&rt, large, "7 refused values column 9\n")?;
    Ok(())
}

#[test]
fn refused_files_and_columns(rt: HostRuntime) -> Result<(), Fail> {
    shows(&rt, Reply::FileFailed, "7 refused file failed\n")?;
    shows(&rt, Reply::FileMissing, "7 refused file missing\n")?;
    shows(&rt, Reply::FileTooLong, "7 refused file longer\n")?;
    let column = Reply::NoColumn {
        name: kept(rt.alloc(), "t")?,
        place: 3,
        at: 1,
    };
    shows(&rt, column, "7 refused column t 3 at 1\n")?;
    Ok(())
}

#[test]
fn refused_loads_and_queries(rt: HostRuntime) -> Result<(), Fail> {
    let repeated = Reply::Repeated {
        name: kept(rt.alloc(), "t1")?,
        at: 4,
    };
    shows(&rt, repeated, "7 refused repeated t1 at 4\n")?;
    let unknown = Reply::Unknown {
        name: kept(rt.alloc(), "t9")?,
        at: 0,
    };
    shows(&rt, unknown, "7 refused unknown t9 at 0\n")?;
    let full = Reply::Full {
        which: Which::KeyBytes,
        count: 1073741820,
        more: 5,
        at: 12,
    };
    shows(
        &rt,
        full,
        "7 refused full key-bytes 1073741820 more 5 at 12\n",
    )?;
    let not_utf8 = Reply::QueryNotUtf8 { line: 10 };
    shows(&rt, not_utf8, "7 refused query line 10 not UTF-8\n")?;
    shows(&rt, Reply::QueryTooLarge, "7 refused query values\n")?;
    shows(&rt, Reply::NoMemory, "7 no memory\n")?;
    Ok(())
}

// Returns a record of two answers to commands, with one to the merger between them, and a sync, that has ended.
fn ended(alloc: Global) -> Result<RunRecord, NoMemory> {
    let mut record = RunRecord::new(alloc);
    adds(
        &mut record,
        By::Command { number: 1, lane: 1 },
        Reply::NoHeader,
    )?;
    adds(&mut record, By::Merger { number: 1 }, Reply::NoMemory)?;
    adds(
        &mut record,
        By::Command { number: 2, lane: 1 },
        Reply::QueryTooLarge,
    )?;
    record.room(0, 0)?;
    record.add_sync();
    record.close();
    Ok(record)
}

#[test]
fn text_begins_at_an_answer_and_leaves_out_the_merger(rt: HostRuntime) -> Result<(), Fail> {
    let record = ended(rt.alloc())?;
    let mut text = Vec::from_slice(rt.alloc(), "before\n".as_bytes())?;
    write_replies(&record, 1, false, &mut text)?;
    assert!(rt; text.as_slice() == "before\n2 refused query values\n".as_bytes());
    assert!(rt; record.syncs() == [0].as_slice());
    assert!(rt; record.ended() && record.answers().len() == 3 && record.journal().is_empty());
    Ok(())
}

#[test]
fn work_and_layout_stand_behind_the_rows_of_a_traced_answer(rt: HostRuntime) -> Result<(), Fail> {
    let alloc = rt.alloc();
    let found = Reply::Found {
        query: 3,
        rows: city(alloc)?,
        reads: 12,
        probes: 3,
        layout: layout(alloc, 1, &[(1, &[(1, false)])])?,
    };
    let wanted =
        "7 answer 1 of 3 at 1\n  2 t1 2 \"city\"\n  work reads 12 probes 3\n  layout at 1 parts 1:1\n";
    traces(&rt, found, wanted)?;
    Ok(())
}

#[test]
fn a_layout_shows_its_parts_and_marks_or_none(rt: HostRuntime) -> Result<(), Fail> {
    let alloc = rt.alloc();
    let dropped = layout(alloc, 3, &[(1, &[(1, true)]), (3, &[(3, false)])])?;
    traces(
        &rt,
        nothing_found(alloc, dropped),
        "7 answer 0 of 1 at 3\n  work reads 2 probes 0\n  layout at 3 parts 1:1- 3:3\n",
    )?;
    let merged = layout(alloc, 5, &[(4, &[(1, false), (2, true), (3, false)])])?;
    traces(
        &rt,
        nothing_found(alloc, merged),
        "7 answer 0 of 1 at 5\n  work reads 2 probes 0\n  layout at 5 parts 4:1,2-,3\n",
    )?;
    let none = layout(alloc, 3, &[])?;
    traces(
        &rt,
        nothing_found(alloc, none),
        "7 answer 0 of 1 at 3\n  work reads 2 probes 0\n  layout at 3 parts none\n",
    )?;
    Ok(())
}

#[test]
fn merges_show_the_layout_of_their_plan(rt: HostRuntime) -> Result<(), Fail> {
    let alloc = rt.alloc();
    let merged = Reply::Merged {
        layout: layout(alloc, 2, &[(1, &[(1, true)])])?,
        parts: 1,
        tables: 0,
        at: 3,
    };
    let wanted = "7 merged 1 parts into 0 tables at 3\n  layout at 2 parts 1:1-\n";
    traces(&rt, merged, wanted)?;
    let stale = Reply::Stale {
        layout: layout(alloc, 2, &[(1, &[(1, false)]), (2, &[(2, false)])])?,
        gone: 1,
        at: 3,
    };
    let wanted = "7 refused stale part 1 at 3\n  layout at 2 parts 1:1 2:2\n";
    traces(&rt, stale, wanted)?;
    let layout = layout(alloc, 3, &[])?;
    shows(
        &rt,
        Reply::NothingToMerge { layout },
        "7 refused nothing to merge at 3\n",
    )?;
    Ok(())
}

#[test]
fn the_merger_answers_with_a_trace_alone(rt: HostRuntime) -> Result<(), Fail> {
    let alloc = rt.alloc();
    let merged = Reply::Merged {
        layout: layout(alloc, 4, &[(1, &[(1, false)]), (2, &[(2, false)])])?,
        parts: 2,
        tables: 2,
        at: 5,
    };
    let wanted = "m2 merged 2 parts into 2 tables at 5\n  layout at 4 parts 1:1 2:2\n";
    merger_traces(&rt, merged, wanted)?;
    let layout = layout(
        alloc,
        5,
        &[(5, &[(1, false), (2, false), (3, false), (4, false)])],
    )?;
    merger_traces(
        &rt,
        Reply::NothingToMerge { layout },
        "m2 refused nothing to merge at 5\n  layout at 5 parts 5:1,2,3,4\n",
    )?;
    merger_traces(&rt, Reply::NoMemory, "m2 no memory\n")?;
    Ok(())
}

// Returns who gave a command.
fn who(caller: u32, command: u64) -> Who {
    Who { caller, command }
}

enum Update {
    Load,
    Drop,
    Replace,
}

// Returns the entry of an update.
fn entry(alloc: Global, who: Who, update: &Update, title: &str) -> Result<Entry, Fail> {
    match update {
        Update::Load => Ok(Entry::loaded(who, table(alloc, title)?)),
        Update::Drop => Ok(Entry::dropped(who, kept(alloc, title)?)),
        Update::Replace => Ok(Entry::replaced(who, table(alloc, title)?)),
    }
}

// The lane and the number of each command, what it does, and the name of its table.
const UPDATES: [(u32, u64, Update, &str); 4] = [
    (1, 1, Update::Load, "a"),
    (1, 2, Update::Drop, "a"),
    (2, 3, Update::Load, "b"),
    (1, 4, Update::Replace, "b"),
];

// Returns a record of these updates, that has not ended.
fn updated(alloc: Global) -> Result<RunRecord, Fail> {
    let mut record = RunRecord::new(alloc);
    for (lane, number, update, title) in &UPDATES {
        enters(
            &mut record,
            entry(alloc, who(*lane, *number), update, title)?,
        )?;
    }
    Ok(record)
}

#[test]
fn the_journal_stands_behind_a_traced_record_that_ended(rt: HostRuntime) -> Result<(), Fail> {
    let mut record = updated(rt.alloc())?;
    writes(&rt, &record, true, "")?;
    record.close();
    writes(&rt, &record, false, "")?;
    let wanted =
        "journal 4\n  1 load lane 1 command 1 a\n  2 drop lane 1 command 2 a\n  3 load lane 2 command 3 b\n  4 replace lane 1 command 4 b\n";
    writes(&rt, &record, true, wanted)?;
    Ok(())
}

// Adds a swap to the journal of a record.
fn swaps(
    record: &mut RunRecord,
    alloc: Global,
    who: Who,
    from: &[u64],
    kept: &[u64],
) -> Result<(), NoMemory> {
    let from = Numbers::new(Vec::from_slice(alloc, from)?);
    let kept = Numbers::new(Vec::from_slice(alloc, kept)?);
    enters(record, Entry::swapped(who, from, kept))
}

#[test]
fn a_swap_shows_its_parts_and_the_positions_that_it_kept(rt: HostRuntime) -> Result<(), Fail> {
    let mut record = RunRecord::new(rt.alloc());
    swaps(&mut record, rt.alloc(), who(0, 2), &[1, 12], &[])?;
    swaps(&mut record, rt.alloc(), who(3, 9), &[4], &[7, 8])?;
    record.close();
    let wanted =
        "journal 2\n  1 swap lane 0 command m2 from 1,12 kept none\n  2 swap lane 3 command 9 from 4 kept 7,8\n";
    writes(&rt, &record, true, wanted)?;
    Ok(())
}

#[test]
fn options_are_those_that_were_set(rt: HostRuntime) {
    let alloc = rt.alloc();
    let mut record = RunRecord::new(alloc);
    assert!(rt; record.options().lanes == 1 && !record.options().merge && !record.options().trace);
    record.set_options(Options {
        lanes: 4,
        order: Some(Order::new(Vec::new(alloc))),
        merge: true,
        trace: true,
        keys: Keys::Compatibility,
    });
    assert!(rt; record.options().lanes == 4 && record.options().order.is_some());
    assert!(rt; record.options().merge && record.options().trace && !record.ended());
    assert!(rt; record.options().keys == Keys::Compatibility);
}

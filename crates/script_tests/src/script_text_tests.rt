//! Worked scripts, with what the rules give for each by hand.

use column_set::Name;
use lake_io::{MemoryShelf, MemorySource};
use script_text::{Batch, Body, FileBody, Gather, ScriptEnd, ScriptLimits, Task};
use std::alloc::{AllocError, Global};
use std::str;
use std::test::Fail;

// Adds a batch to a text, in brackets: each command with its number and its lane.
fn push_batch(text: &mut String, batch: &Batch) -> Result<(), AllocError> {
    text.push_str("[")?;
    for command in batch.commands() {
        let number = command.number();
        let lane = command.lane();
        write!(text, "{number}@{lane} ")?;
        push_task(text, command.task())?;
    }
    text.push_str("]")
}

// Adds a command's task.
fn push_task(text: &mut String, task: &Task) -> Result<(), AllocError> {
    match task {
        Task::Load { name, body } => push_table(text, "load", name, shown(body)),
        Task::LoadFile { name, file } => push_table(text, "loadfile", name, shown_file(file)),
        Task::Replace { name, body } => push_table(text, "replace", name, shown(body)),
        Task::Drop { name } => push_drop(text, name),
        Task::Tables => text.push_str("tables;"),
        Task::Search { k, body } => push_search(text, *k, shown(body)),
        Task::Like { k, name, place } => push_like(text, *k, name, *place),
        Task::Contain { a, b, body } => push_pair(text, "contain", u64::from(*a), *b, shown(body)),
        Task::AsOf { asked, k, body } => push_pair(text, "asof", *asked, *k, shown(body)),
        Task::Merge { all: false } => text.push_str("merge;"),
        Task::Merge { all: true } => text.push_str("merge all;"),
    }
}

fn push_table(text: &mut String, word: &str, name: &Name, body: &str) -> Result<(), AllocError> {
    let name = name.text();
    write!(text, "{word} {name} {body:?};")
}

fn push_drop(text: &mut String, name: &Name) -> Result<(), AllocError> {
    let name = name.text();
    write!(text, "drop {name};")
}

fn push_search(text: &mut String, k: u32, body: &str) -> Result<(), AllocError> {
    write!(text, "search {k} {body:?};")
}

fn push_like(text: &mut String, k: u32, name: &Name, place: u32) -> Result<(), AllocError> {
    let name = name.text();
    write!(text, "like {k} {name} {place};")
}

fn push_pair(
    text: &mut String,
    word: &str,
    first: u64,
    second: u32,
    body: &str,
) -> Result<(), AllocError> {
    write!(text, "{word} {first} {second} {body:?};")
}

// Returns the bytes of a body.
fn shown(body: &Body) -> &str {
    str::from_utf8(body.bytes()).unwrap_or("?")
}

// Returns the bytes of a file, or why there are none.
fn shown_file(file: &FileBody) -> &str {
    match file {
        FileBody::Bytes(body) => shown(body),
        FileBody::Failed => "failed",
        FileBody::Missing => "missing",
        FileBody::TooLong => "too long",
    }
}

// Adds how a script ends.
fn push_end(text: &mut String, end: &ScriptEnd) -> Result<(), AllocError> {
    match end {
        ScriptEnd::Script { line, reason } => write!(text, "line {line} {reason:?}"),
        ScriptEnd::ReadFault => text.push_str("read fault"),
        ScriptEnd::NoMemory => text.push_str("no memory"),
    }
}

// Adds what a gatherer gives: each batch, and then how the script ends.
fn push_batches(
    text: &mut String,
    gather: &mut Gather,
    source: &mut MemorySource,
    shelf: &mut MemoryShelf,
) -> Result<(), AllocError> {
    for _ in 0..8 {
        if gather.ended() {
            return Ok(());
        }
        match gather.batch(source, shelf) {
            Ok(Some(batch)) => push_batch(text, &batch)?,
            Ok(None) => text.push_str("end")?,
            Err(end) => push_end(text, &end)?,
        }
    }
    Ok(())
}

// A shelf of the files `a.csv` and `b c.csv`, whose third fetch fails.
fn two_files(alloc: Global) -> Result<MemoryShelf, Fail> {
    let mut shelf = MemoryShelf::new(alloc);
    shelf.add("a.csv", "c\nx\n".as_bytes())?;
    shelf.add("b c.csv", "d\n".as_bytes())?;
    shelf.fail_at(3)?;
    Ok(shelf)
}

// Returns what a new gatherer gives for a script in pieces of this size, where the call of `read` with the number
// `failing` fails.
fn given(
    alloc: Global,
    mut gather: Gather,
    script: &str,
    piece: usize,
    failing: u64,
) -> Result<String, Fail> {
    let mut text = String::new(alloc);
    let mut source = MemorySource::new(alloc, script.as_bytes(), piece.max(1), &[failing])?;
    let mut shelf = two_files(alloc)?;
    push_batches(&mut text, &mut gather, &mut source, &mut shelf)?;
    Ok(text)
}

// Does the same with the standard limits.
fn given_standard(alloc: Global, script: &str, piece: usize, failing: u64) -> Result<String, Fail> {
    let gather = Gather::new(alloc, 2, ScriptLimits::standard())?;
    given(alloc, gather, script, piece, failing)
}

// Does the same with limits that small scripts reach.
fn given_small(alloc: Global, script: &str, piece: usize) -> Result<String, Fail> {
    let limits = ScriptLimits {
        line: 16,
        block: 8,
        commands: 2,
        bytes: 12,
        input: 200,
    };
    let gather = Gather::new(alloc, 2, limits)?;
    given(alloc, gather, script, piece, 0)
}

// Returns whether the script gives this in pieces of each size.
fn gives(alloc: Global, script: &str, want: &str) -> Result<bool, Fail> {
    for piece in [1, 7, 64, 4096] {
        let got = given_standard(alloc, script, piece, 0)?;
        if got.as_str() != want {
            return Ok(false);
        }
    }
    Ok(true)
}

// Does the same with small limits.
fn gives_small(alloc: Global, script: &str, want: &str) -> Result<bool, Fail> {
    for piece in [1, 7, 4096] {
        let got = given_small(alloc, script, piece)?;
        if got.as_str() != want {
            return Ok(false);
        }
    }
    Ok(true)
}

// Returns a line `count` times, followed by the last one.
fn repeated(alloc: Global, line: &str, count: usize, last: &str) -> Result<String, AllocError> {
    let mut script = String::new(alloc);
    for _ in 0..count {
        script.push_str(line)?;
    }
    script.push_str(last)?;
    Ok(script)
}

const WORKED: [(&str, &str); 75] = [
    ("", "end"),
    ("\n  \n# x\n#\n\r\n", "end"),
    ("tables", "[1@1 tables;]"),
    ("tables\r\n\r", "[1@1 tables;]"),
    // what a `sync` ends, even an empty batch
    ("tables\nsync\ndrop a\n", "[1@1 tables;][2@1 drop a;]"),
    ("sync\nsync\n", "[][]end"),
    ("sync", "[]"),
    ("tables\n  sync  \r\n\n", "[1@1 tables;]end"),
    ("sync now\n", "line 1 Words"),
    ("@1 sync\n", "line 1 Words"),
    // words
    (
        "  load   t1  \nc\n.\n like 3  t1   2\n",
        "[1@1 load t1 \"c\\n\";2@1 like 3 t1 2;]",
    ),
    (" #\n", "line 1 Unknown"),
    ("\ttables\n", "line 1 Unknown"),
    ("Load a\n", "line 1 Unknown"),
    ("loads a\n", "line 1 Unknown"),
    ("merges\n", "line 1 Unknown"),
    (".\n", "line 1 Unknown"),
    ("load\n", "line 1 Words"),
    ("load a b\n", "line 1 Words"),
    ("load é\n", "line 1 Words"),
    ("drop\n", "line 1 Words"),
    ("drop a b\n", "line 1 Words"),
    ("replace\n", "line 1 Words"),
    ("replace é\n.\n", "line 1 Words"),
    ("tables a\n", "line 1 Words"),
    ("search\n", "line 1 Words"),
    ("search 1 2\n", "line 1 Words"),
    ("search 0\n", "line 1 Words"),
    ("search 010\n", "line 1 Words"),
    ("search +1\n", "line 1 Words"),
    ("search 10001\n", "line 1 Words"),
    ("search 10000\n.\n", "[1@1 search 10000 \"\";]"),
    ("like 1 a\n", "line 1 Words"),
    ("like 1 a 0\n", "line 1 Words"),
    ("like 1 a 1 1\n", "line 1 Words"),
    ("like 10001 a 1\n", "line 1 Words"),
    ("like 1 a 4294967296\n", "line 1 Words"),
    ("like 1 a 4294967295\n", "[1@1 like 1 a 4294967295;]"),
    ("asof 0 5\nx\n.\n", "[1@1 asof 0 5 \"x\\n\";]"),
    (
        "asof 4294967295 10000\n.\n",
        "[1@1 asof 4294967295 10000 \"\";]",
    ),
    ("asof 01 5\n", "line 1 Words"),
    ("asof 4294967296 1\n", "line 1 Words"),
    ("asof 1\n", "line 1 Words"),
    ("asof 1 0\n", "line 1 Words"),
    ("asof 1 2 3\n", "line 1 Words"),
    ("merge\nmerge all\n", "[1@1 merge;2@1 merge all;]"),
    (" merge  all \r", "[1@1 merge all;]"),
    ("merge al\n", "line 1 Words"),
    ("merge all all\n", "line 1 Words"),
    // lanes
    ("@1 merge\n@2 merge all\n", "[1@1 merge;2@2 merge all;]"),
    ("@1 tables\n@2 drop a\n", "[1@1 tables;2@2 drop a;]"),
    ("@3 tables\n", "line 1 Lane"),
    ("@3 tabl\n", "line 1 Lane"),
    ("@99999999999999999999 tables\n", "line 1 Lane"),
    ("@0 tables\n", "line 1 Words"),
    ("@01 tables\n", "line 1 Words"),
    ("@ tables\n", "line 1 Words"),
    ("@2\n", "line 1 Unknown"),
    ("@2 load a\nx\n.\n", "[1@2 load a \"x\\n\";]"),
    // blocks
    (
        "load a\r\nx\r\n..\n.b\n\n# c\n.\r\n",
        "[1@1 load a \"x\\r\\n.\\nb\\n\\n# c\\n\";]",
    ),
    (
        " @2  replace  t1 \r\nc\n..\n.\nreplace t1\n.",
        "[1@2 replace t1 \"c\\n.\\n\";2@1 replace t1 \"\";]",
    ),
    ("load a\n.\r\r\n.", "[1@1 load a \"\\r\\r\\n\";]"),
    ("load a\nx\n.\r", "[1@1 load a \"x\\n\";]"),
    ("load a\n.\nsearch 1\nx\ny", "line 3 NoEnd"),
    ("load a\nsync\n", "line 1 NoEnd"),
    ("sync\nload a", "[]line 2 NoEnd"),
    // files
    ("loadfile a a.csv\n", "[1@1 loadfile a \"c\\nx\\n\";]"),
    (
        "@2 loadfile  a   b c.csv  \r\n",
        "[1@2 loadfile a \"d\\n\";]",
    ),
    ("loadfile a b  c.csv", "[1@1 loadfile a \"missing\";]"),
    (
        "loadfile a a\nsync\nloadfile b a.csv\nloadfile c a.csv\n",
        "[1@1 loadfile a \"missing\";][2@1 loadfile b \"c\\nx\\n\";3@1 loadfile c \"failed\";]",
    ),
    ("loadfile a\n", "line 1 Words"),
    ("loadfile a  \n", "line 1 Words"),
    ("loadfile é a.csv\n", "line 1 Words"),
    // the first line at fault is named, after the batches before it
    (
        "tables\nsync\nfind\ntables\n",
        "[1@1 tables;]line 3 Unknown",
    ),
    ("load a\n.\nx\n@9 y\n", "line 3 Unknown"),
];

#[test]
fn gives_what_the_rules_say(rt: HostRuntime) -> Result<(), Fail> {
    for (script, want) in &WORKED {
        assert!(rt;
            gives(rt.alloc(), script, want)?,
            "{script:?} gives not {want:?}"
        );
    }
    Ok(())
}

const LIMITED: [(&str, &str); 18] = [
    ("drop abcdefghijk\n", "[1@1 drop abcdefghijk;]"),
    ("drop abcdefghijk\r\n", "[1@1 drop abcdefghijk;]"),
    ("drop abcdefghijkl\n", "line 1 LineTooLong"),
    ("drop abcdefghijkl", "line 1 LineTooLong"),
    ("# 345678901234567890\n", "line 1 LineTooLong"),
    ("load a\nc\nxxxxx\n.\n", "[1@1 load a \"c\\nxxxxx\\n\";]"),
    ("load a\nc\nxxxxxx\n.\n", "line 3 BlockTooLong"),
    ("load a\n.xxxxxxx\n.\n", "[1@1 load a \"xxxxxxx\\n\";]"),
    ("load a\nxxxxxxxxxxxxxxxxxxxx\n.\n", "line 2 BlockTooLong"),
    (
        "tables\ntables\nsync\ntables\n",
        "[1@1 tables;2@1 tables;][3@1 tables;]",
    ),
    ("tables\ntables\ntables\n", "line 3 BatchCommands"),
    (
        "load a\nc\nxxx\n.\nload b\nc\nxxx\n.\n",
        "[1@1 load a \"c\\nxxx\\n\";2@1 load b \"c\\nxxx\\n\";]",
    ),
    (
        "load a\nc\nxxx\n.\nload b\nc\nxxxx\n.\n",
        "line 7 BatchBytes",
    ),
    (
        "load a\nc\nxxxxx\n.\nloadfile b a.csv\n",
        "[1@1 load a \"c\\nxxxxx\\n\";2@1 loadfile b \"c\\nx\\n\";]",
    ),
    (
        "load a\nc\nxxxxx\n.\nsync\nloadfile b a.csv\nload c\nxxxxxxx\n.\n",
        "[1@1 load a \"c\\nxxxxx\\n\";][2@1 loadfile b \"c\\nx\\n\";3@1 load c \"xxxxxxx\\n\";]",
    ),
    (
        "loadfile b a.csv\nload a\nxxxxxxx\n.\nloadfile c a\n",
        "line 5 BatchCommands",
    ),
    ("load a\nx\n\n\n\n\n\n\n\n.\n", "line 9 BlockTooLong"),
    ("load a\nx\n\n\n\n\n\n\nload", "line 9 BlockTooLong"),
];

#[test]
fn keeps_the_limits(rt: HostRuntime) -> Result<(), Fail> {
    for (script, want) in &LIMITED {
        assert!(rt;
            gives_small(rt.alloc(), script, want)?,
            "{script:?} gives not {want:?}"
        );
    }
    Ok(())
}

// A line, how often it is repeated, what follows these lines, and the end.
const LONG: [(&str, usize, &str, &str); 6] = [
    ("##\n", 66, "##", "end"),
    ("##\n", 66, "#\n", "end"),
    ("##\n", 66, "##\n", "line 67 InputTooLong"),
    ("##\n", 66, "##\n##\n", "line 67 InputTooLong"),
    ("##\n", 62, "##############\n", "line 63 InputTooLong"),
    ("##\n", 61, "#################", "line 62 LineTooLong"),
];

#[test]
fn keeps_the_limit_of_an_input(rt: HostRuntime) -> Result<(), Fail> {
    for (line, count, last, want) in &LONG {
        let script = repeated(rt.alloc(), line, *count, last)?;
        assert!(rt;
            gives_small(rt.alloc(), script.as_str(), want)?,
            "{count} lines and {last:?} give not {want:?}"
        );
    }
    Ok(())
}

// A script, its pieces, the call of `read` that fails, and what is given.
const FAILING: [(&str, usize, u64, &str); 6] = [
    (
        "tables\nsync\nfind\ntables\n",
        17,
        2,
        "[1@1 tables;]line 3 Unknown",
    ),
    (
        "tables\nsync\nfind\ntables\n",
        16,
        2,
        "[1@1 tables;]read fault",
    ),
    ("tables\n", 64, 1, "read fault"),
    ("tables\n", 64, 2, "read fault"),
    ("load a\n", 64, 2, "read fault"),
    ("sync\nsync\n", 64, 2, "[][]read fault"),
];

#[test]
fn tells_failing_reads(rt: HostRuntime) -> Result<(), Fail> {
    for (script, piece, failing, want) in &FAILING {
        let got = given_standard(rt.alloc(), script, *piece, *failing)?;
        assert!(rt;
            got.as_str() == *want,
            "{script:?}, where call {failing} fails, gives not {want:?}"
        );
    }
    Ok(())
}

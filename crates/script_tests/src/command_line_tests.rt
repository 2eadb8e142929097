//! Words that are read and words that are refused.
use command_line::{Mode, WordsRefused, read_words};
use commands::Options;
use lake_model::Keys;
use std::alloc::Global;
use std::process::Abort;
use std::test::Fail;

/// Returns the mode that the words, separated by single spaces, state, as four numbers: for a run its lanes, whether an
/// order is stated, its flags and its profile; for a lake to make its three numbers; for watched queries the number of
/// rows, the number of paths, and the length of the last path; for a check the lanes of the run, its flags and profile,
/// and the length of the path. The result is `None` if they are refused.
fn said(alloc: Global, line: &str) -> Result<Option<[u32; 4]>, Fail> {
    let words = words_of(alloc, line)?;
    said_by(alloc, words.as_slice())
}

fn words_of(alloc: Global, line: &str) -> Result<Vec<String>, Fail> {
    let mut words = Vec::new(alloc);
    for word in line.split(' ') {
        words.push(String::from_str(alloc, word)?)?;
    }
    Ok(words)
}

/// 4 for profile 2, 2 for a merger, and 1 for a trace.
fn flags_of(options: &Options) -> u32 {
    let second = u32::from(matches!(options.keys, Keys::Compatibility));
    second * 4 + u32::from(options.merge) * 2 + u32::from(options.trace)
}

/// A length as a number of 32 bits; the lengths of these tests have fewer.
fn length(of: usize) -> u32 {
    u32::try_from(of).unwrap_or(0)
}

fn numbers_of(mode: &Mode) -> [u32; 4] {
    match mode {
        Mode::Run(options) => [
            1,
            options.lanes,
            u32::from(options.order.is_some()),
            flags_of(options),
        ],
        Mode::Make { seed, tables, rows } => [*seed, *tables, *rows, 9],
        Mode::Watch { k, paths } => [*k, length(paths.len()), last_length(paths), 8],
        Mode::Check { trace, options } => [
            options.lanes,
            flags_of(options),
            length(trace.len()),
            7,
        ],
    }
}

fn last_length(paths: &[String]) -> u32 {
    match paths {
        [.., last] => length(last.len()),
        [] => 0,
    }
}

fn said_by(alloc: Global, words: &[String]) -> Result<Option<[u32; 4]>, Fail> {
    match read_words(alloc, words) {
        Ok(mode) => Ok(Some(numbers_of(&mode))),
        Err(WordsRefused::Usage) => Ok(None),
        Err(WordsRefused::NoMemory) => Err(Fail::from("memory")),
    }
}

// Expects that each line is read as these numbers.
fn expect_read(rt: &impl Abort, alloc: Global, cases: &[(&str, [u32; 4])]) -> Result<(), Fail> {
    for (line, wanted) in cases {
        assert!(rt; said(alloc, line)? == Some(*wanted), "{line}");
    }
    Ok(())
}

// Expects that each line is refused.
fn expect_refused(rt: &impl Abort, alloc: Global, lines: &[&str]) -> Result<(), Fail> {
    for line in lines {
        assert!(rt; said(alloc, line)?.is_none(), "{line}");
    }
    Ok(())
}

const PLAIN: [(&str, [u32; 4]); 17] = [
    ("run", [1, 1, 0, 0]),
    ("run --trace", [1, 1, 0, 1]),
    ("run --merge --lanes 16", [1, 16, 0, 2]),
    ("run --trace --order 1,2//2 --lanes 2", [1, 2, 1, 1]),
    ("run --lanes 3 --order / --merge --trace", [1, 3, 1, 3]),
    ("run --order 0,1,0/ --merge", [1, 1, 1, 2]),
    ("run --profile 1", [1, 1, 0, 0]),
    ("run --profile 2", [1, 1, 0, 4]),
    (
        "run --trace --profile 2 --order 3 --lanes 3 --merge",
        [1, 3, 1, 7],
    ),
    ("make 0 1 1", [0, 1, 1, 9]),
    ("make 4294967295 1000 5000", [4294967295, 1000, 5000, 9]),
    ("watch 1 q", [1, 1, 1, 8]),
    ("watch 10000 queries/a.csv b-c", [10000, 2, 3, 8]),
    ("watch 3 a b c d e f g h i j k l m n o last", [3, 16, 4, 8]),
    ("check t", [1, 1, 1, 7]),
    ("check runs/last --merge --lanes 16", [16, 3, 9, 7]),
    ("check t --profile 2 --lanes 2", [2, 5, 1, 7]),
];

#[test]
fn reads_plain_words(rt: HostRuntime) -> Result<(), Fail> {
    expect_read(&rt, rt.alloc(), &PLAIN)
}

const OTHER: [(&str, [u32; 4]); 21] = [
    ("run --", [1, 1, 0, 0]),
    ("run --trace --", [1, 1, 0, 1]),
    ("run --lanes=2", [1, 2, 0, 0]),
    ("run --lanes 02", [1, 2, 0, 0]),
    ("run --lanes +2", [1, 2, 0, 0]),
    ("run --order ", [1, 1, 1, 0]),
    ("run --profile=2", [1, 1, 0, 4]),
    ("run --profile 02", [1, 1, 0, 4]),
    ("make -- 007 +2 3", [7, 2, 3, 9]),
    ("watch -- +2 -q", [2, 1, 2, 8]),
    ("watch 1 q -- --trace", [1, 2, 7, 8]),
    ("watch 1 ", [1, 1, 0, 8]),
    ("check t --", [1, 1, 1, 7]),
    ("check t --lanes=02", [2, 1, 1, 7]),
    ("check --lanes 2 t", [2, 1, 1, 7]),
    ("check --merge t --profile 2", [1, 7, 1, 7]),
    ("check -- t", [1, 1, 1, 7]),
    ("check -- -t", [1, 1, 2, 7]),
    ("check --lanes 2 -- --trace", [2, 1, 7, 7]),
    ("check ", [1, 1, 0, 7]),
    ("check  --merge", [1, 3, 0, 7]),
];

#[test]
fn reads_other_words_as_clap_does(rt: HostRuntime) -> Result<(), Fail> {
    expect_read(&rt, rt.alloc(), &OTHER)
}

const OTHER_MODES: [&str; 12] = [
    "",
    " run",
    "Run",
    "runs",
    "ru",
    "--trace run",
    "makes 0 1 1",
    "Watch 1 q",
    "watches 1 q",
    "checks t",
    "--help",
    "run\u{a0}",
];

#[test]
fn refuses_other_modes(rt: HostRuntime) -> Result<(), Fail> {
    assert!(rt; said_by(rt.alloc(), &[])?.is_none());
    expect_refused(&rt, rt.alloc(), &OTHER_MODES)
}

const OTHER_RUN: [&str; 26] = [
    "run ",
    "run run",
    "run -- --trace",
    "run --trace --trace",
    "run --trace=true",
    "run --trac",
    "run -t",
    "run --help",
    "run -V",
    "run --lanes",
    "run --lanes 0",
    "run --lanes 17",
    "run --lanes -1",
    "run --lanes 2 --lanes 2",
    "run --order",
    "run --order 2",
    "run --order 0",
    "run --order 1,,1",
    "run --order 01",
    "run --order 1/ --order 1",
    "run --profile",
    "run --profile 0",
    "run --profile 3",
    "run --profile -1",
    "run --profile 1 --profile 2",
    "run --profile 2 --profile 2",
];

#[test]
fn refuses_other_words_of_run(rt: HostRuntime) -> Result<(), Fail> {
    expect_refused(&rt, rt.alloc(), &OTHER_RUN)
}

const OTHER_MAKE: [&str; 11] = [
    "make",
    "make 0 1",
    "make 0 1 1 1",
    "make 4294967296 1 1",
    "make 0 0 1",
    "make 0 1001 1",
    "make 0 1 0",
    "make 0 1 5001",
    "make 0 1 x",
    "make -1 1 1",
    "make --trace 0 1 1",
];

#[test]
fn refuses_other_words_of_make(rt: HostRuntime) -> Result<(), Fail> {
    expect_refused(&rt, rt.alloc(), &OTHER_MAKE)
}

const OTHER_WATCH: [&str; 12] = [
    "watch",
    "watch 1",
    "watch 0 q",
    "watch 10001 q",
    "watch x q",
    "watch -1 q",
    "watch 1 -q",
    "watch 1 q --trace",
    "watch --trace 1 q",
    "watch 1 --help",
    "watch 3 a b c d e f g h i j k l m n o p q",
    "watch 3 -- a b c d e f g h i j k l m n o p q",
];

#[test]
fn refuses_other_words_of_watch(rt: HostRuntime) -> Result<(), Fail> {
    expect_refused(&rt, rt.alloc(), &OTHER_WATCH)
}

const OTHER_CHECK: [&str; 17] = [
    "check",
    "check --",
    "check -t",
    "check --lanes 2",
    "check t u",
    "check t -- u",
    "check -- t --merge",
    "check t --trace",
    "check --trace t",
    "check t --order /",
    "check --order / t",
    "check t --lanes 17",
    "check t --lanes 2 --lanes 2",
    "check --merge t --merge",
    "check t --profile 3",
    "check t --profile 1 --profile 1",
    "check t --help",
];

#[test]
fn refuses_other_words_of_check(rt: HostRuntime) -> Result<(), Fail> {
    expect_refused(&rt, rt.alloc(), &OTHER_CHECK)
}

#[test]
fn paths_stand_in_the_order_of_the_words(rt: HostRuntime) -> Result<(), Fail> {
    let alloc = rt.alloc();
    let words = words_of(alloc, "watch 2 first second first")?;
    let Ok(Mode::Watch { k: 2, paths }) = read_words(alloc, words.as_slice()) else {
        return Err(Fail::from("refused"));
    };
    let [first, second, third] = paths.as_slice() else {
        return Err(Fail::from("not three paths"));
    };
    assert!(rt;
        first.as_str() == "first" && second.as_str() == "second" && third.as_str() == "first"
    );
    Ok(())
}

//! The program: it reads a script from standard input, writes the replies to standard output, and ends with the status
//! of the run.
#![tactic(auto)]

use josie_top::{GivenWhy, Reason, RunRecord, Status, run};
use lake_io::{FileShelf, NoGate, StdSink, StdSource};
use std::env::Env;
use std::io::ErrorKind;
use std::process::ExitCode;
use std::{env, io, mem};

/// How the program is called.
const USAGE: &str = "josie run [--lanes N] [--order LIST] [--merge] [--trace] [--profile P] \
    or josie make SEED TABLES ROWS or josie watch K PATH... \
    or josie check TRACE [--lanes N] [--merge] [--profile P]";

/// What `--help` alone prints.
const HELP: &str = "josie run [--lanes N] [--order LIST] [--merge] [--trace] [--profile P]
    Reads a script from standard input and writes its replies to standard output, batch by batch.
    load NAME           loads the CSV table on the lines that follow, up to a line `.`
    loadfile NAME PATH  loads the CSV table in the file at PATH
    drop NAME           drops the table of this name
    replace NAME        puts the CSV table on the lines that follow, up to a line `.`, in the place
                        of the live table of this name
    tables              lists the live tables
    search K            finds the K columns (1 to 10000) that share the most values with the lines
                        that follow, up to a line `.`
    like K NAME PLACE   finds the K columns that share the most values with the column at this place
                        of a live table, whose own columns are left out
    contain A B         finds all columns that hold at least A of B parts of the lines that follow, up
                        to a line `.`
    asof A K            finds the K columns that shared the most values with the lines that follow, up
                        to a line `.`, when the lake's history had A entries: the `at` of a reply
    merge               merges four adjacent parts of the index of one size, or else rewrites a part
                        of which half or more of the tables were dropped or replaced
    merge all           merges the whole index into one part; no merge changes an answer
    sync                ends a batch: its replies are written before more is read
    @L ...              a command of lane L; without `@L` the lane is 1
    # ...               a comment; empty lines are skipped, too
    --lanes N           runs N lanes, 1 to 16 (default 1); unless an order is stated, the lanes of a
                        batch run at the same time, each on a thread of its own
    --order LIST        runs the lanes step by step in this order, on one thread: for each batch a
                        list of lane numbers separated by commas, the lists separated by /
    --merge             runs a merger, which is lane 0, beside the lanes: one merge for each load,
                        drop and replace of a batch
    --trace             also writes what each search read, the layout of the lake after each answer
                        and merge, and the journal at the end
    --profile P         how values are compared: 1 (the default) without regard to case and to how
                        accents are written; 2 also without regard to compatibility forms, as
                        full-width letters, ligatures and circled digits are. Tables have at most
                        1024 columns with 1, and 4096 with 2
josie make SEED TABLES ROWS
    Makes a lake of pseudo-random tables from a seed, asks fifty searches of it, and writes a
    summary.
josie watch K PATH...
    Reads a query from each file, 1 to 16 of them, one value a line; then runs the script on standard
    input, and writes no replies, but the first K rows (1 to 10000) of a query whenever they change.
josie check TRACE [--lanes N] [--merge] [--profile P]
    Reads the trace of a run, as --trace wrote it, from a file, then the script from standard input;
    and writes yes if some right run of the script has this trace, byte for byte, and no if none has.
    The options are those of the run.
josie --help     prints this text
josie --version  prints the version
See README.md, docs/FORMATS.md and the manual page docs/josie.1.";

/// What `--version` alone prints.
const VERSION: &str = "josie 0.1.0";

/// Returns the words after the program's name. A word that is not UTF-8 puts the command line at fault.
fn words_of<R: Env + AllocGlobal>(rt: &R) -> Result<Vec<String>, Status> {
    let mut words = Vec::new(rt.alloc());
    match env::args(rt) {
        Ok(args) => {
            for word in args.skip(1) {
                if words.push(word).is_err() {
                    return Err(Status::NoMemory);
                }
            }
            Ok(words)
        }
        Err(error) => match error.kind() {
            ErrorKind::OutOfMemory => Err(Status::NoMemory),
            _ => Err(Status::Usage),
        },
    }
}

/// Returns the exit code of a status.
fn code(status: Status) -> u8 {
    match status {
        Status::Done => 0,
        Status::Script { .. } => 1,
        Status::Usage => 2,
        Status::ReadFault => 3,
        Status::WriteFault => 4,
        Status::NoMemory => 5,
        Status::Given { .. } => 6,
        Status::Refuted => 7,
    }
}

/// Returns what is wrong with a line, in words.
fn reason_text(reason: Reason) -> &'static str {
    match reason {
        Reason::LineTooLong => "line too long",
        Reason::Words => "bad words",
        Reason::Lane => "no such lane",
        Reason::Unknown => "no such command",
        Reason::BatchCommands => "too many commands in a batch",
        Reason::BlockTooLong => "block too long",
        Reason::BatchBytes => "too many bytes in a batch",
        Reason::NoEnd => "block without end",
        Reason::InputTooLong => "input too long",
    }
}

/// Prints why the file of a path gives no query.
fn explain_given<R: Eprint>(rt: &R, path: u32, why: GivenWhy) -> io::Result<()> {
    match why {
        GivenWhy::Failed => eprintln!(rt; "josie: given file {path}: failed"),
        GivenWhy::Missing => eprintln!(rt; "josie: given file {path}: missing"),
        GivenWhy::TooLong => eprintln!(rt; "josie: given file {path}: longer"),
        GivenWhy::NotUtf8 { line } => {
            eprintln!(rt; "josie: given file {path}: line {line} not UTF-8")
        }
        GivenWhy::TooManyValues => eprintln!(rt; "josie: given file {path}: too many values"),
    }
}

/// Prints one line on standard error if the status is not `Done`. If the line can't be printed, the exit code still
/// shows the status.
fn explain<R: Eprint>(rt: &R, status: Status) {
    let _printed = match status {
        Status::Done => Ok(()),
        Status::Script { line, reason } => {
            let text = reason_text(reason);
            eprintln!(rt; "josie: line {line}: {text}")
        }
        Status::Usage => eprintln!(rt; "josie: usage: {USAGE}"),
        Status::ReadFault => eprintln!(rt; "josie: read failed"),
        Status::WriteFault => eprintln!(rt; "josie: write failed"),
        Status::NoMemory => eprintln!(rt; "josie: no memory"),
        Status::Given { path, why } => explain_given(rt, path, why),
        Status::Refuted => eprintln!(rt; "josie: refuted"),
    };
}

/// Returns the text that `--help` or `--version`, as the only word, asks for.
fn about(words: &[String]) -> Option<&'static str> {
    if words.len() != 1 {
        return None;
    }
    match words[0].as_str() {
        "--help" => Some(HELP),
        "--version" => Some(VERSION),
        _ => None,
    }
}

fn main(rt: HostRuntime) -> ExitCode {
    let status = match words_of(&rt) {
        Err(status) => status,
        Ok(words) => match about(words.as_slice()) {
            Some(text) => match println!(rt; "{text}") {
                Ok(()) => Status::Done,
                Err(_) => Status::WriteFault,
            },
            None => {
                let mut source = StdSource::new(rt.stdin());
                let mut sink = StdSink::new(rt.stdout());
                let mut shelf = FileShelf::new(&rt);
                let mut record = RunRecord::new(rt.alloc());
                let status = run(
                    &rt,
                    rt.alloc(),
                    words.as_slice(),
                    &mut source,
                    &mut sink,
                    &mut shelf,
                    &NoGate,
                    &mut record,
                );
                // The process ends next, which gives back the memory of all replies at once.
                mem::forget(record);
                status
            }
        },
    };
    explain(&rt, status);
    ExitCode::from(code(status))
}

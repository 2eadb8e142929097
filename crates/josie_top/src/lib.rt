//! The top call: reads a script batch by batch, answers the commands of each batch, and writes the replies before it
//! reads on.
#![tactic(auto)]

ghost use Rattle.std.specs.Prelude.{◌≡◌, ◌⊎◌, None, Some, map, string_bytes};
ghost use Rattle.option_model.specs.Plain.{plain_mode};
ghost use Rattle.option_model.specs.Plain as said;
ghost use Rattle.record_model.specs.Record.{empty};
ghost use Rattle.script_model.specs.Options.{plain};
ghost use Rattle.command_line.specs.Words.{mode_of, mode_read, IsModeInRange};
ghost use Rattle.josie_top.specs.Ends.{status_of_refused};
ghost use Rattle.josie_top.specs.Modes.{EndsModeWell, IsMaking, IsOrdered, IsSaid, MeetsMode};
ghost use Rattle.josie_top.specs.World.{Moves, world_of};

use checking::check;
use command_line::{Mode, WordsRefused, read_words};
pub use lake_desk::LakeDesk;
use lake_io::{Gate, Shelf, Sink, Source};
use making::make_lake;
use ordered::run_in_order;
pub use record_model::{GivenWhy, Status};
pub use run_record::RunRecord;
use script::run_script;
pub use script_model::Reason;
use std::alloc::Global;
use std::sync::Wait;
use std::thread::Threads;
use watching::watch;

mod batches;
mod checking;
mod given;
mod lanes;
mod limits;
mod making;
mod ordered;
mod script;
mod watching;
mod writing;

/// Runs a script whose lanes take turns in a stated order, makes a lake, watches queries, or checks a trace, depending
/// on the mode, on one thread. It reads a script from the source batch by batch, answers the commands of each batch in
/// the record, and writes the replies to the sink before it reads the next batch; of a lake that is made it writes the
/// summary. The statuses, and what holds after each, are those of the table of statuses, applied to the bytes that the
/// source gave, the results of the fetches, and the bytes that the sink took.
pub fn run_ordered<S: Source, K: Sink, F: Shelf>(
    alloc: Global,
    mode: Mode,
    source: &mut S,
    sink: &mut K,
    shelf: &mut F,
    out: &mut RunRecord,
) -> Status
    requires empty { out.old.made ≡ empty plain }
    requires mode { IsModeInRange (mode_of mode) }
    requires order { IsOrdered (mode_of mode) }
    // what was read, recorded and written
    ensures table { let before = world_of (S.left source.old) (S.faults source.old) (K.written sink.old) (K.faults sink.old) (F.files shelf.old) (F.faults shelf.old) in
        let now = world_of (S.left source.new) (S.faults source.new) (K.written sink.new) (K.faults sink.new) (F.files shelf.new) (F.faults shelf.new) in
        MeetsMode (mode_of mode) result before now out.new.made }
    // when each status is returned, and what moved
    ensures moves { let before = world_of (S.left source.old) (S.faults source.old) (K.written sink.old) (K.faults sink.old) (F.files shelf.old) (F.faults shelf.old) in
        let now = world_of (S.left source.new) (S.faults source.new) (K.written sink.new) (K.faults sink.new) (F.files shelf.new) (F.faults shelf.new) in
        Moves ⊥ result before now }
    // if a lake is made, nothing is read and no file is fetched
    ensures making { IsMaking (mode_of mode) → (source.new ≡ source.old) × (shelf.new ≡ shelf.old) }
    // without a fault, the only other end is that memory runs out
    ensures complete { let before = world_of (S.left source.old) (S.faults source.old) (K.written sink.old) (K.faults sink.old) (F.files shelf.old) (F.faults shelf.old) in
        let now = world_of (S.left source.new) (S.faults source.new) (K.written sink.new) (K.faults sink.new) (F.files shelf.new) (F.faults shelf.new) in
        EndsModeWell (mode_of mode) result before now }
{
    match mode {
        Mode::Run(options) => run_in_order(alloc, options, source, sink, shelf, out),
        Mode::Make { seed, tables, rows } => make_lake(alloc, seed, tables, rows, sink, out),
        Mode::Watch { k, paths } => watch(alloc, k, &paths, source, sink, shelf, out),
        Mode::Check { trace, options } => check(
            alloc,
            trace.as_str(),
            options,
            source,
            sink,
            shelf,
        ),
    }
}

/// Runs a script, makes a lake, watches queries, or checks a trace, depending on the mode. A script without a stated
/// order runs on threads.
fn run_mode<R: Threads + Wait + Sync, S: Source, K: Sink, F: Shelf, G: Gate + Sync>(
    rt: &R,
    alloc: Global,
    mode: Mode,
    source: &mut S,
    sink: &mut K,
    shelf: &mut F,
    gate: &G,
    out: &mut RunRecord,
) -> Status
    requires empty { out.old.made ≡ empty plain }
    requires mode { IsModeInRange (mode_of mode) }
    // what was read, recorded and written
    ensures table { let before = world_of (S.left source.old) (S.faults source.old) (K.written sink.old) (K.faults sink.old) (F.files shelf.old) (F.faults shelf.old) in
        let now = world_of (S.left source.new) (S.faults source.new) (K.written sink.new) (K.faults sink.new) (F.files shelf.new) (F.faults shelf.new) in
        MeetsMode (mode_of mode) result before now out.new.made }
    // when each status is returned, and what moved
    ensures moves { let before = world_of (S.left source.old) (S.faults source.old) (K.written sink.old) (K.faults sink.old) (F.files shelf.old) (F.faults shelf.old) in
        let now = world_of (S.left source.new) (S.faults source.new) (K.written sink.new) (K.faults sink.new) (F.files shelf.new) (F.faults shelf.new) in
        Moves ⊥ result before now }
    // if a lake is made, nothing is read and no file is fetched
    ensures making { IsMaking (mode_of mode) → (source.new ≡ source.old) × (shelf.new ≡ shelf.old) }
    // without a fault, the only other end is that memory runs out
    ensures complete { let before = world_of (S.left source.old) (S.faults source.old) (K.written sink.old) (K.faults sink.old) (F.files shelf.old) (F.faults shelf.old) in
        let now = world_of (S.left source.new) (S.faults source.new) (K.written sink.new) (K.faults sink.new) (F.files shelf.new) (F.faults shelf.new) in
        EndsModeWell (mode_of mode) result before now }
{
    match mode {
        Mode::Run(options) => run_script(rt, alloc, options, source, sink, shelf, gate, out),
        Mode::Make { seed, tables, rows } => make_lake(alloc, seed, tables, rows, sink, out),
        Mode::Watch { k, paths } => watch(alloc, k, &paths, source, sink, shelf, out),
        Mode::Check { trace, options } => check(
            alloc,
            trace.as_str(),
            options,
            source,
            sink,
            shelf,
        ),
    }
}

/// Returns the status of a run whose command-line words are refused.
fn status_of_refused(refused: WordsRefused) -> Status
    ensures { result ≡ status_of_refused refused }
{
    match refused {
        WordsRefused::Usage => Status::Usage,
        WordsRefused::NoMemory => Status::NoMemory,
    }
}

/// Runs the program. This is the only call that the program makes: it takes the runtime, the words after the program's
/// name, the streams, the files, the gate that is told of the moments of each command, and an empty record. If no order
/// is stated, the lanes of a batch run at the same time, each on its own thread, and the merger beside them; what a
/// single lane does alone, or a lane for which no thread can be created, runs on the caller's thread. The call waits
/// for the lanes, so its contract holds if it returns. The memory of a lake without a stated order is left to the end of
/// the process.
pub fn run<R: Threads + Wait + Sync, S: Source, K: Sink, F: Shelf, G: Gate + Sync>(
    rt: &R,
    alloc: Global,
    words: &[String],
    source: &mut S,
    sink: &mut K,
    shelf: &mut F,
    gate: &G,
    out: &mut RunRecord,
) -> Status
    requires empty { out.old.made ≡ empty plain }
    // what was read, recorded and written, in the mode that the words state
    ensures table { let before = world_of (S.left source.old) (S.faults source.old) (K.written sink.old) (K.faults sink.old) (F.files shelf.old) (F.faults shelf.old) in
        let now = world_of (S.left source.new) (S.faults source.new) (K.written sink.new) (K.faults sink.new) (F.files shelf.new) (F.faults shelf.new) in
        (mode : said.Mode) × IsSaid (mode_read (map string_bytes words.now)) mode × MeetsMode mode result before now out.new.made }
    // plain words are read as they say
    ensures plain { (mode : said.Mode) → plain_mode (map string_bytes words.now) ≡ Some mode → mode_read (map string_bytes words.now) ≡ Some mode }
    // when each status is returned, and what moved
    ensures moves { let before = world_of (S.left source.old) (S.faults source.old) (K.written sink.old) (K.faults sink.old) (F.files shelf.old) (F.faults shelf.old) in
        let now = world_of (S.left source.new) (S.faults source.new) (K.written sink.new) (K.faults sink.new) (F.files shelf.new) (F.faults shelf.new) in
        Moves (mode_read (map string_bytes words.now) ≡ None) result before now }
    ensures refused { mode_read (map string_bytes words.now) ≡ None → (result ≡ Status.Usage) ⊎ (result ≡ Status.NoMemory) }
    ensures untouched { mode_read (map string_bytes words.now) ≡ None → (source.new ≡ source.old) × (sink.new ≡ sink.old) × (shelf.new ≡ shelf.old) × (out.new.made ≡ out.old.made) }
    // if a lake is made, nothing is read and no file is fetched
    ensures making { (mode : said.Mode) → mode_read (map string_bytes words.now) ≡ Some mode → IsMaking mode → (source.new ≡ source.old) × (shelf.new ≡ shelf.old) }
    // without a fault, the only other end is that memory runs out
    ensures complete { let before = world_of (S.left source.old) (S.faults source.old) (K.written sink.old) (K.faults sink.old) (F.files shelf.old) (F.faults shelf.old) in
        let now = world_of (S.left source.new) (S.faults source.new) (K.written sink.new) (K.faults sink.new) (F.files shelf.new) (F.faults shelf.new) in
        (mode : said.Mode) → mode_read (map string_bytes words.now) ≡ Some mode → EndsModeWell mode result before now }
{
    match read_words(alloc, words) {
        Ok(mode) => run_mode(rt, alloc, mode, source, sink, shelf, gate, out),
        Err(refused) => status_of_refused(refused),
    }
}

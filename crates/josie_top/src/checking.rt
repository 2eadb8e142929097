//! The run that checks whether a trace is that of a right run of a script.
ghost use Rattle.std.specs.Prelude.{◌≡◌, ◌≤◌, ◌<◌, ℕ, List, Option, [], false, true, IfErr, IfOk, OnOk, Some};
ghost use Rattle.std.specs.Io.KnownBytes.{Appends};
ghost use Rattle.lake_io.specs.Causes.{Rose};
ghost use Rattle.commands.specs.Tasks.{file_of};
ghost use Rattle.script_model.specs.Commands.{Bytes};
ghost use Rattle.script_model.specs.Options.{plain};
ghost use Rattle.script_model.specs.Script.{standard, start};
ghost use Rattle.script_text.specs.Gathering.{gathering_with};
ghost use Rattle.record_model.specs.Record.{RunRecord as RecordOf, empty};
ghost use Rattle.record_model.specs.Rules.{standard_rules};
ghost use Rattle.trace_check.specs.Checking.{checker_with};
ghost use Rattle.josie_top.specs.Checking.{Checks, IsChecked, IsReadWhole, IsStoppedAt, IsVerdictWritten, trace_fault, verdict_text};
ghost use Rattle.josie_top.specs.World.{HasMoved, Moves, world_of};

use crate::batches::status_of_end;
use crate::limits::limits_of;
use crate::writing::write_all;
use commands::{FileBody, Options};
use lake_io::{Shelf, Sink, Source};
use record_model::{GivenWhy, Status};
use script_model::ScriptLimits;
use script_text::{Gather, fetch_file};
use std::alloc::Global;
use trace_check::Checker;

/// Returns the trace that a file holds, or why it holds none.
fn trace_of(file: &FileBody) -> Result<&[u8], GivenWhy>
    ensures bytes { IfOk result (λ trace. file_of file.now ≡ Bytes trace.now) }
    ensures fault { IfErr result (λ why. trace_fault (file_of file.now) ≡ Some why) }
{
    match file {
        FileBody::Bytes(body) => Ok(body.bytes()),
        FileBody::Failed => Err(GivenWhy::Failed),
        FileBody::Missing => Err(GivenWhy::Missing),
        FileBody::TooLong => Err(GivenWhy::TooLong),
    }
}

/// Reads a whole script, and passes its batches to a checker that has none yet.
fn read_script<S: Source, F: Shelf>(
    gather: &mut Gather,
    source: &mut S,
    shelf: &mut F,
    checker: &mut Checker,
) -> Result<(), Status>
    requires start { gather.old ≡ gathering_with (start []) [] false standard checker.old.options.lanes }
    requires none { checker.old.batches ≡ [] }
    ensures whole { let before = world_of (S.left source.old) (S.faults source.old) None 0 (F.files shelf.old) (F.faults shelf.old) in
        let now = world_of (S.left source.new) (S.faults source.new) None 0 (F.files shelf.new) (F.faults shelf.new) in
        OnOk result (IsReadWhole checker.old.options before now checker.new.batches) }
    ensures stopped { let before = world_of (S.left source.old) (S.faults source.old) None 0 (F.files shelf.old) (F.faults shelf.old) in
        let now = world_of (S.left source.new) (S.faults source.new) None 0 (F.files shelf.new) (F.faults shelf.new) in
        IfErr result (λ status. IsStoppedAt checker.old.options status before now) }
    ensures moves { let before = world_of (S.left source.old) (S.faults source.old) None 0 (F.files shelf.old) (F.faults shelf.old) in
        let now = world_of (S.left source.new) (S.faults source.new) None 0 (F.files shelf.new) (F.faults shelf.new) in
        HasMoved before now × IfErr result (λ status. Moves ⊥ status before now) }
    ensures same { (checker.new.rules ≡ checker.old.rules) × (checker.new.options ≡ checker.old.options) }
{
    for _ in 0..u64::MAX {
        let batch = match gather.batch(source, shelf) {
            Ok(Some(batch)) => batch,
            Ok(None) => return Ok(()),
            Err(end) => return Err(status_of_end(end)),
        };
        if checker.add(batch).is_err() {
            return Err(Status::NoMemory);
        }
        if gather.ended() {
            return Ok(());
        }
    }
    Err(Status::NoMemory)
}

/// Writes a verdict, or its first bytes if the sink fails.
fn write_verdict<K: Sink>(verdict: bool, sink: &mut K) -> Status
    ensures written { IsVerdictWritten verdict result (K.written sink.old) (K.written sink.new) }
    ensures write_fault { result ≡ Status.WriteFault → Rose (K.faults sink.old) (K.faults sink.new) }
    ensures later { K.faults sink.old ≤ K.faults sink.new }
{
    if verdict {
        return match write_all(sink, b"yes\n") {
            Ok(()) => Status::Done,
            Err(_) => Status::WriteFault,
        };
    }
    match write_all(sink, b"no\n") {
        Ok(()) => Status::Refuted,
        Err(_) => Status::WriteFault,
    }
}

/// Reads a whole script, and writes whether a run of it with the given options can have this trace.
fn check_trace<S: Source, K: Sink, F: Shelf>(
    alloc: Global,
    trace: &[u8],
    options: Options,
    source: &mut S,
    sink: &mut K,
    shelf: &mut F,
) -> Status
    requires lanes { 1 ≤ options.lanes }
    requires trace { options.trace ≡ true }
    ensures checked { let before = world_of (S.left source.old) (S.faults source.old) (K.written sink.old) (K.faults sink.old) (F.files shelf.old) (F.faults shelf.old) in
        let now = world_of (S.left source.new) (S.faults source.new) (K.written sink.new) (K.faults sink.new) (F.files shelf.new) (F.faults shelf.new) in
        IsChecked (standard_rules options.keys) options trace.now result before now }
    ensures moves { let before = world_of (S.left source.old) (S.faults source.old) (K.written sink.old) (K.faults sink.old) (F.files shelf.old) (F.faults shelf.old) in
        let now = world_of (S.left source.new) (S.faults source.new) (K.written sink.new) (K.faults sink.new) (F.files shelf.new) (F.faults shelf.new) in
        Moves ⊥ result before now }
{
    let Ok(mut gather) = Gather::new(alloc, options.lanes, ScriptLimits::standard()) else {
        return Status::NoMemory;
    };
    let limits = limits_of(options.keys);
    let mut checker = Checker::new(alloc, options, limits);
    if let Err(status) = read_script(&mut gather, source, shelf, &mut checker) {
        return status;
    }
    match checker.verdict(trace) {
        Ok(verdict) => write_verdict(verdict, sink),
        Err(_) => Status::NoMemory,
    }
}

/// Fetches the trace from the file at a path, reads a whole script, and writes whether a run of it with the given
/// options can have that trace. The source is not read until the trace has been fetched.
pub(crate) fn check<S: Source, K: Sink, F: Shelf>(
    alloc: Global,
    path: &str,
    options: Options,
    source: &mut S,
    sink: &mut K,
    shelf: &mut F,
) -> Status
    requires lanes { 1 ≤ options.lanes }
    requires trace { options.trace ≡ true }
    ensures table { let before = world_of (S.left source.old) (S.faults source.old) (K.written sink.old) (K.faults sink.old) (F.files shelf.old) (F.faults shelf.old) in
        let now = world_of (S.left source.new) (S.faults source.new) (K.written sink.new) (K.faults sink.new) (F.files shelf.new) (F.faults shelf.new) in
        (made : RecordOf) → made ≡ empty plain → Checks path.now options result before now made }
    ensures moves { let before = world_of (S.left source.old) (S.faults source.old) (K.written sink.old) (K.faults sink.old) (F.files shelf.old) (F.faults shelf.old) in
        let now = world_of (S.left source.new) (S.faults source.new) (K.written sink.new) (K.faults sink.new) (F.files shelf.new) (F.faults shelf.new) in
        Moves ⊥ result before now }
{
    let Ok(file) = fetch_file(alloc, shelf, path) else {
        return Status::NoMemory;
    };
    match trace_of(&file) {
        Ok(trace) => check_trace(alloc, trace, options, source, sink, shelf),
        Err(why) => Status::Given { path: 1, why },
    }
}

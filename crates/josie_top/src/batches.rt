//! The batches of a script, one after another: each is gathered, answered and written before the next is gathered.
ghost use Rattle.std.specs.Prelude.{◌≡◌, ◌≤◌, ℕ, false, if◌then◌else◌, length, true, None, Some, IfErr, IfOk, IfSome, MatchOption, OnOk};
ghost use Rattle.lake_io.specs.Causes.{Rose};
ghost use Rattle.record_model.specs.Rules.{Rules};
ghost use Rattle.script_model.specs.Options.{Options as OptionsOf};
ghost use Rattle.record_model.specs.Record.{with_end};
ghost use Rattle.record_model.specs.Texts.{text_behind};
ghost use Rattle.josie_top.specs.Ends.{IsWritten, status_of_end, status_of_stop};
ghost use Rattle.josie_top.specs.Meets.{Meets};
ghost use Rattle.josie_top.specs.Progress.{IsAnswered, IsBegun, IsUnderWay};
ghost use Rattle.josie_top.specs.World.{Moves, World, with_sink, world_of};

use crate::writing::{WriteStop, write_record};
use commands::{Batch, Options};
use lake_io::{Shelf, Sink, Source};
use record_model::Status;
use run_record::RunRecord;
use script_text::{Gather, ScriptEnd};
use std::alloc::Global;

/// Returns the status of a run whose gatherer gives no batch.
pub(crate) fn status_of_end(end: ScriptEnd) -> Status
    ensures { result ≡ status_of_end end }
{
    match end {
        ScriptEnd::Script { line, reason } => Status::Script { line, reason },
        ScriptEnd::ReadFault => Status::ReadFault,
        ScriptEnd::NoMemory => Status::NoMemory,
    }
}

/// Returns the status of a run whose text was not written in full.
pub(crate) fn status_of_stop(stop: WriteStop) -> Status
    ensures { result ≡ status_of_stop stop }
{
    match stop {
        WriteStop::Failed => Status::WriteFault,
        WriteStop::NoMemory => Status::NoMemory,
    }
}

/// Closes the record, whose source was read to its end, and writes the rest of its text.
fn finish<K: Sink>(alloc: Global, out: &mut RunRecord, sink: &mut K) -> Status
    ensures closed { out.new.made ≡ with_end true out.old.made }
    ensures written { IsWritten result (K.written sink.old) (K.written sink.new) (text_behind out.old.made.options.trace (length out.old.made.answers) (with_end true out.old.made)) }
    ensures write_fault { result ≡ Status.WriteFault → Rose (K.faults sink.old) (K.faults sink.new) }
    ensures later { K.faults sink.old ≤ K.faults sink.new }
{
    let first = out.answers().len();
    out.close();
    match write_record(alloc, out, first, sink) {
        Ok(()) => Status::Done,
        Err(stop) => status_of_stop(stop),
    }
}

/// Returns the number of the merger's first command in a batch, if there is a merger.
pub(crate) fn merger_from(options: &Options, next: u64) -> Option<u64>
    ensures { result ≡ (if options.now.merge then Some next else None) }
{
    options.merge.then_some(next)
}

/// Gathers the next batch. If there is none, it returns the status with which the run ends; at the end of the script it
/// first closes the record and writes the rest of its text.
pub(crate) fn begin_batch<S: Source, K: Sink, F: Shelf>(
    alloc: Global,
    gather: &mut Gather,
    source: &mut S,
    sink: &mut K,
    shelf: &mut F,
    out: &mut RunRecord,
) -> Result<Batch, Status>
    requires { gather.old.ended ≡ false }
    ensures begun { let before = world_of (S.left source.old) (S.faults source.old) (K.written sink.old) (K.faults sink.old) (F.files shelf.old) (F.faults shelf.old) in
        let now = world_of (S.left source.new) (S.faults source.new) (K.written sink.new) (K.faults sink.new) (F.files shelf.new) (F.faults shelf.new) in
        IfOk result (IsBegun before now gather.old gather.new) }
    ensures stands { OnOk result (out.new.made ≡ out.old.made) }
    ensures journal { out.new.made.journal ≡ out.old.made.journal }
    ensures ends { let before = world_of (S.left source.old) (S.faults source.old) (K.written sink.old) (K.faults sink.old) (F.files shelf.old) (F.faults shelf.old) in
        let now = world_of (S.left source.new) (S.faults source.new) (K.written sink.new) (K.faults sink.new) (F.files shelf.new) (F.faults shelf.new) in
        IfErr result (λ status. (rules : Rules) (options : OptionsOf) (first : World) (number next : ℕ)
        → IsUnderWay rules options first before gather.old out.old.made number next
        → Meets rules options status first now out.new.made) }
    ensures moves { let before = world_of (S.left source.old) (S.faults source.old) (K.written sink.old) (K.faults sink.old) (F.files shelf.old) (F.faults shelf.old) in
        let now = world_of (S.left source.new) (S.faults source.new) (K.written sink.new) (K.faults sink.new) (F.files shelf.new) (F.faults shelf.new) in
        IfErr result (λ status. Moves ⊥ status before now) }
{
    match gather.batch(source, shelf) {
        Ok(Some(batch)) => Ok(batch),
        Ok(None) => Err(finish(alloc, out, sink)),
        Err(end) => Err(status_of_end(end)),
    }
}

/// Writes the replies to a batch, which begin at answer `first` of the record. It returns the status if the run ends
/// with this batch; at the end of the script it first closes the record and writes the rest of its text.
pub(crate) fn end_batch<K: Sink>(
    alloc: Global,
    gather: &Gather,
    first: usize,
    sink: &mut K,
    out: &mut RunRecord,
) -> Option<Status>
    ensures goes { result ≡ None → (out.new.made ≡ out.old.made) × (gather.now.ended ≡ false) }
    ensures answered { (rules : Rules) (options : OptionsOf) (before outside : World) (number next : ℕ)
        → IsAnswered rules options before (with_sink (K.written sink.old) (K.faults sink.old) outside) gather.now out.old.made first number next
        → MatchOption result
        (IsUnderWay rules options before (with_sink (K.written sink.new) (K.faults sink.new) outside) gather.now out.new.made number next)
        (λ status. Meets rules options status before (with_sink (K.written sink.new) (K.faults sink.new) outside) out.new.made) }
    ensures moves { IfSome result (λ status. (outside : World) → Moves ⊥ status (with_sink (K.written sink.old) (K.faults sink.old) outside) (with_sink (K.written sink.new) (K.faults sink.new) outside)) }
{
    if let Err(stop) = write_record(alloc, out, first, sink) {
        return Some(status_of_stop(stop));
    }
    if gather.ended() {
        return Some(finish(alloc, out, sink));
    }
    None
}

//! The run of a script whose lanes run at the same time.
ghost use Rattle.std.specs.Prelude.{◌≡◌, ◌<◌, ◌≤◌, ◌^◌, ◌⊎◌, ℕ, [], false, List, Some};
ghost use Rattle.record_model.specs.Rules.{rules_with, standard_rules, wide_limits};
ghost use Rattle.catalogue.specs.Kept.{IsWithin};
ghost use Rattle.record_model.specs.Record.{empty};
ghost use Rattle.script_model.specs.Options.{plain};
ghost use Rattle.script_model.specs.Script.{standard, start};
ghost use Rattle.record_model.specs.Statuses.{IsStated};
ghost use Rattle.script_text.specs.Gathering.{gathering_with};
ghost use Rattle.lake_desk.specs.Together.{AreTogether};
ghost use Rattle.josie_top.specs.Meets.{EndsWell, Meets};
ghost use Rattle.josie_top.specs.World.{Moves, world_of};

use crate::batches::{begin_batch, end_batch, merger_from};
use crate::limits::limits_of;
use catalogue::Limits;
use commands::Options;
use lake::{Bounds, Lake};
use lake_desk::{LakeDesk, Standard, Wide, answer_batch, open_desks};
use lake_io::{Gate, Shelf, Sink, Source};
use lake_model::Keys;
use record_model::Status;
use run_record::RunRecord;
use script_model::ScriptLimits;
use script_text::Gather;
use std::alloc::Global;
use std::mem;
use std::sync::Wait;
use std::thread::Threads;

/// Runs the batches of a script, into an empty record with the run's options, until the script ends, is refused or
/// breaks off, or the text cannot be written. The lanes of a batch run at the same time, with the merger beside them.
fn run_batches<
    'a,
    B: Bounds + Send + Sync,
    R: Threads + Wait + Sync,
    S: Source,
    K: Sink,
    F: Shelf,
    G: Gate + Sync,
>(
    rt: &R,
    alloc: Global,
    gather: &mut Gather,
    desks: &mut Vec<LakeDesk<'a, B>>,
    source: &mut S,
    sink: &mut K,
    shelf: &mut F,
    gate: &G,
    out: &mut RunRecord,
) -> Status
    requires start { gather.old ≡ gathering_with (start []) [] false standard out.old.made.options.lanes }
    requires desks { AreTogether out.old.made.options.lanes [] desks.old.items }
    requires empty { out.old.made ≡ empty out.old.made.options }
    requires order { IsStated out.old.made.options → ⊥ }
    ensures table { let before = world_of (S.left source.old) (S.faults source.old) (K.written sink.old) (K.faults sink.old) (F.files shelf.old) (F.faults shelf.old) in
        let now = world_of (S.left source.new) (S.faults source.new) (K.written sink.new) (K.faults sink.new) (F.files shelf.new) (F.faults shelf.new) in
        Meets (rules_with B.keys B.limits) out.old.made.options result before now out.new.made }
    ensures moves { let before = world_of (S.left source.old) (S.faults source.old) (K.written sink.old) (K.faults sink.old) (F.files shelf.old) (F.faults shelf.old) in
        let now = world_of (S.left source.new) (S.faults source.new) (K.written sink.new) (K.faults sink.new) (F.files shelf.new) (F.faults shelf.new) in
        Moves ⊥ result before now }
{
    let mut next = 1;
    for number in 0..u64::MAX {
        let batch = match begin_batch(alloc, gather, source, sink, shelf, out) {
            Ok(batch) => batch,
            Err(status) => return status,
        };
        let first = out.answers().len();
        let merger = merger_from(out.options(), next);
        if answer_batch(rt, alloc, desks, &batch, merger, gate, out).is_err() {
            return Status::NoMemory;
        }
        next += batch.updates();
        if let Some(status) = end_batch(alloc, gather, first, sink, out) {
            return status;
        }
    }
    Status::NoMemory
}

/// Runs a script over an empty lake with the given limits and options, which state no order, into an empty record. The
/// lanes of a batch run at the same time, with the merger beside them.
fn run_over<
    B: Bounds + Send + Sync,
    R: Threads + Wait + Sync,
    S: Source,
    K: Sink,
    F: Shelf,
    G: Gate + Sync,
>(
    rt: &R,
    alloc: Global,
    limits: Limits,
    options: Options,
    source: &mut S,
    sink: &mut K,
    shelf: &mut F,
    gate: &G,
    out: &mut RunRecord,
) -> Status
    requires empty { out.old.made ≡ empty plain }
    requires lanes { 1 ≤ options.lanes }
    requires few { options.lanes ≤ 16 }
    requires limits { limits ≡ B.limits }
    requires narrow { limits.updates < 2 ^ 32 }
    requires keys { options.keys ≡ B.keys }
    requires wide { IsWithin wide_limits B.limits }
    requires order { IsStated options → ⊥ }
    ensures table { let before = world_of (S.left source.old) (S.faults source.old) (K.written sink.old) (K.faults sink.old) (F.files shelf.old) (F.faults shelf.old) in
        let now = world_of (S.left source.new) (S.faults source.new) (K.written sink.new) (K.faults sink.new) (F.files shelf.new) (F.faults shelf.new) in
        Meets (rules_with B.keys B.limits) options result before now out.new.made }
    ensures moves { let before = world_of (S.left source.old) (S.faults source.old) (K.written sink.old) (K.faults sink.old) (F.files shelf.old) (F.faults shelf.old) in
        let now = world_of (S.left source.new) (S.faults source.new) (K.written sink.new) (K.faults sink.new) (F.files shelf.new) (F.faults shelf.new) in
        Moves ⊥ result before now }
    ensures complete { let before = world_of (S.left source.old) (S.faults source.old) (K.written sink.old) (K.faults sink.old) (F.files shelf.old) (F.faults shelf.old) in
        let now = world_of (S.left source.new) (S.faults source.new) (K.written sink.new) (K.faults sink.new) (F.files shelf.new) (F.faults shelf.new) in
        EndsWell options result before now }
{
    let lanes = options.lanes;
    let Ok(mut gather) = Gather::new(alloc, lanes, ScriptLimits::standard()) else {
        return Status::NoMemory;
    };
    let Ok((lake, opening)) = Lake::<B>::new(alloc, limits, lanes + 1) else {
        return Status::NoMemory;
    };
    let Ok(mut desks) = open_desks(alloc, options.keys, &lake, opening, lanes) else {
        return Status::NoMemory;
    };
    out.set_options(options);
    let status = run_batches(
        rt,
        alloc,
        &mut gather,
        &mut desks,
        source,
        sink,
        shelf,
        gate,
        out,
    );
    // To give back all tables and segments one by one takes as long as a small batch, and the process ends next.
    drop(desks);
    mem::forget(lake);
    status
}

/// Runs a script over an empty lake with the given options, which state no order, into an empty record. The lanes of a
/// batch run at the same time, with the merger beside them.
pub(crate) fn run_lanes<R: Threads + Wait + Sync, S: Source, K: Sink, F: Shelf, G: Gate + Sync>(
    rt: &R,
    alloc: Global,
    options: Options,
    source: &mut S,
    sink: &mut K,
    shelf: &mut F,
    gate: &G,
    out: &mut RunRecord,
) -> Status
    requires empty { out.old.made ≡ empty plain }
    requires lanes { 1 ≤ options.lanes }
    requires few { options.lanes ≤ 16 }
    requires order { IsStated options → ⊥ }
    ensures table { let before = world_of (S.left source.old) (S.faults source.old) (K.written sink.old) (K.faults sink.old) (F.files shelf.old) (F.faults shelf.old) in
        let now = world_of (S.left source.new) (S.faults source.new) (K.written sink.new) (K.faults sink.new) (F.files shelf.new) (F.faults shelf.new) in
        Meets (standard_rules options.keys) options result before now out.new.made }
    ensures moves { let before = world_of (S.left source.old) (S.faults source.old) (K.written sink.old) (K.faults sink.old) (F.files shelf.old) (F.faults shelf.old) in
        let now = world_of (S.left source.new) (S.faults source.new) (K.written sink.new) (K.faults sink.new) (F.files shelf.new) (F.faults shelf.new) in
        Moves ⊥ result before now }
    ensures complete { let before = world_of (S.left source.old) (S.faults source.old) (K.written sink.old) (K.faults sink.old) (F.files shelf.old) (F.faults shelf.old) in
        let now = world_of (S.left source.new) (S.faults source.new) (K.written sink.new) (K.faults sink.new) (F.files shelf.new) (F.faults shelf.new) in
        EndsWell options result before now }
{
    let limits = limits_of(options.keys);
    match options.keys {
        Keys::Canonical => run_over::<Standard, R, S, K, F, G>(
            rt, alloc, limits, options, source, sink, shelf, gate, out,
        ),
        Keys::Compatibility => run_over::<Wide, R, S, K, F, G>(
            rt, alloc, limits, options, source, sink, shelf, gate, out,
        ),
    }
}

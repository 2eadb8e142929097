//! The run of a script.
ghost use Rattle.std.specs.Prelude.{◌≡◌, ◌≤◌, ◌⊎◌, ℕ, List, Some};
ghost use Rattle.record_model.specs.Rules.{standard_rules};
ghost use Rattle.record_model.specs.Record.{empty};
ghost use Rattle.script_model.specs.Options.{plain};
ghost use Rattle.josie_top.specs.Meets.{EndsWell, Meets};
ghost use Rattle.josie_top.specs.World.{Moves, world_of};

use crate::lanes::run_lanes;
use crate::ordered::run_in_order;
use commands::Options;
use lake_io::{Gate, Shelf, Sink, Source};
use record_model::Status;
use run_record::RunRecord;
use std::alloc::Global;
use std::sync::Wait;
use std::thread::Threads;

/// Runs a script over an empty lake with the given options, into an empty record: in the order that they state, or on
/// threads if they state none.
pub(crate) fn run_script<R: Threads + Wait + Sync, S: Source, K: Sink, F: Shelf, G: Gate + Sync>(
    rt: &R,
    alloc: Global,
    options: Options,
    source: &mut S,
    sink: &mut K,
    shelf: &mut F,
    gate: &G,
    out: &mut RunRecord,
) -> Status
    requires empty { out.old.made ≡ empty plain }
    requires lanes { 1 ≤ options.lanes }
    requires few { options.lanes ≤ 16 }
    ensures table { let before = world_of (S.left source.old) (S.faults source.old) (K.written sink.old) (K.faults sink.old) (F.files shelf.old) (F.faults shelf.old) in
        let now = world_of (S.left source.new) (S.faults source.new) (K.written sink.new) (K.faults sink.new) (F.files shelf.new) (F.faults shelf.new) in
        Meets (standard_rules options.keys) options result before now out.new.made }
    ensures moves { let before = world_of (S.left source.old) (S.faults source.old) (K.written sink.old) (K.faults sink.old) (F.files shelf.old) (F.faults shelf.old) in
        let now = world_of (S.left source.new) (S.faults source.new) (K.written sink.new) (K.faults sink.new) (F.files shelf.new) (F.faults shelf.new) in
        Moves ⊥ result before now }
    ensures complete { let before = world_of (S.left source.old) (S.faults source.old) (K.written sink.old) (K.faults sink.old) (F.files shelf.old) (F.faults shelf.old) in
        let now = world_of (S.left source.new) (S.faults source.new) (K.written sink.new) (K.faults sink.new) (F.files shelf.new) (F.faults shelf.new) in
        EndsWell options result before now }
{
    if options.order.is_some() {
        run_in_order(alloc, options, source, sink, shelf, out)
    } else {
        run_lanes(rt, alloc, options, source, sink, shelf, gate, out)
    }
}

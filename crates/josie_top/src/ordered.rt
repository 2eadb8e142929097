//! The run of a script whose lanes take turns in a stated order, on one thread.
ghost use Rattle.std.specs.Prelude.{◌≡◌, ◌≤◌, ◌<◌, ◌+◌, ◌++◌, ◌^◌, ◌⊎◌, ⊤, ℕ, [], false, get_or, List, IfOk, MatchOption, OnErr, OnOk, Some};
ghost use mathlib.Core.List.{IsPrefix};
ghost use Rattle.lake_model.specs.Journal.{Entry};
ghost use Rattle.record_model.specs.Rules.{rules_with, standard_rules, wide_limits};
ghost use Rattle.catalogue.specs.Kept.{IsWithin};
ghost use Rattle.script_model.specs.Lanes.{IsOfLanes};
ghost use Rattle.record_model.specs.Play.{pieces_of};
ghost use Rattle.script_model.specs.Commands.{updates};
ghost use Rattle.record_model.specs.Record.{empty};
ghost use Rattle.script_model.specs.Options.{plain};
ghost use Rattle.script_model.specs.Script.{standard, start};
ghost use Rattle.record_model.specs.Statuses.{IsStated};
ghost use Rattle.script_text.specs.Gathering.{gathering_with};
ghost use Rattle.josie_top.specs.Meets.{EndsWell, Meets};
ghost use Rattle.josie_top.specs.Progress.{AddsAnswers, HasOneMore};
ghost use Rattle.josie_top.specs.World.{Moves, world_of};

use crate::batches::{begin_batch, end_batch, merger_from};
use crate::limits::limits_of;
use asof_search::Timeline;
use catalogue::Catalogue;
use commands::{Batch, Options};
use lake_core::drive;
use lake_io::{Shelf, Sink, Source};
use lake_model::Keys;
use no_memory::NoMemory;
use record_model::Status;
use run_record::RunRecord;
use script_model::ScriptLimits;
use script_text::Gather;
use std::alloc::Global;

/// Returns the piece of the stated order for the batch with the given number, which counts from 0. The piece is empty
/// if the order has none for it.
fn piece_of(alloc: Global, options: &Options, number: u64) -> Result<Vec<u32>, NoMemory>
    ensures { IfOk result (λ piece. piece.items ≡ get_or (pieces_of options.now.order) number []) }
{
    let Some(order) = &options.order else {
        return Ok(Vec::new(alloc));
    };
    let Some(piece) = order.list().get(number as usize) else {
        return Ok(Vec::new(alloc));
    };
    Ok(piece.list().to_vec(alloc)?)
}

/// Answers a batch, whose number counts from 0, in the order that is stated for it, comparing values by the given kind
/// of keys. The timeline takes more of the journal if a command asks for an earlier position.
pub(crate) fn answer_in_order(
    alloc: Global,
    catalogue: &mut Catalogue,
    keys: Keys,
    past: &mut Timeline,
    batch: &Batch,
    number: u64,
    merger: Option<u64>,
    out: &mut RunRecord,
) -> Result<(), NoMemory>
    requires journal { out.old.made.journal ≡ catalogue.old.journal }
    requires wide { IsWithin wide_limits catalogue.old.limits }
    requires past { IsPrefix past.old catalogue.old.journal }
    requires order { IsStated out.old.made.options }
    requires lanes { IsOfLanes out.old.made.options.lanes batch.now }
    requires numbers { MatchOption merger ⊤ (λ first. first + updates batch.now < 2 ^ 64) }
    ensures journal { OnOk result (out.new.made.journal ≡ catalogue.new.journal) }
    ensures limits { catalogue.new.limits ≡ catalogue.old.limits }
    ensures more { OnOk result (HasOneMore (rules_with keys catalogue.old.limits) number merger batch.now out.old.made out.new.made) }
    ensures answers { OnOk result (AddsAnswers out.old.made out.new.made) }
    ensures grows { OnOk result ((more : List Entry) × (out.new.made.journal ≡ out.old.made.journal ++ more)) }
    ensures past { IsPrefix past.new catalogue.new.journal }
    ensures err { OnErr result (out.new.made ≡ out.old.made) }
{
    let lanes = out.options().lanes;
    let piece = piece_of(alloc, out.options(), number)?;
    drive(
        alloc, catalogue, keys, past, batch, &piece, lanes, merger, out,
    )
}

/// Runs the batches of a script, into an empty record with the run's options, until the script ends, is refused or
/// breaks off, or the text cannot be written.
fn run_batches<S: Source, K: Sink, F: Shelf>(
    alloc: Global,
    gather: &mut Gather,
    catalogue: &mut Catalogue,
    keys: Keys,
    source: &mut S,
    sink: &mut K,
    shelf: &mut F,
    out: &mut RunRecord,
) -> Status
    requires start { gather.old ≡ gathering_with (start []) [] false standard out.old.made.options.lanes }
    requires lake { catalogue.old.journal ≡ [] }
    requires wide { IsWithin wide_limits catalogue.old.limits }
    requires empty { out.old.made ≡ empty out.old.made.options }
    requires order { IsStated out.old.made.options }
    ensures table { let before = world_of (S.left source.old) (S.faults source.old) (K.written sink.old) (K.faults sink.old) (F.files shelf.old) (F.faults shelf.old) in
        let now = world_of (S.left source.new) (S.faults source.new) (K.written sink.new) (K.faults sink.new) (F.files shelf.new) (F.faults shelf.new) in
        Meets (rules_with keys catalogue.old.limits) out.old.made.options result before now out.new.made }
    ensures moves { let before = world_of (S.left source.old) (S.faults source.old) (K.written sink.old) (K.faults sink.old) (F.files shelf.old) (F.faults shelf.old) in
        let now = world_of (S.left source.new) (S.faults source.new) (K.written sink.new) (K.faults sink.new) (F.files shelf.new) (F.faults shelf.new) in
        Moves ⊥ result before now }
{
    let mut past = Timeline::new(alloc);
    let mut next = 1;
    for number in 0..u64::MAX {
        let batch = match begin_batch(alloc, gather, source, sink, shelf, out) {
            Ok(batch) => batch,
            Err(status) => return status,
        };
        let first = out.answers().len();
        let merger = merger_from(out.options(), next);
        if answer_in_order(
            alloc, catalogue, keys, &mut past, &batch, number, merger, out,
        )
        .is_err()
        {
            return Status::NoMemory;
        }
        next += batch.updates();
        if let Some(status) = end_batch(alloc, gather, first, sink, out) {
            return status;
        }
    }
    Status::NoMemory
}

/// Runs a script over an empty lake with the given options, which state an order, into an empty record.
pub(crate) fn run_in_order<S: Source, K: Sink, F: Shelf>(
    alloc: Global,
    options: Options,
    source: &mut S,
    sink: &mut K,
    shelf: &mut F,
    out: &mut RunRecord,
) -> Status
    requires empty { out.old.made ≡ empty plain }
    requires lanes { 1 ≤ options.lanes }
    requires order { IsStated options }
    ensures table { let before = world_of (S.left source.old) (S.faults source.old) (K.written sink.old) (K.faults sink.old) (F.files shelf.old) (F.faults shelf.old) in
        let now = world_of (S.left source.new) (S.faults source.new) (K.written sink.new) (K.faults sink.new) (F.files shelf.new) (F.faults shelf.new) in
        Meets (standard_rules options.keys) options result before now out.new.made }
    ensures moves { let before = world_of (S.left source.old) (S.faults source.old) (K.written sink.old) (K.faults sink.old) (F.files shelf.old) (F.faults shelf.old) in
        let now = world_of (S.left source.new) (S.faults source.new) (K.written sink.new) (K.faults sink.new) (F.files shelf.new) (F.faults shelf.new) in
        Moves ⊥ result before now }
    ensures complete { let before = world_of (S.left source.old) (S.faults source.old) (K.written sink.old) (K.faults sink.old) (F.files shelf.old) (F.faults shelf.old) in
        let now = world_of (S.left source.new) (S.faults source.new) (K.written sink.new) (K.faults sink.new) (F.files shelf.new) (F.faults shelf.new) in
        EndsWell options result before now }
{
    let Ok(mut gather) = Gather::new(alloc, options.lanes, ScriptLimits::standard()) else {
        return Status::NoMemory;
    };
    let keys = options.keys;
    let Ok(mut catalogue) = Catalogue::new(alloc, limits_of(keys)) else {
        return Status::NoMemory;
    };
    out.set_options(options);
    run_batches(
        alloc,
        &mut gather,
        &mut catalogue,
        keys,
        source,
        sink,
        shelf,
        out,
    )
}

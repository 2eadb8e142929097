//! The run that makes a lake.
ghost use Rattle.std.specs.Prelude.{◌≡◌, ◌≤◌, ◌⊎◌, [], List, ℕ, IfOk, IsErrOf, OnErr, OnOk};
ghost use Rattle.std.specs.Io.KnownBytes.{Appends};
ghost use Rattle.lake_io.specs.Causes.{Rose};
ghost use Rattle.lake_model.specs.declared.Keys.TheVariants.{Canonical};
ghost use Rattle.record_model.specs.Rules.{standard_rules};
ghost use Rattle.option_model.specs.Generator.{made_options as the_options, summary};
ghost use Rattle.record_model.specs.Record.{empty};
ghost use Rattle.script_model.specs.Options.{plain};
ghost use Rattle.option_model.specs.Makes.{IsLakeMade};
ghost use Rattle.record_model.specs.Statuses.{IsPrefix};
ghost use Rattle.josie_top.specs.Meets.{Makes};
ghost use Rattle.josie_top.specs.World.{Moves, World, with_sink};

use crate::batches::status_of_stop;
use crate::writing::{WriteStop, write_all};
use asof_search::Timeline;
use catalogue::{Catalogue, Limits};
use commands::{Options, Order, Piece};
use lake_core::drive;
use lake_io::Sink;
use lake_maker::{made_batch, write_summary};
use lake_model::Keys;
use no_memory::NoMemory;
use record_model::Status;
use run_record::RunRecord;
use std::alloc::Global;

/// Returns options with one lane and an order of two empty pieces.
pub(crate) fn made_options(alloc: Global) -> Result<Options, NoMemory>
    ensures { IfOk result (λ options. options ≡ the_options) }
{
    let first = Piece::new(Vec::new(alloc));
    let second = Piece::new(Vec::new(alloc));
    Ok(Options {
        lanes: 1,
        order: Some(Order::new(vec![in alloc; first, second]?)),
        merge: false,
        trace: false,
        keys: Keys::Canonical,
    })
}

/// Runs the commands of the made lake over an empty one, into an empty record.
fn fill_record(
    alloc: Global,
    seed: u32,
    tables: u32,
    rows: u32,
    out: &mut RunRecord,
) -> Result<(), NoMemory>
    requires empty { out.old.made ≡ empty plain }
    requires some_tables { 1 ≤ tables }
    requires few_tables { tables ≤ 1000 }
    requires some_rows { 1 ≤ rows }
    requires few_rows { rows ≤ 5000 }
    ensures made { OnOk result (IsLakeMade (standard_rules Canonical) seed tables rows out.new.made) }
    ensures err { OnErr result (out.new.made ≡ empty plain) }
{
    let options = made_options(alloc)?;
    let batch = made_batch(alloc, seed, tables, rows)?;
    let Ok(mut catalogue) = Catalogue::new(alloc, Limits::standard()) else {
        return Err(NoMemory);
    };
    let mut past = Timeline::new(alloc);
    if drive(
        alloc,
        &mut catalogue,
        Keys::Canonical,
        &mut past,
        &batch,
        &[],
        1,
        None,
        out,
    )
    .is_err()
    {
        return Err(NoMemory);
    }
    out.set_options(options);
    out.close();
    Ok(())
}

/// Writes the summary of a record: its first bytes if the sink fails, and nothing if memory runs out.
fn write_made<K: Sink>(alloc: Global, made: &RunRecord, sink: &mut K) -> Result<(), WriteStop>
    ensures all { OnOk result (Appends (K.written sink.old) (K.written sink.new) (summary made.now.made)) }
    ensures part { OnErr result ((part : List ℕ) × IsPrefix part (summary made.now.made) × Appends (K.written sink.old) (K.written sink.new) part) }
    ensures failed { IsErrOf result WriteStop.Failed → Rose (K.faults sink.old) (K.faults sink.new) }
    ensures later { K.faults sink.old ≤ K.faults sink.new }
{
    let mut text = Vec::new(alloc);
    if write_summary(made, &mut text).is_err() {
        return Err(WriteStop::NoMemory);
    }
    match write_all(sink, text.as_slice()) {
        Ok(()) => Ok(()),
        Err(_) => Err(WriteStop::Failed),
    }
}

/// Makes a lake of `tables` tables with `rows` rows each from the seed, runs its searches, and writes the summary of
/// the results.
pub fn make_lake<K: Sink>(
    alloc: Global,
    seed: u32,
    tables: u32,
    rows: u32,
    sink: &mut K,
    out: &mut RunRecord,
) -> Status
    requires empty { out.old.made ≡ empty plain }
    requires some_tables { 1 ≤ tables }
    requires few_tables { tables ≤ 1000 }
    requires some_rows { 1 ≤ rows }
    requires few_rows { rows ≤ 5000 }
    ensures table { (outside : World) → Makes (standard_rules Canonical) seed tables rows result (with_sink (K.written sink.old) (K.faults sink.old) outside) (with_sink (K.written sink.new) (K.faults sink.new) outside) out.new.made }
    ensures moves { (outside : World) → Moves ⊥ result (with_sink (K.written sink.old) (K.faults sink.old) outside) (with_sink (K.written sink.new) (K.faults sink.new) outside) }
    ensures ends { (result ≡ Status.Done) ⊎ (result ≡ Status.WriteFault) ⊎ (result ≡ Status.NoMemory) }
{
    if fill_record(alloc, seed, tables, rows, out).is_err() {
        return Status::NoMemory;
    }
    match write_made(alloc, out, sink) {
        Ok(()) => Status::Done,
        Err(stop) => status_of_stop(stop),
    }
}

//! The run that watches queries while a script changes a lake.
ghost use Rattle.std.specs.Prelude.{◌≡◌, ◌≤◌, ◌<◌, ◌++◌, ◌⊎◌, ℕ, [], false, true, drop, length, map, string_bytes, take, List, OnErr, OnOk, IsErrOf};
ghost use Rattle.std.specs.Io.KnownBytes.{Appends};
ghost use Rattle.lake_io.specs.Causes.{Rose};
ghost use Rattle.lake_model.specs.Texts.{Text};
ghost use Rattle.lake_model.specs.Journal.{standard_limits};
ghost use Rattle.lake_model.specs.declared.Keys.TheVariants.{Canonical};
ghost use Rattle.catalogue.specs.Kept.{catalogue_with};
ghost use Rattle.script_model.specs.Options.{plain};
ghost use Rattle.script_model.specs.Script.{standard, start};
ghost use Rattle.script_text.specs.Gathering.{gathering_with};
ghost use Rattle.record_model.specs.Record.{empty};
ghost use Rattle.record_model.specs.Rules.{standard_rules};
ghost use Rattle.record_model.specs.Statuses.{IsPrefix};
ghost use Rattle.record_model.specs.Watched.{watch_text_behind};
ghost use Rattle.option_model.specs.Generator.{made_options};
ghost use Rattle.column_watch.specs.Watching.{watches_with};
ghost use Rattle.josie_top.specs.Ends.{is_done};
ghost use Rattle.josie_top.specs.Given.{all_watched};
ghost use Rattle.josie_top.specs.Meets.{Meets};
ghost use Rattle.josie_top.specs.Watching.{IsToldSoFar, IsWatched, Watches as WatchesOf, unwritten};
ghost use Rattle.josie_top.specs.World.{Moves, World, with_sink, world_of};

use crate::batches::{begin_batch, status_of_stop};
use crate::given::take_queries;
use crate::making::made_options;
use crate::ordered::answer_in_order;
use crate::writing::{WriteStop, write_all};
use asof_search::Timeline;
use catalogue::{Catalogue, Limits};
use column_watch::Watches;
use lake_io::{Failed, Shelf, Sink, Source};
use lake_model::Keys;
use record_model::Status;
use run_record::RunRecord;
use script_model::ScriptLimits;
use script_text::Gather;
use std::alloc::Global;
use watch_text::{push_end, tell_entries};

/// A sink that drops the replies, which nobody reads.
#[derive(Drop)]
struct Nowhere;

impl Sink for Nowhere {
    ghost use Rattle.std.specs.Prelude.{None};

    ghost written = { λ _. None };

    ghost faults = { λ _. 0 };

    fn write(&mut self, piece: &[u8]) -> Result<usize, Failed> {
        Ok(piece.len())
    }
}

/// Writes the text, or its first bytes if the sink fails.
fn write_text<K: Sink>(sink: &mut K, text: &[u8]) -> Result<(), WriteStop>
    ensures all { OnOk result (Appends (K.written sink.old) (K.written sink.new) text.now) }
    ensures part { OnErr result ((part : List ℕ) × IsPrefix part text.now × Appends (K.written sink.old) (K.written sink.new) part) }
    ensures failed { IsErrOf result WriteStop.Failed → Rose (K.faults sink.old) (K.faults sink.new) }
    ensures later { K.faults sink.old ≤ K.faults sink.new }
{
    match write_all(sink, text) {
        Ok(()) => Ok(()),
        Err(_) => Err(WriteStop::Failed),
    }
}

/// Writes what those entries of the record changed that the watches have not taken yet: the first bytes of that if the
/// sink fails, and nothing if memory runs out.
fn tell_batch<K: Sink>(
    alloc: Global,
    watches: &mut Watches,
    made: &RunRecord,
    sink: &mut K,
) -> Result<(), WriteStop>
    requires few { length watches.old.journal ≤ length made.now.made.journal }
    requires begins { take (length watches.old.journal) made.now.made.journal ≡ watches.old.journal }
    ensures taken { OnOk result (watches.new ≡ watches_with made.now.made.journal watches.old.queries) }
    ensures all { OnOk result ((k : ℕ) (queries : List (List Text)) → watches.old.queries ≡ all_watched k queries
        → Appends (K.written sink.old) (K.written sink.new) (watch_text_behind k queries watches.old.journal (drop (length watches.old.journal) made.now.made.journal))) }
    ensures part { OnErr result ((k : ℕ) (queries : List (List Text)) → watches.old.queries ≡ all_watched k queries
        → (part : List ℕ) × IsPrefix part (watch_text_behind k queries watches.old.journal (drop (length watches.old.journal) made.now.made.journal)) × Appends (K.written sink.old) (K.written sink.new) part) }
    ensures failed { IsErrOf result WriteStop.Failed → Rose (K.faults sink.old) (K.faults sink.new) }
    ensures later { K.faults sink.old ≤ K.faults sink.new }
{
    let mut text = Vec::new(alloc);
    let seen = watches.at() as usize;
    if tell_entries(alloc, watches, &made.journal()[seen..], &mut text).is_err() {
        return Err(WriteStop::NoMemory);
    }
    write_text(sink, text.as_slice())
}

/// Returns whether a script was read to its end and answered.
fn is_done(ended: Status) -> bool
    ensures { result ≡ is_done ended }
{
    matches!(ended, Status::Done)
}

/// Ends a run whose script ended with this status. If the script was read to its end, the last line is written.
fn end_telling<K: Sink>(alloc: Global, ended: Status, made: &RunRecord, sink: &mut K) -> Status
    ensures watched { (k : ℕ) (queries : List (List Text)) (before outside : World)
        → Meets (standard_rules Canonical) made_options ended (unwritten before) (unwritten outside) made.now.made → (ended ≡ Status.Usage → ⊥)
        → IsToldSoFar k queries before (with_sink (K.written sink.old) (K.faults sink.old) outside) made.now.made
        → IsWatched k queries result before (with_sink (K.written sink.new) (K.faults sink.new) outside) made.now.made }
    ensures moves { (before outside : World) → Moves ⊥ ended before (with_sink (K.written sink.old) (K.faults sink.old) outside)
        → Moves ⊥ result before (with_sink (K.written sink.new) (K.faults sink.new) outside) }
{
    if !is_done(ended) {
        return ended;
    }
    let mut text = Vec::new(alloc);
    if push_end(made.journal().len() as u64, &mut text).is_err() {
        return Status::NoMemory;
    }
    match write_text(sink, text.as_slice()) {
        Ok(()) => Status::Done,
        Err(stop) => status_of_stop(stop),
    }
}

/// Runs the batches of a script, into an empty record, until the script ends, is refused or breaks off, or the text
/// cannot be written. After each batch it writes what the entries of the batch changed.
fn watch_batches<S: Source, K: Sink, F: Shelf>(
    alloc: Global,
    gather: &mut Gather,
    catalogue: &mut Catalogue,
    watches: &mut Watches,
    source: &mut S,
    sink: &mut K,
    shelf: &mut F,
    out: &mut RunRecord,
) -> Status
    requires start { gather.old ≡ gathering_with (start []) [] false standard 1 }
    requires lake { catalogue.old ≡ catalogue_with standard_limits [] }
    requires empty { out.old.made ≡ empty made_options }
    requires new { watches.old.journal ≡ [] }
    ensures watched { let before = world_of (S.left source.old) (S.faults source.old) (K.written sink.old) (K.faults sink.old) (F.files shelf.old) (F.faults shelf.old) in
        let now = world_of (S.left source.new) (S.faults source.new) (K.written sink.new) (K.faults sink.new) (F.files shelf.new) (F.faults shelf.new) in
        (k : ℕ) (queries : List (List Text)) → watches.old.queries ≡ all_watched k queries → IsWatched k queries result before now out.new.made }
    ensures moves { let before = world_of (S.left source.old) (S.faults source.old) (K.written sink.old) (K.faults sink.old) (F.files shelf.old) (F.faults shelf.old) in
        let now = world_of (S.left source.new) (S.faults source.new) (K.written sink.new) (K.faults sink.new) (F.files shelf.new) (F.faults shelf.new) in
        Moves ⊥ result before now }
{
    let mut nowhere = Nowhere;
    let mut past = Timeline::new(alloc);
    for number in 0..u64::MAX {
        let batch = match begin_batch(alloc, gather, source, &mut nowhere, shelf, out) {
            Ok(batch) => batch,
            Err(status) => return end_telling(alloc, status, out, sink),
        };
        let keys = Keys::Canonical;
        if answer_in_order(alloc, catalogue, keys, &mut past, &batch, number, None, out).is_err() {
            return Status::NoMemory;
        }
        if let Err(stop) = tell_batch(alloc, watches, out, sink) {
            return status_of_stop(stop);
        }
        if gather.ended() {
            out.close();
            return end_telling(alloc, Status::Done, out, sink);
        }
    }
    Status::NoMemory
}

/// Runs a script over an empty lake, in an order of two empty pieces, into an empty record, while these queries are
/// watched.
fn watch_script<S: Source, K: Sink, F: Shelf>(
    alloc: Global,
    watches: &mut Watches,
    source: &mut S,
    sink: &mut K,
    shelf: &mut F,
    out: &mut RunRecord,
) -> Status
    requires empty { out.old.made ≡ empty plain }
    requires new { watches.old.journal ≡ [] }
    ensures watched { let before = world_of (S.left source.old) (S.faults source.old) (K.written sink.old) (K.faults sink.old) (F.files shelf.old) (F.faults shelf.old) in
        let now = world_of (S.left source.new) (S.faults source.new) (K.written sink.new) (K.faults sink.new) (F.files shelf.new) (F.faults shelf.new) in
        (k : ℕ) (queries : List (List Text)) → watches.old.queries ≡ all_watched k queries → IsWatched k queries result before now out.new.made }
    ensures moves { let before = world_of (S.left source.old) (S.faults source.old) (K.written sink.old) (K.faults sink.old) (F.files shelf.old) (F.faults shelf.old) in
        let now = world_of (S.left source.new) (S.faults source.new) (K.written sink.new) (K.faults sink.new) (F.files shelf.new) (F.faults shelf.new) in
        Moves ⊥ result before now }
{
    let Ok(mut gather) = Gather::new(alloc, 1, ScriptLimits::standard()) else {
        return Status::NoMemory;
    };
    let Ok(mut catalogue) = Catalogue::new(alloc, Limits::standard()) else {
        return Status::NoMemory;
    };
    let Ok(options) = made_options(alloc) else {
        return Status::NoMemory;
    };
    out.set_options(options);
    watch_batches(
        alloc,
        &mut gather,
        &mut catalogue,
        watches,
        source,
        sink,
        shelf,
        out,
    )
}

/// Watches the first `k` rows of the queries in the files at these paths while a script changes a lake. The source is
/// not read until the queries have been fetched, and the changes of each batch are written before the next batch is
/// read. The replies are in the record, and are not written.
pub(crate) fn watch<S: Source, K: Sink, F: Shelf>(
    alloc: Global,
    k: u32,
    paths: &[String],
    source: &mut S,
    sink: &mut K,
    shelf: &mut F,
    out: &mut RunRecord,
) -> Status
    requires empty { out.old.made ≡ empty plain }
    requires low { 1 ≤ k }
    requires high { k ≤ 10000 }
    requires few { length paths.now ≤ 16 }
    ensures table { let before = world_of (S.left source.old) (S.faults source.old) (K.written sink.old) (K.faults sink.old) (F.files shelf.old) (F.faults shelf.old) in
        let now = world_of (S.left source.new) (S.faults source.new) (K.written sink.new) (K.faults sink.new) (F.files shelf.new) (F.faults shelf.new) in
        WatchesOf k (map string_bytes paths.now) result before now out.new.made }
    ensures moves { let before = world_of (S.left source.old) (S.faults source.old) (K.written sink.old) (K.faults sink.old) (F.files shelf.old) (F.faults shelf.old) in
        let now = world_of (S.left source.new) (S.faults source.new) (K.written sink.new) (K.faults sink.new) (F.files shelf.new) (F.faults shelf.new) in
        Moves ⊥ result before now }
{
    let mut watches = Watches::new(alloc);
    match take_queries(alloc, k, paths, shelf, &mut watches) {
        Ok(()) => watch_script(alloc, &mut watches, source, sink, shelf, out),
        Err(status) => status,
    }
}

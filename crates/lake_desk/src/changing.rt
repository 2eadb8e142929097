//! Loads, drops and replaces at a lake.
ghost use Rattle.std.specs.Prelude.{◌≡◌, ◌∷◌, [], false};
ghost use Rattle.turn_lock.specs.Passes.{after_seeing};
ghost use Rattle.record_model.specs.Replies.{drop_reply, load_reply, replace_reply};
ghost use Rattle.run_record.specs.Replies.{reply_of};
ghost use Rattle.command_replies.specs.Loads.{loaded_by};
ghost use Rattle.command_replies.specs.Replaces.{replaced_by};
ghost use Rattle.command_replies.specs.Drops.{dropped_by};
ghost use Rattle.lake_desk.specs.Answering.{IsMade};

use catalogue::KeptName;
use column_set::{Name, SharedTable};
use command_replies::{reply_to_drop, reply_to_load, reply_to_replace};
use lake::{Bounds, Lake, Pass};
use run_record::Reply;
use segment_core::Segment;
use std::alloc::Global;
use std::sync::{Arc, Wait};

/// Loads a table, given with the segment of this table alone, and returns the reply to the command with this number.
/// The parts of the reply that describe the table are made first, so that nothing can fail once the entry is in the
/// journal.
pub(crate) fn load<B: Bounds, R: Wait>(
    rt: &R,
    alloc: Global,
    lake: &Lake<B>,
    pass: &mut Pass<B>,
    number: u64,
    table: SharedTable,
    segment: Arc<Segment>,
) -> Reply
    requires lock { pass.old.lock ≡ lake.now }
    requires free { pass.old.holds ≡ false }
    requires segment { segment.value ≡ table ∷ [] }
    ensures pass { pass.new ≡ after_seeing pass.old pass.new.seen false }
    ensures made { IsMade (load_reply B.limits table) (loaded_by table) number pass.old (reply_of result) pass.new.seen }
{
    let Ok(name) = KeptName::new(alloc, table.table().name()) else {
        return Reply::NoMemory;
    };
    let columns = table.table().columns();
    let members = table.table().members();
    match lake.load(rt, pass, number, table, segment) {
        Ok(at) => Reply::Loaded {
            name,
            columns,
            members,
            at,
        },
        Err(refused) => reply_to_load(refused, name),
    }
}

/// Drops the live table of a name, and returns the reply to the command with this number. The name that the reply keeps
/// is made first, so that nothing can fail once the entry is in the journal.
pub(crate) fn drop_table<B: Bounds, R: Wait>(
    rt: &R,
    alloc: Global,
    lake: &Lake<B>,
    pass: &mut Pass<B>,
    number: u64,
    name: &Name,
) -> Reply
    requires lock { pass.old.lock ≡ lake.now }
    requires free { pass.old.holds ≡ false }
    ensures pass { pass.new ≡ after_seeing pass.old pass.new.seen false }
    ensures made { IsMade (drop_reply B.limits name.now) (dropped_by name.now) number pass.old (reply_of result) pass.new.seen }
{
    let Ok(kept) = KeptName::new(alloc, name) else {
        return Reply::NoMemory;
    };
    match lake.drop_table(rt, pass, number, name) {
        Ok(at) => Reply::Dropped { name: kept, at },
        Err(refused) => reply_to_drop(refused, kept),
    }
}

/// Replaces the live table of the same name by a table, given with the segment of this table alone, and returns the
/// reply to the command with this number. The parts of the reply that describe the table are made first, so that
/// nothing can fail once the entry is in the journal.
pub(crate) fn replace<B: Bounds, R: Wait>(
    rt: &R,
    alloc: Global,
    lake: &Lake<B>,
    pass: &mut Pass<B>,
    number: u64,
    table: SharedTable,
    segment: Arc<Segment>,
) -> Reply
    requires lock { pass.old.lock ≡ lake.now }
    requires free { pass.old.holds ≡ false }
    requires segment { segment.value ≡ table ∷ [] }
    ensures pass { pass.new ≡ after_seeing pass.old pass.new.seen false }
    ensures made { IsMade (replace_reply B.limits table) (replaced_by table) number pass.old (reply_of result) pass.new.seen }
{
    let Ok(name) = KeptName::new(alloc, table.table().name()) else {
        return Reply::NoMemory;
    };
    let columns = table.table().columns();
    let members = table.table().members();
    match lake.replace(rt, pass, number, table, segment) {
        Ok(at) => Reply::Replaced {
            name,
            columns,
            members,
            at,
        },
        Err(refused) => reply_to_replace(refused, name),
    }
}

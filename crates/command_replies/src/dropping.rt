//! Drops: the entry that takes a table out of the lake.
ghost use Rattle.std.specs.Prelude.{◌≡◌, ◌<◌, ◌+◌, ◌≤◌, Bool};
ghost use Rattle.record_model.specs.Replies.{drop_reply};
ghost use Rattle.record_model.specs.Play.{reply_or_denied};
ghost use Rattle.run_record.specs.Replies.{reply_of};
ghost use Rattle.command_replies.specs.Drops.{drop_refusal_reply, dropped_by};
ghost use Rattle.command_replies.specs.Loads.{Adds};

use catalogue::{Catalogue, DropRefused, Entry, KeptName, Who};
use column_set::Name;
use run_record::{Reply, RunRecord};
use std::alloc::Global;

/// Makes the reply to a drop of this name that the catalogue refuses.
pub fn reply_to_drop(refused: DropRefused, name: KeptName) -> Reply
    ensures { reply_of result ≡ drop_refusal_reply name refused }
{
    match refused {
        DropRefused::Unknown { at } => Reply::Unknown { name, at },
        DropRefused::Full {
            which,
            count,
            more,
            at,
        } => Reply::Full {
            which,
            count,
            more,
            at,
        },
        DropRefused::NoMemory => Reply::NoMemory,
    }
}

/// Answers a drop: the live table of the name leaves the lake, with an entry of this caller and command in the
/// catalogue's journal and one in the record's. The names that the record and the reply keep are made before the entry,
/// so that nothing can fail after it.
pub(crate) fn drop_table(
    alloc: Global,
    catalogue: &mut Catalogue,
    who: Who,
    name: &Name,
    out: &mut RunRecord,
) -> Reply
    requires journal { out.old.made.journal ≡ catalogue.old.journal }
    requires room { 0 < out.old.entries_room }
    ensures answered { (denied : Bool) × (reply_of result ≡ reply_or_denied denied (drop_reply catalogue.old.limits name.now catalogue.old.journal)) }
    ensures adds { Adds who (dropped_by name.now (reply_of result)) catalogue.old catalogue.new out.old out.new }
{
    let Ok(kept) = KeptName::new(alloc, name) else {
        return Reply::NoMemory;
    };
    let Ok(said) = kept.copy() else {
        return Reply::NoMemory;
    };
    match catalogue.drop_table(who, name) {
        Ok(at) => {
            out.add_entry(Entry::dropped(who, kept));
            Reply::Dropped { name: said, at }
        }
        Err(refused) => reply_to_drop(refused, said),
    }
}

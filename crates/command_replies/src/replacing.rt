//! Replaces: the table of a block replaces the live table of the same name, with one entry.
ghost use Rattle.std.specs.Prelude.{◌≡◌, ◌<◌, ◌+◌, ◌≤◌, ◌∷◌, [], Bool};
ghost use Rattle.lake_model.specs.Tables.{members};
ghost use Rattle.script_model.specs.Commands.{Replace};
ghost use Rattle.record_model.specs.Replies.{replace_reply};
ghost use Rattle.record_model.specs.Answered.{adds, replace_answer, table_read};
ghost use Rattle.record_model.specs.Play.{reply_or_denied};
ghost use Rattle.record_model.specs.Rules.{rules_with};
ghost use Rattle.run_record.specs.Replies.{reply_of};
ghost use Rattle.command_replies.specs.Loads.{Adds};
ghost use Rattle.command_replies.specs.Replaces.{replace_refusal_reply, replaced_by};

use crate::loading::{Loadable, make_table};
use catalogue::{Catalogue, Entry, KeptName, ReplaceRefused, Who};
use column_set::{Keys, Name, SharedTable};
use commands::Body;
use run_record::{Reply, RunRecord};
use segment_core::Segment;
use std::alloc::Global;
use std::sync::Arc;

/// Makes the reply to a replace of the table of this name that the catalogue refuses.
pub fn reply_to_replace(refused: ReplaceRefused, name: KeptName) -> Reply
    ensures { reply_of result ≡ replace_refusal_reply name refused }
{
    match refused {
        ReplaceRefused::Unknown { at } => Reply::Unknown { name, at },
        ReplaceRefused::Full {
            which,
            count,
            more,
            at,
        } => Reply::Full {
            which,
            count,
            more,
            at,
        },
        ReplaceRefused::NoMemory => Reply::NoMemory,
    }
}

// Replaces the live table of the same name by a table. What the record and the reply keep of the table is made before
// its entry, so that nothing can fail after the entry.
fn accept(
    alloc: Global,
    catalogue: &mut Catalogue,
    who: Who,
    table: SharedTable,
    segment: Arc<Segment>,
    out: &mut RunRecord,
) -> Reply
    requires segment { segment.value ≡ table ∷ [] }
    requires journal { out.old.made.journal ≡ catalogue.old.journal }
    requires room { 0 < out.old.entries_room }
    ensures answered { (denied : Bool) × (reply_of result ≡ reply_or_denied denied (replace_reply catalogue.old.limits table catalogue.old.journal)) }
    ensures adds { Adds who (replaced_by table (reply_of result)) catalogue.old catalogue.new out.old out.new }
{
    let Ok(kept) = table.share() else {
        return Reply::NoMemory;
    };
    let Ok(name) = KeptName::new(alloc, table.table().name()) else {
        return Reply::NoMemory;
    };
    let columns = table.table().columns();
    let members = table.table().members();
    match catalogue.replace(who, table, segment) {
        Ok(at) => {
            out.add_entry(Entry::replaced(who, kept));
            Reply::Replaced {
                name,
                columns,
                members,
                at,
            }
        }
        Err(refused) => reply_to_replace(refused, name),
    }
}

/// Answers a replace: the table of the body replaces the live table of the name, with one entry of this caller and
/// command in the catalogue's journal and one in the record's.
pub(crate) fn replace(
    alloc: Global,
    catalogue: &mut Catalogue,
    keys: Keys,
    who: Who,
    name: &Name,
    body: &Body,
    out: &mut RunRecord,
) -> Reply
    requires journal { out.old.made.journal ≡ catalogue.old.journal }
    requires room { 0 < out.old.entries_room }
    ensures answered { (denied : Bool) × (reply_of result ≡ reply_or_denied denied (replace_answer (rules_with keys catalogue.old.limits) (table_read keys name.now body.now) catalogue.old.journal)) }
    ensures adds { Adds who (adds (rules_with keys catalogue.old.limits) (Replace name.now body.now) out.old.made.journal (reply_of result)) catalogue.old catalogue.new out.old out.new }
{
    match make_table(alloc, keys, name, body) {
        Ok(Loadable { table, segment }) => accept(alloc, catalogue, who, table, segment, out),
        Err(reply) => reply,
    }
}

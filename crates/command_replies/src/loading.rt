//! Loads: the table of a block, and its entry.
ghost use Rattle.std.specs.Prelude.{◌≡◌, ◌<◌, ◌+◌, ◌≤◌, ◌∷◌, [], Bool, IfOk, IfErr};
ghost use Rattle.lake_model.specs.Records.{most_columns};
ghost use Rattle.lake_model.specs.Tables.{members};
ghost use Rattle.script_model.specs.Commands.{Load, LoadFile};
ghost use Rattle.record_model.specs.Replies.{csv_reply, sets_reply, load_reply};
ghost use Rattle.record_model.specs.Answered.{IsTable, file_read, table_read, load_answer, adds};
ghost use Rattle.record_model.specs.Play.{reply_or_denied};
ghost use Rattle.record_model.specs.Rules.{rules_with};
ghost use Rattle.run_record.specs.Replies.{reply_of};
ghost use Rattle.commands.specs.Tasks.{file_of};
ghost use Rattle.command_replies.specs.Loads.{Adds, IsRefusal, refusal_reply, loaded_by};

use catalogue::{Catalogue, Entry, KeptName, LoadRefused, Who};
use column_set::{Keys, Name, SetRefused, SharedTable, TableSets};
use commands::{Body, FileBody};
use csv_table::{CsvRefused, read_table};
use no_memory::NoMemory;
use run_record::{Reply, RunRecord};
use segment_core::Segment;
use std::alloc::Global;
use std::sync::Arc;

/// A table that can be loaded, with the segment of this table alone.
#[derive(Drop)]
pub struct Loadable {
    pub table: SharedTable,
    pub segment: Arc<Segment>,
}

/// Makes the table of a block under a name with its segment, or the reply that refuses it: for the first fault of its
/// records, or else of its sets, or because memory ran out.
pub fn make_table(alloc: Global, keys: Keys, name: &Name, body: &Body) -> Result<Loadable, Reply>
    ensures table { IfOk result (λ made. table_read keys name.now body.now ≡ IsTable made.table) }
    ensures segment { IfOk result (λ made. made.segment.value ≡ made.table ∷ []) }
    ensures refused { IfErr result (λ reply. IsRefusal (table_read keys name.now body.now) (reply_of reply)) }
{
    let table = match read_sets(alloc, keys, name, body) {
        Ok(table) => table,
        Err(reply) => return Err(reply),
    };
    match segment_of(alloc, &table) {
        Ok(segment) => Ok(Loadable { table, segment }),
        Err(NoMemory) => Err(Reply::NoMemory),
    }
}

/// Makes the table of a file under a name with its segment, or the reply that refuses it: if the file could not be
/// fetched, for that reason, and otherwise as for a block of its bytes.
pub fn make_table_of_file(
    alloc: Global,
    keys: Keys,
    name: &Name,
    file: &FileBody,
) -> Result<Loadable, Reply>
    ensures table { IfOk result (λ made. file_read keys name.now (file_of file.now) ≡ IsTable made.table) }
    ensures segment { IfOk result (λ made. made.segment.value ≡ made.table ∷ []) }
    ensures refused { IfErr result (λ reply. IsRefusal (file_read keys name.now (file_of file.now)) (reply_of reply)) }
{
    match file {
        FileBody::Bytes(body) => make_table(alloc, keys, name, body),
        FileBody::Failed => Err(Reply::FileFailed),
        FileBody::Missing => Err(Reply::FileMissing),
        FileBody::TooLong => Err(Reply::FileTooLong),
    }
}

// Returns how many columns a table may have.
fn most_columns(keys: Keys) -> u32
    ensures value { result ≡ most_columns keys }
    ensures some { 1 ≤ result }
    ensures few { result ≤ 4096 }
{
    match keys {
        Keys::Canonical => 1_024,
        Keys::Compatibility => 4_096,
    }
}

// Makes the table of a block under a name, or the reply that refuses it.
fn read_sets(alloc: Global, keys: Keys, name: &Name, body: &Body) -> Result<SharedTable, Reply>
    ensures table { IfOk result (λ table. table_read keys name.now body.now ≡ IsTable table) }
    ensures members { IfOk result (λ table. members table ≤ 67108864) }
    ensures refused { IfErr result (λ reply. IsRefusal (table_read keys name.now body.now) (reply_of reply)) }
{
    let raw = match read_table(alloc, body.bytes(), most_columns(keys)) {
        Ok(raw) => raw,
        Err(refused) => return Err(reply_to_csv(refused)),
    };
    let sets = match TableSets::build(alloc, keys, name.copy(), &raw) {
        Ok(sets) => sets,
        Err(refused) => return Err(reply_to_sets(refused)),
    };
    match SharedTable::new(alloc, sets) {
        Ok(table) => Ok(table),
        Err(_) => Err(Reply::NoMemory),
    }
}

// Makes the segment of one table. Its index is built when it is first searched.
fn segment_of(alloc: Global, table: &SharedTable) -> Result<Arc<Segment>, NoMemory>
    requires { members table.now ≤ 67108864 }
    ensures { IfOk result (λ segment. segment.value ≡ table.now ∷ []) }
{
    let mut tables = Vec::new(alloc);
    tables.push(table.share()?)?;
    prove!(table.table().columns() <= 4_096);
    Ok(Arc::new(alloc, Segment::new(tables))?)
}

// Makes the reply to bytes that are not a table.
fn reply_to_csv(refused: CsvRefused) -> Reply
    ensures { reply_of result ≡ csv_reply refused }
{
    match refused {
        CsvRefused::NoHeader => Reply::NoHeader,
        CsvRefused::TooManyColumns { got } => Reply::TooManyColumns { got },
        CsvRefused::Unequal { row, want, got } => Reply::Unequal { row, want, got },
        CsvRefused::NotUtf8 { row, field } => Reply::NotUtf8 { row, field },
        CsvRefused::NoMemory => Reply::NoMemory,
    }
}

// Makes the reply to fields that give no sets.
fn reply_to_sets(refused: SetRefused) -> Reply
    ensures { reply_of result ≡ sets_reply refused }
{
    match refused {
        SetRefused::TooManyValues { place } => Reply::TooManyValues { place },
        SetRefused::NoMemory => Reply::NoMemory,
    }
}

/// Makes the reply to the load of a table of this name that the catalogue refuses.
pub fn reply_to_load(refused: LoadRefused, name: KeptName) -> Reply
    ensures { reply_of result ≡ refusal_reply name refused }
{
    match refused {
        LoadRefused::Repeated { at } => Reply::Repeated { name, at },
        LoadRefused::Full {
            which,
            count,
            more,
            at,
        } => Reply::Full {
            which,
            count,
            more,
            at,
        },
        LoadRefused::NoMemory => Reply::NoMemory,
    }
}

// Loads a table. What the record and the reply keep of the table is made before its entry, so that nothing can fail
// after the entry.
fn accept(
    alloc: Global,
    catalogue: &mut Catalogue,
    who: Who,
    table: SharedTable,
    segment: Arc<Segment>,
    out: &mut RunRecord,
) -> Reply
    requires segment { segment.value ≡ table ∷ [] }
    requires journal { out.old.made.journal ≡ catalogue.old.journal }
    requires room { 0 < out.old.entries_room }
    ensures answered { (denied : Bool) × (reply_of result ≡ reply_or_denied denied (load_reply catalogue.old.limits table catalogue.old.journal)) }
    ensures adds { Adds who (loaded_by table (reply_of result)) catalogue.old catalogue.new out.old out.new }
{
    let Ok(kept) = table.share() else {
        return Reply::NoMemory;
    };
    let Ok(name) = KeptName::new(alloc, table.table().name()) else {
        return Reply::NoMemory;
    };
    let columns = table.table().columns();
    let members = table.table().members();
    match catalogue.load(who, table, segment) {
        Ok(at) => {
            out.add_entry(Entry::loaded(who, kept));
            Reply::Loaded {
                name,
                columns,
                members,
                at,
            }
        }
        Err(refused) => reply_to_load(refused, name),
    }
}

/// Answers a load: the table of the body comes into the lake under the name, with an entry of this caller and command
/// in the catalogue's journal and one in the record's.
pub(crate) fn load(
    alloc: Global,
    catalogue: &mut Catalogue,
    keys: Keys,
    who: Who,
    name: &Name,
    body: &Body,
    out: &mut RunRecord,
) -> Reply
    requires journal { out.old.made.journal ≡ catalogue.old.journal }
    requires room { 0 < out.old.entries_room }
    ensures answered { (denied : Bool) × (reply_of result ≡ reply_or_denied denied (load_answer (rules_with keys catalogue.old.limits) (table_read keys name.now body.now) catalogue.old.journal)) }
    ensures adds { Adds who (adds (rules_with keys catalogue.old.limits) (Load name.now body.now) out.old.made.journal (reply_of result)) catalogue.old catalogue.new out.old out.new }
{
    match make_table(alloc, keys, name, body) {
        Ok(Loadable { table, segment }) => accept(alloc, catalogue, who, table, segment, out),
        Err(reply) => reply,
    }
}

/// Answers a load from a file like a load of its bytes, if it could be fetched.
pub(crate) fn load_file(
    alloc: Global,
    catalogue: &mut Catalogue,
    keys: Keys,
    who: Who,
    name: &Name,
    file: &FileBody,
    out: &mut RunRecord,
) -> Reply
    requires journal { out.old.made.journal ≡ catalogue.old.journal }
    requires room { 0 < out.old.entries_room }
    ensures answered { (denied : Bool) × (reply_of result ≡ reply_or_denied denied (load_answer (rules_with keys catalogue.old.limits) (file_read keys name.now (file_of file.now)) catalogue.old.journal)) }
    ensures adds { Adds who (adds (rules_with keys catalogue.old.limits) (LoadFile name.now (file_of file.now)) out.old.made.journal (reply_of result)) catalogue.old catalogue.new out.old out.new }
{
    match make_table_of_file(alloc, keys, name, file) {
        Ok(Loadable { table, segment }) => accept(alloc, catalogue, who, table, segment, out),
        Err(reply) => reply,
    }
}

//! The queries in the files that the command line names.
ghost use Rattle.std.specs.Prelude.{◌≡◌, ◌<◌, ◌≤◌, [], length, map, string_bytes, IfErr, IfOk, OnOk};
ghost use Rattle.commands.specs.Tasks.{file_of};
ghost use Rattle.record_model.specs.Watched.{IsGiven, given_read};
ghost use Rattle.column_watch.specs.Watching.{watches_with};
ghost use Rattle.josie_top.specs.Given.{AreTaken, IsNotTaken, IsRefusedBy, IsStopped, IsTaken, status_of_given};

use column_set::{QueryRefused, QuerySet};
use column_watch::Watches;
use commands::FileBody;
use lake_io::Shelf;
use lake_model::Keys;
use record_model::{GivenWhy, Status};
use script_text::fetch_file;
use std::alloc::Global;

/// Why a file gives no query.
#[derive(Clone, Copy, Debug, PartialEq, Eq)]
pub enum GivenStop {
    /// The file is at fault, for this reason.
    Fault(GivenWhy),
    /// Memory ran out.
    NoMemory,
}

/// Returns the query in a fetched file: its lines are the values.
fn query_of(alloc: Global, file: &FileBody) -> Result<QuerySet, GivenStop>
    ensures keys { IfOk result (λ query. given_read (file_of file.now) ≡ IsGiven query) }
    ensures stopped { IfErr result (IsStopped (given_read (file_of file.now))) }
{
    let body = match file {
        FileBody::Bytes(body) => body,
        FileBody::Failed => return Err(GivenStop::Fault(GivenWhy::Failed)),
        FileBody::Missing => return Err(GivenStop::Fault(GivenWhy::Missing)),
        FileBody::TooLong => return Err(GivenStop::Fault(GivenWhy::TooLong)),
    };
    match QuerySet::read(alloc, Keys::Canonical, body.bytes()) {
        Ok(query) => Ok(query),
        Err(QueryRefused::NotUtf8 { line }) => Err(GivenStop::Fault(GivenWhy::NotUtf8 { line })),
        Err(QueryRefused::TooManyValues) => Err(GivenStop::Fault(GivenWhy::TooManyValues)),
        Err(QueryRefused::NoMemory) => Err(GivenStop::NoMemory),
    }
}

/// Watches the first `k` rows of the query in the file at a path.
fn take_query<F: Shelf>(
    alloc: Global,
    k: u32,
    path: &str,
    shelf: &mut F,
    watches: &mut Watches,
) -> Result<(), GivenStop>
    requires low { 1 ≤ k }
    requires high { k ≤ 10000 }
    requires few { length watches.old.queries < 16 }
    requires new { watches.old.journal ≡ [] }
    ensures taken { OnOk result (IsTaken (F.files shelf.old) (F.faults shelf.old) (F.faults shelf.new) k path.now watches.old watches.new) }
    ensures stopped { IfErr result (IsNotTaken (F.files shelf.old) (F.faults shelf.old) (F.faults shelf.new) path.now) }
    ensures files { F.files shelf.new ≡ F.files shelf.old }
    ensures later { F.faults shelf.old ≤ F.faults shelf.new }
{
    let Ok(file) = fetch_file(alloc, shelf, path) else {
        return Err(GivenStop::NoMemory);
    };
    let query = query_of(alloc, &file)?;
    match watches.add(query, k) {
        Ok(_number) => Ok(()),
        Err(_) => Err(GivenStop::NoMemory),
    }
}

/// Returns the status of a run in which the file of the path with this number gives no query.
fn status_of_given(path: u32, stop: GivenStop) -> Status
    ensures { result ≡ status_of_given path stop }
{
    match stop {
        GivenStop::Fault(why) => Status::Given { path, why },
        GivenStop::NoMemory => Status::NoMemory,
    }
}

/// Watches the first `k` rows of the query in the file at each path, one after another. It stops at the first file that
/// gives no query.
pub(crate) fn take_queries<F: Shelf>(
    alloc: Global,
    k: u32,
    paths: &[String],
    shelf: &mut F,
    watches: &mut Watches,
) -> Result<(), Status>
    requires low { 1 ≤ k }
    requires high { k ≤ 10000 }
    requires few { length paths.now ≤ 16 }
    requires new { watches.old ≡ watches_with [] [] }
    ensures taken { OnOk result (AreTaken (F.files shelf.old) (F.faults shelf.old) (F.faults shelf.new) k (map string_bytes paths.now) watches.new) }
    ensures refused { IfErr result (IsRefusedBy (F.files shelf.old) (F.faults shelf.old) (F.faults shelf.new) (map string_bytes paths.now)) }
    ensures files { F.files shelf.new ≡ F.files shelf.old }
    ensures later { F.faults shelf.old ≤ F.faults shelf.new }
{
    for (index, path) in paths.iter().enumerate() {
        if let Err(stop) = take_query(alloc, k, path.as_str(), shelf, watches) {
            return Err(status_of_given(index as u32 + 1, stop));
        }
    }
    Ok(())
}

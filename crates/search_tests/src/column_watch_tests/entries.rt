//! Entries of a journal, and queries to watch.

use crate::making::{Change, WHO, name, table};
use catalogue::{Entry, KeptName};
use column_set::{Keys, QuerySet};
use column_watch::Watches;
use segment_core::Numbers;
use std::alloc::Global;
use std::test::Fail;

// Returns the entry of a merge that keeps the first two tables.
fn merge(alloc: Global) -> Result<Entry, Fail> {
    let from = Numbers::new(vec![in alloc; 1, 2]?);
    let kept = Numbers::new(vec![in alloc; 1, 2]?);
    Ok(Entry::swapped(WHO, from, kept))
}

fn entry(alloc: Global, change: Change<'_>) -> Result<Entry, Fail> {
    match change {
        Change::Load(title, text) => Ok(Entry::loaded(WHO, table(alloc, title, text)?)),
        Change::Replace(title, text) => Ok(Entry::replaced(WHO, table(alloc, title, text)?)),
        Change::Drop(title) => Ok(Entry::dropped(WHO, KeptName::new(alloc, &name(title)?)?)),
        Change::Merge => merge(alloc),
    }
}

/// Takes an entry.
pub(crate) fn take(watches: &mut Watches, alloc: Global, change: Change<'_>) -> Result<(), Fail> {
    let entry = entry(alloc, change)?;
    watches.take(&entry)?;
    Ok(())
}

fn query(alloc: Global, body: &str) -> Result<QuerySet, Fail> {
    Ok(QuerySet::read(alloc, Keys::Canonical, body.as_bytes())?)
}

/// Watches three queries, of k rows each, 1 to 10,000.
pub(crate) fn watch(alloc: Global, bodies: [&str; 3], k: u32) -> Result<Watches, Fail> {
    if k == 0 || k > 10_000 {
        return Err(Fail::from("no such number of rows"));
    }
    let mut watches = Watches::new(alloc);
    watches.add(query(alloc, bodies[0])?, k)?;
    watches.add(query(alloc, bodies[1])?, k)?;
    watches.add(query(alloc, bodies[2])?, k)?;
    Ok(watches)
}

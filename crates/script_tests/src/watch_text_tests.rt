//! The text of worked runs, byte for byte. All columns are named c.
use catalogue::{Entry, KeptName, Who};
use column_set::{Keys, Name, QuerySet, SharedTable, TableSets};
use column_watch::Watches;
use csv_table::read_table;
use segment_core::Numbers;
use std::alloc::Global;
use std::process::Abort;
use std::test::Fail;
use watch_text::{push_end, tell_entries};

const WHO: Who = Who {
    caller: 1,
    command: 1,
};

fn name(text: &str) -> Result<Name, Fail> {
    Ok(Name::read(text.as_bytes()).ok_or("no name")?)
}

// Returns the load of a table with this name and these CSV bytes.
fn load(alloc: Global, title: &str, text: &str) -> Result<Entry, Fail> {
    let raw = read_table(alloc, text.as_bytes(), 1_024)?;
    let table = TableSets::build(alloc, Keys::Canonical, name(title)?, &raw)?;
    Ok(Entry::loaded(WHO, SharedTable::new(alloc, table)?))
}

// Returns a merge of the first part.
fn merge(alloc: Global) -> Result<Entry, Fail> {
    let from = Numbers::new(vec![in alloc; 1]?);
    let kept = Numbers::new(vec![in alloc; 1]?);
    Ok(Entry::swapped(WHO, from, kept))
}

// An entry of a journal.
enum Told {
    Load(&'static str, &'static str),
    Drop(&'static str),
    Merge,
}

// Returns these entries.
fn entries(alloc: Global, told: &[Told]) -> Result<Vec<Entry>, Fail> {
    let mut entries = Vec::new(alloc);
    for what in told {
        entries.push(entry(alloc, what)?)?;
    }
    Ok(entries)
}

fn entry(alloc: Global, told: &Told) -> Result<Entry, Fail> {
    match told {
        Told::Load(title, text) => load(alloc, title, text),
        Told::Drop(title) => Ok(Entry::dropped(WHO, KeptName::new(alloc, &name(title)?)?)),
        Told::Merge => merge(alloc),
    }
}

// One or two queries, each with its number of rows.
struct Queries {
    first: (&'static str, u32),
    second: Option<(&'static str, u32)>,
}

// Returns watches of these queries.
fn watches(alloc: Global, queries: &Queries) -> Result<Watches, Fail> {
    let mut watches = Watches::new(alloc);
    let (body, rows) = queries.first;
    watches.add(query(alloc, body)?, rows.clamp(1, 10_000))?;
    if let Some((body, rows)) = queries.second {
        watches.add(query(alloc, body)?, rows.clamp(1, 10_000))?;
    }
    Ok(watches)
}

fn query(alloc: Global, body: &str) -> Result<QuerySet, Fail> {
    Ok(QuerySet::read(alloc, Keys::Canonical, body.as_bytes())?)
}

// Returns whether the text of the entries, of which the second half is written after the first, with the last line, is
// `wanted`.
fn tells(
    alloc: Global,
    watches: &mut Watches,
    entries: &[Entry],
    wanted: &str,
) -> Result<bool, Fail> {
    let half = entries.len() / 2;
    let mut text = Vec::new(alloc);
    tell_entries(alloc, watches, &entries[..half], &mut text)?;
    tell_entries(alloc, watches, &entries[half..], &mut text)?;
    push_end(watches.at(), &mut text)?;
    Ok(text.as_slice() == wanted.as_bytes())
}

// Expects this text of queries and entries.
fn expect(
    rt: &impl Abort,
    alloc: Global,
    queries: &Queries,
    told: &[Told],
    wanted: &str,
) -> Result<(), Fail> {
    let mut watches = watches(alloc, queries)?;
    let entries = entries(alloc, told)?;
    assert!(rt; tells(alloc, &mut watches, &entries, wanted)?);
    Ok(())
}

// The loads of s and t, the drop of t, and the load of u.
const GROWS_AND_SHRINKS: [Told; 4] = [
    Told::Load("s", "c\na\n"),
    Told::Load("t", "c\na\nb\n"),
    Told::Drop("t"),
    Told::Load("u", "c\nz\n"),
];

const ONE_QUERY: Queries = Queries {
    first: ("a\nb\n", 1),
    second: None,
};

// A better table is loaded and dropped, and a table that shares nothing with the query is not reported.
#[test]
fn one_query(rt: HostRuntime) -> Result<(), Fail> {
    let wanted =
        "1 query 1 rows 1\n  1 s 1 \"c\"\n2 query 1 rows 1\n  2 t 1 \"c\"\n3 query 1 rows 1\n  1 s 1 \"c\"\nend 4\n";
    expect(&rt, rt.alloc(), &ONE_QUERY, &GROWS_AND_SHRINKS, wanted)
}

const TWO_QUERIES: Queries = Queries {
    first: ("a\nb\n", 2),
    second: Some(("z\n", 2)),
};

// A row falls to second place and returns to first place, and only the changes of each query are written for it.
#[test]
fn two_queries(rt: HostRuntime) -> Result<(), Fail> {
    let wanted =
        "1 query 1 rows 1\n  1 s 1 \"c\"\n2 query 1 rows 2\n  2 t 1 \"c\"\n  1 s 1 \"c\"\n3 query 1 rows 1\n  1 s 1 \"c\"\n4 query 2 rows 1\n  1 u 1 \"c\"\nend 4\n";
    expect(&rt, rt.alloc(), &TWO_QUERIES, &GROWS_AND_SHRINKS, wanted)
}

const BOTH: Queries = Queries {
    first: ("a\n", 1),
    second: Some(("b\na\n", 3)),
};

const MERGED: [Told; 3] = [Told::Load("s", "c\nb\na\n"), Told::Merge, Told::Drop("s")];

// One entry changes both queries, a merge changes neither, and the drop of the only table leaves no row.
#[test]
fn no_row_is_left(rt: HostRuntime) -> Result<(), Fail> {
    let wanted =
        "1 query 1 rows 1\n  1 s 1 \"c\"\n1 query 2 rows 1\n  2 s 1 \"c\"\n3 query 1 rows 0\n3 query 2 rows 0\nend 3\n";
    expect(&rt, rt.alloc(), &BOTH, &MERGED, wanted)
}

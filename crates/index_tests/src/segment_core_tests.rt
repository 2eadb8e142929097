//! The segment of a worked table, from arrays that were made by hand: its look-ups, its looks with their log and its
//! meter, and its columns' sets. Also marks, with pins that were made before and after them.
ghost use Rattle.std.specs.Prelude.{◌≡◌, ◌∷◌, [], codes, length, IfOk, OnOk};
ghost use Rattle.lake_model.specs.Tables.{column_name, keys_at, titles_of};
ghost use Rattle.segment_core.specs.Hashes.{IsByHash};
ghost use Rattle.index_tests.specs.Worked.{worked_owners, worked_postings, worked_table, worked_version};

use crate::making::{holds, name, only, sets, shows};
use column_set::{Keys, QuerySet, SharedTable, TableSets};
use no_memory::NoMemory;
use segment_build::index_pin;
use segment_core::{
    ColumnRefused, HashOrder, HashedQuery, HashedToken, Look, Looks, Marks, Numbers, Owner, Part,
    Pin, Posting, Segment, SegmentIndex, Version, order_by_hash,
};
use std::alloc::Global;
use std::sync::Arc;
use std::test::Fail;
use text_region::Region;

// Expects that the table is named t.
fn expect_name(table: &TableSets) -> Result<(), Fail>
    ensures { OnOk result (table.now.name ≡ codes "t") }
{
    if table.name().text() != "t" {
        return Err(Fail::from("another table"));
    }
    Ok(())
}

// Expects that the table has two columns.
fn expect_two(table: &TableSets) -> Result<(), Fail>
    ensures { OnOk result (length table.now.columns ≡ 2) }
{
    if table.columns() != 2 {
        return Err(Fail::from("other columns"));
    }
    Ok(())
}

// Expects that the first column is named p.
fn expect_p(table: &TableSets) -> Result<(), Fail>
    requires { length table.now.columns ≡ 2 }
    ensures { OnOk result (column_name (titles_of table.now) 1 ≡ codes "p") }
{
    if table.column_name(1) != "p" {
        return Err(Fail::from("another column"));
    }
    Ok(())
}

// Expects that the second column is named q.
fn expect_q(table: &TableSets) -> Result<(), Fail>
    requires { length table.now.columns ≡ 2 }
    ensures { OnOk result (column_name (titles_of table.now) 2 ≡ codes "q") }
{
    if table.column_name(2) != "q" {
        return Err(Fail::from("another column"));
    }
    Ok(())
}

// Expects that the first column has the keys z and a.
fn expect_first(table: &TableSets) -> Result<(), Fail>
    requires { length table.now.columns ≡ 2 }
    ensures { OnOk result (keys_at table.now 1 ≡ codes "z" ∷ codes "a" ∷ []) }
{
    if table.size(1) != 2 || table.key(1, 0) != "z" || table.key(1, 1) != "a" {
        return Err(Fail::from("other keys"));
    }
    Ok(())
}

// Expects that the second column has the key a.
fn expect_second(table: &TableSets) -> Result<(), Fail>
    requires { length table.now.columns ≡ 2 }
    ensures { OnOk result (keys_at table.now 2 ≡ codes "a" ∷ []) }
{
    if table.size(2) != 1 || table.key(2, 0) != "a" {
        return Err(Fail::from("other keys"));
    }
    Ok(())
}

// Returns the worked table, read from CSV text.
fn table(alloc: Global) -> Result<SharedTable, Fail>
    ensures { IfOk result (λ table. table ≡ worked_table) }
{
    let sets = sets(alloc, "t", "p,q\nz,a\na,\n")?;
    expect_name(&sets)?;
    expect_two(&sets)?;
    expect_p(&sets)?;
    expect_q(&sets)?;
    expect_first(&sets)?;
    expect_second(&sets)?;
    Ok(SharedTable::new(alloc, sets)?)
}

fn owners(alloc: Global) -> Result<Vec<Owner>, NoMemory>
    ensures { IfOk result (λ owners. owners.items ≡ worked_owners) }
{
    Ok(vec![in alloc; Owner { table: 0, place: 1 }, Owner { table: 0, place: 2 }]?)
}

// Returns the tokens of the worked table by the hashes of their keys.
fn by_hash(alloc: Global) -> Result<HashOrder, NoMemory>
    ensures { IfOk result (λ order. IsByHash (worked_table ∷ []) order) }
{
    let mut keys = Region::new(alloc, 0)?;
    let z = HashedToken::new(0, "z", &mut keys)?;
    let a = HashedToken::new(1, "a", &mut keys)?;
    order_by_hash(alloc, vec![in alloc; z, a]?, keys)
}

fn postings(alloc: Global) -> Result<Vec<Posting>, NoMemory>
    ensures { IfOk result (λ postings. postings.items ≡ worked_postings) }
{
    let held = [
        Posting { column: 0, rest: 1 },
        Posting { column: 0, rest: 0 },
        Posting { column: 1, rest: 0 },
    ];
    Ok(Vec::from_array(alloc, held)?)
}

// Returns the index of the worked table.
fn index(alloc: Global) -> Result<SegmentIndex, Fail>
    ensures { IfOk result (λ index. index ≡ worked_table ∷ []) }
{
    let tables = vec![in alloc; table(alloc)?]?;
    let owners = owners(alloc)?;
    let by_hash = by_hash(alloc)?;
    let list_starts = vec![in alloc; 0, 1, 3]?;
    let postings = postings(alloc)?;
    let set_starts = vec![in alloc; 0, 2, 3]?;
    let set_tokens = vec![in alloc; 0, 1, 1]?;
    let ranks = vec![in alloc; 0, 1]?;
    let by_rank = vec![in alloc; 0, 1]?;
    Ok(SegmentIndex::new(
        tables,
        owners,
        by_hash,
        list_starts,
        postings,
        set_starts,
        set_tokens,
        ranks,
        by_rank,
        true,
    ))
}

// Returns the segment of the worked table, without an index.
fn segment(alloc: Global) -> Result<Segment, Fail>
    ensures { IfOk result (λ segment. segment ≡ worked_table ∷ []) }
{
    Ok(Segment::new(only(alloc, table(alloc)?)?))
}

// Returns the version after the load of the worked table at position 7.
fn version(alloc: Global) -> Result<Arc<Version>, Fail>
    ensures { IfOk result (λ version. version.value ≡ worked_version) }
{
    let segment = segment(alloc)?;
    let _ = segment.keep_index(Box::new(alloc, index(alloc)?)?);
    let segment = Arc::new(alloc, segment)?;
    let positions = Numbers::new(vec![in alloc; 7]?);
    let marked = Marks::new(vec![in alloc; false]?);
    let part = Part::new(7, segment, positions, marked);
    let mut version = Arc::new(alloc, Version::empty(alloc)?)?;
    Version::add(&mut version, 7, part)?;
    Ok(version)
}

// Returns a pin of that version.
fn pin(alloc: Global) -> Result<Pin, Fail>
    ensures { IfOk result (λ pin. length pin.parts ≡ 1) }
{
    Ok(Pin::new(version(alloc)?))
}

// Returns whether a column of the first part has this size and this place in a live table that is named t.
fn has_column(looks: &Looks<'_>, set: u32, size: u32, place: u32) -> bool {
    if looks.parts() == 0 || set >= looks.sets(0) {
        return false;
    }
    if looks.size(0, set) != size || !looks.live(0, set) {
        return false;
    }
    let (titles, at) = looks.table_of(0, set);
    at == place && titles.table().text() == "t"
}

// Returns whether a key of the first part has this token, and so many columns hold it.
fn holds_key(looks: &Looks<'_>, key: &str, token: u32, many: u32) -> bool {
    if looks.parts() == 0 {
        return false;
    }
    match looks.lookup(0, key) {
        Some(found) => found == token && looks.list_len(0, found) == many,
        None => false,
    }
}

// Returns whether a query has these tokens of the first part.
fn asks(alloc: Global, looks: &Looks<'_>, body: &str, wanted: &[u32]) -> Result<bool, Fail> {
    if looks.parts() == 0 {
        return Ok(false);
    }
    let query = QuerySet::read(alloc, Keys::Canonical, body.as_bytes())?;
    let hashed = HashedQuery::new(alloc, &query, looks.parts())?;
    Ok(looks.query_tokens(alloc, 0, &hashed)?.as_slice() == wanted)
}

// Returns whether this is the posting list of a key in the first part.
fn has_list(looks: &mut Looks<'_>, key: &str, wanted: &[Posting]) -> bool {
    if looks.parts() == 0 || looks.log_spare() == 0 {
        return false;
    }
    match looks.lookup(0, key) {
        Some(token) => looks.list(0, token) == wanted,
        None => false,
    }
}

// Returns whether these are the tokens of a column of the first part after a position.
fn has_tail(looks: &mut Looks<'_>, set: u32, after: u32, wanted: &[u32]) -> bool {
    if looks.parts() == 0 || looks.log_spare() == 0 || set >= looks.sets(0) {
        return false;
    }
    after < looks.size(0, set) && looks.tail(0, set, after) == wanted
}

// A segment has no index before it is given one, and then keeps it: the second index that it is given makes no
// difference.
#[test]
fn indexes(rt: HostRuntime) -> Result<(), Fail> {
    let alloc = rt.alloc();
    let segment = segment(alloc)?;
    assert!(rt; segment.index().is_none() && segment.sets() == 2);
    assert!(rt; segment.begins_index() && !segment.begins_index());
    let first = segment.keep_index(Box::new(alloc, index(alloc)?)?);
    let second = segment.keep_index(Box::new(alloc, index(alloc)?)?);
    assert!(rt; first.is_kept() && second.is_kept());
    let index = segment.index().ok_or("no index")?;
    assert!(rt; index.sets() == 2 && index.lookup("a") == Some(1));
    Ok(())
}

// The number of the part, and its columns: their sizes, their table and their places. Their order comes with their
// titles, since no two columns have the same.
#[test]
fn columns(rt: HostRuntime) -> Result<(), Fail> {
    let pin = pin(rt.alloc())?;
    let indexed = index_pin(rt.alloc(), &pin)?;
    let looks = indexed.looks(rt.alloc());
    assert!(rt; looks.parts() == 1 && looks.number(0) == 7 && looks.sets(0) == 2);
    assert!(rt; has_column(&looks, 0, 2, 1));
    assert!(rt; has_column(&looks, 1, 1, 2));
    let (order, titles) = looks.order(0);
    assert!(rt; order.ranks == [0, 1].as_slice() && order.by_rank == [0, 1].as_slice());
    assert!(rt; titles.is_some());
    Ok(())
}

// The tokens of keys, and how many columns hold each.
#[test]
fn keys(rt: HostRuntime) -> Result<(), Fail> {
    let pin = pin(rt.alloc())?;
    let indexed = index_pin(rt.alloc(), &pin)?;
    let looks = indexed.looks(rt.alloc());
    assert!(rt; holds_key(&looks, "z", 0, 1));
    assert!(rt; holds_key(&looks, "a", 1, 2));
    assert!(rt; looks.lookup(0, "b").is_none());
    Ok(())
}

// The tokens of queries. The keys of a query of one key, and of one of two keys in another order, are looked up in the
// part; with a query of three keys, the part's two tokens are looked up in the query.
#[test]
fn queries(rt: HostRuntime) -> Result<(), Fail> {
    let pin = pin(rt.alloc())?;
    let indexed = index_pin(rt.alloc(), &pin)?;
    let looks = indexed.looks(rt.alloc());
    assert!(rt; asks(rt.alloc(), &looks, "a\n", &[1])?);
    assert!(rt; asks(rt.alloc(), &looks, "a\nz\n", &[0, 1])?);
    assert!(rt; asks(rt.alloc(), &looks, "b\na\nz\n", &[0, 1])?);
    Ok(())
}

// The postings of a.
const HELD: [Posting; 2] = [
    Posting { column: 0, rest: 0 },
    Posting { column: 1, rest: 0 },
];

// A read of that list, and a probe of the first column after its first token.
const LOOKS: [Look; 2] = [
    Look::Read { part: 7, token: 1 },
    Look::Probe {
        part: 7,
        set: 0,
        after: 0,
    },
];

// Returns whether a read and a probe return what they should, are logged, and are counted. The log's room falls by one
// for each look.
fn reads_and_probes(looks: &mut Looks<'_>) -> Result<bool, NoMemory> {
    if looks.log_spare() != 0 {
        return Ok(false);
    }
    looks.reserve_log(2)?;
    if !has_list(looks, "a", &HELD) || !has_tail(looks, 0, 0, &[1]) {
        return Ok(false);
    }
    Ok(
        looks.log() == LOOKS.as_slice()
            && looks.reads() == 1
            && looks.probes() == 1
            && looks.log_spare() == 0,
    )
}

// A read and a probe, and the meter that they raise.
#[test]
fn logged(rt: HostRuntime) -> Result<(), Fail> {
    let pin = pin(rt.alloc())?;
    let indexed = index_pin(rt.alloc(), &pin)?;
    let mut looks = indexed.looks(rt.alloc());
    assert!(rt; reads_and_probes(&mut looks)?);
    drop(looks);
    assert_eq!(rt; pin.meter(0), 2);
    Ok(())
}

// Returns where the load at a position is in the worked version.
fn found(version: &Version, position: u64) -> Option<(u32, u32)>
    requires { version.now ≡ worked_version }
{
    version.find(position)
}

// The load at position 7 is found, and none before or after it.
#[test]
fn positions(rt: HostRuntime) -> Result<(), Fail> {
    let version = version(rt.alloc())?;
    assert!(rt; matches!(found(&version, 7), Some((0, 0))));
    assert!(rt; found(&version, 6).is_none());
    assert!(rt; found(&version, 8).is_none());
    Ok(())
}

// Returns whether a pin is at this position, and shows so many tables, each of them the worked one, and a layout of one
// part, in which the table is marked or not.
fn pins(alloc: Global, pin: &Pin, at: u64, tables: usize, marked: bool) -> Result<bool, NoMemory> {
    let lines = pin.tables(alloc)?;
    for (name, columns, members) in lines.list() {
        if name.text() != "t" || *columns != 2 || *members != 3 {
            return Ok(false);
        }
    }
    Ok(holds(alloc, pin, at, tables)? && shows(&pin.layout()?, at, &[(7, 7, marked)]))
}

// Returns a pin of the worked version, and one after the mark of its table.
fn pinned_twice(alloc: Global) -> Result<(Pin, Pin), Fail> {
    let mut version = version(alloc)?;
    let before = Pin::new(Arc::try_clone(&version)?);
    Version::mark(&mut version, 8, 0, 0)?;
    Ok((before, Pin::new(version)))
}

// The layout and the lines of live tables that pins show. A later mark does not affect a pin.
#[test]
fn pinned(rt: HostRuntime) -> Result<(), Fail> {
    let (before, after) = pinned_twice(rt.alloc())?;
    assert!(rt; pins(rt.alloc(), &before, 7, 1, false)?);
    assert!(rt; pins(rt.alloc(), &after, 8, 0, true)?);
    Ok(())
}

// Returns whether a pin gives exactly these keys as the set of a column.
fn has_keys(
    alloc: Global,
    pin: &Pin,
    table: &str,
    place: u32,
    keys: &[&str],
) -> Result<bool, Fail> {
    let Ok(query) = pin.column(alloc, &name(table)?, place) else {
        return Ok(false);
    };
    for key in keys {
        if !query.has(key) {
            return Ok(false);
        }
    }
    Ok(query.len() as usize == keys.len())
}

// Returns whether a pin gives no set of a column, for this reason.
fn refuses(
    alloc: Global,
    pin: &Pin,
    table: &str,
    place: u32,
    why: ColumnRefused,
) -> Result<bool, Fail> {
    match pin.column(alloc, &name(table)?, place) {
        Ok(_) => Ok(false),
        Err(refused) => Ok(refused == why),
    }
}

// The sets of columns, by their place from 1. The meter counts each set that is given, and none that is refused.
#[test]
fn column_sets(rt: HostRuntime) -> Result<(), Fail> {
    let pin = pin(rt.alloc())?;
    assert!(rt; has_keys(rt.alloc(), &pin, "t", 1, &["z", "a"])?);
    assert!(rt; has_keys(rt.alloc(), &pin, "t", 2, &["a"])?);
    assert_eq!(rt; pin.meter(0), 2);
    assert!(rt; refuses(rt.alloc(), &pin, "t", 0, ColumnRefused::UnknownColumn)?);
    assert!(rt; refuses(rt.alloc(), &pin, "t", 3, ColumnRefused::UnknownColumn)?);
    assert!(rt; refuses(rt.alloc(), &pin, "T", 1, ColumnRefused::UnknownTable)?);
    assert_eq!(rt; pin.meter(0), 2);
    Ok(())
}

// A marked table has no column, except in a pin that was made before.
#[test]
fn marked_column(rt: HostRuntime) -> Result<(), Fail> {
    let (before, after) = pinned_twice(rt.alloc())?;
    assert!(rt; has_keys(rt.alloc(), &before, "t", 2, &["a"])?);
    assert!(rt; refuses(rt.alloc(), &after, "t", 2, ColumnRefused::UnknownTable)?);
    Ok(())
}

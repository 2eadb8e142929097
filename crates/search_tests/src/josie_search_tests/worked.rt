//! Worked runs: small lakes whose looks and rows follow from the rules by hand. All columns are named c; if a test
//! needs fewer than four tables, the others have no keys.

use super::lakes::version;
use crate::answers::{expect_looks, expect_rows, probe, read};
use column_set::{Keys, QuerySet};
use cost_model::{AlwaysProbe, AlwaysRead, Chooser, Listed, Profile};
use josie_search::{SearchRoom, prepare};
use segment_build::index_pin;
use segment_core::{Look, Pin};
use std::alloc::Global;
use std::process::Abort;
use std::test::Fail;

// Searches for one row, and expects its overlap and its table, and these looks.
fn expect<C: Chooser>(
    rt: &(impl Abort + AllocGlobal),
    pin: &Pin,
    body: &str,
    chooser: &C,
    row: (u32, &str),
    looks: &[Look],
) -> Result<(), Fail> {
    let alloc = rt.alloc();
    let asked = QuerySet::read(alloc, Keys::Canonical, body.as_bytes())?;
    let indexed = index_pin(alloc, pin)?;
    let prepared = prepare(
        alloc,
        indexed.looks(alloc),
        &asked,
        1,
        None,
        SearchRoom::new(),
    )?;
    let (answer, _room) = prepared.run(chooser);
    expect_rows(rt, &answer.rows, &[row]);
    expect_looks(rt, &answer.looks, looks);
    Ok(())
}

// Returns a pin of a lake of these two tables, each in a part of its own.
fn apart<'x>(
    alloc: Global,
    first: (&'x str, &'x str),
    second: (&'x str, &'x str),
) -> Result<Pin, Fail> {
    let tables = [first, ("none", "c\n"), second, ("other", "c\n")];
    Ok(Pin::new(version(alloc, &tables, [false; 4], 2)?))
}

// Returns a pin of a lake of three tables in one part.
fn merged<'x>(
    alloc: Global,
    first: (&'x str, &'x str),
    second: (&'x str, &'x str),
    third: (&'x str, &'x str),
) -> Result<Pin, Fail> {
    let tables = [first, second, third, ("none", "c\n")];
    Ok(Pin::new(version(alloc, &tables, [false; 4], 1)?))
}

// The table with a and b is known after two lists of its part. One list is left in the second part, and a row of
// overlap 1 does not beat one of overlap 2.
#[test]
fn part_with_too_few_lists(rt: HostRuntime) -> Result<(), Fail> {
    let pin = apart(rt.alloc(), ("a", "c\na\nb\n"), ("z", "c\nc\n"))?;
    let looks = [read(5, 0), read(5, 1)];
    expect(&rt, &pin, "a\nb\nc\n", &AlwaysRead, (2, "a"), &looks)
}

// The second part has as many lists left as the threshold, and its table has the earlier name.
#[test]
fn part_with_as_many_lists(rt: HostRuntime) -> Result<(), Fail> {
    let pin = apart(rt.alloc(), ("b", "c\na\n"), ("a", "c\nc\n"))?;
    let looks = [read(5, 0), read(6, 0)];
    expect(&rt, &pin, "a\nc\n", &AlwaysRead, (1, "a"), &looks)
}

// The list of a gives the first column at position 0 of 4, so its bound is 4. A probe costs 67 and the next list 68, so
// it is probed, which closes all columns. A search that never probes reads all four lists.
#[test]
fn one_probe_closes_all(rt: HostRuntime) -> Result<(), Fail> {
    let alloc = rt.alloc();
    let pin = merged(
        alloc,
        ("t1", "c\na\nb\nc\nd\n"),
        ("t2", "c\nd\n"),
        ("t3", "c\nc\nd\n"),
    )?;
    let body = "a\nb\nc\nd\n";
    let first = [read(5, 0), probe(5, 0, 0)];
    expect(&rt, &pin, body, &Profile, (4, "t1"), &first)?;
    expect(&rt, &pin, body, &AlwaysProbe, (4, "t1"), &first)?;
    let never = Listed::new(alloc, &[false])?;
    let lists = [read(5, 0), read(5, 1), read(5, 2), read(5, 3)];
    expect(&rt, &pin, body, &never, (4, "t1"), &lists)
}

// A column with an equal bound and an earlier name stays open.
#[test]
fn equal_bound_of_an_earlier_name(rt: HostRuntime) -> Result<(), Fail> {
    let pin = merged(
        rt.alloc(),
        ("zz", "c\na\nb\n"),
        ("aa", "c\nc\nd\n"),
        ("zzz", "c\n"),
    )?;
    let looks = [
        read(5, 0),
        probe(5, 0, 0),
        read(5, 1),
        read(5, 2),
        probe(5, 1, 0),
    ];
    expect(&rt, &pin, "a\nb\nc\nd\n", &Profile, (2, "aa"), &looks)
}

// Twelve keys with the same low 32 bits of SipHash-1-3: the table has the first ten of them, and the query has the last ten.
const TABLE_OF_ONE_HASH: &str =
    "c\naeqczybv\naevnofxs\naifkpdts\nausabszu\naziyueox\nbeefhshu\nbesjofta\nboarnmzt\nbqzkntid\nbrwzogjb\n";

const QUERY_OF_ONE_HASH: &str =
    "aifkpdts\nausabszu\naziyueox\nbeefhshu\nbesjofta\nboarnmzt\nbqzkntid\nbrwzogjb\nbtxpaalh\nbxcuksct\n";

// No key of the query is the first of its hash among the part's tokens, so the query is asked for each token's key.
// Eight keys are in both: the tokens from the third on, since all lists have one posting.
#[test]
fn keys_of_one_hash(rt: HostRuntime) -> Result<(), Fail> {
    let pin = merged(
        rt.alloc(),
        ("t1", TABLE_OF_ONE_HASH),
        ("t2", "c\n"),
        ("t3", "c\n"),
    )?;
    let looks = [
        read(5, 2),
        read(5, 3),
        read(5, 4),
        read(5, 5),
        read(5, 6),
        read(5, 7),
        read(5, 8),
        read(5, 9),
    ];
    expect(&rt, &pin, QUERY_OF_ONE_HASH, &AlwaysRead, (8, "t1"), &looks)
}

//! Tests the journal after the calls of one caller. No clause says that there is enough memory, nor that a caller ever
//! gets its turn.
ghost use Rattle.std.specs.Prelude.{◌≡◌, ◌<◌, ◌^◌, ◌∷◌, [], length, sum_by, IfOk};
ghost use Rattle.lake_model.specs.Tables.{members};

use crate::making::table;
use catalogue::{Entry, Limits, ReplaceRefused, What};
use column_set::{SharedTable, TableSets};
use lake::{Bounds, Lake};
use segment_build::build;
use segment_core::Segment;
use std::alloc::Global;
use std::sync::Arc;
use std::test::Fail;

struct Standard;

impl Bounds for Standard {
    ghost use Rattle.lake_model.specs.declared.Keys.TheVariants.{Canonical};
    ghost use Rattle.lake_model.specs.Journal.{standard_limits};

    ghost limits = { standard_limits };

    ghost keys = { Canonical };
}

// Returns the table, which has few columns and members, as the only one of a list.
fn only(alloc: Global, table: SharedTable) -> Result<Vec<SharedTable>, Fail>
    ensures items { IfOk result (λ tables. tables.items ≡ table ∷ []) }
    ensures columns { IfOk result (λ tables. sum_by (λ t. length t.columns) tables.items < 2 ^ 32) }
    ensures members { IfOk result (λ tables. sum_by members tables.items < 2 ^ 32) }
{
    if table.table().members() > 9 || table.table().columns() > 9 {
        return Err(Fail::from("a large table"));
    }
    Ok(vec![in alloc; table]?)
}

// Returns the segment of a table.
fn segment(alloc: Global, table: &SharedTable) -> Result<Arc<Segment>, Fail>
    ensures { IfOk result (λ segment. segment.value ≡ table.now ∷ []) }
{
    let segment = build(alloc, only(alloc, table.share()?)?)?;
    Ok(Arc::new(alloc, segment)?)
}

// Returns whether an entry that the one caller made at this command loads or replaces a table of this name, whose first
// key is this one.
fn brings(entry: &Entry, command: u64, word: &str, title: &str, key: &str) -> bool {
    let (said, table) = match &entry.what {
        What::Loaded(table) => ("load", table),
        What::Replaced(table) => ("replace", table),
        _ => return false,
    };
    said == word
        && entry.who.caller == 0
        && entry.who.command == command
        && has_key(table.table(), title, key)
}

// Returns whether a table has this name and this first key.
fn has_key(table: &TableSets, title: &str, key: &str) -> bool {
    if table.columns() == 0 || table.size(1) == 0 {
        return false;
    }
    table.name().text() == title && table.key(1, 0) == key
}

// A load and a replace add their entries, in order, with who made each; a replace that is refused adds none.
#[test]
fn a_replace_is_in_the_journal(rt: HostRuntime) -> Result<(), Fail> {
    let alloc = rt.alloc();
    let (lake, mut pass) = Lake::<Standard>::new(alloc, Limits::standard(), 1)?;
    let a = table(alloc, "t", "c\na\n")?;
    let of_a = segment(alloc, &a)?;
    assert!(rt; lake.load(&rt, &mut pass, 7, a, of_a) == Ok(1));
    let b = table(alloc, "t", "c\nb\n")?;
    let of_b = segment(alloc, &b)?;
    assert!(rt; lake.replace(&rt, &mut pass, 8, b, of_b) == Ok(2));
    let z = table(alloc, "z", "c\nb\n")?;
    let of_z = segment(alloc, &z)?;
    let unknown = Err(ReplaceRefused::Unknown { at: 2 });
    assert!(rt; lake.replace(&rt, &mut pass, 9, z, of_z) == unknown);
    let entries = lake.journal(&rt, alloc, &mut pass, 0)?;
    let [loaded, replaced] = entries.as_slice() else {
        return Err(Fail::from("another journal"));
    };
    assert!(rt; brings(loaded, 7, "load", "t", "a"));
    assert!(rt; brings(replaced, 8, "replace", "t", "b"));
    Ok(())
}

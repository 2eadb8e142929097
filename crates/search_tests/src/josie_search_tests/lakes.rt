//! Lakes of four tables in one, two or three parts.
ghost use Rattle.std.specs.Prelude.{◌≡◌, ◌≢◌, ◌∷◌, [], length, IfOk};
ghost use Rattle.std.specs.Bool.{OnTrue};
ghost use Rattle.segment_core.specs.Versions.{part_with, places_with};

use crate::making::{segment_of, table};
use column_set::SharedTable;
use segment_core::{Marks, Numbers, Part, Version};
use std::alloc::Global;
use std::sync::Arc;
use std::test::Fail;

// Four tables, and which of them are marked.
#[derive(Drop)]
struct Tables {
    first: SharedTable,
    second: SharedTable,
    third: SharedTable,
    fourth: SharedTable,
    marked: [bool; 4],
}

/// Returns the version of four tables, given by their names and their CSV bytes, of which some are marked: in one part,
/// numbered 5; in two of two tables each, 5 and 6; or in three, 5, 6 and 7, of which the second has two tables.
pub(crate) fn version(
    alloc: Global,
    tables: &[(&str, &str); 4],
    marked: [bool; 4],
    parts: usize,
) -> Result<Arc<Version>, Fail> {
    let tables = Tables::read(alloc, tables, marked)?;
    match parts {
        1 => tables.one_part(alloc),
        2 => tables.two_parts(alloc),
        _ => tables.three_parts(alloc),
    }
}

// Returns whether the names of two tables differ.
fn differ(first: &SharedTable, second: &SharedTable) -> bool
    ensures { OnTrue result (first.now.name ≢ second.now.name) }
{
    first.table().name().text() != second.table().name().text()
}

// Returns a part of these tables, which were loaded at these positions.
fn part(
    alloc: Global,
    number: u64,
    tables: Vec<SharedTable>,
    positions: Vec<u64>,
    marked: Vec<bool>,
) -> Result<Part, Fail>
    requires positions { length positions.items ≡ length tables.items }
    requires marks { length marked.items ≡ length tables.items }
    ensures { IfOk result (λ part. part ≡ part_with number (places_with positions.items tables.items marked.items)) }
{
    let segment = segment_of(alloc, tables)?;
    let positions = Numbers::new(positions);
    let marked = Marks::new(marked);
    Ok(Part::new(number, segment, positions, marked))
}

// Returns a part of one table.
fn single(
    alloc: Global,
    number: u64,
    position: u64,
    table: &SharedTable,
    marked: bool,
) -> Result<Part, Fail>
    ensures { IfOk result (λ part. part ≡ part_with number (places_with (position ∷ []) (table.now ∷ []) (marked ∷ []))) }
{
    let own = table.share()?;
    let tables = vec![in alloc; own]?;
    let positions = vec![in alloc; position]?;
    let marked = vec![in alloc; marked]?;
    part(alloc, number, tables, positions, marked)
}

// Returns a part of two tables.
fn pair(
    alloc: Global,
    number: u64,
    positions: (u64, u64),
    first: &SharedTable,
    second: &SharedTable,
    marked: (bool, bool),
) -> Result<Part, Fail>
    ensures { IfOk result (λ part. part ≡ part_with number (places_with (positions.0 ∷ positions.1 ∷ []) (first.now ∷ second.now ∷ []) (marked.0 ∷ marked.1 ∷ []))) }
{
    let tables = vec![in alloc; first.share()?, second.share()?]?;
    let positions = vec![in alloc; positions.0, positions.1]?;
    let marked = vec![in alloc; marked.0, marked.1]?;
    part(alloc, number, tables, positions, marked)
}

// Returns a part of the four tables.
fn four(alloc: Global, tables: &Tables, marked: (bool, bool, bool, bool)) -> Result<Part, Fail>
    ensures { IfOk result (λ part. part ≡ part_with 5 (places_with (1 ∷ 2 ∷ 3 ∷ 4 ∷ []) (tables.now.first ∷ tables.now.second ∷ tables.now.third ∷ tables.now.fourth ∷ []) (marked.0 ∷ marked.1 ∷ marked.2 ∷ marked.3 ∷ []))) }
{
    let first = tables.first.share()?;
    let second = tables.second.share()?;
    let third = tables.third.share()?;
    let fourth = tables.fourth.share()?;
    let tables = vec![in alloc; first, second, third, fourth]?;
    let positions = vec![in alloc; 1, 2, 3, 4]?;
    let marked = vec![in alloc; marked.0, marked.1, marked.2, marked.3]?;
    part(alloc, 5, tables, positions, marked)
}

impl Tables {
    fn read(alloc: Global, tables: &[(&str, &str); 4], marked: [bool; 4]) -> Result<Tables, Fail> {
        Ok(Tables {
            first: table(alloc, tables[0].0, tables[0].1)?,
            second: table(alloc, tables[1].0, tables[1].1)?,
            third: table(alloc, tables[2].0, tables[2].1)?,
            fourth: table(alloc, tables[3].0, tables[3].1)?,
            marked,
        })
    }

    // Returns whether all names are different.
    fn differ(&self) -> bool
        ensures first_second { OnTrue result (self.now.first.name ≢ self.now.second.name) }
        ensures first_third { OnTrue result (self.now.first.name ≢ self.now.third.name) }
        ensures first_fourth { OnTrue result (self.now.first.name ≢ self.now.fourth.name) }
        ensures second_third { OnTrue result (self.now.second.name ≢ self.now.third.name) }
        ensures second_fourth { OnTrue result (self.now.second.name ≢ self.now.fourth.name) }
        ensures third_fourth { OnTrue result (self.now.third.name ≢ self.now.fourth.name) }
    {
        differ(&self.first, &self.second)
            && differ(&self.first, &self.third)
            && differ(&self.first, &self.fourth)
            && differ(&self.second, &self.third)
            && differ(&self.second, &self.fourth)
            && differ(&self.third, &self.fourth)
    }

    // Returns the version with the tables in one part.
    fn one_part(&self, alloc: Global) -> Result<Arc<Version>, Fail> {
        if !self.differ() {
            return Err(Fail::from("two tables of one name"));
        }
        let marked = self.marked;
        let all = four(alloc, self, (marked[0], marked[1], marked[2], marked[3]))?;
        Ok(Arc::new(alloc, Version::new(alloc, 5, vec![in alloc; all]?)?)?)
    }

    // Returns the version with two parts of two tables each.
    fn two_parts(&self, alloc: Global) -> Result<Arc<Version>, Fail> {
        if !self.differ() {
            return Err(Fail::from("two tables of one name"));
        }
        let marked = self.marked;
        let front = pair(
            alloc,
            5,
            (1, 2),
            &self.first,
            &self.second,
            (marked[0], marked[1]),
        )?;
        let back = pair(
            alloc,
            6,
            (3, 4),
            &self.third,
            &self.fourth,
            (marked[2], marked[3]),
        )?;
        Ok(Arc::new(alloc, Version::new(alloc, 6, vec![in alloc; front, back]?)?)?)
    }

    // Returns the version with three parts, of which the second has two tables.
    fn three_parts(&self, alloc: Global) -> Result<Arc<Version>, Fail> {
        if !self.differ() {
            return Err(Fail::from("two tables of one name"));
        }
        let marked = self.marked;
        let front = single(alloc, 5, 1, &self.first, marked[0])?;
        let middle = pair(
            alloc,
            6,
            (2, 3),
            &self.second,
            &self.third,
            (marked[1], marked[2]),
        )?;
        let back = single(alloc, 7, 4, &self.fourth, marked[3])?;
        Ok(Arc::new(
            alloc,
            Version::new(alloc, 7, vec![in alloc; front, middle, back]?)?,
        )?)
    }
}

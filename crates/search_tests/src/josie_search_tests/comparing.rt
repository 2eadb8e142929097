//! Compares searches with the plain model: for each chooser the log equals that of the model, and the rows equal those of
//! a search that only reads.
use super::model::{Counted, Part, is_counted, search};
use column_set::{Name, QuerySet, Row};
use cost_model::{AlwaysProbe, AlwaysRead, Chooser, Listed, Profile};
use josie_search::{SearchRoom, prepare};
use segment_build::index_pin;
use segment_core::Pin;
use std::alloc::Global;
use std::mem;
use std::test::Fail;

// The answers of eight choosers.
const LISTS: [&[bool]; 8] = [
    &[false],
    &[true, false],
    &[false, true],
    &[true, false, false],
    &[true, false, false, true, true],
    &[false, true, false, false, true],
    &[true, true, true, false, false],
    &[false, false, false, false, true],
];

fn are_counted(rows: &[Row<'_>], counted: &[Counted]) -> bool {
    for (row, counted) in rows.iter().zip(counted) {
        if !is_counted(row, *counted) {
            return false;
        }
    }
    rows.len() == counted.len()
}

/// A search of a lake: the pin and the plain parts, the query and its letters, how many rows are asked for, the excepted
/// name, and the rows that every chooser gives.
#[derive(Clone, Copy)]
pub(crate) struct Laid<'l> {
    pub pin: &'l Pin,
    pub parts: &'l [Part],
    pub query: &'l QuerySet,
    pub letters: &'l str,
    pub k: u32,
    pub except: Option<&'l Name>,
    pub rows: &'l [Counted],
}

impl Laid<'_> {
    // Searches in `room`. Compares the log with that of the plain model for this chooser, and the rows with `rows`.
    fn compare<C: Chooser>(
        &self,
        alloc: Global,
        room: &mut SearchRoom,
        chooser: &C,
    ) -> Result<(), Fail> {
        let k = self.k;
        if k == 0 || k > 10_000 {
            return Err(Fail::from("no such number of rows"));
        }
        let indexed = index_pin(alloc, self.pin)?;
        let looks = indexed.looks(alloc);
        let taken = mem::replace(room, SearchRoom::new());
        let (answer, used) = prepare(alloc, looks, self.query, k, self.except, taken)?.run(chooser);
        *room = used;
        let (_known, log) = search(alloc, self.parts, self.letters, k as usize, chooser)?;
        if answer.looks.log() != log.as_slice() {
            return Err(Fail::from("other looks"));
        }
        if !are_counted(answer.rows.list(), self.rows) {
            return Err(Fail::from("other rows"));
        }
        Ok(())
    }

    // Does the same with the choosers that follow a list of answers.
    fn compare_listed(&self, alloc: Global, room: &mut SearchRoom) -> Result<(), Fail> {
        for answers in LISTS {
            if answers.is_empty() {
                return Err(Fail::from("no answers"));
            }
            self.compare(alloc, room, &Listed::new(alloc, answers)?)?;
        }
        Ok(())
    }

    /// Does the same with all choosers, one after the other in the same room.
    pub(crate) fn compare_all(&self, alloc: Global, room: &mut SearchRoom) -> Result<(), Fail> {
        self.compare(alloc, room, &Profile)?;
        self.compare(alloc, room, &AlwaysRead)?;
        self.compare(alloc, room, &AlwaysProbe)?;
        self.compare_listed(alloc, room)
    }
}

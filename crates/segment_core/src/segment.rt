//! The tables of a part, with their index once it is built.
ghost use Rattle.std.specs.Prelude.{◌≡◌, ◌⊎◌, ◌<◌, ◌^◌, length, sum_by, IfErr, IfOk, IfSome, None, OnOk, Some};
ghost use Rattle.lake_model.specs.Tables.{members};
ghost use Rattle.search_model.specs.Arrays.{table_at};
ghost use Rattle.search_model.specs.Segment.{segment};
ghost use Rattle.segment_core.specs.Codes.{code_tables};
ghost use Rattle.segment_core.specs.LiveColumn.{fault_in, keys_in};

use crate::column::ColumnRefused;
use crate::index::SegmentIndex;
use crate::indexed::PartIndex;
use boxcar::slot::{OnceSlot, SlotRule};
use boxcar::tag::{Names, Tag};
use column_set::{QuerySet, SharedTable};
use std::alloc::Global;
use std::boxed::Box;
use std::marker::Model;
use std::sync::atomic::{AtomicU64, Ordering};

/// The rule of the slot for the index of a segment: the index is that of the tables whose numbers are the slot's tag.
/// The tag is seen by contracts alone.
struct OfTables;

impl SlotRule<Box<SegmentIndex>> for OfTables {
    ghost use Rattle.std.specs.Prelude.{◌≡◌};
    ghost use Rattle.segment_core.specs.Codes.{code_tables};

    ghost holds = { λ tag index. code_tables index.value ≡ tag };
}

impl Names<Vec<SharedTable>> for OfTables {
    ghost use Rattle.segment_core.specs.Codes.{code_tables};

    ghost numbers = { λ tables. code_tables tables.items };
}

/// The tables of a part, and their index ([`SegmentIndex`]), which is built when it is first needed and then kept. Its
/// model is the list of the tables.
///
/// A segment never changes except that it gets its index, and for two counters: the meter, which counts how often one
/// of its lists was read, and the number of those who began to build its index.
#[derive(Drop)]
pub struct Segment {
    tables: Vec<SharedTable>,
    /// The number of columns of the tables.
    columns: u32,
    index: OnceSlot<Box<SegmentIndex>, OfTables>,
    begun: AtomicU64,
    meter: AtomicU64,
}

impl Model for Segment {
    ghost use Rattle.std.specs.Prelude.{◌≡◌, ◌<◌, ◌^◌, List, length, sum_by};
    ghost use Rattle.lake_model.specs.Tables.{Table, members};
    ghost use Rattle.segment_core.specs.Codes.{code_tables};

    ghost Value = { List Table };

    ghost view = { λ s. s.tables.items };

    ghost invariant = { λ s. (s.columns ≡ sum_by (λ t. length t.columns) s.tables.items) × (sum_by (λ t. length t.columns) s.tables.items < 2 ^ 32) × (sum_by members s.tables.items < 2 ^ 32) × (s.index.tag ≡ code_tables s.tables.items) };
}

impl Segment {
    /// Makes the segment of these tables, without an index. It allocates nothing.
    pub fn new(tables: Vec<SharedTable>) -> Segment
        requires columns { sum_by (λ t. length t.columns) tables.items < 2 ^ 32 }
        requires members { sum_by members tables.items < 2 ^ 32 }
        ensures { result ≡ tables.items }
    {
        let columns = column_count(&tables);
        let tag = Tag::of::<Vec<SharedTable>, OfTables>(&tables);
        Segment {
            tables,
            columns,
            index: OnceSlot::new(&tag),
            begun: AtomicU64::new(0),
            meter: AtomicU64::new(0),
        }
    }

    /// Returns the tables, in order.
    pub fn tables(&self) -> &[SharedTable]
        ensures { result.now ≡ self.now }
    {
        &self.tables
    }

    /// States that the tables are few and small enough for an index: it numbers their columns and their members by 32
    /// bits.
    pub fn is_small(&self)
        ensures columns { sum_by (λ t. length t.columns) self.now < 2 ^ 32 }
        ensures members { sum_by members self.now < 2 ^ 32 }
    {
        // Reading a field makes the invariant known.
        let _columns = self.columns;
    }

    /// Returns the number of columns.
    pub fn sets(&self) -> u32
        ensures { result ≡ length (segment self.now).sets }
    {
        self.columns
    }

    /// Returns the index of the tables, if it has been built.
    pub fn index(&self) -> Option<&SegmentIndex>
        ensures { IfSome result (λ index. index.now ≡ self.now) }
    {
        let index = self.index.get()?;
        Some(index)
    }

    /// Gives the segment the index of its tables, and returns it. If the segment has one already, that one is returned,
    /// and if another thread is giving it one at the same moment, the index given here.
    pub fn keep_index(&self, index: Box<SegmentIndex>) -> PartIndex<'_>
        requires { index.value ≡ self.now }
        ensures { result ≡ self.now }
    {
        match self.index.set(index) {
            Ok(kept) => PartIndex::kept(kept),
            Err(index) => match self.index() {
                Some(kept) => PartIndex::kept(kept),
                None => PartIndex::own(index),
            },
        }
    }

    /// Returns whether this is the first call of its kind, so that of several callers who all need the index, one
    /// builds it. No contract says so: it may be built twice.
    pub fn begins_index(&self) -> bool {
        self.begun.fetch_add(1, Ordering::SeqCst) == 0
    }

    /// Returns the keys of the column at a place, counted from 1, of the table at an index, from 0. On success it
    /// raises the meter.
    pub(crate) fn column(
        &self,
        alloc: Global,
        table: usize,
        place: u32,
    ) -> Result<QuerySet, ColumnRefused>
        requires { table < length self.now }
        ensures keys { IfOk result (λ query. query ≡ keys_in place (Some (table_at self.now table))) }
        ensures sound { OnOk result (fault_in place (Some (table_at self.now table)) ≡ None) }
        ensures refused { IfErr result (λ e. (e ≡ ColumnRefused.NoMemory) ⊎ (fault_in place (Some (table_at self.now table)) ≡ Some e)) }
    {
        let table = self.tables[table].table();
        if place == 0 || place > table.columns() {
            return Err(ColumnRefused::UnknownColumn);
        }
        let query = QuerySet::of_column(alloc, table, place)?;
        self.meter.fetch_add(1, Ordering::SeqCst);
        Ok(query)
    }

    /// Raises the meter by a number of reads.
    pub(crate) fn raise_meter(&self, reads: u64) {
        self.meter.fetch_add(reads, Ordering::SeqCst);
    }

    /// Returns how often a list or a set of the segment has been read. No contract mentions it.
    pub(crate) fn meter(&self) -> u64 {
        self.meter.load(Ordering::SeqCst)
    }
}

// Returns the number of columns of all tables together.
fn column_count(tables: &[SharedTable]) -> u32
    requires { sum_by (λ t. length t.columns) tables.now < 2 ^ 32 }
    ensures { result ≡ sum_by (λ t. length t.columns) tables.now }
{
    tables.iter().map(|table| table.table().columns()).sum()
}

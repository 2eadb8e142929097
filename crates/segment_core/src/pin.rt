//! Pins, which hold a version while it is searched.
ghost use Rattle.std.specs.Prelude.{◌≡◌, ◌⊎◌, ◌<◌, ◌≤◌, ◌+◌, length, map, slice_range, IfErr, IfOk, None, OnOk, Some};
ghost use Rattle.lake_model.specs.Layout.{shown, shown_with};
ghost use Rattle.segment_core.specs.Lines.{line_from, live_lines};
ghost use Rattle.segment_core.specs.LiveColumn.{column_fault, column_keys};
ghost use Rattle.segment_core.specs.Plans.{plan_run};

use crate::column::{ColumnRefused, live_column};
use crate::layout::{Layout, TableLines};
use crate::plan::{Plan, plan_parts};
use crate::segment::Segment;
use crate::version::{Part, Version};
use column_set::{Name, QuerySet};
use no_memory::NoMemory;
use std::alloc::Global;
use std::marker::Model;
use std::sync::Arc;

/// A version that is held: later changes to the lake do not affect it, except that its segments get their indexes. Its
/// model is the version. Parts are found by their index in the order of the layout, from 0.
#[derive(Drop)]
pub struct Pin {
    version: Arc<Version>,
}

impl Model for Pin {
    ghost use Rattle.segment_core.specs.Versions.{VersionOf};

    ghost Value = { VersionOf };

    ghost view = { λ p. p.version.value };
}

impl Pin {
    ghost use Rattle.segment_core.specs.Versions.{marks_of, part_at, segment_at, tables_of};

    /// Makes a pin of this version. It allocates nothing.
    pub fn new(version: Arc<Version>) -> Pin
        ensures { result ≡ version.value }
    {
        Pin { version }
    }

    /// Returns the position of the version: the number of entries of the journal there.
    pub fn at(&self) -> u64
        ensures { result ≡ self.now.at }
    {
        self.version.at()
    }

    /// Returns the number of parts.
    pub fn parts(&self) -> u32
        ensures { result ≡ length self.now.parts }
    {
        self.version.parts().len() as u32
    }

    /// Returns the number of a part.
    pub fn number(&self, part: u32) -> u64
        requires { part < length self.now.parts }
        ensures { result ≡ (part_at self.now.parts part).number }
    {
        self.version.part(part).number
    }

    /// Returns how many columns a part has, including those of marked tables.
    pub fn sets(&self, part: u32) -> u32
        requires { part < length self.now.parts }
        ensures { result ≡ length (segment_at self.now.parts part).sets }
    {
        self.version.part(part).segment().sets()
    }

    /// Returns how often the lists and the sets of a part's segment have been read by anyone. No contract says more
    /// about it.
    pub fn meter(&self, part: u32) -> u64
        requires { part < length self.now.parts }
    {
        self.version.part(part).segment().meter()
    }

    /// Returns the marks of a part's tables, in order: `true` if the table was dropped.
    pub fn marks(&self, part: u32) -> &[bool]
        requires { part < length self.now.parts }
        ensures { result.now ≡ marks_of (part_at self.now.parts part) }
    {
        self.version.part(part).marks()
    }

    /// Returns the plan of a merge of `parts` adjacent parts, from the index `first` on. It copies the positions of
    /// their loads.
    pub fn plan_run(&self, alloc: Global, first: u32, parts: u32) -> Result<Plan, NoMemory>
        requires some { 0 < parts }
        requires within { first + parts ≤ length self.now.parts }
        ensures { IfOk result (λ plan. plan ≡ plan_run self.now.at (slice_range self.now.parts first (first + parts))) }
    {
        let first = first as usize;
        let run = &self.version.parts()[first..first + parts as usize];
        plan_parts(alloc, self.version.at(), run)
    }

    /// Returns the segment of a part, with all its tables, including the marked ones.
    pub fn segment(&self, part: u32) -> &Segment
        requires { part < length self.now.parts }
        ensures { result.now ≡ tables_of (part_at self.now.parts part) }
    {
        self.version.part(part).segment()
    }

    // Returns the version.
    pub(crate) fn version(&self) -> &Version
        ensures { result.now ≡ self.now }
    {
        &self.version
    }

    /// Returns the layout of the version, which it shares.
    pub fn layout(&self) -> Result<Layout, NoMemory>
        ensures { IfOk result (λ layout. layout ≡ shown_with self.now.at (shown self.now.parts)) }
    {
        self.version.layout()
    }

    /// Returns the name, the number of columns and the number of members of each live table, in the order of their
    /// loads.
    pub fn tables(&self, alloc: Global) -> Result<TableLines, NoMemory>
        ensures { IfOk result (λ lines. lines ≡ live_lines self.now.parts) }
    {
        Ok(TableLines::new(lines_of(alloc, self.version.parts())?))
    }

    /// Returns the keys of a live table's column as a query. The table is found by its name, in a walk over the tables,
    /// and the column by its place, counted from 1. On success it raises the meter of the table's segment by one.
    ///
    /// Returns `Err(UnknownTable)` if no live table has the name, else `Err(UnknownColumn)` if the table has no column
    /// at the place, and `Err(NoMemory)` if memory runs out.
    pub fn column(&self, alloc: Global, table: &Name, place: u32) -> Result<QuerySet, ColumnRefused>
        ensures keys { IfOk result (λ query. query ≡ column_keys self.now.parts table.now place) }
        ensures sound { OnOk result (column_fault self.now.parts table.now place ≡ None) }
        ensures refused { IfErr result (λ e. (e ≡ ColumnRefused.NoMemory) ⊎ (column_fault self.now.parts table.now place ≡ Some e)) }
    {
        live_column(alloc, self.version.parts(), table, place)
    }
}

// Returns the lines of the unmarked tables of the parts.
fn lines_of(alloc: Global, parts: &[Part]) -> Result<Vec<(Name, u32, u64)>, NoMemory>
    ensures { IfOk result (λ lines. map line_from lines.items ≡ live_lines parts.now) }
{
    let mut lines = Vec::new(alloc);
    for part in parts {
        part.add_lines(&mut lines)?;
    }
    Ok(lines)
}

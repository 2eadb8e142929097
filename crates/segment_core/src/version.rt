//! Versions: the parts in which the tables of a lake are searched at a position of its journal.
ghost use Rattle.std.specs.Prelude.{◌≡◌, ◌<◌, ◌≤◌, ◌+◌, ◌^◌, ◌++◌, ◌∷◌, [], false, length, map, slice_set, IfOk, OnErr, OnOk};
ghost use Rattle.std.specs.List.{list_any, zip};
ghost use Rattle.std.specs.Option.{option_to_list};
ghost use Rattle.lake_model.specs.Layout.{positions_of, shown, shown_with};
ghost use Rattle.segment_core.specs.Distinct.{unmarked_names};
ghost use Rattle.list_laws.specs.Distinct.{AreDistinct};
ghost use Rattle.segment_core.specs.Lines.{line_from, lines_without, shown_places, unmarked_lines};
ghost use Rattle.segment_core.specs.Plans.{replaced};
ghost use Rattle.segment_core.specs.Positions.{loads_of};
ghost use Rattle.segment_core.specs.Versions.{marked_and_added, marked_at, marks_of, part_at, part_with, places_with, tables_of, version_with};

use crate::layout::{Layout, Places};
use crate::numbers::{Marks, Numbers};
use crate::segment::Segment;
use column_set::{Name, SharedTable};
use no_memory::NoMemory;
use std::alloc::{AllocError, Global};
use std::marker::Model;
use std::sync::Arc;

/// A part of a version: its number, which is the position of the journal's entry that made it; its segment; and, for
/// each table of the segment in order, the position of the table's load in the journal, and whether the table has been
/// dropped since. There are as many positions and as many marks as tables. Its model is a part of a layout.
#[derive(Drop)]
pub struct Part {
    pub(crate) number: u64,
    pub(crate) segment: Arc<Segment>,
    pub(crate) positions: Numbers,
    pub(crate) marked: Marks,
}

impl Model for Part {
    ghost use Rattle.std.specs.Prelude.{◌≡◌, length};
    ghost use Rattle.lake_model.specs.Layout.{Part as PartOf};
    ghost use Rattle.segment_core.specs.Versions.{places_with, part_with};

    ghost Value = { PartOf };

    ghost view = { λ p. part_with p.number (places_with p.positions p.segment.value p.marked) };

    ghost invariant = { λ p. (length p.positions ≡ length p.segment.value) × (length p.marked ≡ length p.segment.value) };
}

impl Part {
    /// Makes the part with this number over a segment, with the position of the load of each table, and its mark. It
    /// allocates nothing.
    pub fn new(number: u64, segment: Arc<Segment>, positions: Numbers, marked: Marks) -> Part
        requires positions { length positions ≡ length segment.value }
        requires marks { length marked ≡ length segment.value }
        ensures { result ≡ part_with number (places_with positions segment.value marked) }
    {
        Part {
            number,
            segment,
            positions,
            marked,
        }
    }

    /// Returns the part's number.
    pub fn number(&self) -> u64
        ensures { result ≡ self.now.number }
    {
        self.number
    }

    /// Returns the segment of the part's tables, including the marked ones.
    pub fn segment(&self) -> &Segment
        ensures { result.now ≡ tables_of self.now }
    {
        &self.segment
    }

    /// Returns the position of the load of each of the part's tables, in order.
    pub fn loads(&self) -> &[u64]
        ensures { result.now ≡ loads_of self.now }
    {
        self.positions.list()
    }

    /// Returns the marks of the part's tables, in order.
    pub fn marks(&self) -> &[bool]
        ensures marks { result.now ≡ marks_of self.now }
        ensures many { length result.now ≡ length (tables_of self.now) }
    {
        self.marked.list()
    }

    /// Returns whether some of the part's tables may be marked.
    pub(crate) fn may_mark(&self) -> bool
        ensures { result ≡ false → list_any (λ mark. mark) (marks_of self.now) ≡ false }
    {
        self.marked.may_mark()
    }

    // Returns the position of the load of each of the part's tables, and whether the table is marked, in a new list.
    fn places(&self, alloc: Global) -> Result<Places, NoMemory>
        ensures { IfOk result (λ places. places ≡ shown_places self.now.places) }
    {
        let pairs = paired(alloc, self.positions.list(), self.marked.list())?;
        Ok(Places::new(Arc::new(alloc, pairs)?))
    }

    /// Appends the lines of the part's unmarked tables.
    pub(crate) fn add_lines(&self, lines: &mut Vec<(Name, u32, u64)>) -> Result<(), NoMemory>
        ensures { OnOk result (map line_from lines.new.items ≡ map line_from lines.old.items ++ unmarked_lines self.now.places) }
    {
        add_unmarked(self.segment.tables(), self.marked.list(), lines)
    }

    // Marks the table at an index, from 0.
    fn mark(&mut self, place: u32)
        requires { place < length self.old.places }
        ensures { self.new ≡ marked_at place self.old }
    {
        self.marked.mark(place);
    }

    // Returns the same part, sharing the segment.
    fn share(&self) -> Result<Part, NoMemory>
        ensures { IfOk result (λ other. other ≡ self.now) }
    {
        Ok(Part {
            number: self.number,
            segment: Arc::try_clone(&self.segment)?,
            positions: self.positions.copy()?,
            marked: self.marked.copy()?,
        })
    }
}

/// A position of the journal, and the parts that are searched there, in the order of the layout. There are fewer than
/// 2^32 parts. The positions of all loads are distinct, and so are the names of all unmarked tables. It keeps its layout
/// at hand for the replies that show it. Its model is the position and the parts.
#[derive(Drop)]
pub struct Version {
    layout: Layout,
    parts: Vec<Part>,
}

impl Model for Version {
    ghost use Rattle.std.specs.Prelude.{◌≡◌, ◌<◌, ◌^◌, length};
    ghost use Rattle.lake_model.specs.Layout.{positions_of, shown};
    ghost use Rattle.list_laws.specs.Distinct.{AreDistinct};
    ghost use Rattle.segment_core.specs.Distinct.{unmarked_names};
    ghost use Rattle.segment_core.specs.Versions.{version_with, VersionOf};

    ghost Value = { VersionOf };

    ghost view = { λ v. version_with v.layout.at v.parts.items };

    ghost invariant = { λ v. (length v.parts.items < 2 ^ 32) × AreDistinct (positions_of v.parts.items) × AreDistinct (unmarked_names v.parts.items) × (v.layout.parts ≡ shown v.parts.items) };
}

impl Version {
    /// Makes the version of these parts at a position.
    pub fn new(alloc: Global, at: u64, parts: Vec<Part>) -> Result<Version, NoMemory>
        requires few { length parts.items < 2 ^ 32 }
        requires positions { AreDistinct (positions_of parts.items) }
        requires names { AreDistinct (unmarked_names parts.items) }
        ensures { IfOk result (λ version. version ≡ version_with at parts.items) }
    {
        let shown = shown_parts(alloc, &parts)?;
        Ok(Version {
            layout: Layout::new(alloc, at, shown)?,
            parts,
        })
    }

    /// Returns the version of an empty journal, which has no parts.
    pub fn empty(alloc: Global) -> Result<Version, NoMemory>
        ensures { IfOk result (λ version. version ≡ version_with 0 []) }
    {
        Version::new(alloc, 0, Vec::new(alloc))
    }

    /// Returns the version's position: the number of entries of the journal there.
    pub fn at(&self) -> u64
        ensures { result ≡ self.now.at }
    {
        self.layout.at()
    }

    /// Returns the version's layout, which it shares.
    pub(crate) fn layout(&self) -> Result<Layout, NoMemory>
        ensures { IfOk result (λ layout. layout ≡ shown_with self.now.at (shown self.now.parts)) }
    {
        self.layout.share()
    }

    /// Returns the version's parts, in the order of the layout.
    pub fn parts(&self) -> &[Part]
        ensures parts { result.now ≡ self.now.parts }
        ensures few { length self.now.parts < 2 ^ 32 }
        ensures positions { AreDistinct (positions_of self.now.parts) }
        ensures names { AreDistinct (unmarked_names self.now.parts) }
    {
        &self.parts
    }

    /// Returns the part at an index, from 0.
    pub fn part(&self, part: u32) -> &Part
        requires { part < length self.now.parts }
        ensures { result.now ≡ part_at self.now.parts part }
    {
        &self.parts[part as usize]
    }
}

impl Version {
    /// Moves the version to position `at` and appends a part. The list of the parts is copied only if the version has
    /// another owner, such as a pin, and the layout only if a reply or another version shares it; the segments never
    /// are. If memory runs out, the version is unchanged.
    pub fn add(version: &mut Arc<Version>, at: u64, part: Part) -> Result<(), NoMemory>
        requires few { length version.old.value.parts + 1 < 2 ^ 32 }
        requires positions { AreDistinct (positions_of (version.old.value.parts ++ part ∷ [])) }
        requires names { AreDistinct (unmarked_names (version.old.value.parts ++ part ∷ [])) }
        ensures ok { OnOk result (version.new.value ≡ version_with at (version.old.value.parts ++ part ∷ [])) }
        ensures err { OnErr result (version.new.value ≡ version.old.value) }
    {
        let own = Arc::make_mut(version)?;
        own.push(at, part)
    }

    /// Moves the version to position `at` and marks the table at an index of a part, both from 0. The list of the parts
    /// is copied only if the version has another owner, and the layout, with the places of the part, only if a reply or
    /// another version shares it. If memory runs out, the version is unchanged.
    pub fn mark(version: &mut Arc<Version>, at: u64, part: u32, place: u32) -> Result<(), NoMemory>
        requires part { part < length version.old.value.parts }
        requires place { place < length (part_at version.old.value.parts part).places }
        requires positions { AreDistinct (positions_of (slice_set version.old.value.parts part (marked_at place (part_at version.old.value.parts part)))) }
        requires names { AreDistinct (unmarked_names (slice_set version.old.value.parts part (marked_at place (part_at version.old.value.parts part)))) }
        ensures ok { OnOk result (version.new.value ≡ version_with at (slice_set version.old.value.parts part (marked_at place (part_at version.old.value.parts part)))) }
        ensures err { OnErr result (version.new.value ≡ version.old.value) }
    {
        let own = Arc::make_mut(version)?;
        own.mark_here(at, part, place)
    }

    /// Moves the version to position `at`, marks the table at an index of a part, both from 0, and appends one more
    /// part. Nothing is copied except what `mark` copies. If memory runs out, the version is unchanged.
    pub fn mark_and_add(
        version: &mut Arc<Version>,
        at: u64,
        part: u32,
        place: u32,
        more: Part,
    ) -> Result<(), NoMemory>
        requires few { length version.old.value.parts + 1 < 2 ^ 32 }
        requires part { part < length version.old.value.parts }
        requires place { place < length (part_at version.old.value.parts part).places }
        requires positions { AreDistinct (positions_of (marked_and_added part place more version.old.value.parts)) }
        requires names { AreDistinct (unmarked_names (marked_and_added part place more version.old.value.parts)) }
        ensures ok { OnOk result (version.new.value ≡ version_with at (marked_and_added part place more version.old.value.parts)) }
        ensures err { OnErr result (version.new.value ≡ version.old.value) }
    {
        let own = Arc::make_mut(version)?;
        own.mark_and_push(at, part, place, more)
    }

    // Appends a part to a version with no other owner.
    #[tactic(auto, using(crate::proofs::ShownLemmas::shown_more))]
    fn push(&mut self, at: u64, part: Part) -> Result<(), NoMemory>
        requires few { length self.old.parts + 1 < 2 ^ 32 }
        requires positions { AreDistinct (positions_of (self.old.parts ++ part ∷ [])) }
        requires names { AreDistinct (unmarked_names (self.old.parts ++ part ∷ [])) }
        ensures ok { OnOk result (self.new ≡ version_with at (self.old.parts ++ part ∷ [])) }
        ensures err { OnErr result (self.new ≡ self.old) }
    {
        self.parts.reserve(1)?;
        let places = part.places(*self.parts.allocator())?;
        self.layout.push(at, part.number, places)?;
        self.parts.push_reserved(part);
        Ok(())
    }

    // Marks a table in a version with no other owner.
    #[tactic(auto, using(crate::proofs::ShownLemmas::shown_set))]
    fn mark_here(&mut self, at: u64, part: u32, place: u32) -> Result<(), NoMemory>
        requires part { part < length self.old.parts }
        requires place { place < length (part_at self.old.parts part).places }
        requires positions { AreDistinct (positions_of (slice_set self.old.parts part (marked_at place (part_at self.old.parts part)))) }
        requires names { AreDistinct (unmarked_names (slice_set self.old.parts part (marked_at place (part_at self.old.parts part)))) }
        ensures ok { OnOk result (self.new ≡ version_with at (slice_set self.old.parts part (marked_at place (part_at self.old.parts part)))) }
        ensures err { OnErr result (self.new ≡ self.old) }
    {
        self.layout.mark(at, part, place)?;
        self.parts[part as usize].mark(place);
        Ok(())
    }

    // Marks a table and appends a part, in a version with no other owner. The room for the part is made first, so that
    // nothing is marked if there is none.
    #[tactic(auto, using(crate::proofs::ShownLemmas::shown_set, crate::proofs::ShownLemmas::shown_more))]
    fn mark_and_push(&mut self, at: u64, part: u32, place: u32, more: Part) -> Result<(), NoMemory>
        requires few { length self.old.parts + 1 < 2 ^ 32 }
        requires part { part < length self.old.parts }
        requires place { place < length (part_at self.old.parts part).places }
        requires positions { AreDistinct (positions_of (marked_and_added part place more self.old.parts)) }
        requires names { AreDistinct (unmarked_names (marked_and_added part place more self.old.parts)) }
        ensures ok { OnOk result (self.new ≡ version_with at (marked_and_added part place more self.old.parts)) }
        ensures err { OnErr result (self.new ≡ self.old) }
    {
        self.parts.reserve(1)?;
        let places = more.places(*self.parts.allocator())?;
        self.layout
            .mark_and_push(at, part, place, more.number, places)?;
        self.parts[part as usize].mark(place);
        self.parts.push_reserved(more);
        Ok(())
    }

    // Replaces parts by one part or by none, in a version with no other owner. The layout is changed in a copy, so that
    // it is as it was if there is no memory for the parts.
    pub(crate) fn replace(
        &mut self,
        at: u64,
        first: u32,
        count: u32,
        part: Option<Part>,
    ) -> Result<(), NoMemory>
        requires some { 0 < count }
        requires within { first + count ≤ length self.old.parts }
        requires positions { AreDistinct (positions_of (replaced first count part self.old.parts)) }
        requires names { AreDistinct (unmarked_names (replaced first count part self.old.parts)) }
        ensures ok { OnOk result (self.new ≡ version_with at (replaced first count part self.old.parts)) }
        ensures err { OnErr result (self.new ≡ self.old) }
    {
        let places = places_of(*self.parts.allocator(), &part)?;
        let mut layout = self.layout.share()?;
        layout.exchange(at, first, count, places)?;
        let first = first as usize;
        self.parts.splice(first..first + count as usize, part)?;
        self.layout = layout;
        Ok(())
    }
}

impl Clone for Version {
    ghost use Rattle.std.specs.Prelude.{◌≡◌};

    ghost is_clone = { λ a b. b ≡ a };

    /// Returns an equal version over the same segments.
    fn clone(&self) -> Result<Version, AllocError> {
        let Ok(parts) = share_all(&self.parts) else {
            return Err(AllocError);
        };
        let Ok(layout) = self.layout.share() else {
            return Err(AllocError);
        };
        Ok(Version { layout, parts })
    }
}

// Returns the number and the places of each part.
fn shown_parts(alloc: Global, parts: &[Part]) -> Result<Vec<(u64, Places)>, NoMemory>
    ensures { IfOk result (λ all. all.items ≡ shown parts.now) }
{
    let mut all = Vec::with_capacity(alloc, parts.len())?;
    for part in parts {
        all.push((part.number, part.places(alloc)?))?;
    }
    Ok(all)
}

// Returns the number and the places of a part, if there is one.
fn places_of(alloc: Global, part: &Option<Part>) -> Result<Option<(u64, Places)>, NoMemory>
    ensures { IfOk result (λ places. option_to_list places ≡ shown (option_to_list part.now)) }
{
    match part {
        Some(part) => Ok(Some((part.number, part.places(alloc)?))),
        None => Ok(None),
    }
}

// Returns the same parts over the same segments.
fn share_all(parts: &Vec<Part>) -> Result<Vec<Part>, NoMemory>
    ensures { IfOk result (λ shared. shared.items ≡ parts.now.items) }
{
    let mut shared = Vec::with_capacity(*parts.allocator(), parts.len())?;
    for part in parts {
        shared.push(part.share()?)?;
    }
    Ok(shared)
}

// Returns the numbers, each with the mark at its index.
fn paired(alloc: Global, numbers: &[u64], marks: &[bool]) -> Result<Vec<(u64, bool)>, NoMemory>
    ensures { IfOk result (λ pairs. pairs.items ≡ zip numbers.now marks.now) }
{
    Ok(
        numbers
            .iter()
            .copied()
            .zip(marks.iter().copied())
            .collect(alloc)?,
    )
}

// Appends the lines of the unmarked tables.
fn add_unmarked(
    tables: &[SharedTable],
    marks: &[bool],
    lines: &mut Vec<(Name, u32, u64)>,
) -> Result<(), NoMemory>
    requires { length marks.now ≡ length tables.now }
    ensures { OnOk result (map line_from lines.new.items ≡ map line_from lines.old.items ++ lines_without tables.now marks.now) }
{
    for (i, shared) in tables.iter().enumerate() {
        let table = shared.table();
        if !marks[i] {
            lines.push((table.name().copy(), table.columns(), table.members()))?;
        }
    }
    Ok(())
}

//! What replies show of a version: its layout, and a line for each of its live tables.
ghost use Rattle.std.specs.Prelude.{◌≡◌, ◌≤◌, ◌<◌, ◌+◌, ◌++◌, ◌∷◌, [], length, map, IfOk, OnErr, OnOk};
ghost use Rattle.std.specs.List.{splice};
ghost use Rattle.std.specs.Option.{option_to_list};
ghost use Rattle.lake_model.specs.Layout.{shown_with};
ghost use Rattle.segment_core.specs.Lines.{line_from, mark_pair, mark_shown, shown_at};

use column_set::Name;
use no_memory::NoMemory;
use std::alloc::{AllocError, Global};
use std::marker::Model;
use std::sync::Arc;

/// The places of a part: for each table, the position of its load in the journal, and whether it is marked as dropped.
/// The layouts that show the part share one list. Its model is the list.
#[derive(Drop)]
pub struct Places {
    places: Arc<Vec<(u64, bool)>>,
}

impl Model for Places {
    ghost use Rattle.std.specs.Prelude.{Bool, List, ℕ};

    ghost Value = { List (ℕ × Bool) };

    ghost view = { λ p. p.places.value.items };
}

impl Places {
    /// Makes `Places` of these places. It allocates nothing.
    pub fn new(places: Arc<Vec<(u64, bool)>>) -> Places
        ensures { result ≡ places.value.items }
    {
        Places { places }
    }

    /// Returns the places, in order.
    pub fn list(&self) -> &[(u64, bool)]
        ensures { result.now ≡ self.now }
    {
        &self.places
    }

    // Returns the same places, sharing the list.
    pub(crate) fn share(&self) -> Result<Places, NoMemory>
        ensures { IfOk result (λ other. other ≡ self.now) }
    {
        Ok(Places {
            places: Arc::try_clone(&self.places)?,
        })
    }

    // Marks the place at an index, from 0, as dropped. The list is copied only if it has another owner. If memory runs
    // out, the places are unchanged.
    pub(crate) fn mark_dropped(&mut self, i: u32) -> Result<(), NoMemory>
        requires { i < length self.old }
        ensures ok { OnOk result (self.new ≡ mark_pair i self.old) }
        ensures err { OnErr result (self.new ≡ self.old) }
    {
        let own = Arc::make_mut(&mut self.places)?;
        let (position, _) = own[i as usize];
        own[i as usize] = (position, true);
        Ok(())
    }
}

/// A position of the journal, and the number and the places of each part there: what layouts share. Its model is the
/// position and the parts.
#[derive(Drop)]
struct ShownParts {
    at: u64,
    parts: Vec<(u64, Places)>,
}

impl Model for ShownParts {
    ghost use Rattle.lake_model.specs.Layout.{Shown, shown_with};

    ghost Value = { Shown };

    ghost view = { λ s. shown_with s.at s.parts.items };
}

impl ShownParts {
    // Moves to position `at` and appends a part.
    fn push(&mut self, at: u64, number: u64, places: Places) -> Result<(), NoMemory>
        ensures ok { OnOk result (self.new ≡ shown_with at (self.old.parts ++ (number, places) ∷ [])) }
        ensures err { OnErr result (self.new ≡ self.old) }
    {
        self.parts.push((number, places))?;
        self.at = at;
        Ok(())
    }

    // Moves to position `at` and marks the place at an index of a part, both from 0.
    fn mark(&mut self, at: u64, part: u32, place: u32) -> Result<(), NoMemory>
        requires part { part < length self.old.parts }
        requires place { place < length (shown_at self.old.parts part).1 }
        ensures ok { OnOk result (self.new ≡ shown_with at (mark_shown part place self.old.parts)) }
        ensures err { OnErr result (self.new ≡ self.old) }
    {
        self.parts[part as usize].1.mark_dropped(place)?;
        self.at = at;
        Ok(())
    }

    // Moves to position `at`, marks the place at an index of a part, both from 0, and appends one more part. The room
    // for the part is made first, so that nothing is marked if there is none.
    fn mark_and_push(
        &mut self,
        at: u64,
        part: u32,
        place: u32,
        number: u64,
        places: Places,
    ) -> Result<(), NoMemory>
        requires part { part < length self.old.parts }
        requires place { place < length (shown_at self.old.parts part).1 }
        ensures ok { OnOk result (self.new ≡ shown_with at (mark_shown part place self.old.parts ++ (number, places) ∷ [])) }
        ensures err { OnErr result (self.new ≡ self.old) }
    {
        self.parts.reserve(1)?;
        self.parts[part as usize].1.mark_dropped(place)?;
        self.parts.push_reserved((number, places));
        self.at = at;
        Ok(())
    }

    // Moves to position `at` and replaces `count` parts, from index `first` on, by one part or by none.
    fn exchange(
        &mut self,
        at: u64,
        first: u32,
        count: u32,
        part: Option<(u64, Places)>,
    ) -> Result<(), NoMemory>
        requires { first + count ≤ length self.old.parts }
        ensures ok { OnOk result (self.new ≡ shown_with at (splice self.old.parts first (first + count) (option_to_list part))) }
        ensures err { OnErr result (self.new ≡ self.old) }
    {
        let first = first as usize;
        self.parts.splice(first..first + count as usize, part)?;
        self.at = at;
        Ok(())
    }
}

impl Clone for ShownParts {
    ghost use Rattle.std.specs.Prelude.{◌≡◌};

    ghost is_clone = { λ a b. b ≡ a };

    /// Returns an equal list, which shares the places of each part.
    fn clone(&self) -> Result<ShownParts, AllocError> {
        let Ok(parts) = share_places(&self.parts) else {
            return Err(AllocError);
        };
        Ok(ShownParts { at: self.at, parts })
    }
}

// Returns the same parts, sharing the places of each, with room for one more. With none, a load after each search would
// double the room, which the reply to the next search would then keep.
fn share_places(parts: &Vec<(u64, Places)>) -> Result<Vec<(u64, Places)>, NoMemory>
    ensures { IfOk result (λ shared. shared.items ≡ parts.now.items) }
{
    let mut shared = Vec::with_capacity(*parts.allocator(), parts.len().saturating_add(1))?;
    for (number, places) in parts {
        shared.push((*number, places.share()?))?;
    }
    Ok(shared)
}

/// A layout: its position, which is the number of entries of the journal there, and its parts, each with its number and
/// its places. The replies that show a version share its layout, and each takes eight bytes for that; a later version
/// has a copy of its own. Its model is the position and the parts.
#[derive(Drop)]
pub struct Layout {
    shown: Arc<ShownParts>,
}

impl Model for Layout {
    ghost use Rattle.lake_model.specs.Layout.{Shown};

    ghost Value = { Shown };

    ghost view = { λ l. l.shown.value };
}

impl Layout {
    /// Makes the layout of these parts at a position.
    pub fn new(alloc: Global, at: u64, parts: Vec<(u64, Places)>) -> Result<Layout, NoMemory>
        ensures { IfOk result (λ layout. layout ≡ shown_with at parts.items) }
    {
        Ok(Layout {
            shown: Arc::new(alloc, ShownParts { at, parts })?,
        })
    }

    /// Returns the layout's position.
    pub fn at(&self) -> u64
        ensures { result ≡ self.now.at }
    {
        self.shown.at
    }

    /// Returns the number and the places of each part, in the order of the layout.
    pub fn parts(&self) -> &[(u64, Places)]
        ensures { result.now ≡ self.now.parts }
    {
        &self.shown.parts
    }

    // Returns the same layout, sharing all that it shows.
    pub(crate) fn share(&self) -> Result<Layout, NoMemory>
        ensures { IfOk result (λ other. other ≡ self.now) }
    {
        Ok(Layout {
            shown: Arc::try_clone(&self.shown)?,
        })
    }

    // Moves the layout to position `at` and appends a part. The list of the parts is copied only if another layout
    // shares it. If memory runs out, the layout is unchanged.
    pub(crate) fn push(&mut self, at: u64, number: u64, places: Places) -> Result<(), NoMemory>
        ensures ok { OnOk result (self.new ≡ shown_with at (self.old.parts ++ (number, places) ∷ [])) }
        ensures err { OnErr result (self.new ≡ self.old) }
    {
        let own = Arc::make_mut(&mut self.shown)?;
        own.push(at, number, places)
    }

    // Moves the layout to position `at` and marks the place at an index of a part, both from 0. The list of the parts is
    // copied only if another layout shares it, and so are the places of the part. If memory runs out, the layout is
    // unchanged.
    pub(crate) fn mark(&mut self, at: u64, part: u32, place: u32) -> Result<(), NoMemory>
        requires part { part < length self.old.parts }
        requires place { place < length (shown_at self.old.parts part).1 }
        ensures ok { OnOk result (self.new ≡ shown_with at (mark_shown part place self.old.parts)) }
        ensures err { OnErr result (self.new ≡ self.old) }
    {
        let own = Arc::make_mut(&mut self.shown)?;
        own.mark(at, part, place)
    }

    // Does what `mark` does, and appends one more part. If memory runs out, the layout is unchanged.
    pub(crate) fn mark_and_push(
        &mut self,
        at: u64,
        part: u32,
        place: u32,
        number: u64,
        places: Places,
    ) -> Result<(), NoMemory>
        requires part { part < length self.old.parts }
        requires place { place < length (shown_at self.old.parts part).1 }
        ensures ok { OnOk result (self.new ≡ shown_with at (mark_shown part place self.old.parts ++ (number, places) ∷ [])) }
        ensures err { OnErr result (self.new ≡ self.old) }
    {
        let own = Arc::make_mut(&mut self.shown)?;
        own.mark_and_push(at, part, place, number, places)
    }

    // Moves the layout to position `at` and replaces `count` parts, from index `first` on, by one part or by none. The
    // list of the parts is copied only if another layout shares it. If memory runs out, the layout is unchanged.
    pub(crate) fn exchange(
        &mut self,
        at: u64,
        first: u32,
        count: u32,
        part: Option<(u64, Places)>,
    ) -> Result<(), NoMemory>
        requires { first + count ≤ length self.old.parts }
        ensures ok { OnOk result (self.new ≡ shown_with at (splice self.old.parts first (first + count) (option_to_list part))) }
        ensures err { OnErr result (self.new ≡ self.old) }
    {
        let own = Arc::make_mut(&mut self.shown)?;
        own.exchange(at, first, count, part)
    }
}

/// The lines of a list of tables: the name of each table, the number of its columns, and the number of their members
/// together. Its model is the list of the lines.
#[derive(Drop)]
pub struct TableLines {
    lines: Vec<(Name, u32, u64)>,
}

impl Model for TableLines {
    ghost use Rattle.std.specs.Prelude.{map, List};
    ghost use Rattle.lake_model.specs.Tables.{Line};
    ghost use Rattle.segment_core.specs.Lines.{line_from};

    ghost Value = { List Line };

    ghost view = { λ t. map line_from t.lines.items };
}

impl TableLines {
    /// Makes `TableLines` of these lines. It allocates nothing.
    pub fn new(lines: Vec<(Name, u32, u64)>) -> TableLines
        ensures { result ≡ map line_from lines.items }
    {
        TableLines { lines }
    }

    /// Returns the lines, in order.
    pub fn list(&self) -> &[(Name, u32, u64)]
        ensures { map line_from result.now ≡ self.now }
    {
        &self.lines
    }
}

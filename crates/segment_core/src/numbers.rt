//! Lists of numbers and of marks, as small types whose models are the lists of their elements.
ghost use Rattle.std.specs.Prelude.{◌≡◌, ◌<◌, false, length, slice_set, true, IfOk};
ghost use Rattle.std.specs.List.{list_any};

use no_memory::NoMemory;
use std::marker::Model;

/// A list of numbers, such as the positions of loads in the journal. Its model is the list.
#[derive(Drop)]
pub struct Numbers {
    numbers: Vec<u64>,
}

impl Model for Numbers {
    ghost use Rattle.std.specs.Prelude.{List, ℕ};

    ghost Value = { List ℕ };

    ghost view = { λ n. n.numbers.items };
}

impl Numbers {
    /// Makes `Numbers` of these numbers. It allocates nothing.
    pub fn new(numbers: Vec<u64>) -> Numbers
        ensures { result ≡ numbers.items }
    {
        Numbers { numbers }
    }

    /// Returns the numbers, in order.
    pub fn list(&self) -> &[u64]
        ensures { result.now ≡ self.now }
    {
        &self.numbers
    }

    /// Returns a copy of the numbers, in memory of its own.
    pub fn copy(&self) -> Result<Numbers, NoMemory>
        ensures { IfOk result (λ other. other ≡ self.now) }
    {
        Ok(Numbers {
            numbers: self.numbers.clone()?,
        })
    }
}

/// A list of marks, `true` for what is marked. It knows whether something may be marked, so that mostly no mark has to be
/// read. Its model is the list.
#[derive(Drop)]
pub struct Marks {
    marks: Vec<bool>,
    may_mark: bool,
}

impl Model for Marks {
    ghost use Rattle.std.specs.Prelude.{◌≡◌, List, Bool, false};
    ghost use Rattle.std.specs.List.{list_any};

    ghost Value = { List Bool };

    ghost view = { λ m. m.marks.items };

    ghost invariant = { λ m. m.may_mark ≡ false → list_any (λ mark. mark) m.marks.items ≡ false };
}

impl Marks {
    /// Makes `Marks` of these marks. It reads each once, and allocates nothing.
    pub fn new(marks: Vec<bool>) -> Marks
        ensures { result ≡ marks.items }
    {
        let may_mark = is_any(&marks);
        Marks { marks, may_mark }
    }

    /// Returns whether something may be marked.
    pub(crate) fn may_mark(&self) -> bool
        ensures { result ≡ false → list_any (λ mark. mark) self.now ≡ false }
    {
        self.may_mark
    }

    /// Returns the marks, in order.
    pub fn list(&self) -> &[bool]
        ensures { result.now ≡ self.now }
    {
        &self.marks
    }

    /// Marks the element at an index, from 0. It allocates nothing.
    pub fn mark(&mut self, i: u32)
        requires { i < length self.old }
        ensures { self.new ≡ slice_set self.old i true }
    {
        self.marks[i as usize] = true;
        self.may_mark = true;
    }

    /// Returns a copy of the marks, in memory of its own.
    pub fn copy(&self) -> Result<Marks, NoMemory>
        ensures { IfOk result (λ other. other ≡ self.now) }
    {
        Ok(Marks {
            marks: self.marks.clone()?,
            may_mark: self.may_mark,
        })
    }
}

// Returns whether something is marked.
fn is_any(marks: &[bool]) -> bool
    ensures { result ≡ list_any (λ mark. mark) marks.now }
{
    marks.iter().any(|mark| *mark)
}

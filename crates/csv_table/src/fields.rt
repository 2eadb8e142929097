//! The fields of a table, one after another in one text.
ghost use Rattle.std.specs.Prelude.{◌≡◌, ◌<◌, ◌≤◌, ◌++◌, ◌∷◌, [], get_or, length, IfOk, OnErr, OnOk};
ghost use Rattle.csv.specs.Records.{AllText};

use no_memory::NoMemory;
use std::alloc::Global;
use std::marker::Model;

/// Texts whose bytes lie one after another, with 4 bytes for each text that say where it ends. Its model is the list of
/// the texts.
#[derive(Drop)]
pub(crate) struct Fields {
    /// The bytes of all texts, fewer than 2^32.
    text: String,
    /// For each text, the number of bytes in it and in all texts before it.
    ends: Vec<u32>,
}

impl Model for Fields {
    ghost use Rattle.std.specs.Prelude.{List, ℕ, string_bytes};
    ghost use Rattle.csv_table.specs.Cuts.{AreCuts, cut_from};

    ghost Value = { List (List ℕ) };

    ghost view = { λ f. cut_from 0 f.ends.items (string_bytes f.text) };

    ghost invariant = { λ f. AreCuts 0 f.ends.items (string_bytes f.text) };
}

impl Fields {
    /// Returns no texts, with room for the given number of texts and for the given number of bytes in all of them.
    pub(crate) fn with_capacity(
        alloc: Global,
        bytes: usize,
        count: usize,
    ) -> Result<Fields, NoMemory>
        ensures { IfOk result (λ fields. fields ≡ []) }
    {
        let text = String::with_capacity(alloc, bytes)?;
        let ends = Vec::with_capacity(alloc, count)?;
        Ok(Fields { text, ends })
    }

    /// Returns the number of texts.
    pub(crate) fn len(&self) -> usize
        ensures value { result ≡ length self.now }
        ensures texts { AllText self.now }
    {
        self.ends.len()
    }

    /// Returns a text by its index, from 0, without copying it.
    pub(crate) fn field(&self, i: usize) -> &str
        requires { i < length self.now }
        ensures { result.now ≡ get_or self.now i [] }
    {
        let start = start_of(&self.ends, i) as usize;
        let end = self.ends[i] as usize;
        &self.text.as_str()[start..end]
    }

    /// Appends a text. Returns `Err(NoMemory)` if memory runs out, and also if there would be 2^32 bytes of text or more;
    /// the texts are then unchanged.
    pub(crate) fn push(&mut self, field: &str) -> Result<(), NoMemory>
        ensures added { OnOk result (self.new ≡ self.old ++ field.now ∷ []) }
        ensures refused { OnErr result (self.new ≡ self.old) }
    {
        let Ok(end) = u32::try_from(self.text.as_str().len() + field.len()) else {
            return Err(NoMemory);
        };
        self.ends.reserve(1)?;
        self.text.push_str(field)?;
        match self.ends.push(end) {
            Ok(()) => Ok(()),
            Err(_) => unreachable!(),
        }
    }
}

// Returns where a text starts, given where each text ends: where the one before it ends, or 0.
fn start_of(ends: &[u32], i: usize) -> u32
    requires { i ≤ length ends.now }
    ensures { result ≡ get_or (0 ∷ ends.now) i 0 }
{
    if i == 0 { 0 } else { ends[i - 1] }
}

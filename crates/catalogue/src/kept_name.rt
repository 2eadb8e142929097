//! The names of tables that entries and replies keep.
ghost use Rattle.std.specs.Prelude.{◌≡◌, true, IfOk};
ghost use Rattle.lake_model.specs.Tables.{is_name};

use column_set::Name;
use no_memory::NoMemory;
use std::alloc::Global;
use std::marker::Model;

/// The name of a table, kept for as long as an entry of the journal or a reply. Its model is the list of its bytes.
/// These lie elsewhere, and take no more memory than their number, so that what keeps a name is small.
#[derive(Drop)]
pub struct KeptName {
    text: String,
}

impl Model for KeptName {
    ghost use Rattle.std.specs.Prelude.{◌≡◌, List, ℕ, true};
    ghost use Rattle.std.specs.String.{string_bytes};
    ghost use Rattle.lake_model.specs.Tables.{is_name};

    ghost Value = { List ℕ };

    ghost view = { λ n. string_bytes n.text };

    ghost invariant = { λ n. is_name (string_bytes n.text) ≡ true };
}

impl KeptName {
    /// Returns a copy of the name to be kept.
    pub fn new(alloc: Global, name: &Name) -> Result<KeptName, NoMemory>
        ensures { IfOk result (λ kept. kept ≡ name.now) }
    {
        bytes_are_a_name(name);
        Ok(KeptName {
            text: String::from_str(alloc, name.text())?,
        })
    }

    /// Returns the bytes of the name.
    pub fn bytes(&self) -> &[u8]
        ensures same { result.now ≡ self.now }
        ensures name { is_name self.now ≡ true }
    {
        self.text.as_bytes()
    }

    /// Returns the name as a text.
    pub fn text(&self) -> &str
        ensures { result.now ≡ self.now }
    {
        self.text.as_str()
    }

    /// Returns a copy of the name.
    pub fn copy(&self) -> Result<KeptName, NoMemory>
        ensures { IfOk result (λ kept. kept ≡ self.now) }
    {
        Ok(KeptName {
            text: self.text.clone()?,
        })
    }
}

// States that the bytes of a name are one.
fn bytes_are_a_name(name: &Name)
    ensures { is_name name.now ≡ true }
{
    name.bytes();
}

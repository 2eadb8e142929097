//! The titles of a table: its name, and the names of its columns.
ghost use Rattle.std.specs.Prelude.{◌≡◌, ◌≤◌, ◌<◌, length, map, string_bytes, IfOk};
ghost use Rattle.lake_model.specs.Tables.{column_name, titles_with};

use crate::name::Name;
use crate::texts::Texts;
use no_memory::NoMemory;
use std::alloc::Global;
use std::marker::Model;

/// A table's name and its columns' names, at most 4,096. A column's name may be empty or equal another's.
#[derive(Drop)]
pub struct Titles {
    table: Name,
    columns: Texts,
}

impl Model for Titles {
    ghost use Rattle.std.specs.Prelude.{◌≤◌, length};
    ghost use Rattle.lake_model.specs.Tables.{Titles as TitlesOf, titles_with};

    ghost Value = { TitlesOf };

    ghost view = { λ t. titles_with t.table t.columns };

    ghost invariant = { λ t. length t.columns ≤ 4096 };
}

impl Titles {
    /// Returns the titles of a table with this name and with columns of these names, the first at place 1. They have no
    /// spare capacity.
    pub fn new(alloc: Global, table: Name, columns: &[String]) -> Result<Titles, NoMemory>
        requires { length columns.now ≤ 4096 }
        ensures { IfOk result (λ titles. titles ≡ titles_with table (map string_bytes columns.now)) }
    {
        Ok(Titles {
            table,
            columns: Texts::of_strings(alloc, columns)?,
        })
    }

    /// Returns the table's name.
    pub fn table(&self) -> &Name
        ensures { result.now ≡ self.now.table }
    {
        &self.table
    }

    /// Returns the number of columns, at most 4,096.
    pub fn columns(&self) -> u32
        ensures value { result ≡ length self.now.columns }
        ensures narrow { result ≤ 4096 }
    {
        self.columns.len()
    }

    /// Returns the name of the column at a place, counted from 1.
    pub fn column(&self, place: u32) -> &str
        requires low { 0 < place }
        requires high { place ≤ length self.now.columns }
        ensures { result.now ≡ column_name self.now place }
    {
        self.columns.text(place - 1)
    }
}

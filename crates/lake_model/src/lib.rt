//! The definitions that every contract uses: texts and their keys, tables and their columns, the table that is read
//! from bytes, the overlap and the answer to a query, the journal of a lake, its live tables and its layout. The only
//! code here is the plain types that both the code and the definitions use. The laws of the definitions are here, too.
#![tactic(auto)]

ghost use Rattle.std.specs.Prelude.{◌≡◌};
ghost use Rattle.lake_model.specs.Journal.{standard_limits};

pub use no_memory::NoMemory;

/// The rule by which two values are the same (The Unicode Standard, section 3.13).
#[derive(Clone, Copy, Debug, PartialEq, Eq)]
pub enum Keys {
    /// Canonical caseless matching, D145: ignores case and the way in which accents are encoded.
    Canonical,
    /// Compatibility caseless matching, D146: also ignores compatibility forms, such as wide letters, ligatures and
    /// circled digits.
    Compatibility,
}

/// Why bytes are not a table of fields. Records and fields are numbered from 1, and the header is record 1.
#[derive(Clone, Copy, Debug, PartialEq, Eq)]
pub enum CsvRefused {
    /// The bytes have no record.
    NoHeader,
    /// The header has `got` fields, more than a table may have.
    TooManyColumns { got: u64 },
    /// The record has `got` fields, but the header has `want`.
    Unequal { row: u64, want: u64, got: u64 },
    /// The field is not UTF-8.
    NotUtf8 { row: u64, field: u64 },
    /// Memory ran out.
    NoMemory,
}

/// Why the sets of a table's columns cannot be made.
#[derive(Clone, Copy, Debug, PartialEq, Eq)]
pub enum SetRefused {
    /// The column at `place`, counted from 1, is the first with more than 4,194,304 distinct keys.
    TooManyValues { place: u32 },
    /// Memory ran out.
    NoMemory,
}

/// Why the lines of a body are not a query.
#[derive(Clone, Copy, Debug, PartialEq, Eq)]
pub enum QueryRefused {
    /// The line, counted from 1, is the first that is not UTF-8.
    NotUtf8 { line: u64 },
    /// The lines have more than 4,194,304 distinct keys.
    TooManyValues,
    /// Memory ran out.
    NoMemory,
}

impl From<NoMemory> for CsvRefused {
    ghost use Rattle.lake_model.specs.declared.CsvRefused.TheVariants as refused;

    ghost from_gives = { λ _ e. e ≡ refused.NoMemory };

    fn from(_error: NoMemory) -> CsvRefused {
        CsvRefused::NoMemory
    }
}

impl From<NoMemory> for SetRefused {
    ghost use Rattle.lake_model.specs.declared.SetRefused.TheVariants as refused;

    ghost from_gives = { λ _ e. e ≡ refused.NoMemory };

    fn from(_error: NoMemory) -> SetRefused {
        SetRefused::NoMemory
    }
}

impl From<NoMemory> for QueryRefused {
    ghost use Rattle.lake_model.specs.declared.QueryRefused.TheVariants as refused;

    ghost from_gives = { λ _ e. e ≡ refused.NoMemory };

    fn from(_error: NoMemory) -> QueryRefused {
        QueryRefused::NoMemory
    }
}

/// Who made an entry of the journal. The caller is a lane, 1 to 16, or 0 for the merger; the command is the number of
/// the caller's command.
#[derive(Clone, Copy, Debug, PartialEq, Eq)]
pub struct Who {
    pub caller: u32,
    pub command: u64,
}

/// The counts that the limits of a lake bound: the live tables, the updates (the loads, drops and replaces of the
/// journal), and the members and key bytes of all loads and replaces together.
#[derive(Clone, Copy, Debug, PartialEq, Eq)]
pub struct Counts {
    pub live: u32,
    pub updates: u64,
    pub members: u64,
    pub key_bytes: u64,
}

impl Counts {
    /// Returns the standard limits of a lake: 65,536 live tables, 1,048,576 loads, drops and replaces, and, for all
    /// loads and replaces together, 16,777,216 members and 1,073,741,824 bytes of keys.
    pub fn standard() -> Counts
        ensures { result ≡ standard_limits }
    {
        Counts {
            live: 65_536,
            updates: 1_048_576,
            members: 16_777_216,
            key_bytes: 1_073_741_824,
        }
    }
}

/// Names one of the limits of a lake.
#[derive(Clone, Copy, Debug, PartialEq, Eq)]
pub enum Which {
    Live,
    Updates,
    Members,
    KeyBytes,
}

/// Which parts a merge takes. `Tier` takes the first four adjacent parts of one tier, or else the first part half or
/// more of whose tables are marked. `All` takes the whole layout.
#[derive(Clone, Copy, Debug, PartialEq, Eq)]
pub enum Policy {
    Tier,
    All,
}

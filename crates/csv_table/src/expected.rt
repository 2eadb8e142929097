//! How many fields the record that is read next may have.
ghost use Rattle.std.specs.Prelude.{◌≡◌, None, Some, IfErr, IfOk};
ghost use Rattle.csv_table.specs.Expected.{length_fault, number_of};

use lake_model::CsvRefused;

/// The record that is read next, and how many fields it may have.
#[derive(Clone, Copy)]
pub(crate) enum Expected {
    /// The header, which is record 1, with at most `most` fields.
    Header { most: u32 },
    /// The record with this number, counted from 1, with as many fields as the header has.
    Record { number: u64, columns: u32 },
}

impl Expected {
    /// Returns the number of the record, counted from 1.
    pub(crate) fn number(self) -> u64
        ensures { result ≡ number_of self }
    {
        match self {
            Expected::Header { .. } => 1,
            Expected::Record { number, .. } => number,
        }
    }

    /// Returns the number of fields that were counted, or refuses the record for it.
    pub(crate) fn admit(self, got: usize) -> Result<u32, CsvRefused>
        ensures same { IfOk result (λ count. count ≡ got) }
        ensures sound { IfOk result (λ _. length_fault self got ≡ None) }
        ensures refused { IfErr result (λ e. length_fault self got ≡ Some e) }
    {
        match self {
            Expected::Header { most } => {
                if got > most as usize {
                    return Err(CsvRefused::TooManyColumns { got: got as u64 });
                }
            }
            Expected::Record { number, columns } => {
                if got != columns as usize {
                    return Err(CsvRefused::Unequal {
                        row: number,
                        want: columns as u64,
                        got: got as u64,
                    });
                }
            }
        }
        Ok(got as u32)
    }
}

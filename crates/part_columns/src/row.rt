//! The row of a column.
ghost use Rattle.std.specs.Prelude.{◌≡◌, ◌<◌, length};
ghost use Rattle.search_model.specs.Arrays.{titled_at};
ghost use Rattle.search_model.specs.Looks.{row_with};
ghost use Rattle.segment_core.specs.Versions.{segment_at};

use column_set::Row;
use segment_core::Looks;

/// Returns the row of a column with this overlap, whether or not its table is marked.
pub fn row_of_column<'a>(looks: &Looks<'a>, part: u32, column: u32, overlap: u32) -> Row<'a>
    requires part { part < length looks.now.version.parts }
    requires column { column < length (segment_at looks.now.version.parts part).sets }
    ensures { result ≡ row_with overlap (titled_at (segment_at looks.now.version.parts part).columns column) }
{
    let (titles, place) = looks.table_of(part, column);
    Row {
        overlap,
        titles,
        place,
    }
}

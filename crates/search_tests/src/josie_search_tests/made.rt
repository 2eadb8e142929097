//! Made lakes in each layout, compared with the plain model.
ghost use Rattle.std.specs.Prelude.{◌<◌};

use super::comparing::Laid;
use super::lakes::version;
use super::model::{Column, Counted, Part, search};
use column_set::{Keys, Name, QuerySet};
use cost_model::AlwaysRead;
use josie_search::SearchRoom;
use segment_core::Pin;
use std::alloc::Global;
use std::test::Fail;

// The tables of a lake: names, in another order than theirs, and CSV bytes as the plain model reads them.
type Tables = [(&'static str, &'static str); 4];

// Each letter is in two to five of the columns, and each column has three or four letters.
const TIES: Tables = [
    ("w", "Q,P\na,a\nb,c\nd,e\n ,g\n"),
    ("t", "P,P\na,b\nc,d\ne,f\ng,h\n"),
    ("v", "P,Q\nb,a\nd,c\ng,d\n"),
    ("u", "Q,Q\na,e\nc,f\nf,b\n ,h\n"),
];

// The columns have none to eight letters, and a probe of the largest costs more than some lists.
const SIZES: Tables = [
    ("w", "Q,P\nf,b\nj,c\n"),
    ("t", "Q,Q\nb, \nd, \ne, \ng, \nj, \nk, \n"),
    ("v", "Q,P\na, \n"),
    ("u", "Q,Q\nb,g\nd,k\ne, \nh, \ni, \nj, \nk, \nl, \n"),
];

// The layouts: the number of each part, and its first column and the one behind its last, counted from 0.
const LAYOUTS: [&[(u64, usize, usize)]; 3] = [
    &[(5, 0, 8)],
    &[(5, 0, 4), (6, 4, 8)],
    &[(5, 0, 2), (6, 2, 6), (7, 6, 8)],
];

// A search: the tables of the lake, which of them are marked, the name of the excepted table or of none, the lines of
// the query, and how many rows.
#[derive(Clone, Copy)]
struct Asked {
    tables: Tables,
    marked: [bool; 4],
    except: &'static str,
    body: &'static str,
    k: u32,
}

// Returns the columns of the lake.
fn columns(alloc: Global, asked: &Asked) -> Result<Vec<Column>, Fail> {
    let mut columns = Vec::new(alloc);
    for i in 0..4usize {
        let (name, text) = asked.tables[i];
        let eligible = !asked.marked[i] && asked.except != name;
        columns.push(Column::new(name, text, 1, eligible))?;
        columns.push(Column::new(name, text, 2, eligible))?;
    }
    Ok(columns)
}

// Returns the parts of the plain model in a layout.
fn parts(
    alloc: Global,
    columns: &[Column],
    layout: &[(u64, usize, usize)],
) -> Result<Vec<Part>, Fail> {
    let mut parts = Vec::new(alloc);
    for (number, from, to) in layout {
        let own = columns.get(*from..*to).ok_or("no such columns")?;
        parts.push(Part::new(alloc, *number, own)?)?;
    }
    Ok(parts)
}

// Returns what a search that only reads finds, over the lake in one part.
fn rows_read(alloc: Global, asked: &Asked, columns: &[Column]) -> Result<Vec<Counted>, Fail> {
    let parts = parts(alloc, columns, LAYOUTS[0])?;
    let (rows, _log) = search(alloc, &parts, asked.body, asked.k as usize, &AlwaysRead)?;
    Ok(rows)
}

// Searches the lake in the layout of this number.
fn one_layout(
    alloc: Global,
    asked: Asked,
    columns: &[Column],
    rows: &[Counted],
    layout: usize,
    room: &mut SearchRoom,
) -> Result<(), Fail>
    requires { layout < 3 }
{
    let pin = Pin::new(version(alloc, &asked.tables, asked.marked, layout + 1)?);
    let parts = parts(alloc, columns, LAYOUTS[layout])?;
    let query = QuerySet::read(alloc, Keys::Canonical, asked.body.as_bytes())?;
    let name = Name::read(asked.except.as_bytes());
    let except = name.as_ref();
    let laid = Laid {
        pin: &pin,
        parts: &parts,
        letters: asked.body,
        k: asked.k,
        query: &query,
        except,
        rows,
    };
    laid.compare_all(alloc, room)
}

// Searches the lake in three parts, in one and in two. The greatest part has four columns, eight, and four again.
fn all_layouts(alloc: Global, asked: Asked, room: &mut SearchRoom) -> Result<(), Fail> {
    let columns = columns(alloc, &asked)?;
    let rows = rows_read(alloc, &asked, &columns)?;
    one_layout(alloc, asked, &columns, &rows, 2, room)?;
    one_layout(alloc, asked, &columns, &rows, 0, room)?;
    one_layout(alloc, asked, &columns, &rows, 1, room)
}

// More keys than all tables have: theirs are letters up to l.
const LONG: &str =
    "0\n1\n2\n3\n4\n5\n6\n7\n8\n9\na\nb\nc\nd\ne\nf\ng\nh\ni\nj\nk\nl\nm\nn\no\np\nq\nr\ns\nt\nu\nv\nw\nx\ny\nz\n";

// The queries, and how many rows are asked for. No table has the key z.
const QUERIES: [(&str, u32); 6] = [
    ("a\nb\nc\nd\ne\nf\ng\nh\ni\nj\nk\nl\n", 3),
    ("a\nb\nc\nd\ne\nf\ng\nh\ni\nj\nk\nl\n", 1),
    ("b\nd\nf\ng\nh\nj\nk\nl\n", 2),
    ("a\nc\ne\ng\nz\n", 4),
    ("h\n", 8),
    (LONG, 3),
];

// Searches a lake for each query, with these marked tables and this excepted one. All searches share one room, which has
// to be made anew for the first part of eight columns.
fn all_queries(
    alloc: Global,
    tables: Tables,
    marked: [bool; 4],
    except: &'static str,
) -> Result<(), Fail> {
    let mut room = SearchRoom::new();
    for (body, k) in QUERIES {
        let asked = Asked {
            tables,
            marked,
            except,
            body,
            k,
        };
        all_layouts(alloc, asked, &mut room)?;
    }
    Ok(())
}

#[test]
fn ties(rt: HostRuntime) -> Result<(), Fail> {
    all_queries(rt.alloc(), TIES, [false; 4], "")
}

#[test]
fn ties_with_a_mark_and_an_exception(rt: HostRuntime) -> Result<(), Fail> {
    all_queries(rt.alloc(), TIES, [false, false, true, false], "w")
}

#[test]
fn sizes(rt: HostRuntime) -> Result<(), Fail> {
    all_queries(rt.alloc(), SIZES, [false; 4], "")
}

#[test]
fn sizes_with_a_mark_and_an_exception(rt: HostRuntime) -> Result<(), Fail> {
    all_queries(rt.alloc(), SIZES, [true, false, false, false], "t")
}

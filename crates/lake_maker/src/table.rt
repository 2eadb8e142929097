//! The tables of a made lake: their names and their bytes.
ghost use Rattle.std.specs.Prelude.{◌≡◌, ◌≤◌, ◌<◌, ◌*◌, ◌++◌, ◌∷◌, [], IfOk, OnOk};
ghost use Rattle.option_model.specs.Generator.{cell, record_text, state_at, table_name, table_text};

use crate::draws::Draws;
use column_set::Name;
use commands::Body;
use no_memory::NoMemory;
use reply_text::{push_bytes, push_number};
use std::alloc::Global;

// Returns the name of the table with this number: `g` and the number.
pub(crate) fn table_name(alloc: Global, number: u32) -> Result<Name, NoMemory>
    ensures { IfOk result (λ name. name ≡ table_name number) }
{
    let mut bytes = Vec::new(alloc);
    push_bytes(b"g", &mut bytes)?;
    push_number(u64::from(number), &mut bytes)?;
    let Some(name) = Name::read(&bytes) else {
        unreachable!()
    };
    Ok(name)
}

// Appends a cell: `v` and a number below `below`.
fn push_cell(draws: &mut Draws, below: u32, into: &mut Vec<u8>) -> Result<(), NoMemory>
    requires { 0 < below }
    ensures cell { OnOk result (into.new.items ≡ into.old.items ++ cell draws.old 0 below) }
    ensures state { draws.new ≡ state_at draws.old 1 }
{
    let number = draws.draw() % below;
    push_bytes(b"v", into)?;
    push_number(u64::from(number), into)
}

// Appends a record of three cells.
fn push_record(draws: &mut Draws, into: &mut Vec<u8>) -> Result<(), NoMemory>
    ensures text { OnOk result (into.new.items ≡ into.old.items ++ record_text draws.old 0) }
    ensures state { OnOk result (draws.new ≡ state_at draws.old 3) }
{
    push_cell(draws, 64, into)?;
    push_bytes(b",", into)?;
    push_cell(draws, 1024, into)?;
    push_bytes(b",", into)?;
    push_cell(draws, 16384, into)?;
    push_bytes(b"\n", into)
}

// Returns the bytes of a table: its header and its records.
fn table_bytes(alloc: Global, draws: &mut Draws, rows: u32) -> Result<Vec<u8>, NoMemory>
    ensures bytes { IfOk result (λ bytes. bytes.items ≡ table_text draws.old rows 0) }
    ensures state { OnOk result (draws.new ≡ state_at draws.old (3 * rows)) }
{
    let mut bytes = Vec::from_slice(alloc, b"a,b,c\n")?;
    for _row in 0..rows {
        push_record(draws, &mut bytes)?;
    }
    Ok(bytes)
}

// Returns a table as the body of a load. With at most 5,000 rows it is far shorter than a body may be.
pub(crate) fn table_body(alloc: Global, draws: &mut Draws, rows: u32) -> Result<Body, NoMemory>
    requires { rows ≤ 5000 }
    ensures body { IfOk result (λ body. body ≡ table_text draws.old rows 0) }
    ensures state { OnOk result (draws.new ≡ state_at draws.old (3 * rows)) }
{
    let Some(body) = Body::new(table_bytes(alloc, draws, rows)?) else {
        unreachable!()
    };
    Ok(body)
}

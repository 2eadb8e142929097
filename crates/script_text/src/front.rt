//! What a line outside a block says.
ghost use Rattle.std.specs.Prelude.{ℕ, ◌<◌, ◌≡◌, ◌≤◌, IfOk, bytes_eq, find, option_map};
ghost use Rattle.script_model.specs.Saying as model;
ghost use Rattle.script_model.specs.Saying.{asof_said, command_said, contain_said, forms, lane_said, like_said, said, says};
ghost use Rattle.script_model.specs.Words.{number_of, words};
ghost use Rattle.script_text.specs.Fronts.{IsSaidInRange, Says, form_of};

use crate::line::is_skipped;
use crate::spaces::{before_spaces, behind_word, first_word, has_no_word, only_word};
use column_set::Name;
use command_line::{read_any_number, read_number, read_number_or_zero};
use commands::Task;
use script_model::Reason;
use std::str;

/// The greatest `k` that a search may ask for.
const MOST_ROWS: u32 = 10000;

/// The greatest number of parts in a fraction.
const MOST_PARTS: u32 = 10000;

/// The greatest number of entries of the journal that a search of the past may ask for.
const MOST_ENTRIES: u32 = u32::MAX;

/// The greatest place of a column.
const MOST_PLACE: u32 = u32::MAX;

/// The kinds of commands, one for each command word.
#[derive(Clone, Copy, Debug, PartialEq, Eq)]
pub(crate) enum Form {
    Load,
    LoadFile,
    Drop,
    Replace,
    Tables,
    Search,
    Like,
    Contain,
    AsOf,
    Merge,
    Sync,
}

/// What a line says that opens a block.
#[derive(Drop)]
pub(crate) enum Front {
    Load { name: Name },
    Replace { name: Name },
    Search { k: u32 },
    Contain { a: u32, b: u32 },
    AsOf { asked: u64, k: u32 },
}

/// What a line says.
#[derive(Drop)]
pub(crate) enum Said<'a> {
    /// The line is skipped.
    Nothing,
    /// The line ends the batch.
    Sync,
    /// The line opens the block of a command.
    Opens {
        lane: u32,
        front: Front,
    },
    /// The line is a whole command.
    Does {
        lane: u32,
        task: Task,
    },
    /// The line is a load of a file.
    Fetches {
        lane: u32,
        name: Name,
        path: &'a str,
    },
}

// Returns what the line says, or what is wrong with it. Lanes are 1 to `lanes`.
pub(crate) fn read_said(lanes: u32, line: &[u8]) -> Result<Said<'_>, Reason>
    requires { 1 ≤ lanes }
    ensures said { Says (said lanes line.now) result }
    ensures in_range { IfOk result (IsSaidInRange lanes) }
{
    if is_skipped(line) {
        return Ok(Said::Nothing);
    }
    match first_word(line) {
        [b'@', digits @ ..] => lane_said(lanes, digits, behind_word(line)),
        _ => command_said(1, line),
    }
}

// Reads the command in a text that follows a lane word with these digits.
fn lane_said<'a>(lanes: u32, digits: &[u8], text: &'a [u8]) -> Result<Said<'a>, Reason>
    ensures said { Says (lane_said lanes (number_of digits.now) text.now) result }
    ensures in_range { IfOk result (IsSaidInRange lanes) }
{
    let Some(lane) = read_any_number(digits) else {
        return Err(Reason::Words);
    };
    if first_word(text) == b"sync".as_slice() {
        return Err(Reason::Words);
    }
    if lane > u64::from(lanes) {
        return Err(Reason::Lane);
    }
    command_said(lane as u32, text)
}

// Reads the command in a text without its lane word.
fn command_said(lane: u32, text: &[u8]) -> Result<Said<'_>, Reason>
    requires { 0 < lane }
    ensures said { Says (command_said lane text.now) result }
    ensures in_range { IfOk result (λ said. (lanes : ℕ) → lane ≤ lanes → IsSaidInRange lanes said) }
{
    let Some(form) = read_form(first_word(text)) else {
        return Err(Reason::Unknown);
    };
    says(form, lane, behind_word(text))
}

// Returns the kind of command that the word names.
fn read_form(word: &[u8]) -> Option<Form>
    ensures { option_map form_of result ≡ option_map (λ form. form.1) (find (λ form. bytes_eq form.0 word.now) forms) }
{
    if b"load".as_slice() == word {
        return Some(Form::Load);
    }
    if b"loadfile".as_slice() == word {
        return Some(Form::LoadFile);
    }
    if b"drop".as_slice() == word {
        return Some(Form::Drop);
    }
    if b"replace".as_slice() == word {
        return Some(Form::Replace);
    }
    if b"tables".as_slice() == word {
        return Some(Form::Tables);
    }
    if b"search".as_slice() == word {
        return Some(Form::Search);
    }
    if b"like".as_slice() == word {
        return Some(Form::Like);
    }
    if b"contain".as_slice() == word {
        return Some(Form::Contain);
    }
    if b"asof".as_slice() == word {
        return Some(Form::AsOf);
    }
    if b"merge".as_slice() == word {
        return Some(Form::Merge);
    }
    if b"sync".as_slice() == word {
        return Some(Form::Sync);
    }
    None
}

// Reads a command of this kind, of which `text` is what follows the command word.
fn says(form: Form, lane: u32, text: &[u8]) -> Result<Said<'_>, Reason>
    requires { 0 < lane }
    ensures said { Says (says (form_of form) lane (words text.now) text.now) result }
    ensures in_range { IfOk result (λ said. (lanes : ℕ) → lane ≤ lanes → IsSaidInRange lanes said) }
{
    match form {
        Form::Load => load_said(lane, text),
        Form::LoadFile => load_file_said(lane, text),
        Form::Drop => drop_said(lane, text),
        Form::Replace => replace_said(lane, text),
        Form::Tables => tables_said(lane, text),
        Form::Search => search_said(lane, text),
        Form::Like => like_said(lane, text),
        Form::Contain => contain_said(lane, text),
        Form::AsOf => asof_said(lane, text),
        Form::Merge => merge_said(lane, text),
        Form::Sync => sync_said(text),
    }
}

// `load NAME`.
fn load_said(lane: u32, text: &[u8]) -> Result<Said<'_>, Reason>
    requires { 0 < lane }
    ensures said { Says (says model.LoadForm lane (words text.now) text.now) result }
    ensures in_range { IfOk result (λ said. (lanes : ℕ) → lane ≤ lanes → IsSaidInRange lanes said) }
{
    let Some(word) = only_word(text) else {
        return Err(Reason::Words);
    };
    match Name::read(word) {
        Some(name) => Ok(Said::Opens {
            lane,
            front: Front::Load { name },
        }),
        None => Err(Reason::Words),
    }
}

// `loadfile NAME PATH`, where the path is the rest of the line.
fn load_file_said(lane: u32, text: &[u8]) -> Result<Said<'_>, Reason>
    requires { 0 < lane }
    ensures said { Says (says model.LoadFileForm lane (words text.now) text.now) result }
    ensures in_range { IfOk result (λ said. (lanes : ℕ) → lane ≤ lanes → IsSaidInRange lanes said) }
{
    let rest = behind_word(text);
    if has_no_word(rest) {
        return Err(Reason::Words);
    }
    let Some(name) = Name::read(first_word(text)) else {
        return Err(Reason::Words);
    };
    match str::from_utf8(before_spaces(rest)) {
        Ok(path) => Ok(Said::Fetches { lane, name, path }),
        Err(_) => Err(Reason::Words),
    }
}

// `drop NAME`.
fn drop_said(lane: u32, text: &[u8]) -> Result<Said<'_>, Reason>
    requires { 0 < lane }
    ensures said { Says (says model.DropForm lane (words text.now) text.now) result }
    ensures in_range { IfOk result (λ said. (lanes : ℕ) → lane ≤ lanes → IsSaidInRange lanes said) }
{
    let Some(word) = only_word(text) else {
        return Err(Reason::Words);
    };
    match Name::read(word) {
        Some(name) => Ok(Said::Does {
            lane,
            task: Task::Drop { name },
        }),
        None => Err(Reason::Words),
    }
}

// `replace NAME`.
fn replace_said(lane: u32, text: &[u8]) -> Result<Said<'_>, Reason>
    requires { 0 < lane }
    ensures said { Says (says model.ReplaceForm lane (words text.now) text.now) result }
    ensures in_range { IfOk result (λ said. (lanes : ℕ) → lane ≤ lanes → IsSaidInRange lanes said) }
{
    let Some(word) = only_word(text) else {
        return Err(Reason::Words);
    };
    match Name::read(word) {
        Some(name) => Ok(Said::Opens {
            lane,
            front: Front::Replace { name },
        }),
        None => Err(Reason::Words),
    }
}

// `tables`.
fn tables_said(lane: u32, text: &[u8]) -> Result<Said<'_>, Reason>
    requires { 0 < lane }
    ensures said { Says (says model.TablesForm lane (words text.now) text.now) result }
    ensures in_range { IfOk result (λ said. (lanes : ℕ) → lane ≤ lanes → IsSaidInRange lanes said) }
{
    if !has_no_word(text) {
        return Err(Reason::Words);
    }
    Ok(Said::Does {
        lane,
        task: Task::Tables,
    })
}

// `search K`.
fn search_said(lane: u32, text: &[u8]) -> Result<Said<'_>, Reason>
    requires { 0 < lane }
    ensures said { Says (says model.SearchForm lane (words text.now) text.now) result }
    ensures in_range { IfOk result (λ said. (lanes : ℕ) → lane ≤ lanes → IsSaidInRange lanes said) }
{
    let Some(word) = only_word(text) else {
        return Err(Reason::Words);
    };
    match read_number(word, MOST_ROWS) {
        Some(k) => Ok(Said::Opens {
            lane,
            front: Front::Search { k },
        }),
        None => Err(Reason::Words),
    }
}

// `like K NAME PLACE`.
fn like_said(lane: u32, text: &[u8]) -> Result<Said<'_>, Reason>
    requires { 0 < lane }
    ensures said { Says (says model.LikeForm lane (words text.now) text.now) result }
    ensures in_range { IfOk result (λ said. (lanes : ℕ) → lane ≤ lanes → IsSaidInRange lanes said) }
{
    let behind_k = behind_word(text);
    let Some(place) = only_word(behind_word(behind_k)) else {
        return Err(Reason::Words);
    };
    read_like(lane, first_word(text), first_word(behind_k), place)
}

// Reads a search by the column at a place of a table.
fn read_like(lane: u32, k: &[u8], name: &[u8], place: &[u8]) -> Result<Said<'static>, Reason>
    requires { 0 < lane }
    ensures said { Says (like_said lane k.now name.now place.now) result }
    ensures in_range { IfOk result (λ said. (lanes : ℕ) → lane ≤ lanes → IsSaidInRange lanes said) }
{
    let Some(k) = read_number(k, MOST_ROWS) else {
        return Err(Reason::Words);
    };
    let Some(place) = read_number(place, MOST_PLACE) else {
        return Err(Reason::Words);
    };
    let Some(name) = Name::read(name) else {
        return Err(Reason::Words);
    };
    Ok(Said::Does {
        lane,
        task: Task::Like { k, name, place },
    })
}

// `contain A B`.
fn contain_said(lane: u32, text: &[u8]) -> Result<Said<'_>, Reason>
    requires { 0 < lane }
    ensures said { Says (says model.ContainForm lane (words text.now) text.now) result }
    ensures in_range { IfOk result (λ said. (lanes : ℕ) → lane ≤ lanes → IsSaidInRange lanes said) }
{
    let Some(b) = only_word(behind_word(text)) else {
        return Err(Reason::Words);
    };
    read_contain(lane, first_word(text), b)
}

// Reads a search for the columns that hold at least `a` of `b` parts of the lines of the block.
fn read_contain(lane: u32, a: &[u8], b: &[u8]) -> Result<Said<'static>, Reason>
    requires { 0 < lane }
    ensures said { Says (contain_said lane a.now b.now) result }
    ensures in_range { IfOk result (λ said. (lanes : ℕ) → lane ≤ lanes → IsSaidInRange lanes said) }
{
    let Some(a) = read_number(a, MOST_PARTS) else {
        return Err(Reason::Words);
    };
    let Some(b) = read_number(b, MOST_PARTS) else {
        return Err(Reason::Words);
    };
    if a > b {
        return Err(Reason::Words);
    }
    Ok(Said::Opens {
        lane,
        front: Front::Contain { a, b },
    })
}

// `asof A K`.
fn asof_said(lane: u32, text: &[u8]) -> Result<Said<'_>, Reason>
    requires { 0 < lane }
    ensures said { Says (says model.AsOfForm lane (words text.now) text.now) result }
    ensures in_range { IfOk result (λ said. (lanes : ℕ) → lane ≤ lanes → IsSaidInRange lanes said) }
{
    let Some(k) = only_word(behind_word(text)) else {
        return Err(Reason::Words);
    };
    read_asof(lane, first_word(text), k)
}

// Reads a search of the tables that were live after the first `asked` entries of the journal.
fn read_asof(lane: u32, asked: &[u8], k: &[u8]) -> Result<Said<'static>, Reason>
    requires { 0 < lane }
    ensures said { Says (asof_said lane asked.now k.now) result }
    ensures in_range { IfOk result (λ said. (lanes : ℕ) → lane ≤ lanes → IsSaidInRange lanes said) }
{
    let Some(asked) = read_number_or_zero(asked, MOST_ENTRIES) else {
        return Err(Reason::Words);
    };
    let Some(k) = read_number(k, MOST_ROWS) else {
        return Err(Reason::Words);
    };
    let asked = u64::from(asked);
    Ok(Said::Opens {
        lane,
        front: Front::AsOf { asked, k },
    })
}

// `merge`, or `merge all`.
fn merge_said(lane: u32, text: &[u8]) -> Result<Said<'_>, Reason>
    requires { 0 < lane }
    ensures said { Says (says model.MergeForm lane (words text.now) text.now) result }
    ensures in_range { IfOk result (λ said. (lanes : ℕ) → lane ≤ lanes → IsSaidInRange lanes said) }
{
    if has_no_word(text) {
        return Ok(Said::Does {
            lane,
            task: Task::Merge { all: false },
        });
    }
    let Some(word) = only_word(text) else {
        return Err(Reason::Words);
    };
    if word != b"all".as_slice() {
        return Err(Reason::Words);
    }
    Ok(Said::Does {
        lane,
        task: Task::Merge { all: true },
    })
}

// `sync`, which has no lane.
fn sync_said(text: &[u8]) -> Result<Said<'_>, Reason>
    ensures said { (lane : ℕ) → Says (says model.SyncForm lane (words text.now) text.now) result }
    ensures in_range { IfOk result (λ said. (lanes : ℕ) → IsSaidInRange lanes said) }
{
    if !has_no_word(text) {
        return Err(Reason::Words);
    }
    Ok(Said::Sync)
}

//! The looks and the rows of a search, computed from whole sets: what is known, what is open, and its bounds, step by
//! step.
//!
//! The keys are the letters from a to r, and the names of tables and columns are letters, too. Each line of a table's CSV
//! bytes has two bytes for each column: a letter, or a space if there is no value, and the comma or the line feed after
//! it. The first line has the names of the columns.

use column_set::Row;
use cost_model::{Chooser, Summary};
use segment_core::Look;
use std::alloc::Global;
use std::test::Fail;

/// A column: the name of its table, its own name, its place in the table, whether its table is neither marked nor
/// excepted, and the table's CSV bytes.
#[derive(Clone, Copy)]
pub(crate) struct Column {
    table: u8,
    title: u8,
    place: u32,
    eligible: bool,
    text: &'static str,
}

/// A row: 100 minus the overlap, so that the greater overlap comes first, the table's name, the column's name, and the
/// place.
pub(crate) type Counted = (u32, u8, u8, u32);

// A letter that some column has: how many columns have it, and which it is. Tokens compare in this order.
type Token = (u32, u8);

/// A part of a lake: its number, its columns, and its letters in the order of tokens.
#[derive(Drop)]
pub(crate) struct Part {
    number: u64,
    columns: Vec<Column>,
    tokens: Vec<Token>,
}

// What is known of a column after some lists.
#[derive(Clone, Copy)]
struct Seen {
    count: u32,
    position: u32,
    rest: u32,
    bound: u32,
}

// How far a search has come in a part: how many lists it has read, and which columns it has probed.
#[derive(Drop)]
struct Progress {
    read: usize,
    probed: Vec<usize>,
}

// What a search does next in a part: it ends, knows all columns, reads the list of a token, or probes a column.
#[derive(Clone, Copy)]
enum Next {
    End,
    KnowAll,
    Read(Token),
    Probe(usize, u32),
}

// Returns how far an overlap is below 100, so that the greater one comes first; or the overlap, given that.
fn inverse(overlap: u32) -> u32 {
    100u32.saturating_sub(overlap)
}

// Returns whether a row comes before the worst one.
fn is_better(row: Counted, worst: Option<Counted>) -> bool {
    match worst {
        None => true,
        Some(worst) => row < worst,
    }
}

// Returns the overlap that a row needs: that of the worst one, or 1.
fn threshold(worst: Option<Counted>) -> u32 {
    match worst {
        None => 1,
        Some(worst) => inverse(worst.0),
    }
}

// Returns a small number.
fn small(number: usize) -> u32 {
    (number % 1000) as u32
}

// Returns the letter at a place of a text, counted from 0.
fn letter(text: &str, at: usize) -> u8 {
    match text.as_bytes().get(at) {
        None => 0,
        Some(letter) => *letter,
    }
}

// Returns where the letter of the column at a place begins in a line.
fn start(place: u32) -> usize {
    2 * place.saturating_sub(1) as usize
}

impl Column {
    /// Returns the column of a table with these CSV bytes at a place, from 1.
    pub(crate) fn new(table: &str, text: &'static str, place: u32, eligible: bool) -> Column {
        Column {
            table: letter(table, 0),
            title: letter(text, start(place)),
            place,
            eligible,
            text,
        }
    }

    fn row(&self, overlap: u32) -> Counted {
        (inverse(overlap), self.table, self.title, self.place)
    }

    // Returns whether the column has a letter.
    fn has(&self, letter: u8) -> bool {
        let at = start(self.place);
        for line in self.text.lines().skip(1) {
            if line.as_bytes().get(at) == Some(&letter) {
                return true;
            }
        }
        false
    }

    // Returns how many of these tokens the column has.
    fn count(&self, tokens: &[Token]) -> u32 {
        let mut count = 0u32;
        for token in tokens {
            if self.has(token.1) {
                count = count.saturating_add(1);
            }
        }
        count
    }

    // Returns the last of these tokens that the column has.
    fn last(&self, tokens: &[Token]) -> Option<Token> {
        let mut last = None;
        for token in tokens {
            if self.has(token.1) {
                last = Some(*token);
            }
        }
        last
    }

    // Returns how many of these tokens before `last` the column has.
    fn position(&self, tokens: &[Token], last: Token) -> u32 {
        let mut position = 0u32;
        for token in tokens {
            if *token < last && self.has(token.1) {
                position = position.saturating_add(1);
            }
        }
        position
    }
}

// Returns how many of the columns have a letter.
fn frequency(columns: &[Column], letter: u8) -> u32 {
    let mut count = 0u32;
    for column in columns {
        if column.has(letter) {
            count = count.saturating_add(1);
        }
    }
    count
}

impl Part {
    /// Returns the part of these columns.
    pub(crate) fn new(alloc: Global, number: u64, columns: &[Column]) -> Result<Part, Fail> {
        let mut tokens = Vec::new(alloc);
        for letter in b'a'..=b'r' {
            let count = frequency(columns, letter);
            if count > 0 {
                tokens.push((count, letter))?;
            }
        }
        tokens.sort()?;
        Ok(Part {
            number,
            columns: Vec::from_slice(alloc, columns)?,
            tokens,
        })
    }

    // Returns the number of a token.
    fn token(&self, token: Token) -> u32 {
        let mut number = 0u32;
        for other in &self.tokens {
            if *other < token {
                number = number.saturating_add(1);
            }
        }
        number
    }

    // Returns the tokens of these letters, in order.
    fn asked(&self, alloc: Global, letters: &str) -> Result<Vec<Token>, Fail> {
        let mut asked = Vec::new(alloc);
        for token in &self.tokens {
            if letters.as_bytes().contains(&token.1) {
                asked.push(*token)?;
            }
        }
        Ok(asked)
    }

    // Returns what is known of a column that is in one of the lists read, with `left` lists left.
    fn seen(&self, column: &Column, read: &[Token], left: u32) -> Option<Seen> {
        let last = column.last(read)?;
        let position = column.position(&self.tokens, last);
        let rest = column
            .count(&self.tokens)
            .saturating_sub(1)
            .saturating_sub(position);
        let count = column.count(read);
        Some(Seen {
            count,
            position,
            rest,
            bound: count.saturating_add(left.min(rest)),
        })
    }

    // Returns the first of the open columns.
    fn best(
        &self,
        progress: &Progress,
        read: &[Token],
        left: u32,
        worst: Option<Counted>,
    ) -> Option<(usize, Seen)> {
        let mut first = worst;
        let mut best = None;
        for (number, column) in self.columns.iter().enumerate() {
            if column.eligible && !progress.probed.contains(&number) {
                if let Some(seen) = self.seen(column, read, left) {
                    let row = column.row(seen.bound);
                    if is_better(row, first) {
                        first = Some(row);
                        best = Some((number, seen));
                    }
                }
            }
        }
        best
    }

    // Returns what a search does next.
    fn next<C: Chooser>(
        &self,
        asked: &[Token],
        progress: &Progress,
        worst: Option<Counted>,
        chooser: &C,
    ) -> Next {
        let Some((read, rest)) = asked.split_at_checked(progress.read) else {
            return Next::End;
        };
        let Some(next) = rest.first() else {
            return Next::KnowAll;
        };
        let left = small(rest.len());
        match self.best(progress, read, left, worst) {
            None if left < threshold(worst) => Next::End,
            None => Next::Read(*next),
            Some((number, seen)) => {
                if chooser.probe(&summary(asked, progress.read, seen, worst)) {
                    Next::Probe(number, seen.position)
                } else {
                    Next::Read(*next)
                }
            }
        }
    }

    // Adds the looks of the part to `log`, and the rows that are known after them to `known`.
    fn play<C: Chooser>(
        &self,
        alloc: Global,
        asked: &[Token],
        k: usize,
        chooser: &C,
        known: &mut Vec<Counted>,
        log: &mut Vec<Look>,
    ) -> Result<(), Fail> {
        let mut progress = Progress {
            read: 0,
            probed: Vec::new(alloc),
        };
        for _ in 0..1000u32 {
            known.sort()?;
            let worst = known.get(k.saturating_sub(1)).copied();
            match self.next(asked, &progress, worst, chooser) {
                Next::End => return Ok(()),
                Next::KnowAll => return self.know_all(asked, &progress, known),
                Next::Read(token) => {
                    log.push(self.read(token))?;
                    progress.read = progress.read.saturating_add(1);
                }
                Next::Probe(number, after) => {
                    log.push(self.probe(number, after))?;
                    progress.probed.push(number)?;
                    self.know(number, asked, known)?;
                }
            }
        }
        Err(Fail::from("no end"))
    }

    fn read(&self, token: Token) -> Look {
        Look::Read {
            part: self.number,
            token: self.token(token),
        }
    }

    fn probe(&self, number: usize, after: u32) -> Look {
        Look::Probe {
            part: self.number,
            set: small(number),
            after,
        }
    }

    // Adds the row of a column that was probed.
    fn know(&self, number: usize, asked: &[Token], known: &mut Vec<Counted>) -> Result<(), Fail> {
        let column = self.columns.get(number).ok_or("no column")?;
        known.push(column.row(column.count(asked)))?;
        Ok(())
    }

    // Adds the rows of the columns that were not probed, once all lists were read.
    fn know_all(
        &self,
        asked: &[Token],
        progress: &Progress,
        known: &mut Vec<Counted>,
    ) -> Result<(), Fail> {
        for (number, column) in self.columns.iter().enumerate() {
            let count = column.count(asked);
            if column.eligible && count > 0 && !progress.probed.contains(&number) {
                known.push(column.row(count))?;
            }
        }
        Ok(())
    }
}

// Returns the cost of the lists that an overlap of `estimate` would spare.
fn gain(asked: &[Token], read: usize, worst: Option<Counted>, estimate: u32) -> u64 {
    if worst.is_none() {
        return 0;
    }
    let mut gain = 0u64;
    for (place, token) in asked.iter().enumerate() {
        let left = small(asked.len().saturating_sub(place));
        if place >= read && left >= threshold(worst) && left < estimate {
            gain = gain
                .saturating_add(64)
                .saturating_add(4u64.saturating_mul(u64::from(token.0)));
        }
    }
    gain
}

// Returns the overlap that a column would have if the lists that are left gave as many as those read.
fn guess(lists: u32, done: u32, seen: Seen) -> u32 {
    let guess = seen.count.saturating_mul(lists).checked_div(done);
    seen.count.max(seen.bound.min(guess.unwrap_or(0)))
}

// Returns what a chooser sees.
fn summary(asked: &[Token], read: usize, seen: Seen, worst: Option<Counted>) -> Summary {
    let lists = small(asked.len());
    let done = small(read);
    let next_len = match asked.get(read) {
        None => 0,
        Some(token) => token.0,
    };
    Summary {
        next_len,
        left: lists.saturating_sub(done),
        c: seen.count,
        u: seen.bound,
        rest: seen.rest,
        t: threshold(worst),
        gain: gain(asked, read, worst, guess(lists, done, seen)),
    }
}

/// Returns the rows of a search for these letters, and its log.
pub(crate) fn search<C: Chooser>(
    alloc: Global,
    parts: &[Part],
    letters: &str,
    k: usize,
    chooser: &C,
) -> Result<(Vec<Counted>, Vec<Look>), Fail> {
    let mut known = Vec::new(alloc);
    let mut log = Vec::new(alloc);
    for part in parts {
        let asked = part.asked(alloc, letters)?;
        part.play(alloc, &asked, k, chooser, &mut known, &mut log)?;
    }
    known.sort()?;
    known.truncate(k);
    Ok((known, log))
}

/// Returns whether a row is this one.
pub(crate) fn is_counted(row: &Row<'_>, counted: Counted) -> bool {
    let (left, table, title, place) = counted;
    inverse(row.overlap) == left
        && letter(row.table().text(), 0) == table
        && letter(row.column(), 0) == title
        && row.place == place
}

//! The sums of a summary.
ghost use Rattle.std.specs.Prelude.{◌≡◌, ◌+◌, sum_by, IfOk};
ghost use Rattle.lake_maker.specs.Sums.{added, sums_in, sums_of};
ghost use Rattle.run_record.specs.Replies.{reply_of};

use column_set::KeptRow;
use no_memory::NoMemory;
use run_record::{Answered, Reply};

// The sums over the replies of a made lake: accepted loads and their members, accepted swaps, the searches that were
// answered, their rows and the overlaps of these, and the posting lists that these searches read and the sets that they
// probed.
#[derive(Clone, Copy)]
pub(crate) struct Sums {
    pub(crate) tables: u128,
    pub(crate) members: u128,
    pub(crate) merges: u128,
    pub(crate) answers: u128,
    pub(crate) rows: u128,
    pub(crate) overlap: u128,
    pub(crate) reads: u128,
    pub(crate) probes: u128,
}

// The sums over no replies.
const NONE: Sums = Sums {
    tables: 0,
    members: 0,
    merges: 0,
    answers: 0,
    rows: 0,
    overlap: 0,
    reads: 0,
    probes: 0,
};

// Returns the sum of the overlaps of rows.
fn overlap_of(rows: &[KeptRow]) -> u128
    ensures { result ≡ sum_by (λ row. row.overlap) rows.now }
{
    rows.iter().map(|row| u128::from(row.overlap())).sum()
}

// Returns what a reply adds to each sum.
fn sums_in(reply: &Reply) -> Sums
    ensures { result ≡ sums_in (reply_of reply.now) }
{
    match reply {
        Reply::Loaded { members, .. } => Sums {
            tables: 1,
            members: u128::from(*members),
            ..NONE
        },
        Reply::Merged { .. } => Sums { merges: 1, ..NONE },
        Reply::Found {
            rows,
            reads,
            probes,
            ..
        } => Sums {
            answers: 1,
            rows: rows.list().len() as u128,
            overlap: overlap_of(rows.list()),
            reads: u128::from(*reads),
            probes: u128::from(*probes),
            ..NONE
        },
        _ => NONE,
    }
}

// Returns a sum. A record with a sum of more than 128 bits does not fit into any memory.
fn plus(this: u128, that: u128) -> Result<u128, NoMemory>
    ensures { IfOk result (λ sum. sum ≡ this + that) }
{
    this.checked_add(that).ok_or(NoMemory)
}

// Adds sums, one by one.
fn add(these: Sums, those: Sums) -> Result<Sums, NoMemory>
    ensures { IfOk result (λ sums. sums ≡ added these those) }
{
    Ok(Sums {
        tables: plus(these.tables, those.tables)?,
        members: plus(these.members, those.members)?,
        merges: plus(these.merges, those.merges)?,
        answers: plus(these.answers, those.answers)?,
        rows: plus(these.rows, those.rows)?,
        overlap: plus(these.overlap, those.overlap)?,
        reads: plus(these.reads, those.reads)?,
        probes: plus(these.probes, those.probes)?,
    })
}

// Returns the sums over answers.
pub(crate) fn sums_of(answers: &[Answered]) -> Result<Sums, NoMemory>
    ensures { IfOk result (λ sums. sums ≡ sums_of answers.now) }
{
    let mut sums = NONE;
    for answer in answers {
        sums = add(sums, sums_in(&answer.reply))?;
    }
    Ok(sums)
}

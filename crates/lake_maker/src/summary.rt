//! The summary of the replies of a made lake.
ghost use Rattle.std.specs.Prelude.{◌≡◌, ◌++◌, decimal, OnErr, OnOk};
ghost use Rattle.lake_maker.specs.Sums.{sums_text};
ghost use Rattle.reply_text.specs.Keeping.{Keeps};
ghost use Rattle.option_model.specs.Generator.{summary};

use crate::sums::{Sums, sums_of};
use itoa::Buffer;
use no_memory::NoMemory;
use reply_text::push_bytes;
use run_record::RunRecord;

// Appends these words and a sum.
fn push_sum(words: &str, sum: u128, into: &mut Vec<u8>) -> Result<(), NoMemory>
    ensures ok { OnOk result (into.new.items ≡ into.old.items ++ words.now ++ decimal sum) }
    ensures kept { Keeps into.old.items into.new.items }
{
    let mut buffer = Buffer::new();
    push_bytes(words.as_bytes(), into)?;
    push_bytes(buffer.format(sum).as_bytes(), into)
}

// Appends the lines of sums.
fn push_sums(sums: Sums, into: &mut Vec<u8>) -> Result<(), NoMemory>
    ensures ok { OnOk result (into.new.items ≡ into.old.items ++ sums_text sums) }
    ensures kept { Keeps into.old.items into.new.items }
{
    push_sum("tables ", sums.tables, into)?;
    push_sum("\nmembers ", sums.members, into)?;
    push_sum("\nmerges ", sums.merges, into)?;
    push_sum("\nanswers ", sums.answers, into)?;
    push_sum(" rows ", sums.rows, into)?;
    push_sum(" overlap ", sums.overlap, into)?;
    push_sum("\nreads ", sums.reads, into)?;
    push_sum(" probes ", sums.probes, into)?;
    push_bytes(b"\n", into)
}

/// Appends the summary of a record: how many loads were accepted and their members, how many swaps, how many searches
/// were answered, their rows and the overlaps of these, and how many posting lists these searches read and how many
/// sets they probed. If memory runs out the text is unchanged.
pub fn write_summary(of: &RunRecord, into: &mut Vec<u8>) -> Result<(), NoMemory>
    ensures ok { OnOk result (into.new.items ≡ into.old.items ++ summary of.now.made) }
    ensures err { OnErr result (into.new.items ≡ into.old.items) }
{
    let sums = sums_of(of.answers())?;
    let written = into.len();
    if push_sums(sums, into).is_err() {
        into.truncate(written);
        return Err(NoMemory);
    }
    Ok(())
}

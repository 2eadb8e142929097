//! The work of a run: that of all batches, one after another.
ghost use Rattle.std.specs.Prelude.{◌≡◌, IfOk};
ghost use Rattle.std.specs.List.{AllByRecursion};
ghost use Rattle.trace_laws.specs.Verdict.{all_commands};
ghost use Rattle.batch_work.specs.Named.{HaveNames};
ghost use Rattle.batch_work.specs.Works.{works_of};

use batch_work::{Work, works_of};
use commands::Batch;
use no_memory::NoMemory;
use std::alloc::Global;

/// Returns the commands of all batches, each batch followed by its merges if there is a merger, which numbers them from
/// 1 on through all batches. If the numbers exceed 64 bits, for which there could be no memory, the result is
/// `Err(NoMemory)`, as when memory runs out. Each name in the commands is the name of a table.
pub(crate) fn all_works<'a>(
    alloc: Global,
    merge: bool,
    batches: &'a [Batch],
) -> Result<Vec<Work<'a>>, NoMemory>
    ensures works { IfOk result (λ works. works_of works.items ≡ all_commands merge 1 batches.now) }
    ensures names { IfOk result (λ works. AllByRecursion HaveNames batches.now) }
{
    let mut works = Vec::new(alloc);
    let mut next = 1u64;
    for batch in batches {
        let Some(behind) = next.checked_add(batch.updates()) else {
            return Err(NoMemory);
        };
        let mut more = works_of(alloc, batch, merge.then_some(next))?;
        works.append(&mut more)?;
        next = behind;
    }
    Ok(works)
}

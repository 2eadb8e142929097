//! Tests of how much is looked at in the segments of a lake: what the reply to each search states, one column for each
//! like, and nothing else.
use crate::making::{Asked, LIKES, Looked, ONE_LIST_DECIDES, batch};
use asof_search::Timeline;
use catalogue::{Catalogue, Limits};
use column_set::Keys;
use lake_core::drive;
use run_record::{Reply, RunRecord};
use std::alloc::Global;
use std::test::Fail;

// Sums the meters of all segments.
fn meters(catalogue: &Catalogue) -> Result<u64, Fail> {
    let pin = catalogue.pin()?;
    let mut sum = 0u64;
    for part in 0..pin.parts() {
        sum = sum.saturating_add(pin.meter(part));
    }
    Ok(sum)
}

// Returns these meters with the sums of the reads and the probes that the replies state.
fn looked(meters: u64, record: &RunRecord) -> Looked {
    let mut looked = Looked {
        meters,
        reads: 0,
        probes: 0,
    };
    for answered in record.answers() {
        if let Reply::Found { reads, probes, .. } = &answered.reply {
            looked.reads = looked.reads.saturating_add(*reads);
            looked.probes = looked.probes.saturating_add(*probes);
        }
    }
    looked
}

// Returns how much was looked at in a lake after a batch of one lane.
fn metered(alloc: Global, asked: &[(u32, Asked)]) -> Result<Looked, Fail> {
    let batch = batch(alloc, 1, asked)?;
    let mut catalogue = Catalogue::new(alloc, Limits::standard())?;
    let mut record = RunRecord::new(alloc);
    drive(
        alloc,
        &mut catalogue,
        Keys::Canonical,
        &mut Timeline::new(alloc),
        &batch,
        &[],
        1,
        None,
        &mut record,
    )?;
    Ok(looked(meters(&catalogue)?, &record))
}

#[test]
fn one_list_and_one_set(rt: HostRuntime) -> Result<(), Fail> {
    let looked = metered(rt.alloc(), &ONE_LIST_DECIDES)?;
    assert!(rt; looked.meters == 2 && looked.reads == 1 && looked.probes == 1);
    Ok(())
}

#[test]
fn twelve_lists_three_sets_and_two_columns(rt: HostRuntime) -> Result<(), Fail> {
    let looked = metered(rt.alloc(), &LIKES)?;
    assert!(rt; looked.meters == 17 && looked.reads == 12 && looked.probes == 3);
    Ok(())
}

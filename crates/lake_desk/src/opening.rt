//! The desks of a run over a new lake.
ghost use Rattle.std.specs.Prelude.{◌≡◌, [], false, IfOk, Some};
ghost use Rattle.record_model.specs.Rules.{wide_limits};
ghost use Rattle.turn_lock.specs.Passes.{known};
ghost use Rattle.catalogue.specs.Kept.{IsWithin};
ghost use Rattle.lake_desk.specs.Together.{AreTogether};
ghost use Rattle.lake_desk.specs.Opened.{opened, opened_desks};

use crate::desk::LakeDesk;
use column_set::Keys;
use lake::{Bounds, Lake, Pass};
use no_memory::NoMemory;
use std::alloc::Global;

/// The lake of a run that compares values by canonical caseless matching.
pub struct Standard;

impl Bounds for Standard {
    ghost use Rattle.lake_model.specs.declared.Keys.TheVariants.{Canonical};
    ghost use Rattle.record_model.specs.Rules.{limits_of};

    ghost limits = { limits_of Canonical };

    ghost keys = { Canonical };
}

/// The lake of a run that compares values by compatibility caseless matching.
pub struct Wide;

impl Bounds for Wide {
    ghost use Rattle.lake_model.specs.declared.Keys.TheVariants.{Compatibility};
    ghost use Rattle.record_model.specs.Rules.{limits_of};

    ghost limits = { limits_of Compatibility };

    ghost keys = { Compatibility };
}

// Makes the desks of the given number of lanes, each with a new pass.
fn lane_desks<'a, B: Bounds>(
    alloc: Global,
    keys: Keys,
    lake: &'a Lake<B>,
    opening: &mut Pass<B>,
    lanes: u32,
) -> Result<Vec<LakeDesk<'a, B>>, NoMemory>
    requires opening { opening.old ≡ opened lake.now 0 lanes }
    requires keys { keys ≡ B.keys }
    requires wide { IsWithin wide_limits B.limits }
    ensures { IfOk result (λ desks. (desks.items ≡ opened_desks lake.now lanes) × (opening.new ≡ opened lake.now lanes 0)) }
{
    let mut desks = Vec::with_capacity(alloc, lanes as usize)?;
    for _lane in 0..lanes {
        let pass = lake.new_pass(opening);
        desks.push(LakeDesk::new(alloc, keys, lake, pass, None))?;
    }
    Ok(desks)
}

/// Makes the desks of a run over an unused lake whose values are compared by the given kind of keys: that of the
/// opening pass, and then one for each lane, numbered from 1. Returns `Err(NoMemory)` if memory runs out.
pub fn open_desks<'a, B: Bounds>(
    alloc: Global,
    keys: Keys,
    lake: &'a Lake<B>,
    opening: Pass<B>,
    lanes: u32,
) -> Result<Vec<LakeDesk<'a, B>>, NoMemory>
    requires opening { opening ≡ known lake.now 0 [] [] false (Some 1) lanes }
    requires keys { keys ≡ B.keys }
    requires wide { IsWithin wide_limits B.limits }
    ensures { IfOk result (λ desks. AreTogether lanes [] desks.items) }
{
    let mut opening = opening;
    let mut lane_desks = lane_desks(alloc, keys, lake, &mut opening, lanes)?;
    let mut desks = Vec::with_capacity(alloc, lane_desks.len() + 1)?;
    desks.push(LakeDesk::new(alloc, keys, lake, opening, None))?;
    desks.append(&mut lane_desks)?;
    Ok(desks)
}

//! The plan of a merge over a pinned version.
ghost use Rattle.std.specs.Prelude.{◌≡◌, ◌<◌, ◌≤◌, ◌+◌, ◌*◌, [], count_by, drop, find, length, nat_le, slice_range, IfNone, IfOk, IfSome, None, Some};
ghost use Rattle.lake_model.specs.Plan.{binary_digits, first_run, is_half_marked, planned_parts, tier};
ghost use Rattle.segment_core.specs.Versions.{part_at};
ghost use Rattle.segment_merge.specs.Planned.{begins_run, plan_at};

use lake_model::Policy;
use no_memory::NoMemory;
use segment_core::{Pin, Plan};
use std::alloc::Global;

/// Returns the plan of a merge of the pinned version, or `None` if there is nothing to merge.
///
/// `Tier` takes the first four adjacent parts of one tier, which is the number of binary digits of the number of a
/// part's columns, those of dropped tables included. If there are no such four, it takes the first part half or more of
/// whose tables are dropped. `All` takes all parts if there are two or more, or a single part with a dropped table. The
/// tables that are not dropped are kept. It looks at each part once, and at the marks of the parts if no such four are
/// found; it copies only what it plans.
pub fn plan(alloc: Global, pin: &Pin, policy: Policy) -> Result<Option<Plan>, NoMemory>
    ensures { IfOk result (λ plan. plan ≡ plan_at policy pin.now) }
{
    match planned_run(pin, policy) {
        Some((first, parts)) => Ok(Some(pin.plan_run(alloc, first, parts)?)),
        None => Ok(None),
    }
}

// Returns the index of the first planned part, from 0, and the number of planned parts.
fn planned_run(pin: &Pin, policy: Policy) -> Option<(u32, u32)>
    ensures some { IfSome result (λ run. 0 < run.1) }
    ensures within { IfSome result (λ run. run.0 + run.1 ≤ length pin.now.parts) }
    ensures planned { IfSome result (λ run. planned_parts policy pin.now.parts ≡ slice_range pin.now.parts run.0 (run.0 + run.1)) }
    ensures none { IfNone result (planned_parts policy pin.now.parts ≡ []) }
{
    match policy {
        Policy::Tier => by_tier(pin),
        Policy::All => whole_layout(pin),
    }
}

// Returns the first four adjacent parts of one tier, or else the first part that is half marked.
fn by_tier(pin: &Pin) -> Option<(u32, u32)>
    ensures some { IfSome result (λ run. 0 < run.1) }
    ensures within { IfSome result (λ run. run.0 + run.1 ≤ length pin.now.parts) }
    ensures planned { IfSome result (λ run. planned_parts Policy.Tier pin.now.parts ≡ slice_range pin.now.parts run.0 (run.0 + run.1)) }
    ensures none { IfNone result (planned_parts Policy.Tier pin.now.parts ≡ []) }
{
    if let Some(first) = first_of_tier(pin) {
        return Some((first, 4));
    }
    let part = half_marked(pin)?;
    Some((part, 1))
}

// Returns all parts if there are two or more, or one with a mark.
fn whole_layout(pin: &Pin) -> Option<(u32, u32)>
    ensures some { IfSome result (λ run. 0 < run.1) }
    ensures within { IfSome result (λ run. run.0 + run.1 ≤ length pin.now.parts) }
    ensures planned { IfSome result (λ run. planned_parts Policy.All pin.now.parts ≡ slice_range pin.now.parts run.0 (run.0 + run.1)) }
    ensures none { IfNone result (planned_parts Policy.All pin.now.parts ≡ []) }
{
    match pin.parts() {
        0 => None,
        1 if marked(pin.marks(0)) == 0 => None,
        parts => Some((0, parts)),
    }
}

// Returns the index of the first of four adjacent parts of one tier.
fn first_of_tier(pin: &Pin) -> Option<u32>
    ensures within { IfSome result (λ first. first + 4 ≤ length pin.now.parts) }
    ensures run { IfSome result (λ first. first_run pin.now.parts ≡ Some (slice_range pin.now.parts first (first + 4))) }
    ensures none { IfNone result (first_run pin.now.parts ≡ None) }
{
    for part in 0..pin.parts() {
        if begins_run(pin, part) {
            return Some(part);
        }
    }
    None
}

// Returns whether there are four parts from this one on, all of one tier.
fn begins_run(pin: &Pin, part: u32) -> bool
    requires { part < length pin.now.parts }
    ensures { result ≡ begins_run (drop part pin.now.parts) }
{
    if pin.parts() - part < 4 {
        return false;
    }
    let tier = tier_of(pin, part);
    if tier_of(pin, part + 1) != tier {
        return false;
    }
    if tier_of(pin, part + 2) != tier {
        return false;
    }
    tier_of(pin, part + 3) == tier
}

// Returns the number of binary digits of the number of a part's columns, those of marked tables included.
fn tier_of(pin: &Pin, part: u32) -> u32
    requires { part < length pin.now.parts }
    ensures { result ≡ tier (part_at pin.now.parts part) }
{
    digits(pin.sets(part))
}

// Returns the number of binary digits.
fn digits(n: u32) -> u32
    ensures { result ≡ binary_digits n }
{
    32 - n.leading_zeros()
}

// Returns the index of the first part half or more of whose tables are marked.
fn half_marked(pin: &Pin) -> Option<u32>
    ensures within { IfSome result (λ part. part < length pin.now.parts) }
    ensures found { IfSome result (λ part. find is_half_marked pin.now.parts ≡ Some (part_at pin.now.parts part)) }
    ensures none { IfNone result (find is_half_marked pin.now.parts ≡ None) }
{
    for part in 0..pin.parts() {
        if is_half(pin.marks(part)) {
            return Some(part);
        }
    }
    None
}

// Returns whether half or more of the marks are set.
fn is_half(marks: &[bool]) -> bool
    ensures { result ≡ nat_le (length marks.now) (2 * count_by (λ mark. mark) marks.now) }
{
    let marked = marked(marks);
    marks.len() - marked <= marked
}

// Returns how many marks are set.
fn marked(marks: &[bool]) -> usize
    ensures value { result ≡ count_by (λ mark. mark) marks.now }
    ensures within { result ≤ length marks.now }
{
    marks.iter().filter(|mark| **mark).count()
}

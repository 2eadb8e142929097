//! The commands of a batch on one thread, with the steps of its lanes in a stated order.
ghost use Rattle.std.specs.Prelude.{◌≡◌, ◌<◌, ◌≤◌, ◌+◌, ◌*◌, ◌++◌, ◌^◌, [], ◌∷◌, ⊤, Bool, List, length, map, replicate, flat_map, drop, get_or, slice_set, take, true, None, OnOk, OnErr, IfOk, MatchOption, option_to_list};
ghost use Rattle.std.specs.List.{range_with_len};
ghost use mathlib.Core.List.{IsPrefix};
ghost use Rattle.script_model.specs.Lanes.{IsOfLanes};
ghost use Rattle.record_model.specs.Play.{answers_of, batch_after, gathered, merges_of, play, record_after, whole_order};
ghost use Rattle.script_model.specs.Commands.{updates};
ghost use Rattle.lake_core.specs.Lanes.{AreShared, done_in, lane_from, play_of};
ghost use Rattle.lake_core.specs.Plays.{Goes, IsReady, state_with};
ghost use Rattle.batch_work.specs.Works.{works_of, IsWithinLanes};
ghost use Rattle.record_model.specs.Rules.{rules_with, wide_limits};
ghost use Rattle.catalogue.specs.Kept.{IsWithin};

use crate::lane::Lane;
use asof_search::Timeline;
use batch_work::{Work, works_of};
use catalogue::Catalogue;
use commands::Batch;
use lake_model::Keys;
use no_memory::NoMemory;
use run_record::{Answered, RunRecord};
use std::alloc::Global;

// Makes `lanes` idle lanes after that of the merger, which is the first and also idle.
fn idle_lanes<'a>(alloc: Global, lanes: u32) -> Result<Vec<Lane<'a>>, NoMemory>
    ensures { IfOk result (λ all. AreShared lanes [] all.items) }
{
    let mut all = Vec::new(alloc);
    all.push(Lane::new(alloc))?;
    for _made in 0..lanes {
        all.push(Lane::new(alloc))?;
    }
    Ok(all)
}

// Makes the lanes, each with the work that it has to do, in its order.
fn share_out<'a>(alloc: Global, works: &[Work<'a>], lanes: u32) -> Result<Vec<Lane<'a>>, NoMemory>
    requires { IsWithinLanes lanes (works_of works.now) }
    ensures { IfOk result (λ all. AreShared lanes (works_of works.now) all.items) }
{
    let mut all = idle_lanes(alloc, lanes)?;
    for work in works {
        all[work.lane() as usize].add(*work)?;
    }
    Ok(all)
}

// Takes the next step of a lane, if the lane exists and has one.
fn step(
    alloc: Global,
    catalogue: &mut Catalogue,
    keys: Keys,
    past: &mut Timeline,
    lanes: &mut [Lane<'_>],
    lane: usize,
    out: &mut RunRecord,
)
    requires { IsReady (state_with catalogue.old past.old lanes.old out.old) }
    ensures { Goes keys (lane ∷ []) (state_with catalogue.old past.old lanes.old out.old) (state_with catalogue.new past.new lanes.new out.new) }
{
    if lane < lanes.len() {
        lanes[lane].step(alloc, catalogue, keys, past, out);
    }
}

// Takes the steps of a piece, one after another.
fn play_piece(
    alloc: Global,
    catalogue: &mut Catalogue,
    keys: Keys,
    past: &mut Timeline,
    lanes: &mut [Lane<'_>],
    piece: &[u32],
    out: &mut RunRecord,
)
    requires { IsReady (state_with catalogue.old past.old lanes.old out.old) }
    ensures { Goes keys piece.now (state_with catalogue.old past.old lanes.old out.old) (state_with catalogue.new past.new lanes.new out.new) }
{
    for lane in piece {
        step(alloc, catalogue, keys, past, lanes, *lane as usize, out);
    }
}

// Returns whether a lane has nothing left to do. That also holds of a lane that does not exist.
fn is_idle(lanes: &[Lane<'_>], lane: usize) -> bool
    ensures { result ≡ true → length (get_or lanes.now lane (lane_from [] None [])).todo ≡ 0 }
{
    lane >= lanes.len() || lanes[lane].is_idle()
}

// Takes the steps that are left of a lane with at most `works` commands, each of which has at most two steps.
fn play_lane(
    alloc: Global,
    catalogue: &mut Catalogue,
    keys: Keys,
    past: &mut Timeline,
    lanes: &mut [Lane<'_>],
    lane: usize,
    works: usize,
    out: &mut RunRecord,
)
    requires { IsReady (state_with catalogue.old past.old lanes.old out.old) }
    ensures { Goes keys (replicate (2 * works) lane) (state_with catalogue.old past.old lanes.old out.old) (state_with catalogue.new past.new lanes.new out.new) }
{
    for _taken in 0..works {
        if is_idle(lanes, lane) {
            return;
        }
        step(alloc, catalogue, keys, past, lanes, lane, out);
        step(alloc, catalogue, keys, past, lanes, lane, out);
    }
}

// Takes the steps that are left, lane by lane, the merger last.
fn play_rest(
    alloc: Global,
    catalogue: &mut Catalogue,
    keys: Keys,
    past: &mut Timeline,
    lanes: &mut [Lane<'_>],
    count: u32,
    works: usize,
    out: &mut RunRecord,
)
    requires { IsReady (state_with catalogue.old past.old lanes.old out.old) }
    ensures { Goes keys (flat_map (λ l. replicate (2 * works) l) (range_with_len 1 count ++ 0 ∷ [])) (state_with catalogue.old past.old lanes.old out.old) (state_with catalogue.new past.new lanes.new out.new) }
{
    for before in 0..count {
        play_lane(
            alloc,
            catalogue,
            keys,
            past,
            lanes,
            before as usize + 1,
            works,
            out,
        );
    }
    play_lane(alloc, catalogue, keys, past, lanes, 0, works, out);
}

// Takes out the first answer of those that a lane has done.
fn next_done(lanes: &mut [Lane<'_>], lane: usize) -> Option<Answered>
    ensures answer { option_to_list result ≡ answers_of (take 1 (get_or (map done_in lanes.old) lane [])) }
    ensures rest { map done_in lanes.new ≡ slice_set (map done_in lanes.old) lane (drop 1 (get_or (map done_in lanes.old) lane [])) }
{
    if lane < lanes.len() {
        lanes[lane].next_done()
    } else {
        None
    }
}

// Takes the answers to the work out of the lanes, in the order of the work, and adds them to the record.
fn gather(works: &[Work<'_>], lanes: &mut [Lane<'_>], out: &mut RunRecord)
    requires { length works.now ≤ out.old.answers_room }
    ensures made { out.new.made ≡ record out.old.made { answers = out.old.made.answers ++ answers_of (gathered (works_of works.now) (map done_in lanes.old)) } }
    ensures syncs_room { out.new.syncs_room ≡ out.old.syncs_room }
{
    for work in works {
        if let Some(answered) = next_done(lanes, work.lane() as usize) {
            out.add_answer(answered);
        }
    }
}

// Takes all steps of the lanes: first those of the piece, and then those that are left. The answers are added to the
// record in the order of the work, and then the length of the journal.
fn play(
    alloc: Global,
    catalogue: &mut Catalogue,
    keys: Keys,
    past: &mut Timeline,
    works: &[Work<'_>],
    lanes: &mut [Lane<'_>],
    piece: &[u32],
    count: u32,
    out: &mut RunRecord,
)
    requires ready { IsReady (state_with catalogue.old past.old lanes.old out.old) }
    requires answers { length works.now ≤ out.old.answers_room }
    requires syncs { 0 < out.old.syncs_room }
    ensures played { (denials : List Bool) × (out.new.made ≡ record_after out.old.made (works_of works.now) (play (rules_with keys catalogue.old.limits) (whole_order piece.now count (2 * length works.now)) denials (play_of catalogue.old.journal lanes.old))) }
    ensures journal { out.new.made.journal ≡ catalogue.new.journal }
    ensures limits { catalogue.new.limits ≡ catalogue.old.limits }
    ensures past { IsPrefix past.new catalogue.new.journal }
{
    play_piece(alloc, catalogue, keys, past, lanes, piece, out);
    play_rest(alloc, catalogue, keys, past, lanes, count, works.len(), out);
    gather(works, lanes, out);
    out.add_sync();
}

/// Answers the commands of a batch, each of which belongs to a lane from 1 to `lanes`.
///
/// The steps of the lanes are taken in the order of the piece, and those left after it lane by lane, the merger last.
/// Values are compared by the kind of keys in `keys`. A load, a drop, a replace, a list of the tables and a search of
/// an earlier position are one step; a search, a like, a contain and a merge are two, the pin and the answer. `past`
/// has taken the journal up to some position, and takes more of it when an earlier position is asked for. `merger` is
/// the merger's first number in this batch, if there is a merger; it has a merge for each load, drop and replace. The
/// answers come in the order of the script, and then the merger's.
///
/// Returns `Err(NoMemory)` only before any step is taken. If memory runs out later, that is the reply to the command
/// for which it runs out, and the command adds no entry.
pub fn drive(
    alloc: Global,
    catalogue: &mut Catalogue,
    keys: Keys,
    past: &mut Timeline,
    batch: &Batch,
    piece: &[u32],
    lanes: u32,
    merger: Option<u64>,
    out: &mut RunRecord,
) -> Result<(), NoMemory>
    requires journal { out.old.made.journal ≡ catalogue.old.journal }
    requires lanes { IsOfLanes lanes batch.now }
    // the limits of the lake are at most those of a lake in the program
    requires limits { IsWithin wide_limits catalogue.old.limits }
    requires past { IsPrefix past.old catalogue.old.journal }
    // the merger's numbers stay below 2^64
    requires numbers { MatchOption merger ⊤ (λ first. first + updates batch.now < 2 ^ 64) }
    ensures played { OnOk result ((denials : List Bool) × (out.new.made ≡ batch_after (rules_with keys catalogue.old.limits) lanes batch.now (merges_of merger batch.now) piece.now denials out.old.made)) }
    ensures journal { OnOk result (out.new.made.journal ≡ catalogue.new.journal) }
    ensures limits { catalogue.new.limits ≡ catalogue.old.limits }
    ensures past { IsPrefix past.new catalogue.new.journal }
    ensures err { OnErr result ((out.new.made ≡ out.old.made) × (catalogue.new ≡ catalogue.old)) }
{
    let works = works_of(alloc, batch, merger)?;
    let mut all = share_out(alloc, &works, lanes)?;
    out.room(works.len(), works.len())?;
    play(
        alloc, catalogue, keys, past, &works, &mut all, piece, lanes, out,
    );
    Ok(())
}

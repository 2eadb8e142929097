//! The lanes of a batch, which all run at the same time.
ghost use Rattle.std.specs.Prelude.{◌≡◌, ◌≤◌, ◌<◌, ◌+◌, ◌++◌, ◌^◌, ⊤, MatchOption, [], drop, get_or, option_to_list, slice_set, take, length, map, IfOk, OnErr, vec_capacity, vec_len};
ghost use Rattle.std.specs.List.{AllByRecursion};
ghost use Rattle.record_model.specs.Play.{answers_of, gathered, merges_of};
ghost use Rattle.script_model.specs.Commands.{updates};
ghost use Rattle.batch_work.specs.Works.{works_of};
ghost use Rattle.lane_run.specs.Chains.{AreServed, AreWithin, Serves};
ghost use Rattle.lane_run.specs.Seats.{HaveAnswered, HaveServed, IsFresh, IsRoom, desk_in, done_in};

use crate::desk::Desk;
use crate::fork::for_each_busy;
use crate::seat::{Seat, serve};
use batch_work::{Done, Work, works_of};
use commands::Batch;
use lake_io::Gate;
use no_memory::NoMemory;
use run_record::Answered;
use std::alloc::Global;
use std::collections::VecDeque;
use std::mem;
use std::sync::Wait;
use std::thread::Threads;

// Makes `count` empty lists with room for `room` elements in each.
fn rooms_for<'a>(
    alloc: Global,
    count: usize,
    room: usize,
) -> Result<Vec<VecDeque<Done<'a>>>, NoMemory>
    ensures count { IfOk result (λ rooms. vec_len rooms ≡ count) }
    ensures room { IfOk result (λ rooms. AllByRecursion (IsRoom room) rooms.items) }
{
    let mut rooms = Vec::with_capacity(alloc, count)?;
    for _made in 0..count {
        rooms.push(VecDeque::with_capacity(alloc, room)?)?;
    }
    Ok(rooms)
}

// Seats each desk, with room for what it will have done.
fn sit<'a, D: Drop>(
    desks: Vec<D>,
    mut rooms: Vec<VecDeque<Done<'a>>>,
    room: usize,
    seats: &mut Vec<Seat<'a, D>>,
)
    requires rooms { vec_len rooms ≡ vec_len desks }
    requires room { AllByRecursion (IsRoom room) rooms.items }
    requires empty { seats.old.items ≡ [] }
    requires seats { vec_len desks ≤ vec_capacity seats.old }
    ensures desks { map desk_in seats.new.items ≡ desks.items }
    ensures fresh { AllByRecursion (IsFresh room) seats.new.items }
{
    for desk in desks {
        let Some(done) = rooms.pop() else {
            unreachable!()
        };
        seats.push_reserved(Seat { desk, done });
    }
}

// Moves the desks of the seats back.
fn rise<'a, D: Drop>(seats: Vec<Seat<'a, D>>, desks: &mut Vec<D>)
    requires empty { desks.old.items ≡ [] }
    requires room { vec_len seats ≤ vec_capacity desks.old }
    ensures { desks.new.items ≡ map desk_in seats.entry.items }
{
    for seat in seats {
        let Seat { desk, .. } = seat;
        desks.push_reserved(desk);
    }
}

// Takes out the first answer of those that a seat has.
fn next_done<'a, D>(seats: &mut [Seat<'a, D>], lane: usize) -> Option<Answered>
    ensures answer { option_to_list result ≡ answers_of (take 1 (get_or (map done_in seats.old) lane [])) }
    ensures rest { map done_in seats.new ≡ slice_set (map done_in seats.old) lane (drop 1 (get_or (map done_in seats.old) lane [])) }
    ensures desks { map desk_in seats.new ≡ map desk_in seats.old }
{
    if lane < seats.len() {
        seats[lane].next_done()
    } else {
        None
    }
}

// Takes the answers to the work out of the seats, in the order of the work.
fn gather<'a, D>(works: &[Work<'a>], seats: &mut [Seat<'a, D>], answers: &mut Vec<Answered>)
    requires empty { answers.old.items ≡ [] }
    requires room { length works.now ≤ vec_capacity answers.old }
    ensures answers { answers.new.items ≡ answers_of (gathered (works_of works.now) (map done_in seats.old)) }
    ensures desks { map desk_in seats.new ≡ map desk_in seats.old }
{
    for work in works {
        if let Some(answered) = next_done(seats, work.lane() as usize) {
            answers.push_reserved(answered);
        }
    }
}

// Returns which of `count` lanes have work.
fn busy_lanes(alloc: Global, works: &[Work<'_>], count: usize) -> Result<Vec<bool>, NoMemory> {
    let mut busy = vec![in alloc; false; count]?;
    for work in works {
        if let Some(is_busy) = busy.get_mut(work.lane() as usize) {
            *is_busy = true;
        }
    }
    Ok(busy)
}

// Lets each desk answer the work of its lane, those that have work at the same time.
fn serve_all<'a, D: Desk + Send, R: Threads + Wait + Sync, G: Gate + Sync>(
    rt: &R,
    works: &[Work<'a>],
    busy: &[bool],
    gate: &G,
    seats: &mut [Seat<'a, D>],
)
    requires fresh { AllByRecursion (IsFresh (length works.now)) seats.old }
    ensures { HaveServed D.step (works_of works.now) seats.old seats.new }
{
    for_each_busy(
        rt,
        &|lane: usize, seat: &mut Seat<'_, D>|
            requires { IsFresh (length works.now) seat.old }
            ensures { Serves D.step lane (works_of works.entry.now) seat.old.desk seat.new.done.items seat.new.desk }
        { serve(rt, works, gate, lane, seat) },
        busy,
        seats,
    );
}

// Lets each desk answer the work of its lane, and gathers the answers.
fn answer_all<'a, D: Desk + Send, R: Threads + Wait + Sync, G: Gate + Sync>(
    rt: &R,
    works: &[Work<'a>],
    busy: &[bool],
    gate: &G,
    seats: &mut [Seat<'a, D>],
    answers: &mut Vec<Answered>,
)
    requires fresh { AllByRecursion (IsFresh (length works.now)) seats.old }
    requires empty { answers.old.items ≡ [] }
    requires room { length works.now ≤ vec_capacity answers.old }
    ensures { HaveAnswered D.step (works_of works.now) seats.old answers.new.items seats.new }
{
    serve_all(rt, works, busy, gate, seats);
    gather(works, seats, answers);
}

// Runs the work of each lane at the desk with its number, all lanes at the same time, and returns the answers in the
// order of the work.
//
// Returns `Err(NoMemory)` only before any desk has answered anything.
fn run_works<'a, D: Desk + Send, R: Threads + Wait + Sync, G: Gate + Sync>(
    rt: &R,
    alloc: Global,
    desks: &mut Vec<D>,
    works: &[Work<'a>],
    gate: &G,
) -> Result<Vec<Answered>, NoMemory>
    requires { AreWithin (length desks.old.items) (works_of works.now) }
    ensures ok { IfOk result (λ answers. AreServed D.step desks.old.items (works_of works.now) answers.items desks.new.items) }
    ensures err { OnErr result (desks.new.items ≡ desks.old.items) }
{
    let count = desks.len();
    let rooms = rooms_for(alloc, count, works.len())?;
    let back = Vec::with_capacity(alloc, count)?;
    let mut seats = Vec::with_capacity(alloc, count)?;
    let mut answers = Vec::with_capacity(alloc, works.len())?;
    let busy = busy_lanes(alloc, works, count)?;
    sit(mem::replace(desks, back), rooms, works.len(), &mut seats);
    answer_all(rt, works, &busy, gate, &mut seats, &mut answers);
    rise(seats, desks);
    Ok(answers)
}

/// Runs the commands of a batch, and the merger's if it has a first number, all lanes at the same time.
///
/// Each lane runs at the desk with its number, and the merger at desk 0. The answers are returned in the order of the
/// script, followed by the merger's.
///
/// Returns `Err(NoMemory)` only before any command has begun. A desk may run on a thread of its own or on the caller's.
pub fn run_batch<D: Desk + Send, R: Threads + Wait + Sync, G: Gate + Sync>(
    rt: &R,
    alloc: Global,
    desks: &mut Vec<D>,
    batch: &Batch,
    merger: Option<u64>,
    gate: &G,
) -> Result<Vec<Answered>, NoMemory>
    requires desks { AreWithin (length desks.old.items) (batch.now ++ merges_of merger batch.now) }
    requires numbers { MatchOption merger ⊤ (λ first. first + updates batch.now < 2 ^ 64) }
    ensures ok { IfOk result (λ answers. AreServed D.step desks.old.items (batch.now ++ merges_of merger batch.now) answers.items desks.new.items) }
    ensures err { OnErr result (desks.new.items ≡ desks.old.items) }
{
    let works = works_of(alloc, batch, merger)?;
    run_works(rt, alloc, desks, &works, gate)
}

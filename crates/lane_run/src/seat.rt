//! A desk with what it has done.
ghost use Rattle.std.specs.Prelude.{◌≡◌, ◌≤◌, [], length, drop, option_to_list, take};
ghost use Rattle.std.specs.VecDeque.{deque_capacity};
ghost use Rattle.record_model.specs.Play.{answers_of};
ghost use Rattle.run_record.specs.Replies.{reply_of};
ghost use Rattle.batch_work.specs.Works.{work_of, works_of};
ghost use Rattle.lane_run.specs.Chains.{Serves};

use crate::desk::Desk;
use batch_work::{Done, Work, next_answer};
use commands::Task;
use lake_io::Gate;
use run_record::{Answered, Reply};
use std::collections::VecDeque;
use std::sync::Wait;
use std::thread::Threads;

/// A desk, and the work that it has done.
#[derive(Drop)]
pub struct Seat<'a, D> {
    pub desk: D,
    pub done: VecDeque<Done<'a>>,
}

impl<'a, D> Seat<'a, D> {
    /// Takes out the first of its answers.
    pub fn next_done(&mut self) -> Option<Answered>
        ensures answer { option_to_list result ≡ answers_of (take 1 self.old.done.items) }
        ensures rest { self.new.done.items ≡ drop 1 self.old.done.items }
        ensures desk { self.new.desk ≡ self.old.desk }
    {
        next_answer(&mut self.done)
    }
}

// Lets the desk answer work.
fn answer<D: Desk, R: Threads + Wait + Sync, G: Gate + Sync>(
    rt: &R,
    desk: &mut D,
    work: &Work<'_>,
    gate: &G,
) -> Reply
    ensures { D.step desk.old (work_of work.now) (reply_of result) desk.new }
{
    match work {
        Work::Given(command) => desk.answer(rt, work.by(), command.task(), gate),
        Work::Merge { .. } => desk.answer(rt, work.by(), &Task::Merge { all: false }, gate),
    }
}

/// Lets the desk answer the work of its lane, in its order.
pub fn serve<'a, D: Desk, R: Threads + Wait + Sync, G: Gate + Sync>(
    rt: &R,
    works: &[Work<'a>],
    gate: &G,
    lane: usize,
    seat: &mut Seat<'a, D>,
)
    requires fresh { seat.old.done.items ≡ [] }
    requires room { length works.now ≤ deque_capacity seat.old.done }
    ensures { Serves D.step lane (works_of works.now) seat.old.desk seat.new.done.items seat.new.desk }
{
    for work in works {
        if work.lane() as usize == lane {
            let reply = answer(rt, &mut seat.desk, work, gate);
            seat.done.push_back_reserved(Done::new(*work, reply));
        }
    }
}

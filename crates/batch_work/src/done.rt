//! Work that was done.
ghost use Rattle.std.specs.Prelude.{◌≡◌, drop, option_to_list, take};
ghost use Rattle.std.specs.VecDeque.{deque_capacity};
ghost use Rattle.record_model.specs.Play.{answers_of, done_with};
ghost use Rattle.run_record.specs.Replies.{reply_of};
ghost use Rattle.batch_work.specs.Works.{work_of};

use crate::work::Work;
use run_record::{Answered, Reply};
use std::collections::VecDeque;
use std::marker::Model;

/// Work that was done, with its reply.
#[derive(Drop)]
pub struct Done<'a> {
    work: Work<'a>,
    reply: Reply,
}

impl<'a> Model for Done<'a> {
    ghost use Rattle.record_model.specs.Play.{Done as DoneOf, done_with};
    ghost use Rattle.run_record.specs.Replies.{reply_of};
    ghost use Rattle.batch_work.specs.Works.{work_of};

    ghost Value = { DoneOf };

    ghost view = { λ d. done_with (work_of d.work) (reply_of d.reply) };
}

impl<'a> Done<'a> {
    /// Returns work with its reply.
    pub fn new(work: Work<'a>, reply: Reply) -> Done<'a>
        ensures { result ≡ done_with (work_of work.entry) (reply_of reply) }
    {
        Done { work, reply }
    }
}

/// Removes the first of what was done, and returns the answer to it.
pub fn next_answer(done: &mut VecDeque<Done<'_>>) -> Option<Answered>
    ensures answer { option_to_list result ≡ answers_of (take 1 done.old.items) }
    ensures rest { done.new.items ≡ drop 1 done.old.items }
    ensures capacity { deque_capacity done.new ≡ deque_capacity done.old }
{
    let Done { work, reply } = done.pop_front()?;
    Some(Answered {
        by: work.by(),
        reply,
    })
}

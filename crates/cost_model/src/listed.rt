//! A chooser that follows a list.
ghost use Rattle.std.specs.Prelude.{◌≡◌, ◌<◌, length, IfOk};
ghost use Rattle.cost_model.specs.Answers.{listed};

use crate::chooser::Chooser;
use no_memory::NoMemory;
use search_model::Summary;
use std::alloc::Global;
use std::marker::Model;

/// Answers from a list, of which the summary picks an entry. It is meant for tests: a list can lead a search any way.
/// Its model is the list of its answers.
#[derive(Drop)]
pub struct Listed {
    answers: Vec<bool>,
}

impl Model for Listed {
    ghost use Rattle.std.specs.Prelude.{◌<◌, Bool, List, length};

    ghost Value = { List Bool };

    ghost view = { λ l. l.answers.items };

    ghost invariant = { λ l. 0 < length l.answers.items };
}

impl Listed {
    /// Returns a chooser with these answers, at least one.
    pub fn new(alloc: Global, answers: &[bool]) -> Result<Listed, NoMemory>
        requires { 0 < length answers.now }
        ensures { IfOk result (λ chooser. chooser ≡ answers.now) }
    {
        Ok(Listed {
            answers: Vec::from_slice(alloc, answers)?,
        })
    }
}

impl Chooser for Listed {
    ghost says = { λ answers summary. listed answers summary };

    fn probe(&self, summary: &Summary) -> bool {
        let sum = u64::from(summary.next_len) + u64::from(summary.c) + u64::from(summary.rest);
        let answers = self.answers.as_slice();
        answers[(sum % answers.len() as u64) as usize]
    }

    fn reads_beyond(&self, _next_len: u32) -> Option<u64> {
        None
    }
}

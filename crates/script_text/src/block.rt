//! The open block of a command, whose lines are still being read.
ghost use Rattle.std.specs.Prelude.{◌≡◌, ◌+◌, ◌++◌, ◌∷◌, ◌≤◌, OnOk, [], length};
ghost use Rattle.script_model.specs.Saying.{closed};
ghost use Rattle.commands.specs.Tasks.{IsTaskInRange, task_of};
ghost use Rattle.script_text.specs.Fronts.{IsFrontInRange, front_of};
ghost use Rattle.script_text.specs.Readings.{body_size, open_with};

use crate::front::Front;
use commands::{Body, Task};
use no_memory::NoMemory;
use std::alloc::Global;
use std::marker::Model;

/// A block whose end has not been read yet. Its model has the line of its command, the lane, what that line said, and
/// the body so far.
#[derive(Drop)]
pub(crate) struct OpenBlock {
    /// The line of the command, counted from 1.
    line: u64,
    lane: u32,
    front: Front,
    /// The lines of the block so far, each with its line feed.
    body: Vec<u8>,
}

impl Model for OpenBlock {
    ghost use Rattle.script_model.specs.Reading.{Open};

    ghost Value = { Open };

    ghost use Rattle.script_text.specs.Fronts.{IsFrontInRange, front_of};
    ghost use Rattle.script_text.specs.Readings.{open_with};

    ghost view = { λ b. open_with b.line b.lane (front_of b.front) b.body.items };

    ghost invariant = { λ b. IsFrontInRange b.front };
}

impl OpenBlock {
    // Returns an empty block that the line with this number opens.
    pub(crate) fn new(alloc: Global, line: u64, lane: u32, front: Front) -> OpenBlock
        requires { IsFrontInRange front }
        ensures { result ≡ open_with line lane (front_of front) [] }
    {
        OpenBlock {
            line,
            lane,
            front,
            body: Vec::new(alloc),
        }
    }

    // Returns the line of the command.
    pub(crate) fn line(&self) -> u64
        ensures { result ≡ self.now.line }
    {
        self.line
    }

    // Returns the lane of the command.
    pub(crate) fn lane(&self) -> u32
        ensures { result ≡ self.now.lane }
    {
        self.lane
    }

    // Returns the number of bytes that the body has so far.
    pub(crate) fn size(&self) -> u64
        ensures { result ≡ length self.now.body }
    {
        self.body.len() as u64
    }

    // Adds a line of the block, without the dot that it began with, and the line feed that ended it.
    pub(crate) fn push_line(&mut self, text: &[u8]) -> Result<(), NoMemory>
        ensures added { OnOk result (self.new ≡ record self.old { body = self.old.body ++ text.now ++ 0x0A ∷ [] }) }
        ensures size { length self.new.body ≤ length self.old.body + (length text.now + 1) }
        ensures same { self.new.lane ≡ self.old.lane }
    {
        // A long line is not copied again for the sake of its line feed.
        self.body.reserve(text.len() + 1)?;
        self.body.extend_from_slice(text)?;
        self.body.push(b'\n')?;
        Ok(())
    }

    // Adds lines of the block, each with its line feed, none of which begins with a dot.
    pub(crate) fn push_lines(&mut self, lines: &[u8]) -> Result<(), NoMemory>
        ensures added { OnOk result (self.new ≡ record self.old { body = self.old.body ++ lines.now }) }
        ensures size { length self.new.body ≤ length self.old.body + length lines.now }
        ensures same { self.new.lane ≡ self.old.lane }
    {
        self.body.extend_from_slice(lines)?;
        Ok(())
    }

    // Returns what the command asks for, with the body so far.
    pub(crate) fn into_task(self) -> Task
        requires { length self.body ≤ 67108864 }
        ensures task { task_of result ≡ closed self.front self.body }
        ensures in_range { IsTaskInRange result }
        ensures size { body_size (task_of result) ≡ length self.body }
    {
        let OpenBlock {
            front,
            mut body,
            ..
        } = self;
        body.shrink_to_fit();
        let Some(body) = Body::new(body) else {
            unreachable!()
        };
        match front {
            Front::Load { name } => Task::Load { name, body },
            Front::Replace { name } => Task::Replace { name, body },
            Front::Search { k } => Task::Search { k, body },
            Front::Contain { a, b } => Task::Contain { a, b, body },
            Front::AsOf { asked, k } => Task::AsOf { asked, k, body },
        }
    }
}

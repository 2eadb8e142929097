//! How far a script has been read, and what each line does.
ghost use Rattle.std.specs.Prelude.{◌<◌, ◌≡◌, ◌≢◌, ◌+◌, ◌-◌, ◌≤◌, ℕ, IfErr, IfOk, IfSome, IsSome, List, None, OnOk, Some, [], drop, false, length};
ghost use Rattle.lake_io.specs.Refusals.{Refuses};
ghost use Rattle.lake_model.specs.Texts.{Text, lines_of};
ghost use Rattle.script_model.specs.Commands.{File};
ghost use Rattle.script_model.specs.Lanes.{IsOfLanes};
ghost use Rattle.script_model.specs.Reading.{Reading, Stands, batch_ended, block_ended, does, line_fault, line_in, turn_of, with_command};
ghost use Rattle.script_model.specs.Saying as model;
ghost use Rattle.script_model.specs.Script.{at_end, begun_fault, ended, last_turn, start};
ghost use Rattle.commands.specs.Tasks.{IsTaskInRange, task_of};
ghost use Rattle.script_text.specs.Endings.{Ends, EndsAs, IsGiven, IsLast};
ghost use Rattle.script_text.specs.Fronts.{IsFrontInRange, IsLane, IsSaidInRange, front_of, said_of};
ghost use Rattle.script_text.specs.Gathering.{reading_at};
ghost use Rattle.script_text.specs.Readings.{AreRules, GoesOn, GrowsAtEnd, GrowsByOne, Turns, added, batches_of, grammar_by, none_given, state_with, too_long};
ghost use Rattle.script_text.specs.Runs.{HasRoom, IsRun, Leads, LeadsOn};

use crate::block::OpenBlock;
use crate::fetch::fetch_file;
use crate::front::{Front, Said, read_said};
use crate::line::{is_end, undotted, without_return};
use crate::refused::ScriptEnd;
use crate::rules::{Rules, size_fault};
use crate::runs::{line_count, run_of};
use column_set::Name;
use commands::{Batch, Command, Task};
use lake_io::Shelf;
use no_memory::NoMemory;
use script_model::Reason;
use std::alloc::Global;
use std::marker::Model;
use std::mem;

/// How far a script has been read, and by which rules. Its model is the reading of the definitions, without the paths
/// that were asked for, and the rules. After an error nothing is known of the reading.
#[derive(Drop)]
pub(crate) struct Reader {
    alloc: Global,
    rules: Rules,
    /// The number of lines that were read.
    lines: u64,
    /// The number of bytes of these lines and their line feeds.
    used: u64,
    /// The number of commands that were numbered.
    numbered: u64,
    /// The commands of the batch that are complete, with their blocks.
    commands: Vec<Command>,
    /// The number of bytes of the bodies and files of the batch.
    bytes: u64,
    /// The block whose end has not been read yet.
    block: Option<OpenBlock>,
}

impl Model for Reader {
    ghost use Rattle.script_text.specs.Readings.{ReaderState};

    ghost Value = { ReaderState };

    ghost use Rattle.script_text.specs.Readings.{IsBounded, reading_with, state_with};

    ghost view = { λ r. state_with (reading_with r.lines r.used r.numbered r.commands.items r.bytes r.block) r.rules };

    ghost invariant = { λ r. IsBounded r.rules r.lines r.used r.numbered r.commands.items r.bytes r.block };
}

impl Reader {
    // Returns a reader that has read nothing.
    pub(crate) fn new(alloc: Global, rules: Rules) -> Reader
        requires { AreRules rules }
        ensures { result ≡ state_with (start []) rules }
    {
        Reader {
            alloc,
            rules,
            lines: 0,
            used: 0,
            numbered: 0,
            commands: Vec::new(alloc),
            bytes: 0,
            block: None,
        }
    }

    // Returns how many more bytes the input may have.
    pub(crate) fn room(&self) -> usize
        ensures value { result ≡ self.now.rules.limits.input - self.now.reading.used }
        ensures within { self.now.reading.used + result ≤ self.now.rules.limits.input }
        ensures small { result ≤ 68719476736 }
    {
        (self.rules.limits.input - self.used) as usize
    }

    // Returns what is wrong, by its size alone, with a line of which only these bytes have been read.
    pub(crate) fn begun_fault(&self, part: &[u8]) -> Option<Reason>
        ensures { result ≡ begun_fault (grammar_by self.now.rules) self.now.reading.block self.now.reading.bytes part.now }
    {
        let Some(block) = &self.block else {
            return self.line_fault(part);
        };
        if is_end(part) {
            return None;
        }
        size_fault(
            &self.rules,
            self.bytes,
            block.size() + undotted(part).len() as u64,
        )
    }

    // Returns the number of lines that were read.
    pub(crate) fn lines(&self) -> u64
        ensures value { result ≡ self.now.reading.lines }
        ensures small { result ≤ 68719476736 }
    {
        self.lines
    }

    // Returns the fault of a line, or of a block, that is too long.
    pub(crate) fn too_long(&self) -> Reason
        ensures { result ≡ too_long self.now.reading.block }
    {
        match &self.block {
            None => Reason::LineTooLong,
            Some(_) => Reason::BlockTooLong,
        }
    }

    // Returns the longest part of a line with which the line may still be short enough.
    pub(crate) fn longest(&self) -> usize
        ensures line { self.now.reading.block ≡ None → result ≡ self.now.rules.limits.line + 1 }
        ensures block { IfSome self.now.reading.block (λ block. result + length block.body ≡ self.now.rules.limits.block + 2) }
        ensures body { IfSome self.now.reading.block (λ block. length block.body ≤ self.now.rules.limits.block) }
    {
        match &self.block {
            None => self.rules.limits.line as usize + 1,
            Some(block) => (self.rules.limits.block - block.size()) as usize + 2,
        }
    }

    // Reads a line that a line feed ended; `line` is without the line feed.
    pub(crate) fn read_line<F: Shelf>(
        &mut self,
        shelf: &mut F,
        line: &[u8],
    ) -> Result<Option<Batch>, ScriptEnd>
        requires { self.old.reading.used + (length line.now + 1) ≤ self.old.rules.limits.input }
        ensures turn { Turns (turn_of (grammar_by self.old.rules) line.now) result (self.old.reading.lines + 1) self.old.reading self.new.reading (F.files shelf.old) (F.faults shelf.old) (F.faults shelf.new) }
        ensures used { self.new.reading.used ≡ self.old.reading.used + (length line.now + 1) }
        ensures grows { GrowsByOne result self.old.reading.commands self.new.reading.commands }
        ensures lanes { IfOk result (λ found. IfSome found (IsOfLanes self.old.rules.lanes)) }
        ensures rules { self.new.rules ≡ self.old.rules }
        ensures later { F.faults shelf.old ≤ F.faults shelf.new }
        ensures files { F.files shelf.new ≡ F.files shelf.old }
    {
        self.lines += 1;
        self.used += line.len() as u64 + 1;
        if self.block.is_none() {
            return self.read_command(shelf, line);
        }
        self.read_block_line(line)?;
        Ok(None)
    }

    // Reads what follows the last line feed, and returns the last batch.
    pub(crate) fn finish<F: Shelf>(
        &mut self,
        shelf: &mut F,
        rest: &[u8],
    ) -> Result<Option<Batch>, ScriptEnd>
        requires { self.old.reading.used + length rest.now ≤ self.old.rules.limits.input }
        ensures ends { Ends (λ reading. ended (grammar_by self.old.rules) false rest.now [] (Stands reading)) result self.old.reading (F.files shelf.old) (F.faults shelf.old) (F.faults shelf.new) }
        ensures used { OnOk result (self.new.reading.used ≡ self.old.reading.used + length rest.now) }
        ensures within { self.new.reading.used ≤ self.old.reading.used + length rest.now }
        ensures grows { IfOk result (λ found. IfSome found (λ batch. (0 < length self.old.reading.commands + length rest.now) × (length batch ≤ length self.old.reading.commands + length rest.now))) }
        ensures lanes { IfOk result (λ found. IfSome found (IsOfLanes self.old.rules.lanes)) }
        ensures rules { self.new.rules ≡ self.old.rules }
        ensures later { F.faults shelf.old ≤ F.faults shelf.new }
        ensures files { F.files shelf.new ≡ F.files shelf.old }
    {
        let line = self.lines + 1;
        let used = self.used + rest.len() as u64;
        if let Some(reason) = self.begun_fault(rest) {
            return Err(ScriptEnd::Script { line, reason });
        }
        let last = self.read_last_line(shelf, rest)?;
        let batch = self.end(last)?;
        self.used = used;
        Ok(batch)
    }

    // Reads a line outside a block. The line has been counted.
    fn read_command<F: Shelf>(
        &mut self,
        shelf: &mut F,
        line: &[u8],
    ) -> Result<Option<Batch>, ScriptEnd>
        requires counted { self.old.reading.numbered < self.old.reading.used }
        requires block { self.old.reading.block ≡ None }
        ensures turn { Turns (line_in (grammar_by self.old.rules) None line.now) result self.old.reading.lines self.old.reading self.new.reading (F.files shelf.old) (F.faults shelf.old) (F.faults shelf.new) }
        ensures used { self.new.reading.used ≡ self.old.reading.used }
        ensures last { IfOk result (λ found. IfSome found (λ _. self.new.reading.block ≡ None)) }
        ensures grows { GrowsByOne result self.old.reading.commands self.new.reading.commands }
        ensures lanes { IfOk result (λ found. IfSome found (IsOfLanes self.old.rules.lanes)) }
        ensures rules { self.new.rules ≡ self.old.rules }
        ensures later { F.faults shelf.old ≤ F.faults shelf.new }
        ensures files { F.files shelf.new ≡ F.files shelf.old }
    {
        if let Some(reason) = self.line_fault(line) {
            return Err(self.fault(reason));
        }
        match read_said(self.rules.lanes, without_return(line)) {
            Ok(said) => self.obey(shelf, said),
            Err(reason) => Err(self.fault(reason)),
        }
    }

    // Does what a line says.
    fn obey<F: Shelf>(&mut self, shelf: &mut F, said: Said<'_>) -> Result<Option<Batch>, ScriptEnd>
        requires bytes { self.old.reading.bytes ≤ self.old.rules.limits.bytes }
        requires counted { self.old.reading.numbered < self.old.reading.used }
        requires block { self.old.reading.block ≡ None }
        requires in_range { IsSaidInRange self.old.rules.lanes said }
        ensures turn { Turns (does (grammar_by self.old.rules) (said_of said.entry)) result self.old.reading.lines self.old.reading self.new.reading (F.files shelf.old) (F.faults shelf.old) (F.faults shelf.new) }
        ensures used { self.new.reading.used ≡ self.old.reading.used }
        ensures last { IfOk result (λ found. IfSome found (λ _. self.new.reading.block ≡ None)) }
        ensures grows { GrowsByOne result self.old.reading.commands self.new.reading.commands }
        ensures lanes { IfOk result (λ found. IfSome found (IsOfLanes self.old.rules.lanes)) }
        ensures rules { self.new.rules ≡ self.old.rules }
        ensures later { F.faults shelf.old ≤ F.faults shelf.new }
        ensures files { F.files shelf.new ≡ F.files shelf.old }
    {
        match said {
            Said::Nothing => Ok(None),
            Said::Sync => Ok(Some(self.take_batch())),
            Said::Opens { lane, front } => {
                self.open_block(lane, front)?;
                Ok(None)
            }
            Said::Does { lane, task } => {
                self.add_command(lane, task)?;
                Ok(None)
            }
            Said::Fetches { lane, name, path } => {
                self.load_file(shelf, lane, name, path)?;
                Ok(None)
            }
        }
    }

    // Opens the block of a command.
    fn open_block(&mut self, lane: u32, front: Front) -> Result<(), ScriptEnd>
        requires counted { self.old.reading.numbered < self.old.reading.used }
        requires block { self.old.reading.block ≡ None }
        requires lane { IsLane self.old.rules.lanes lane }
        requires in_range { IsFrontInRange front }
        ensures turn { (paths : List Text) (later : List File) → GoesOn result self.old.reading.lines self.new.reading paths later (does (grammar_by self.old.rules) (model.Opens lane (front_of front)) (reading_at self.old.reading paths later)) }
        ensures used { self.new.reading.used ≡ self.old.reading.used }
        ensures commands { self.new.reading.commands ≡ self.old.reading.commands }
        ensures rules { self.new.rules ≡ self.old.rules }
    {
        self.refuse_full()?;
        self.block = Some(OpenBlock::new(self.alloc, self.lines, lane, front));
        Ok(())
    }

    // Adds a command without a body.
    fn add_command(&mut self, lane: u32, task: Task) -> Result<(), ScriptEnd>
        requires bytes { self.old.reading.bytes ≤ self.old.rules.limits.bytes }
        requires counted { self.old.reading.numbered < self.old.reading.used }
        requires block { self.old.reading.block ≡ None }
        requires lane { IsLane self.old.rules.lanes lane }
        requires in_range { IsTaskInRange task }
        ensures turn { (paths : List Text) (later : List File) → GoesOn result self.old.reading.lines self.new.reading paths later (does (grammar_by self.old.rules) (model.Does lane (task_of task)) (reading_at self.old.reading paths later)) }
        ensures used { self.new.reading.used ≡ self.old.reading.used }
        ensures grows { OnOk result (length self.new.reading.commands ≤ length self.old.reading.commands + 1) }
        ensures rules { self.new.rules ≡ self.old.rules }
    {
        self.refuse_full()?;
        self.push_command(lane, task, 0)?;
        Ok(())
    }

    // Fetches a file, and adds the command that loads it.
    fn load_file<F: Shelf>(
        &mut self,
        shelf: &mut F,
        lane: u32,
        name: Name,
        path: &str,
    ) -> Result<(), ScriptEnd>
        requires counted { self.old.reading.numbered < self.old.reading.used }
        requires block { self.old.reading.block ≡ None }
        requires lane { IsLane self.old.rules.lanes lane }
        ensures turn { Turns (does (grammar_by self.old.rules) (model.Fetches lane name path.now)) (none_given result) self.old.reading.lines self.old.reading self.new.reading (F.files shelf.old) (F.faults shelf.old) (F.faults shelf.new) }
        ensures used { self.new.reading.used ≡ self.old.reading.used }
        ensures grows { OnOk result (length self.new.reading.commands ≤ length self.old.reading.commands + 1) }
        ensures rules { self.new.rules ≡ self.old.rules }
        ensures later { F.faults shelf.old ≤ F.faults shelf.new }
        ensures files { F.files shelf.new ≡ F.files shelf.old }
    {
        self.refuse_full()?;
        let file = fetch_file(self.alloc, shelf, path)?;
        let size = file.size();
        self.refuse_bytes(size)?;
        self.push_command(lane, Task::LoadFile { name, file }, size)?;
        Ok(())
    }

    // Reads a line of the block. The line has been counted.
    fn read_block_line(&mut self, line: &[u8]) -> Result<(), ScriptEnd>
        requires counted { self.old.reading.numbered < self.old.reading.used }
        requires block { IsSome self.old.reading.block }
        ensures turn { (paths : List Text) (later : List File) → GoesOn result self.old.reading.lines self.new.reading paths later (line_in (grammar_by self.old.rules) self.old.reading.block line.now (reading_at self.old.reading paths later)) }
        ensures used { self.new.reading.used ≡ self.old.reading.used }
        ensures grows { OnOk result (length self.new.reading.commands ≤ length self.old.reading.commands + 1) }
        ensures rules { self.new.rules ≡ self.old.rules }
    {
        if !is_end(line) {
            return self.push_line(undotted(line));
        }
        self.close_block()?;
        Ok(())
    }

    // Adds a line to the body of the block, if the limits have room for it.
    fn push_line(&mut self, text: &[u8]) -> Result<(), ScriptEnd>
        requires { IsSome self.old.reading.block }
        ensures turn { (paths : List Text) (later : List File) → IfSome self.old.reading.block (λ block. GoesOn result self.old.reading.lines self.new.reading paths later (added (grammar_by self.old.rules) block text.now (reading_at self.old.reading paths later))) }
        ensures used { self.new.reading.used ≡ self.old.reading.used }
        ensures commands { self.new.reading.commands ≡ self.old.reading.commands }
        ensures rules { self.new.rules ≡ self.old.rules }
    {
        let Some(block) = &mut self.block else {
            unreachable!()
        };
        let size = block.size() + text.len() as u64 + 1;
        if let Some(reason) = size_fault(&self.rules, self.bytes, size) {
            return Err(ScriptEnd::Script {
                line: self.lines,
                reason,
            });
        }
        block.push_line(text)?;
        Ok(())
    }

    // Reads the longest run of whole lines at the beginning of the bytes that continue the block, none of which begins
    // with a dot. It returns the number of bytes of the run.
    pub(crate) fn read_run(&mut self, held: &[u8]) -> Result<usize, NoMemory>
        ensures leads { IfOk result (λ count. LeadsOn (grammar_by self.old.rules) self.old.reading self.new.reading held.now (drop count held.now)) }
        ensures used { IfOk result (λ count. self.new.reading.used ≡ self.old.reading.used + count) }
        ensures within { IfOk result (λ count. count ≤ length held.now) }
        ensures input { self.new.reading.used ≤ self.new.rules.limits.input }
        ensures commands { OnOk result (self.new.reading.commands ≡ self.old.reading.commands) }
        ensures rules { self.new.rules ≡ self.old.rules }
    {
        if self.block.is_none() {
            return Ok(0);
        }
        let room = self.block_room();
        let run = run_of(&held[..held.len().min(room)]);
        self.push_run(run)?;
        Ok(run.len())
    }

    // Returns how many more bytes the block may have, by every limit.
    fn block_room(&self) -> usize
        requires { IsSome self.now.reading.block }
        ensures room { (size : ℕ) → size ≤ result → HasRoom self.now.rules self.now.reading size }
    {
        let Some(block) = &self.block else {
            unreachable!()
        };
        let limits = &self.rules.limits;
        let in_block = limits.block - block.size();
        let in_batch = limits.bytes - self.bytes - block.size();
        let in_input = limits.input - self.used;
        in_block.min(in_batch).min(in_input) as usize
    }

    // Adds a run of lines to the block. The limits have room for it.
    fn push_run(&mut self, run: &[u8]) -> Result<(), NoMemory>
        requires block { IsSome self.old.reading.block }
        requires run { IsRun run.now }
        requires room { HasRoom self.old.rules self.old.reading (length run.now) }
        ensures leads { OnOk result (Leads (grammar_by self.old.rules) self.old.reading (lines_of run.now).ended self.new.reading) }
        ensures used { self.new.reading.used ≡ self.old.reading.used + length run.now }
        ensures input { self.new.reading.used ≤ self.new.rules.limits.input }
        ensures commands { self.new.reading.commands ≡ self.old.reading.commands }
        ensures rules { self.new.rules ≡ self.old.rules }
    {
        self.lines += line_count(run) as u64;
        self.used += run.len() as u64;
        let Some(block) = &mut self.block else {
            unreachable!()
        };
        block.push_lines(run)
    }

    // Ends the block, and adds its command.
    fn close_block(&mut self) -> Result<(), NoMemory>
        requires counted { self.old.reading.numbered < self.old.reading.used }
        requires block { IsSome self.old.reading.block }
        ensures closed { OnOk result (IfSome self.old.reading.block (λ block. self.new.reading ≡ block_ended block self.old.reading)) }
        ensures used { self.new.reading.used ≡ self.old.reading.used }
        ensures rules { self.new.rules ≡ self.old.rules }
    {
        let Some(block) = self.block.take() else {
            unreachable!()
        };
        let lane = block.lane();
        let size = block.size();
        self.push_command(lane, block.into_task(), size)
    }

    // Reads what follows the last line feed, which is a line if it is not empty.
    fn read_last_line<F: Shelf>(
        &mut self,
        shelf: &mut F,
        line: &[u8],
    ) -> Result<Option<Batch>, ScriptEnd>
        requires { self.old.reading.used + length line.now ≤ self.old.rules.limits.input }
        ensures turn { Turns (last_turn (grammar_by self.old.rules) self.old.reading.block line.now) result (self.old.reading.lines + 1) self.old.reading self.new.reading (F.files shelf.old) (F.faults shelf.old) (F.faults shelf.new) }
        ensures used { self.new.reading.used ≤ self.old.reading.used + length line.now }
        ensures last { IfOk result (λ found. IsLast found self.new.reading.commands self.new.reading.block) }
        ensures grows { IfOk result (λ found. GrowsAtEnd found (length line.now) self.old.reading.commands self.new.reading.commands) }
        ensures lanes { IfOk result (λ found. IfSome found (IsOfLanes self.old.rules.lanes)) }
        ensures rules { self.new.rules ≡ self.old.rules }
        ensures later { F.faults shelf.old ≤ F.faults shelf.new }
        ensures files { F.files shelf.new ≡ F.files shelf.old }
    {
        if line.is_empty() {
            return Ok(None);
        }
        if self.block.is_none() {
            self.lines += 1;
            self.used += line.len() as u64;
            return self.read_command(shelf, line);
        }
        if !is_end(line) {
            return Ok(None);
        }
        self.close_block()?;
        Ok(None)
    }

    // Returns the batch at the end of the script: the one that its last line gave, or the commands at hand, if there
    // are any.
    fn end(&mut self, last: Option<Batch>) -> Result<Option<Batch>, ScriptEnd>
        requires last { IsLast last self.old.reading.commands self.old.reading.block }
        requires lanes { IfSome last (IsOfLanes self.old.rules.lanes) }
        ensures ends { (paths : List Text) (later : List File) → EndsAs result paths (at_end (batches_of last) self.old.reading.block (reading_at self.old.reading paths later)) }
        ensures used { self.new.reading.used ≡ self.old.reading.used }
        ensures counts { (self.new.reading.lines ≡ self.old.reading.lines) × (self.new.reading.numbered ≡ self.old.reading.numbered) }
        ensures given { IfOk result (λ found. IfSome found (IsGiven last self.old.reading.commands)) }
        ensures lanes { IfOk result (λ found. IfSome found (IsOfLanes self.old.rules.lanes)) }
        ensures rules { self.new.rules ≡ self.old.rules }
    {
        if let Some(block) = &self.block {
            return Err(ScriptEnd::Script {
                line: block.line(),
                reason: Reason::NoEnd,
            });
        }
        if last.is_some() {
            return Ok(last);
        }
        if self.commands.is_empty() {
            return Ok(None);
        }
        Ok(Some(self.take_batch()))
    }

    // Ends the batch, and returns its commands.
    fn take_batch(&mut self) -> Batch
        ensures batch { result ≡ self.old.reading.commands }
        ensures ended { self.new ≡ record self.old { reading = batch_ended self.old.reading } }
        ensures lanes { IsOfLanes self.old.rules.lanes result }
    {
        self.bytes = 0;
        let commands = mem::replace(&mut self.commands, Vec::new(self.alloc));
        Batch::new(commands)
    }

    // Adds a command of `size` bytes.
    fn push_command(&mut self, lane: u32, task: Task, size: u64) -> Result<(), NoMemory>
        requires lane { IsLane self.old.rules.lanes lane }
        requires in_range { IsTaskInRange task }
        requires number { self.old.reading.numbered < self.old.reading.used }
        requires block { self.old.reading.block ≡ None }
        requires size { self.old.reading.bytes + size ≤ self.old.rules.limits.bytes }
        ensures pushed { OnOk result (self.new.reading ≡ with_command lane (task_of task) size self.old.reading) }
        ensures used { self.new.reading.used ≡ self.old.reading.used }
        ensures rules { self.new.rules ≡ self.old.rules }
    {
        self.numbered += 1;
        self.bytes += size;
        self.commands.push(Command {
            number: self.numbered,
            lane,
            task,
        })?;
        Ok(())
    }

    // Refuses a further command if the batch is full.
    fn refuse_full(&self) -> Result<(), ScriptEnd>
        ensures room { OnOk result (length self.now.reading.commands < self.now.rules.limits.commands) }
        ensures full { IfErr result (λ e. (e ≡ ScriptEnd.Script self.now.reading.lines Reason.BatchCommands) × (self.now.rules.limits.commands ≤ length self.now.reading.commands)) }
    {
        if self.commands.len() >= self.rules.limits.commands as usize {
            return Err(self.fault(Reason::BatchCommands));
        }
        Ok(())
    }

    // Refuses `size` more bytes if the batch has no room for them.
    fn refuse_bytes(&self, size: u64) -> Result<(), ScriptEnd>
        ensures room { OnOk result (self.now.reading.bytes + size ≤ self.now.rules.limits.bytes) }
        ensures full { IfErr result (λ e. (e ≡ ScriptEnd.Script self.now.reading.lines Reason.BatchBytes) × (self.now.rules.limits.bytes < self.now.reading.bytes + size)) }
    {
        if size > self.rules.limits.bytes - self.bytes {
            return Err(self.fault(Reason::BatchBytes));
        }
        Ok(())
    }

    // Returns a fault of the line that was counted last.
    fn fault(&self, reason: Reason) -> ScriptEnd
        ensures { result ≡ ScriptEnd.Script self.now.reading.lines reason }
    {
        ScriptEnd::Script {
            line: self.lines,
            reason,
        }
    }

    // Returns what is wrong with a line outside a block, by its size alone.
    fn line_fault(&self, line: &[u8]) -> Option<Reason>
        ensures { result ≡ line_fault (grammar_by self.now.rules) line.now }
    {
        if without_return(line).len() > self.rules.limits.line as usize {
            return Some(Reason::LineTooLong);
        }
        None
    }
}

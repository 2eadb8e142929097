//! The batches of a script, gathered from a source in pieces of any size.
ghost use Rattle.std.specs.Prelude.{◌≡◌, ◌≢◌, ◌<◌, ◌≤◌, ◌+◌, ◌-◌, ◌⊎◌, [], Err, false, true, drop, length, take, IfErr, IfNone, IfOk, IfSome, IsErrOf, OnErr, OnOk};
ghost use Rattle.std.specs.Io.KnownBytes.{Keeps};
ghost use Rattle.lake_io.specs.Causes.{Rose};
ghost use Rattle.script_model.specs.Lanes.{IsOfLanes};
ghost use Rattle.script_model.specs.Reading.{Stands, turn_of};
ghost use Rattle.script_model.specs.Script.{ended, start};
ghost use Rattle.script_model.specs.Words.{NoFeed};
ghost use Rattle.script_text.specs.Endings.{Ends};
ghost use Rattle.script_text.specs.Gathering.{IsLate, gathering_with, grammar};
ghost use Rattle.script_text.specs.Gathers.{Gathers, Taken};
ghost use Rattle.script_text.specs.Inputs.{Came, EndsLine};
ghost use Rattle.script_text.specs.Parts.{HasSameRules, IsHeldFault};
ghost use Rattle.script_text.specs.Readings.{GrowsByOne, Turns};
ghost use Rattle.script_text.specs.Runs.{LeadsOn};

use crate::input::Input;
use crate::reader::Reader;
use crate::refused::ScriptEnd;
use crate::rules::Rules;
use commands::Batch;
use lake_io::{Shelf, Source};
use no_memory::NoMemory;
use script_model::{Reason, ScriptLimits};
use std::alloc::Global;
use std::marker::Model;

/// The most bytes that the source is asked for at once: 64 KiB.
const PIECE: usize = 65536;

/// Gathers the commands of a script into batches. Its model has what was read, the bytes at hand, whether no further
/// batch may be asked for, the limits, and the number of lanes.
#[derive(Drop)]
pub struct Gather {
    ended: bool,
    reader: Reader,
    input: Input,
}

impl Model for Gather {
    ghost use Rattle.std.specs.Prelude.{◌≡◌, [], false};
    ghost use Rattle.script_text.specs.Gathering.{Gathering, gathering_with};

    ghost Value = { Gathering };

    ghost view = { λ g. gathering_with g.reader.reading g.input g.ended g.reader.rules.limits g.reader.rules.lanes };

    ghost invariant = { λ g. (g.ended ≡ false → g.reader.reading.commands ≡ []) };
}

impl Gather {
    /// Returns a gatherer that has read nothing. There is at least one lane, and each limit is at most the standard
    /// one.
    pub fn new(alloc: Global, lanes: u32, limits: ScriptLimits) -> Result<Gather, NoMemory>
        requires lanes { 1 ≤ lanes }
        requires line { limits.line ≤ 4096 }
        requires block { limits.block ≤ 67108864 }
        requires commands { limits.commands ≤ 4096 }
        requires bytes { limits.bytes ≤ 536870912 }
        requires input { limits.input ≤ 68719476736 }
        ensures { IfOk result (λ gather. gather ≡ gathering_with (start []) [] false limits lanes) }
    {
        Ok(Gather {
            ended: false,
            reader: Reader::new(alloc, Rules { limits, lanes }),
            input: Input::new(alloc),
        })
    }

    /// Returns whether no further batch may be asked for.
    pub fn ended(&self) -> bool
        ensures { result ≡ self.now.ended }
    {
        self.ended
    }

    /// Returns the next batch of the script.
    ///
    /// A batch ends with a `sync` line, and the last one with the input. The result is `None` if the input ends without
    /// a further command. After the end of the input no further batch may be asked for.
    ///
    /// The source is asked for at most 65,536 bytes at a time, and only if the bytes that are held have no further
    /// whole line. The file of a `loadfile` is fetched when its line is read; if the shelf refuses it because of a
    /// fault, a missing path or its length, that is the outcome of the command.
    ///
    /// # Errors
    ///
    /// Returns the first line at fault, in the order of the input and by the rules of the script grammar; a fault of
    /// the source, if no line that was read in full is at fault or ends the batch; or `NoMemory`. After an error no
    /// further batch may be asked for.
    pub fn batch<S: Source, F: Shelf>(
        &mut self,
        source: &mut S,
        shelf: &mut F,
    ) -> Result<Option<Batch>, ScriptEnd>
        requires { self.old.ended ≡ false }
        // what was read, and no more than the batch needs
        ensures gathered { (taken : Taken result (S.left source.old) (S.left source.new) (F.files shelf.old) (F.faults shelf.old) (F.faults shelf.new))
            × Gathers result self.old self.new (S.left source.new) taken.given taken.asked taken.outcomes
            × OnOk result (((source.new ≡ source.old) × (taken.given ≡ [])) ⊎ IsLate self.old taken.given taken.outcomes) }
        ensures ended { OnErr result (self.new.ended ≡ true) }
        ensures limits { self.new.limits ≡ self.old.limits }
        ensures same_lanes { self.new.lanes ≡ self.old.lanes }
        // the commands of a batch, and the bytes that it used
        ensures lanes { IfOk result (λ found. IfSome found (IsOfLanes self.old.lanes)) }
        ensures used { IfOk result (λ found. IfSome found (λ batch. (self.old.reading.used < self.new.reading.used) × (self.old.reading.used + length batch ≤ self.new.reading.used))) }
        ensures within { self.new.reading.used ≤ self.new.limits.input }
        // the source and the shelf
        ensures read_fault { IsErrOf result ScriptEnd.ReadFault → Rose (S.faults source.old) (S.faults source.new) }
        ensures later { (S.faults source.old ≤ S.faults source.new) × (F.faults shelf.old ≤ F.faults shelf.new) }
        ensures files { F.files shelf.new ≡ F.files shelf.old }
    {
        // The gatherer counts as ended, except after a `sync`.
        self.set_ended(true);
        'lines: loop {
            let Some(at) = self.find_line() else {
                if self.read_more(source)? == 0 {
                    return self.finish(shelf);
                }
                continue 'lines;
            };
            if let Some(batch) = self.read_line(shelf, at)? {
                self.set_ended(false);
                return Ok(Some(batch));
            }
            self.read_run()?;
        }
    }

    // Sets whether no further batch may be asked for.
    fn set_ended(&mut self, ended: bool)
        requires { ended ≡ false → self.old.reading.commands ≡ [] }
        ensures set { self.new ≡ record self.old { ended = ended } }
        ensures empty { self.old.ended ≡ false → self.old.reading.commands ≡ [] }
    {
        self.ended = ended;
    }

    // Returns where the first whole line ends that is held and within the limit.
    fn find_line(&mut self) -> Option<usize>
        ensures same { self.new ≡ self.old }
        ensures found { IfSome result (λ at. EndsLine self.old.held at × (self.old.reading.used + (at + 1) ≤ self.old.limits.input)) }
        ensures none { IfNone result (NoFeed (take (self.old.limits.input - self.old.reading.used) self.old.held)) }
        ensures within { self.old.reading.used ≤ self.old.limits.input }
    {
        self.input.find_line(self.reader.room())
    }

    // Reads the first line that is held, which has `at` bytes.
    fn read_line<F: Shelf>(&mut self, shelf: &mut F, at: usize) -> Result<Option<Batch>, ScriptEnd>
        requires ended { self.old.ended ≡ true }
        requires line { EndsLine self.old.held at }
        requires fits { self.old.reading.used + (at + 1) ≤ self.old.limits.input }
        ensures turn { Turns (turn_of (grammar self.old) (take at self.old.held)) result (self.old.reading.lines + 1) self.old.reading self.new.reading (F.files shelf.old) (F.faults shelf.old) (F.faults shelf.new) }
        ensures held { self.new.held ≡ drop (at + 1) self.old.held }
        ensures used { self.new.reading.used ≡ self.old.reading.used + (at + 1) }
        ensures grows { GrowsByOne result self.old.reading.commands self.new.reading.commands }
        ensures lanes { IfOk result (λ found. IfSome found (IsOfLanes self.old.lanes)) }
        ensures same { HasSameRules self.old self.new }
        ensures later { F.faults shelf.old ≤ F.faults shelf.new }
        ensures files { F.files shelf.new ≡ F.files shelf.old }
    {
        let line = &self.input.held()[..at];
        let answer = self.reader.read_line(shelf, line);
        self.input.use_up(at + 1);
        answer
    }

    // Reads the whole lines that are held and that continue an open block, as far as they can be read at once.
    fn read_run(&mut self) -> Result<(), NoMemory>
        requires { self.old.ended ≡ true }
        ensures leads { OnOk result (LeadsOn (grammar self.old) self.old.reading self.new.reading self.old.held self.new.held) }
        ensures used { OnOk result (self.new.reading.used + length self.new.held ≡ self.old.reading.used + length self.old.held) }
        ensures less { OnOk result (length self.new.held ≤ length self.old.held) }
        ensures commands { OnOk result (self.new.reading.commands ≡ self.old.reading.commands) }
        ensures within { self.new.reading.used ≤ self.new.limits.input }
        ensures same { HasSameRules self.old self.new }
    {
        let count = self.reader.read_run(self.input.held())?;
        self.input.use_up(count);
        Ok(())
    }

    // Reads once from the source, if what is held is not too long. It returns how many bytes the source gave, 0 only at
    // its end.
    fn read_more<S: Source>(&mut self, source: &mut S) -> Result<usize, ScriptEnd>
        requires ended { self.old.ended ≡ true }
        requires line { NoFeed (take (self.old.limits.input - self.old.reading.used) self.old.held) }
        ensures came { IfOk result (λ count. Came (S.left source.old) (S.left source.new) self.old.held self.new.held count) }
        ensures fits { IfOk result (λ count. (self.old.reading.used + length self.old.held ≤ self.old.limits.input) × (self.old.reading.used + length self.old.held + count ≤ self.old.limits.input + 1)) }
        ensures few { IfOk result (λ count. count ≤ 65536) }
        ensures kept { OnErr result (Keeps (S.left source.old) (S.left source.new) × (self.new.held ≡ self.old.held)) }
        ensures reading { self.new.reading ≡ self.old.reading }
        ensures same { HasSameRules self.old self.new }
        ensures fault { IfErr result (λ e. IsHeldFault self.old e) }
        ensures read_fault { result ≡ Err ScriptEnd.ReadFault → Rose (S.faults source.old) (S.faults source.new) × NoFeed self.old.held }
        ensures later { S.faults source.old ≤ S.faults source.new }
    {
        let most = self.room_to_read()?;
        self.input.read(source, most)
    }

    // Returns how many bytes may be read, if what is held is not too long.
    fn room_to_read(&self) -> Result<usize, ScriptEnd>
        requires line { NoFeed (take (self.now.limits.input - self.now.reading.used) self.now.held) }
        ensures fits { IfOk result (λ most. (0 < most) × (most ≤ 65536) × (self.now.reading.used + length self.now.held + most ≤ self.now.limits.input + 1)) }
        ensures fault { IfErr result (λ e. (e ≢ ScriptEnd.ReadFault) × IsHeldFault self.now e) }
    {
        let held = self.input.held();
        let room = self.reader.room();
        let line = self.reader.lines() + 1;
        if held.len() > room {
            let reason = self
                .reader
                .begun_fault(&held[..room])
                .unwrap_or(Reason::InputTooLong);
            return Err(ScriptEnd::Script { line, reason });
        }
        if held.len() > self.reader.longest() {
            let reason = self.reader.too_long();
            return Err(ScriptEnd::Script { line, reason });
        }
        Ok((room - held.len() + 1).min(PIECE))
    }

    // Returns the last batch. The input is at its end, and what is held is its last line.
    fn finish<F: Shelf>(&mut self, shelf: &mut F) -> Result<Option<Batch>, ScriptEnd>
        requires ended { self.old.ended ≡ true }
        requires fits { self.old.reading.used + length self.old.held ≤ self.old.limits.input }
        ensures ends { Ends (λ reading. ended (grammar self.old) false self.old.held [] (Stands reading)) result self.old.reading (F.files shelf.old) (F.faults shelf.old) (F.faults shelf.new) }
        ensures used { OnOk result (self.new.reading.used ≡ self.old.reading.used + length self.old.held) }
        ensures within { self.new.reading.used ≤ self.old.reading.used + length self.old.held }
        ensures grows { IfOk result (λ found. IfSome found (λ batch. (0 < length self.old.reading.commands + length self.old.held) × (length batch ≤ length self.old.reading.commands + length self.old.held))) }
        ensures lanes { IfOk result (λ found. IfSome found (IsOfLanes self.old.lanes)) }
        ensures same { HasSameRules self.old self.new }
        ensures later { F.faults shelf.old ≤ F.faults shelf.new }
        ensures files { F.files shelf.new ≡ F.files shelf.old }
    {
        self.reader.finish(shelf, self.input.held())
    }
}

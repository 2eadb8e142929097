//! The checker, which takes the batches of a script one after another, and then the trace.
ghost use Rattle.std.specs.Prelude.{◌≡◌, ◌<◌, ◌^◌, ◌∷◌, ◌++◌, [], IfOk, OnErr, OnOk, false, length, true};
ghost use Rattle.std.specs.List.{AllByRecursion};
ghost use Rattle.catalogue.specs.Kept.{IsWithin};
ghost use Rattle.script_model.specs.Lanes.{IsOfLanes};
ghost use Rattle.record_model.specs.Rules.{rules_with, wide_limits};
ghost use Rattle.trace_laws.specs.Passing.{verdict};
ghost use Rattle.trace_laws.specs.Verdict.{all_commands};
ghost use Rattle.batch_work.specs.Named.{HaveNames};
ghost use Rattle.trace_check.specs.Checking.{AreChecked, HasRecord, checker_with};

use crate::judging::{Run, judge};
use catalogue::Limits;
use commands::{Batch, Options};
use no_memory::NoMemory;
use std::alloc::Global;
use std::marker::Model;
use trace_laws::verdict_law;

/// Checks a finished run: it holds the batches of a script, and decides whether a trace is the text of some right
/// record of them. Its model is the rules and the options of the run, and the batches so far.
#[derive(Drop)]
pub struct Checker {
    alloc: Global,
    limits: Limits,
    options: Options,
    batches: Vec<Batch>,
}

impl Model for Checker {
    ghost use Rattle.std.specs.Prelude.{◌≡◌};
    ghost use Rattle.catalogue.specs.Kept.{IsWithin};
    ghost use Rattle.record_model.specs.Rules.{rules_with, wide_limits};
    ghost use Rattle.trace_check.specs.Checking.{AreChecked, CheckerOf, checker_with};

    ghost Value = { CheckerOf };

    ghost view = { λ c. checker_with (rules_with c.options.keys c.limits) c.options c.batches.items };

    ghost invariant = { λ c. IsWithin wide_limits c.limits × AreChecked c.options c.batches.items };
}

impl Checker {
    /// Makes a checker of runs with these options, in a lake with these limits, with no batch yet. It takes no memory.
    pub fn new(alloc: Global, options: Options, limits: Limits) -> Checker
        requires trace { options.trace ≡ true }
        // the limits are at most those of a lake in the program
        requires limits { IsWithin wide_limits limits }
        ensures { result ≡ checker_with (rules_with options.keys limits) options [] }
    {
        Checker {
            alloc,
            limits,
            options,
            batches: Vec::new(alloc),
        }
    }

    /// Adds the next batch of the script. If memory runs out, it returns `Err(NoMemory)` and nothing has changed.
    pub fn add(&mut self, batch: Batch) -> Result<(), NoMemory>
        requires lanes { IsOfLanes self.old.options.lanes batch }
        ensures added { OnOk result (self.new ≡ checker_with self.old.rules self.old.options (self.old.batches ++ batch ∷ [])) }
        ensures kept { OnErr result (self.new ≡ self.old) }
    {
        self.batches.push(batch)?;
        Ok(())
    }

    /// Decides whether the trace is the text of some right record of the batches, ended and with these options. A trace
    /// that differs from such a text by a byte, or is longer or shorter, is not accepted. Each command is done again,
    /// up to the first answer that differs; if memory runs out for that, the result is `Err(NoMemory)` and never a
    /// verdict.
    pub fn verdict(self, trace: &[u8]) -> Result<bool, NoMemory>
        ensures value { IfOk result (λ yes. yes ≡ verdict self.rules self.options self.batches trace.now) }
        ensures right { IfOk result (λ yes. yes ≡ true → HasRecord self trace.now) }
        ensures none { IfOk result (λ yes. yes ≡ false → HasRecord self trace.now → ⊥) }
    {
        verdict_law();
        self.judge(trace)
    }

    // Returns the verdict, and states what is known of the batches.
    fn judge(&self, trace: &[u8]) -> Result<bool, NoMemory>
        ensures value { IfOk result (λ yes. yes ≡ verdict self.now.rules self.now.options self.now.batches trace.now) }
        ensures known { AreChecked self.now.options self.now.batches }
        ensures few { IfOk result (λ yes. length (all_commands self.now.options.merge 1 self.now.batches) < 2 ^ 64) }
        ensures names { IfOk result (λ yes. AllByRecursion HaveNames self.now.batches) }
    {
        let run = Run {
            keys: self.options.keys,
            limits: self.limits,
            lanes: self.options.lanes,
            merge: self.options.merge,
            batches: &self.batches,
        };
        judge(self.alloc, &run, trace)
    }
}

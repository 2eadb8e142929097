//! The input of a replay.
ghost use Rattle.std.specs.Prelude.{◌≡◌, ◌+◌, ◌<◌, [], get_or, length, map};
ghost use Rattle.record_model.specs.Rules.{rules_with};
ghost use Rattle.script_model.specs.Commands.{Command as CommandOf};
ghost use Rattle.trace_laws.specs.Hints.{Wanting};
ghost use Rattle.trace_hints.specs.Told.{hint_as};
ghost use Rattle.trace_ends.specs.Within.{ArePositions};
ghost use Rattle.batch_work.specs.Works.{work_of, works_of};
ghost use Rattle.trace_replay.specs.Lakes.{trace_with};

use batch_work::Work;
use catalogue::Limits;
use lake_model::Keys;
use std::marker::Model;
use trace_groups::Group;
use trace_hints::Hint;

/// The rules of a run, the work that was done in it, and its trace: a hint and a group of lines for each answer, and a
/// group for the journal.
#[derive(Drop)]
pub(crate) struct Trace<'a> {
    keys: Keys,
    limits: Limits,
    works: &'a [Work<'a>],
    hints: &'a [Hint],
    groups: &'a [Group<'a>],
}

impl<'a> Model for Trace<'a> {
    ghost use Rattle.std.specs.Prelude.{◌≡◌, ◌+◌, length, map};
    ghost use Rattle.record_model.specs.Rules.{rules_with};
    ghost use Rattle.trace_hints.specs.Told.{hint_as};
    ghost use Rattle.trace_ends.specs.Within.{ArePositions};
    ghost use Rattle.batch_work.specs.Works.{works_of};
    ghost use Rattle.trace_replay.specs.Lakes.{TraceOf, trace_with};

    ghost Value = { TraceOf };

    ghost view = { λ t. trace_with (rules_with t.keys t.limits) (works_of t.works.now) (map hint_as t.hints.now) (map (λ group. group.text.now) t.groups.now) };

    ghost invariant = { λ t. ArePositions (works_of t.works.now) (map hint_as t.hints.now) × (length t.groups.now ≡ length t.works.now + 1) };
}

impl<'a> Trace<'a> {
    /// Makes the input of a replay from its parts.
    pub(crate) fn new(
        keys: Keys,
        limits: Limits,
        works: &'a [Work<'a>],
        hints: &'a [Hint],
        groups: &'a [Group<'a>],
    ) -> Trace<'a>
        requires positions { ArePositions (works_of works.now) (map hint_as hints.now) }
        requires groups { length groups.now ≡ length works.now + 1 }
        ensures { result ≡ trace_with (rules_with keys limits) (works_of works.now) (map hint_as hints.now) (map (λ group. group.text.now) groups.now) }
    {
        Trace {
            keys,
            limits,
            works,
            hints,
            groups,
        }
    }

    /// States that the positions of the hints are those of one run.
    pub(crate) fn positions(&self)
        ensures { ArePositions self.now.commands self.now.hints }
    {
        // There is a group for each answer, and one for the journal.
        prove!(self.works.len() < self.groups.len());
    }

    /// Returns the kind of keys by which values are compared.
    pub(crate) fn keys(&self) -> Keys
        ensures { result ≡ self.now.rules.keys }
    {
        self.keys
    }

    /// Returns the work with this index.
    pub(crate) fn work(&self, index: usize) -> Work<'a>
        requires { index < length self.now.commands }
        ensures { (c : CommandOf) → get_or self.now.commands index c ≡ work_of result }
    {
        let works = self.works;
        works[index]
    }

    /// Returns the hint of the answer with this index.
    pub(crate) fn hint(&self, index: usize) -> Hint
        requires { index < length self.now.commands }
        ensures { hint_as result ≡ get_or self.now.hints index Wanting }
    {
        let hints = self.hints;
        hints[index]
    }

    /// Returns the lines of the answer with this index, or, for the index after the last answer, those of the journal.
    pub(crate) fn text(&self, index: usize) -> &'a [u8]
        requires { index < length self.now.commands + 1 }
        ensures { result.now ≡ get_or self.now.texts index [] }
    {
        let groups = self.groups;
        groups[index].text
    }

    /// Returns the index of the journal's lines.
    pub(crate) fn last(&self) -> usize
        ensures { result ≡ length self.now.commands }
    {
        self.works.len()
    }
}

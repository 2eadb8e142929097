//! The lake in which the answers of a trace are made again, one after another.
ghost use Rattle.std.specs.Prelude.{◌≡◌, ◌<◌, ◌+◌, Bool, IfOk, OnOk, None, [], ℕ, false, length, true};
ghost use Rattle.std.specs.List.{Contains};
ghost use Rattle.lake_model.specs.Layout.{is_legal};
ghost use Rattle.catalogue.specs.Kept.{IsWithin};
ghost use Rattle.record_model.specs.Answered.{has_pin};
ghost use Rattle.record_model.specs.Play.{reply_or_denied};
ghost use Rattle.record_model.specs.Replies.{Reply as ReplyOf};
ghost use Rattle.record_model.specs.Rules.{wide_limits};
ghost use Rattle.record_model.specs.Texts.{journal_lines};
ghost use Rattle.run_record.specs.Replies.{reply_of};
ghost use Rattle.command_replies.specs.declared.answering.Held.{Held as HeldOf};
ghost use Rattle.command_replies.specs.Held.{IsHeldAt, position_of};
ghost use Rattle.batch_work.specs.Works.{merge_policy};
ghost use Rattle.trace_laws.specs.Rebuilt.{pinned_of};
ghost use Rattle.trace_groups.specs.Pieces.{group_text};
ghost use Rattle.trace_numbers.specs.Positions.{IsOwner, own_of};
ghost use Rattle.trace_numbers.specs.Turns.{made_at};
ghost use Rattle.trace_ends.specs.Fronts.{reply_at};
ghost use Rattle.trace_replay.specs.Lakes.{AnswersNow, AreHeld, AreTold, IsAfter, IsAt, IsBehindLooks, IsFrom, IsHeldIn, IsLeft, IsReady, IsTold, Keeps, LooksAreTold, command_at, hint_at};
ghost use Rattle.trace_replay.specs.Stretches.{ArePlansOf, AreTurnsOf, IsLookOf, IsPlanOf, IsTurnOf};

use crate::telling::{is_told, is_wanting};
use crate::trace::Trace;
use crate::turns::{is_early, plans_at, turns_at};
use asof_search::Timeline;
use catalogue::{Catalogue, Limits};
use command_replies::{Held, begin, reply_now, reply_when_held};
use no_memory::NoMemory;
use reply_text::push_journal;
use run_record::{Reply, RunRecord};
use std::alloc::Global;
use std::marker::Model;
use trace_ends::fronts_law;
use trace_numbers::{Plan, Turn};

/// A lake that answers the commands of a trace again. It holds each merge that is planned at an earlier position than
/// the one at which its answer is made, from its plan to its answer. Along a lane the positions, which have passed the
/// tests on numbers, never fall, and an answer that only looks is made before what is planned at its position: so at
/// most one merge is held for each lane, and one for the merger.
#[derive(Drop)]
pub(crate) struct Lake {
    alloc: Global,
    catalogue: Catalogue,
    past: Timeline,
    run: RunRecord,
    held: Vec<(usize, Held)>,
    text: Vec<u8>,
}

impl Model for Lake {
    ghost use Rattle.std.specs.Prelude.{◌≡◌};
    ghost use mathlib.Core.List.{IsPrefix};
    ghost use Rattle.catalogue.specs.Kept.{IsWithin};
    ghost use Rattle.record_model.specs.Rules.{wide_limits};
    ghost use Rattle.trace_replay.specs.Lakes.{LakeOf, lake_with};

    ghost Value = { LakeOf };

    ghost view = { λ l. lake_with l.catalogue.limits l.catalogue.journal l.held.items l.run.entries_room };

    ghost invariant = { λ l. IsWithin wide_limits l.catalogue.limits × (l.run.made.journal ≡ l.catalogue.journal) × IsPrefix l.past l.catalogue.journal };
}

// Returns a reply that does not say that memory ran out.
fn known(reply: Reply) -> Result<Reply, NoMemory>
    ensures same { IfOk result (λ known. known ≡ reply) }
    ensures known { (denied : Bool) (wanted : ReplyOf) → reply_of reply ≡ reply_or_denied denied wanted → IfOk result (λ known. reply_of known ≡ wanted) }
{
    match reply {
        Reply::NoMemory => Err(NoMemory),
        _ => Ok(reply),
    }
}

// Takes out what is held for the merge with this index.
fn take_held(held: &mut Vec<(usize, Held)>, index: usize) -> Held
    requires { IsHeldIn held.old.items index }
    ensures taken { Contains held.old.items (index, result) }
    ensures left { (one : ℕ × HeldOf) → Contains held.new.items one → Contains held.old.items one }
    ensures others { Keeps (λ i. i ≡ index) held.old.items held.new.items }
{
    match held.iter().position(|one| one.0 == index) {
        Some(place) => held.swap_remove(place).1,
        None => unreachable!(),
    }
}

impl Lake {
    /// Makes a lake with an empty journal, or returns `Err(NoMemory)`.
    pub(crate) fn new(alloc: Global, limits: Limits) -> Result<Lake, NoMemory>
        requires { IsWithin wide_limits limits }
        ensures limits { IfOk result (λ lake. lake.limits ≡ limits) }
        ensures journal { IfOk result (λ lake. lake.journal ≡ []) }
        ensures held { IfOk result (λ lake. lake.held ≡ []) }
    {
        Ok(Lake {
            alloc,
            catalogue: Catalogue::new(alloc, limits)?,
            past: Timeline::new(alloc),
            run: RunRecord::new(alloc),
            held: Vec::new(alloc),
            text: Vec::new(alloc),
        })
    }

    // Returns what is held for the work with this index: what was planned for it before, or else the newest version, or
    // a plan in that version.
    fn held_for(&mut self, trace: &Trace<'_>, index: usize) -> Held
        requires index { index < length trace.now.commands }
        requires at { IsAt trace.now (made_at (hint_at trace.now index)) self.old }
        requires ready { IsReady trace.now index self.old }
        ensures holds { IsHeldAt self.old.journal (merge_policy (command_at trace.now index).task) result }
        ensures position { position_of result ≡ pinned_of (hint_at trace.now index) }
        ensures left { IsLeft index self.old self.new }
    {
        trace.positions();
        if is_early(trace.hint(index)) {
            take_held(&mut self.held, index)
        } else {
            begin(self.alloc, &self.catalogue, &trace.work(index))
        }
    }

    // Makes the reply to work that has a pin.
    fn reply_pinned(&mut self, trace: &Trace<'_>, index: usize) -> Reply
        requires index { index < length trace.now.commands }
        requires at { IsAt trace.now (made_at (hint_at trace.now index)) self.old }
        requires ready { IsReady trace.now index self.old }
        requires pins { has_pin (command_at trace.now index).task ≡ true }
        requires room { 0 < self.old.room }
        ensures answered { AnswersNow trace.now index self.old.journal (reply_of result) }
        ensures after { IsAfter trace.now index (reply_of result) self.old self.new }
    {
        let held = self.held_for(trace, index);
        reply_when_held(
            self.alloc,
            &mut self.catalogue,
            trace.keys(),
            &trace.work(index),
            held,
            &mut self.run,
        )
    }

    // Makes the reply to work that has no pin.
    fn reply_unpinned(&mut self, trace: &Trace<'_>, index: usize) -> Reply
        requires index { index < length trace.now.commands }
        requires at { IsAt trace.now (made_at (hint_at trace.now index)) self.old }
        requires pins { has_pin (command_at trace.now index).task ≡ false }
        requires room { 0 < self.old.room }
        ensures answered { AnswersNow trace.now index self.old.journal (reply_of result) }
        ensures after { IsAfter trace.now index (reply_of result) self.old self.new }
    {
        reply_now(
            self.alloc,
            &mut self.catalogue,
            trace.keys(),
            &mut self.past,
            &trace.work(index),
            &mut self.run,
        )
    }

    // Makes the reply to work with this index.
    fn reply(&mut self, trace: &Trace<'_>, index: usize) -> Reply
        requires index { index < length trace.now.commands }
        requires at { IsAt trace.now (made_at (hint_at trace.now index)) self.old }
        requires ready { IsReady trace.now index self.old }
        requires room { 0 < self.old.room }
        ensures answered { AnswersNow trace.now index self.old.journal (reply_of result) }
        ensures after { IsAfter trace.now index (reply_of result) self.old self.new }
    {
        if trace.work(index).has_pin() {
            self.reply_pinned(trace, index)
        } else {
            self.reply_unpinned(trace, index)
        }
    }

    // Makes room for one more entry.
    fn make_room(&mut self) -> Result<(), NoMemory>
        ensures same { (self.new.limits ≡ self.old.limits) × (self.new.journal ≡ self.old.journal) × (self.new.held ≡ self.old.held) }
        ensures room { OnOk result (0 < self.new.room) }
    {
        self.run.room(0, 1)
    }

    // Makes the reply to work as its hint requires. That memory ran out is the reply only if the hint says so; if
    // memory runs out during the replay, the result is `Err(NoMemory)`.
    fn reply_again(&mut self, trace: &Trace<'_>, index: usize) -> Result<Reply, NoMemory>
        requires index { index < length trace.now.commands }
        requires at { IsAt trace.now (made_at (hint_at trace.now index)) self.old }
        requires ready { IsReady trace.now index self.old }
        ensures answered { IfOk result (λ reply. reply_of reply ≡ reply_at trace.now.rules self.old.journal (command_at trace.now index) (hint_at trace.now index)) }
        ensures after { IfOk result (λ reply. IsAfter trace.now index (reply_of reply) self.old self.new) }
    {
        if is_wanting(trace.hint(index)) {
            return Ok(Reply::NoMemory);
        }
        self.make_room()?;
        known(self.reply(trace, index))
    }

    /// Makes the answer with this index again, at the position that its hint gives, and returns whether it is as in the
    /// trace: it has that hint and those lines. What it adds is then in the lake, and what is held for other answers is
    /// kept. Returns `Err(NoMemory)` if memory runs out.
    pub(crate) fn answer(&mut self, trace: &Trace<'_>, index: usize) -> Result<bool, NoMemory>
        requires index { index < length trace.now.commands }
        requires at { IsAt trace.now (made_at (hint_at trace.now index)) self.old }
        requires ready { IsReady trace.now index self.old }
        ensures sound { IfOk result (λ yes. yes ≡ true → IsTold trace.now index) }
        ensures complete { IfOk result (λ yes. IsTold trace.now index → yes ≡ true) }
        ensures looks { IfOk result (λ yes. yes ≡ true → own_of (hint_at trace.now index) ≡ None → IsAt trace.now (made_at (hint_at trace.now index)) self.new) }
        ensures owns { IfOk result (λ yes. yes ≡ true → IsOwner trace.now.hints (made_at (hint_at trace.now index) + 1) index → IsAt trace.now (made_at (hint_at trace.now index) + 1) self.new) }
        ensures others { OnOk result (Keeps (λ i. i ≡ index) self.old.held self.new.held) }
    {
        trace.positions();
        fronts_law();
        let reply = self.reply_again(trace, index)?;
        is_told(
            trace.work(index).by(),
            reply,
            trace.hint(index),
            trace.text(index),
            &mut self.text,
        )
    }

    // Makes the answer of a turn again if it only looks, and returns whether it is as in the trace. Returns true for a
    // turn that adds an entry, without making its answer.
    fn look(&mut self, trace: &Trace<'_>, turn: Turn) -> Result<bool, NoMemory>
        requires at { IsAt trace.now turn.at self.old }
        requires turn { IsTurnOf trace.now.hints turn }
        requires ready { turn.adds ≡ false → IsReady trace.now turn.index self.old }
        ensures sound { IfOk result (λ yes. yes ≡ true → turn.adds ≡ false → IsTold trace.now turn.index) }
        ensures complete { IfOk result (λ yes. AreTold trace.now → yes ≡ true) }
        ensures at { IfOk result (λ yes. yes ≡ true → IsAt trace.now turn.at self.new) }
        ensures others { OnOk result (Keeps (IsLookOf turn) self.old.held self.new.held) }
    {
        if turn.adds {
            return Ok(true);
        }
        trace.positions();
        self.answer(trace, turn.index)
    }

    /// Makes those answers again that are made at position `at` and only look, and returns whether they are as in the
    /// trace, or `Err(NoMemory)` if memory runs out.
    pub(crate) fn look_at(
        &mut self,
        trace: &Trace<'_>,
        turns: &[Turn],
        at: u64,
    ) -> Result<bool, NoMemory>
        requires at { IsAt trace.now at self.old }
        requires turns { AreTurnsOf trace.now.hints turns.now }
        requires held { AreHeld trace.now at (IsFrom trace.now at) self.old }
        ensures sound { IfOk result (λ yes. yes ≡ true → LooksAreTold trace.now at) }
        ensures complete { IfOk result (λ yes. AreTold trace.now → yes ≡ true) }
        ensures at { IfOk result (λ yes. yes ≡ true → IsAt trace.now at self.new) }
        ensures held { IfOk result (λ yes. yes ≡ true → AreHeld trace.now at (IsBehindLooks trace.now at) self.new) }
    {
        trace.positions();
        for turn in turns_at(turns, at) {
            if !self.look(trace, *turn)? {
                return Ok(false);
            }
        }
        Ok(true)
    }

    // Plans a merge at the position that its hint gives, and holds it. If its answer is made at the same position,
    // nothing is held, since making the answer plans the merge as well.
    fn plan_one(&mut self, trace: &Trace<'_>, plan: Plan) -> Result<(), NoMemory>
        requires at { IsAt trace.now plan.at self.old }
        requires plan { IsPlanOf trace.now.hints plan }
        ensures at { OnOk result (IsAt trace.now plan.at self.new) }
        ensures ready { OnOk result (IsReady trace.now plan.index self.new) }
        ensures others { OnOk result (Keeps (λ i. ⊥) self.old.held self.new.held) }
    {
        trace.positions();
        if !is_early(trace.hint(plan.index)) {
            return Ok(());
        }
        let held = begin(self.alloc, &self.catalogue, &trace.work(plan.index));
        self.held.push((plan.index, held))?;
        Ok(())
    }

    /// Plans those merges that are planned at position `at` and answered later. Returns `Err(NoMemory)` if memory runs
    /// out.
    pub(crate) fn plan_at(
        &mut self,
        trace: &Trace<'_>,
        plans: &[Plan],
        at: u64,
    ) -> Result<(), NoMemory>
        requires at { IsAt trace.now at self.old }
        requires plans { ArePlansOf trace.now.hints plans.now }
        requires held { AreHeld trace.now at (IsBehindLooks trace.now at) self.old }
        ensures at { OnOk result (IsAt trace.now at self.new) }
        ensures held { OnOk result (AreHeld trace.now (at + 1) (IsBehindLooks trace.now at) self.new) }
    {
        trace.positions();
        for plan in plans_at(plans, at) {
            self.plan_one(trace, *plan)?;
        }
        Ok(())
    }

    /// Returns whether the text is that of the journal's lines, or `Err(NoMemory)` if memory runs out.
    pub(crate) fn has_journal(&mut self, text: &[u8]) -> Result<bool, NoMemory>
        ensures sound { IfOk result (λ yes. yes ≡ true → text.now ≡ group_text (journal_lines self.old.journal)) }
        ensures complete { IfOk result (λ yes. text.now ≡ group_text (journal_lines self.old.journal) → yes ≡ true) }
        ensures legal { is_legal self.old.journal ≡ true }
    {
        self.text.clear();
        push_journal(self.catalogue.journal(), &mut self.text)?;
        Ok(self.text.as_slice() == text)
    }
}

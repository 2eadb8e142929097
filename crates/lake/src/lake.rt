//! The lake, and the calls on it.
ghost use Rattle.std.specs.Prelude.{◌≡◌, ◌≤◌, ◌<◌, ◌^◌, ◌-◌, ◌⊎◌, ℕ, ◌∷◌, [], drop, false, length, take, IfErr, IfOk, IfSome, IsSome, None, Some};
ghost use mathlib.Core.List.{IsPrefix};
ghost use Rattle.lake_model.specs.Journal.{entry_with, live, who_with, Dropped, Loaded, Replaced, Swapped};
ghost use Rattle.lake_model.specs.Layout.{layout};
ghost use Rattle.segment_core.specs.Versions.{live_of, version_with};
ghost use Rattle.turn_lock.specs.History.{longer, Grows, IsOfGiven};
ghost use Rattle.turn_lock.specs.Passes.{after_ending, after_numbering, after_seeing, callers_of, known, new_pass_of, noted};
ghost use Rattle.catalogue.specs.Refusals.{drop_refusal, load_refusal, replace_refusal};
ghost use Rattle.catalogue.specs.Swaps.{numbers_in, swap_refusal, IsMergeOf};
ghost use Rattle.lake.specs.Lawful.{caller_of, IsAccepted, IsLawful};

use crate::held::{Bounds, Held};
use crate::pass::{Note, Pass};
use catalogue::{DropRefused, Entry, Limits, LoadRefused, ReplaceRefused, SwapRefused};
use column_set::{Name, SharedTable};
use no_memory::NoMemory;
use segment_core::{Merged, Pin, Segment};
use std::alloc::Global;
use std::marker::Model;
use std::sync::{Arc, Wait};
use turn_lock::HistoryLock;

/// A lake that many callers change, each by a pass of its own. Its model is the name of its lock, which its passes
/// carry too.
#[derive(Drop)]
pub struct Lake<B: Bounds> {
    lock: HistoryLock<Held<B>>,
}

impl<B: Bounds> Model for Lake<B> {
    ghost use Rattle.atomic_table.specs.Seated.{TableId};

    ghost Value = { TableId };

    ghost view = { λ l. l.lock };
}

impl<B: Bounds> Lake<B> {
    /// Returns an empty lake with these limits for `callers` callers, at least 1, and the pass of caller 0.
    pub fn new(alloc: Global, limits: Limits, callers: u32) -> Result<(Lake<B>, Pass<B>), NoMemory>
        requires callers { 1 ≤ callers }
        requires limits { limits ≡ B.limits }
        requires narrow { limits.updates < 2 ^ 32 }
        ensures { IfOk result (λ made. made.1 ≡ known made.0 0 [] [] false (Some 1) (callers - 1)) }
    {
        let held = Held::new(alloc, limits)?;
        let (lock, pass) = HistoryLock::new(alloc, held, callers)?;
        Ok((Lake { lock }, Pass { pass }))
    }

    /// Loads a table, by an entry of this command and of the pass's caller, and returns the position of the entry. It
    /// is refused as the catalogue refuses it at the journal that the pass has then seen, and then no entry is added.
    pub fn load<R: Wait>(
        &self,
        rt: &R,
        pass: &mut Pass<B>,
        command: u64,
        table: SharedTable,
        segment: Arc<Segment>,
    ) -> Result<u64, LoadRefused>
        requires lock { pass.old.lock ≡ self.now }
        requires segment { segment.value ≡ table ∷ [] }
        ensures pass { pass.new ≡ after_seeing pass.old pass.new.seen false }
        ensures lawful { IsLawful B.limits pass.new.seen }
        ensures accepted { IfOk result (λ at. IsAccepted (load_refusal B.limits table) (callers_of pass.old) pass.old.seen (entry_with (who_with pass.old.caller command) (Loaded table)) at pass.new.seen) }
        ensures grows { IfErr result (λ e. Grows caller_of (callers_of pass.old) pass.old.seen pass.new.seen) }
        ensures refused { IfErr result (λ e. (e ≡ LoadRefused.NoMemory) ⊎ (load_refusal B.limits table pass.new.seen ≡ Some e)) }
    {
        let who = pass.who(command);
        let mut turn = self.lock.take(rt, &mut pass.pass);
        let done = turn.value().load(who, table, segment);
        self.lock.give(&mut pass.pass, turn);
        done
    }

    /// Drops the live table of a name. It is done or refused as a load is.
    pub fn drop_table<R: Wait>(
        &self,
        rt: &R,
        pass: &mut Pass<B>,
        command: u64,
        name: &Name,
    ) -> Result<u64, DropRefused>
        requires lock { pass.old.lock ≡ self.now }
        ensures pass { pass.new ≡ after_seeing pass.old pass.new.seen false }
        ensures lawful { IsLawful B.limits pass.new.seen }
        ensures accepted { IfOk result (λ at. IsAccepted (drop_refusal B.limits name.now) (callers_of pass.old) pass.old.seen (entry_with (who_with pass.old.caller command) (Dropped name.now)) at pass.new.seen) }
        ensures grows { IfErr result (λ e. Grows caller_of (callers_of pass.old) pass.old.seen pass.new.seen) }
        ensures refused { IfErr result (λ e. (e ≡ DropRefused.NoMemory) ⊎ (drop_refusal B.limits name.now pass.new.seen ≡ Some e)) }
    {
        let who = pass.who(command);
        let mut turn = self.lock.take(rt, &mut pass.pass);
        let done = turn.value().drop_table(who, name);
        self.lock.give(&mut pass.pass, turn);
        done
    }

    /// Puts a table in the place of the live one of its name. It is done or refused as a load is.
    pub fn replace<R: Wait>(
        &self,
        rt: &R,
        pass: &mut Pass<B>,
        command: u64,
        table: SharedTable,
        segment: Arc<Segment>,
    ) -> Result<u64, ReplaceRefused>
        requires lock { pass.old.lock ≡ self.now }
        requires segment { segment.value ≡ table ∷ [] }
        ensures pass { pass.new ≡ after_seeing pass.old pass.new.seen false }
        ensures lawful { IsLawful B.limits pass.new.seen }
        ensures accepted { IfOk result (λ at. IsAccepted (replace_refusal B.limits table) (callers_of pass.old) pass.old.seen (entry_with (who_with pass.old.caller command) (Replaced table)) at pass.new.seen) }
        ensures grows { IfErr result (λ e. Grows caller_of (callers_of pass.old) pass.old.seen pass.new.seen) }
        ensures refused { IfErr result (λ e. (e ≡ ReplaceRefused.NoMemory) ⊎ (replace_refusal B.limits table pass.new.seen ≡ Some e)) }
    {
        let who = pass.who(command);
        let mut turn = self.lock.take(rt, &mut pass.pass);
        let done = turn.value().replace(who, table, segment);
        self.lock.give(&mut pass.pass, turn);
        done
    }

    /// Swaps in what was merged from a layout that the pass has seen. It is done or refused as a load is.
    pub fn swap<R: Wait>(
        &self,
        rt: &R,
        pass: &mut Pass<B>,
        command: u64,
        merged: Merged,
    ) -> Result<u64, SwapRefused>
        requires lock { pass.old.lock ≡ self.now }
        requires planned { merged.at ≤ length pass.old.seen }
        requires merges { IsMergeOf (layout (take merged.at pass.old.seen)) merged }
        ensures pass { pass.new ≡ after_seeing pass.old pass.new.seen false }
        ensures lawful { IsLawful B.limits pass.new.seen }
        ensures accepted { IfOk result (λ at. IsAccepted (swap_refusal merged.from) (callers_of pass.old) pass.old.seen (entry_with (who_with pass.old.caller command) (Swapped (numbers_in merged.from) merged.kept)) at pass.new.seen) }
        ensures grows { IfErr result (λ e. Grows caller_of (callers_of pass.old) pass.old.seen pass.new.seen) }
        ensures refused { IfErr result (λ e. (e ≡ SwapRefused.NoMemory) ⊎ (swap_refusal merged.from pass.new.seen ≡ Some e)) }
    {
        let who = pass.who(command);
        let mut turn = self.lock.take(rt, &mut pass.pass);
        let done = turn.value().swap(who, merged);
        self.lock.give(&mut pass.pass, turn);
        done
    }

    /// Returns the entries after a position that the pass has seen.
    pub fn journal<R: Wait>(
        &self,
        rt: &R,
        alloc: Global,
        pass: &mut Pass<B>,
        after: u64,
    ) -> Result<Vec<Entry>, NoMemory>
        requires lock { pass.old.lock ≡ self.now }
        requires seen { after ≤ length pass.old.seen }
        ensures pass { pass.new ≡ after_seeing pass.old pass.new.seen false }
        ensures grows { Grows caller_of (callers_of pass.old) pass.old.seen pass.new.seen }
        ensures lawful { IsLawful B.limits pass.new.seen }
        ensures entries { IfOk result (λ entries. entries.items ≡ drop after pass.new.seen) }
    {
        let mut turn = self.lock.take(rt, &mut pass.pass);
        let entries = turn.value().entries_behind(alloc, after);
        self.lock.give(&mut pass.pass, turn);
        entries
    }

    /// Returns a pin of the newest version: that of the journal that the pass has then seen.
    pub fn pin<R: Wait>(&self, rt: &R, pass: &mut Pass<B>) -> Result<Pin, NoMemory>
        requires lock { pass.old.lock ≡ self.now }
        ensures pass { pass.new ≡ after_seeing pass.old pass.new.seen false }
        ensures grows { Grows caller_of (callers_of pass.old) pass.old.seen pass.new.seen }
        ensures lawful { IsLawful B.limits pass.new.seen }
        ensures version { IfOk result (λ pin. pin ≡ version_with (length pass.new.seen) (layout pass.new.seen)) }
        ensures live { IfOk result (λ pin. live_of pin.parts ≡ live pass.new.seen) }
    {
        let mut turn = self.lock.take(rt, &mut pass.pass);
        let pin = turn.value().pin();
        self.lock.give(&mut pass.pass, turn);
        pin
    }

    /// Returns a note of what the pass has seen.
    pub fn note(&self, pass: &mut Pass<B>) -> Note<B>
        requires { pass.old.lock ≡ self.now }
        ensures pass { pass.new ≡ pass.old }
        ensures note { result ≡ noted self.now pass.old.seen }
    {
        Note {
            note: self.lock.note(&mut pass.pass),
        }
    }

    /// Makes the pass see what the note has seen, if that is more.
    pub fn meet(&self, pass: &mut Pass<B>, note: Note<B>)
        requires { (pass.old.lock ≡ self.now) × (note.lock ≡ self.now) }
        ensures longer { pass.new ≡ after_seeing pass.old (longer pass.old.seen note.seen) false }
        ensures others { Grows caller_of (callers_of pass.old) pass.old.seen pass.new.seen }
        ensures begins { IsPrefix note.seen pass.new.seen }
        ensures one { IsPrefix pass.old.seen note.seen ⊎ IsPrefix note.seen pass.old.seen }
        ensures lawful { IsLawful B.limits pass.new.seen }
    {
        self.lock.meet(&mut pass.pass, note.note);
    }

    /// Returns how many caller numbers are left to give. What the pass of the lake has seen is by callers whose numbers
    /// were given.
    pub fn left(&self, pass: &Pass<B>) -> u32
        requires { pass.now.lock ≡ self.now }
        ensures left { result ≡ pass.now.left }
        ensures given { (count : ℕ) → pass.now.given ≡ Some count → IsOfGiven caller_of count pass.now.seen }
        ensures lawful { IsLawful B.limits pass.now.seen }
    {
        self.lock.left(&pass.pass)
    }

    /// Returns a new pass with the next caller number, which has seen as much.
    pub fn new_pass(&self, pass: &mut Pass<B>) -> Pass<B>
        requires lock { pass.old.lock ≡ self.now }
        requires left { IsSome pass.old.given × (0 < pass.old.left) }
        ensures { IfSome pass.old.given (λ number. (pass.new ≡ after_numbering pass.old number) × (result ≡ new_pass_of pass.old number)) }
    {
        Pass {
            pass: self.lock.new_pass(&mut pass.pass),
        }
    }

    /// Ends another pass into this one, which takes over its callers.
    pub fn end(&self, pass: &mut Pass<B>, other: Pass<B>)
        requires lock { (pass.old.lock ≡ self.now) × (other.lock ≡ self.now) }
        requires other { other.given ≡ None }
        ensures both { pass.new ≡ after_ending pass.old other }
        ensures others { Grows caller_of (callers_of pass.old) pass.old.seen pass.new.seen }
        ensures theirs { Grows caller_of (callers_of other) other.seen pass.new.seen }
        ensures one { IsPrefix pass.old.seen other.seen ⊎ IsPrefix other.seen pass.old.seen }
        ensures lawful { IsLawful B.limits pass.new.seen }
    {
        self.lock.end(&mut pass.pass, other.pass);
    }
}

//! The rules by which a script is read.
ghost use Rattle.std.specs.Prelude.{◌≡◌, ◌≤◌, ℕ, List, length};
ghost use Rattle.script_model.specs.Reading.{body_fault};
ghost use Rattle.script_text.specs.Readings.{AreRules, grammar_by};

use script_model::{Reason, ScriptLimits};

/// The limits of a script, and the number of its lanes.
#[derive(Clone, Copy, Debug)]
pub(crate) struct Rules {
    pub(crate) limits: ScriptLimits,
    pub(crate) lanes: u32,
}

// Returns what is wrong with the body of a block of `size` bytes, if the other bodies and files of the batch have
// `bytes`.
pub(crate) fn size_fault(rules: &Rules, bytes: u64, size: u64) -> Option<Reason>
    requires rules { AreRules rules.now }
    requires bytes { bytes ≤ rules.now.limits.bytes }
    ensures { (body : List ℕ) → length body ≡ size → result ≡ body_fault (grammar_by rules.now) bytes body }
{
    if size > rules.limits.block {
        return Some(Reason::BlockTooLong);
    }
    if size > rules.limits.bytes - bytes {
        return Some(Reason::BatchBytes);
    }
    None
}

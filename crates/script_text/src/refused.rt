//! Why a gatherer gives no batch.
use no_memory::NoMemory;
use script_model::Reason;

/// Why a gatherer gives no batch.
#[derive(Clone, Copy, Debug, PartialEq, Eq)]
pub enum ScriptEnd {
    /// The line, counted from 1, is the first that is at fault.
    Script { line: u64, reason: Reason },
    /// The source failed, and counted a fault.
    ReadFault,
    /// Memory ran out.
    NoMemory,
}

impl From<NoMemory> for ScriptEnd {
    ghost use Rattle.std.specs.Prelude.{◌≡◌};
    ghost use Rattle.script_text.specs.declared.refused.ScriptEnd.TheVariants as refused;

    ghost from_gives = { λ _ e. e ≡ refused.NoMemory };

    fn from(_error: NoMemory) -> ScriptEnd {
        ScriptEnd::NoMemory
    }
}

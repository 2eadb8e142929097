//! The definitions of the script: its commands and the options of its run, what a line says and why it is refused, and
//! how lines are read into batches. There is no code here except the plain types that both the code and the definitions
//! use.
#![tactic(auto)]

ghost use Rattle.std.specs.Prelude.{◌≡◌};
ghost use Rattle.script_model.specs.Script.{standard};

/// Why a line of a script is refused.
#[derive(Clone, Copy, Debug, PartialEq, Eq)]
pub enum Reason {
    LineTooLong,
    Words,
    Lane,
    Unknown,
    BatchCommands,
    BlockTooLong,
    BatchBytes,
    NoEnd,
    InputTooLong,
}

/// The limits on the size of a script.
#[derive(Clone, Copy, Debug, PartialEq, Eq)]
pub struct ScriptLimits {
    /// The most bytes of a line outside a block, without its line end.
    pub line: u32,
    /// The most bytes of a block, or of a file.
    pub block: u64,
    /// The most commands of a batch.
    pub commands: u32,
    /// The most bytes of the blocks and files of a batch.
    pub bytes: u64,
    /// The most bytes of a script.
    pub input: u64,
}

impl ScriptLimits {
    /// Returns the limits of the scripts that the program reads: 4,096 bytes in a line, 67,108,864 in a block, 4,096
    /// commands and 536,870,912 bytes in a batch, and 68,719,476,736 bytes in all.
    pub fn standard() -> ScriptLimits
        ensures { result ≡ standard }
    {
        ScriptLimits {
            line: 4096,
            block: 67_108_864,
            commands: 4096,
            bytes: 536_870_912,
            input: 68_719_476_736,
        }
    }
}

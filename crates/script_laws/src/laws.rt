//! The laws of the script grammar: each is the contract of a function that does nothing.
ghost use Rattle.script_laws.specs.ScriptLaws.{AreNumbered, AreOfLanes, AskForFiles, BatchesStay, ReadsBack, SyncedStay};

/// The commands of a script are numbered from 1 without a gap, in their order.
pub fn numbers_law()
    ensures { AreNumbered }
{}

/// Every command of a script is in one of its lanes.
pub fn lanes_law()
    ensures { AreOfLanes }
{}

/// A script asks for a path for each file that its batches fetch.
pub fn files_law()
    ensures { AskForFiles }
{}

/// The batches that lines give do not change, whatever follows the lines: the batches of a script up to a `sync` line
/// are the first batches of every longer script.
pub fn batches_stay_law()
    ensures lines { BatchesStay }
    ensures synced { SyncedStay }
{}

/// A batch that is printed as a script reads back as that batch, and asks for its files at their paths.
pub fn reads_back_law()
    ensures { ReadsBack }
{}

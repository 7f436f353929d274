//! What the store of an emitted node keeps where links lose messages; nothing here is run.
ghost use Rattle.lt_c_lossy.specs.LosingLaws.{LosingStarts, LosingDelivers, LosingActs, NumbersHandedOut, LosingTells, LosingRunStands};
ghost use Rattle.lt_c_lossy.specs.LosingWholeRuns.{LossyRunIsWhole};
ghost use Rattle.lt_c_lossy.specs.LosingFiles.{FilesKeepCrossings, LosingFilesPrint};
ghost use Rattle.lt_c_lossy.specs.LosingReplays.{LosingShowsRun};
ghost use Rattle.lt_c_lossy.specs.LosingFileRuns.{LosingFilesRunWhole, ProtocolsRunWhole};

/// What init leaves stands for a node before the first event.
pub fn losing_starts()
    ensures { LosingStarts }
{}

/// A delivery keeps each node's store standing, and so does a loss.
pub fn losing_delivers()
    ensures { LosingDelivers }
{}

/// An activation keeps the stores of all nodes standing, and says what was done.
pub fn losing_acts()
    ensures { LosingActs }
{}

/// What a node hands out after it are the messages and acknowledgements of the architecture, with their numbers and the whole program's values.
pub fn numbers_handed_out()
    ensures { NumbersHandedOut }
{}

/// Where it executes an instant, the node tells of each output the next cell of its stream in the whole program.
pub fn losing_tells()
    ensures { LosingTells }
{}

/// Along every list of events without an offence the nodes and their links stand where the architecture's state has them.
pub fn losing_run_stands()
    ensures { LosingRunStands }
{}

/// What an emitted file keeps to send it again is what these laws ask of it.
pub fn files_keep_crossings()
    ensures { FilesKeepCrossings }
{}

/// The functions of an emitted file have the statements of these laws.
pub fn losing_files_print()
    ensures { LosingFilesPrint }
{}

/// Whatever their memory held before, nodes that run their emitted code over links that lose messages show, of each output, the beginning of its
/// stream in the whole program, as far as the protocol's bound while inputs last.
pub fn lossy_run_is_whole()
    ensures { LossyRunIsWhole }
{}

/// Along the events of a network's run they show the cells that the network has.
pub fn losing_shows_run()
    ensures { LosingShowsRun }
{}

/// So do nodes that run the files emitted for them.
pub fn losing_files_run_whole()
    ensures { LosingFilesRunWhole }
{}

/// Under all four protocols nodes that run the files emitted for them show, of each output, the beginning of its stream in the whole program,
/// as far as the protocol's bound while inputs last.
pub fn protocols_run_whole()
    ensures { ProtocolsRunWhole }
{
    lt_c_files::laws::emitted_files_run_whole();
    losing_files_run_whole();
}

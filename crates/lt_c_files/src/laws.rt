//! What holds of the files of all nodes; nothing here is run.
ghost use Rattle.lt_c_files.specs.FileNodes.{FilesAreNodes};
ghost use Rattle.lt_c_files.specs.Bodies.{CommentsLeaveAll, FilesPrintTrees};
ghost use Rattle.lt_c_files.specs.FileRuns.{EmittedFilesRunWhole, TextsDeploy};
ghost use Rattle.lt_c_files.specs.DeclaredTypes.{FilesDeclareTypes, BoolsHoldTruths};

/// The code of the file of a node of a placed program is that of an emitted node in the laws of runs.
pub fn files_are_nodes()
    ensures { FilesAreNodes }
{}

/// Comments change nothing of what a step leaves.
pub fn comments_leave_all()
    ensures { CommentsLeaveAll }
{}

/// Where links lose nothing, the text of a file has the bodies that the laws of runs speak of.
pub fn files_print_trees()
    ensures { FilesPrintTrees }
{}

/// Whatever their memory held before, nodes that run the files emitted for them over links that lose nothing show, of each output, the
/// beginning of its stream in the whole program, as far as the protocol's bound while inputs last.
pub fn emitted_files_run_whole()
    ensures { EmittedFilesRunWhole }
{
    lt_net_replay::laws::networks_are_sound();
    lt_c_net::laws::emitted_run_is_whole();
}

/// Where a text was emitted for each node, there is a deployment of which each node runs it.
pub fn texts_deploy()
    ensures { TextsDeploy }
{}

/// The types of a file's variables are those whose words stand in its declarations.
pub fn files_declare_types()
    ensures { FilesDeclareTypes }
{}

/// Along a run every variable that the file of a node declares as `bool` holds 0 or 1, and so does each such value of a message on its way.
pub fn bools_hold_truths()
    ensures { BoolsHoldTruths }
{
    lt_net_replay::laws::networks_are_sound();
}

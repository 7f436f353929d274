//! What holds of trees, their programs and their faults; nothing here is run.
ghost use Rattle.lt_resolve.specs.Laws.{FaultsStandInside, OneProgram};

/// The first fault stands in a function of the tree.
pub fn faults_stand_inside()
    ensures { FaultsStandInside }
{}

/// A tree names at most one program.
pub fn one_program()
    ensures { OneProgram }
{}

// What the checks answer on the texts of the large input.
ghost use Rattle.lt_big_accepted.specs.Program.{ProgramAccepted, ProgramSpelled};
ghost use Rattle.lt_big_accepted.specs.Setup.{SetupFits};

/// The text of the program spells its tree.
pub fn program_spelled()
    ensures { ProgramSpelled }
{}

/// The text of the program passes every check.
pub fn program_accepted()
    ensures { ProgramAccepted }
{}

/// A setup that says what the text of the setup does fits this program.
pub fn setup_fits()
    ensures { SetupFits }
{}

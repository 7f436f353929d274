//! What holds of the emitted step; nothing here is run.
ghost use Rattle.lt_c_step.specs.Laws.{StepShowsStreams};
ghost use Rattle.lt_c_step.specs.Part.{PartsExecute, PartsWriteSlots};
ghost use Rattle.lt_c_step.specs.Typed.{StepsAssignTruths};

/// Whatever its variables held before, the emitted step shows the streams of the function that the step code was made of.
pub fn step_shows_streams()
    ensures { StepShowsStreams }
{}

/// The step of a part leaves the slots of one more instant, shows its cells, and gives them to its outputs.
pub fn parts_execute()
    ensures { PartsExecute }
{}

/// It writes nothing but slots and outputs.
pub fn parts_write_slots()
    ensures { PartsWriteSlots }
{}

/// Truth values alone are assigned to a slot of the type `bool`.
pub fn steps_assign_truths()
    ensures { StepsAssignTruths }
{}

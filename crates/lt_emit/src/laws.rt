// What the refusals of an emission have to do with those of a check.
ghost use Rattle.lt_emit.specs.Emitted.{SameRefusals};

/// The files of a program and of its setup are refused exactly as in a check of both, whichever node is asked for.
pub fn same_refusals()
    ensures { SameRefusals }
{}

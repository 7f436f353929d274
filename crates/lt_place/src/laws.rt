// Which fault is the first, and what parts can be made into.
ghost use Rattle.lt_place.specs.Faults.{OneIsFirst};
ghost use Rattle.lt_place.specs.Layout.{PartsCompile};

/// At most one fault of a placement is the first.
pub fn one_is_first()
    ensures { OneIsFirst }
{}

/// The equations of each part of a placed function can be ordered and compiled, where the function itself is small enough for it.
pub fn parts_compile()
    ensures { PartsCompile }
{}

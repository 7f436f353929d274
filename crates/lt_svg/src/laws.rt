//! What holds of the pieces; nothing here is run.
ghost use Rattle.lt_svg.specs.Pieces.{EscapedIsSafe};

/// An escaped name opens and closes no tag, ends no attribute, and has no control byte: it is text, whatever the name is.
pub fn escaped_is_safe()
    ensures { EscapedIsSafe }
{}

//! What holds of the grammar; nothing here is run.
ghost use Rattle.lt_syntax.specs.Laws.{OneTree};

/// At most one tree is spelled by given bytes.
pub fn one_tree()
    ensures { OneTree }
{}

// The parts of a node's declarations.

/// Where a declaration stands.
#[derive(Clone, Copy)]
pub enum Section {
    Ins,
    Outs,
    Locals,
}

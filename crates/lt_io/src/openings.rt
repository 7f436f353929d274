// The openings of a fabric. They exist only in proofs.
ghost use Rattle.std.specs.Prelude.{◌≡◌, ℕ, suc};
ghost use Rattle.std.specs.Borrow.{ftrue};

use std::marker::Model;

/// How often a fabric was opened. It has no bytes.
#[derive(Drop)]
pub(crate) struct Openings {
    pub ghost count: { ℕ },
}

impl Model for Openings {
    ghost also_owns = { λ _. ftrue };
}

impl Openings {
    pub(crate) fn new() -> Openings
        ensures { result.count ≡ 0 }
    {
        Openings {}
    }

    /// One more.
    pub(crate) fn more(&self) -> Openings
        ensures { result.count ≡ suc self.now.count }
    {
        Openings {}
    }
}

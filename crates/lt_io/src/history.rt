// The visits of files. They exist only in proofs.
ghost use Rattle.std.specs.Prelude.{◌≡◌, List, []};
ghost use Rattle.std.specs.Borrow.{ftrue};
ghost use Rattle.lt_io.specs.Visits.{Visit, visits_code};

use std::marker::Model;

/// Which files were opened, and how much of each was read. It has no bytes.
#[derive(Drop)]
pub(crate) struct History {
    pub ghost visits: { List Visit } by { visits_code },
}

impl Model for History {
    ghost also_owns = { λ _. ftrue };
}

/// A call on files: one of `open`, or a read that answered so many bytes.
#[derive(Clone, Copy, Drop)]
pub(crate) enum Note<'a> {
    Open(&'a str),
    Read(usize),
}

impl History {
    ghost use Rattle.lt_io.specs.Noted.{noted};

    pub(crate) fn new() -> History
        ensures { result.visits ≡ [] }
    {
        History {}
    }

    pub(crate) fn then(&self, _note: &Note<'_>) -> History
        ensures { result.visits ≡ noted self.now.visits _note.now }
    {
        History {}
    }
}

// How a call ends.
ghost use Rattle.std.specs.Prelude.{◌≡◌};

/// How a call of `ltta` or `lttac` ends.
#[derive(Clone, Copy, Debug, PartialEq, Eq)]
pub enum Status {
    /// The command's whole text is written.
    Ok,
    /// The words ask for no command, or for a node that the setup does not have.
    Words,
    /// The program is at fault.
    Program,
    /// The setup is at fault.
    Setup,
    /// The inputs are at fault.
    Inputs,
    /// The schedule is at fault.
    Schedule,
    /// A call on the files or on the fabric failed.
    Outside,
    /// A write failed.
    Write,
    /// A limit is passed.
    Limit,
    /// No memory was found.
    Memory,
    /// The observer is at fault.
    Observer,
}

impl Status {
    ghost use Rattle.lt_text_answers.specs.Status.{status_number};

    /// The number with which a process ends.
    pub fn number(self) -> u8
        ensures { result ≡ status_number self }
    {
        match self {
            Status::Ok => 0,
            Status::Words => 1,
            Status::Program => 2,
            Status::Setup => 3,
            Status::Inputs => 4,
            Status::Schedule => 5,
            Status::Outside => 6,
            Status::Write => 7,
            Status::Limit => 8,
            Status::Memory => 9,
            Status::Observer => 10,
        }
    }
}

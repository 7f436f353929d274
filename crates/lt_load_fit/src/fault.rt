// Why a command is refused.

use lt_arch::{Offence, Shape};
use lt_base::{Func, List, Name};
use lt_config::ConfigFault;
use lt_front::ProgramFault;
use lt_inputs::InputFault;
use lt_lossy::{LossyOffence, WindowFault};
use lt_place::PlaceFault;
use lt_rows::RowFault;
use lt_timing::TimingFault;

/// A limit on the bytes of a file.
#[derive(Clone, Copy, Debug, PartialEq, Eq)]
pub enum What {
    ProgramBytes,
    ConfigBytes,
    InputsBytes,
    ObserverBytes,
    ScheduleBytes,
}

/// Why a command is refused by its files.
#[derive(Drop)]
pub enum CommandFault {
    /// The program is at fault.
    Program(ProgramFault),
    /// The setup is at fault.
    Config(ConfigFault),
    /// The placement of the program's variables is not legal; beside the fault the function whose variables it names.
    Place {
        fault: PlaceFault,
        main: Func,
    },
    /// The timing is not accepted; beside the fault the names of the nodes, and whether the setup's nodes or pairs differ.
    Timing {
        fault: TimingFault,
        names: List<Name>,
        mixed: bool,
    },
    /// Too many messages of a channel could be in transit, where links lose messages; beside the fault the names of the nodes.
    Window {
        fault: WindowFault,
        names: List<Name>,
    },
    /// The inputs are at fault, or they have too many rows.
    Inputs(InputFault),
    /// The weight of `main` times the number of rows of inputs is above the limit on cells.
    TooManyCells,
    /// The schedule's row is no event, its first line no header, or there are too many rows. Rows count from 1, and the header is row 0.
    Row {
        row: u32,
        fault: RowFault,
    },
    /// The schedule's event is refused. Events count from 1, and a missing end is one past the last. Beside the offence the
    /// shape whose nodes it names.
    Offence {
        event: u32,
        offence: Offence,
        shape: Shape,
    },
    /// The schedule's event is refused, where links lose messages; the rest is as in `Offence`.
    Lossy {
        event: u32,
        offence: LossyOffence,
        shape: Shape,
    },
    /// A file has more bytes than its limit.
    Limit(What),
    /// A call on the files failed, and their count of faults rose.
    Read,
    /// A call on the fabric failed, and its count of faults rose.
    Link,
}

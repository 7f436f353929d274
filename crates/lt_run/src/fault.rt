// Why a loaded program is not run to the end of a schedule.
ghost use Rattle.std.specs.Prelude.{◌≡◌};
ghost use Rattle.lt_run.specs.Fault.{of_lossy, of_plain, of_play, of_refusal};

use lt_arch::Offence;
use lt_lossy::LossyOffence;
use lt_rows::RowFault;
use lt_schedule::{Halt, ScheduleRefusal};

/// Why the nodes of a loaded program do not take a schedule file to its end. Rows and events are counted from 1, and the header is row 0.
#[derive(Clone, Copy)]
pub enum RunFault {
    /// The row is no event, the first line is no header, or there are too many rows.
    Row { row: u32, fault: RowFault },
    /// The event is refused. The missing end of a list is an offence one past its last event.
    Offence { event: u32, offence: Offence },
    /// The same where links lose messages.
    Lossy { event: u32, offence: LossyOffence },
    /// The next row holds the first byte past the limit on the bytes of a schedule file.
    Bytes,
    /// A call on the files failed, and their count of faults rose.
    Read,
    /// A call on the fabric failed, and its count of faults rose.
    Link,
}

/// The fault of a network's play as one of a run.
pub(crate) fn of_play(fault: Halt<Offence>) -> RunFault
    ensures { result ≡ of_play fault }
{
    match fault {
        Halt::Refused(refusal) => of_plain(refusal),
        Halt::Read => RunFault::Read,
        Halt::Link => RunFault::Link,
    }
}

fn of_plain(refusal: ScheduleRefusal<Offence>) -> RunFault
    ensures { result ≡ of_plain refusal }
{
    match refusal {
        ScheduleRefusal::Row { row, fault } => RunFault::Row { row, fault },
        ScheduleRefusal::Offence { event, offence } => RunFault::Offence { event, offence },
        ScheduleRefusal::Bytes => RunFault::Bytes,
    }
}

/// The fault of a network's play over links that lose messages as one of a run.
pub(crate) fn of_lossy(fault: Halt<LossyOffence>) -> RunFault
    ensures { result ≡ of_lossy fault }
{
    match fault {
        Halt::Refused(refusal) => of_refusal(refusal),
        Halt::Read => RunFault::Read,
        Halt::Link => RunFault::Link,
    }
}

fn of_refusal(refusal: ScheduleRefusal<LossyOffence>) -> RunFault
    ensures { result ≡ of_refusal refusal }
{
    match refusal {
        ScheduleRefusal::Row { row, fault } => RunFault::Row { row, fault },
        ScheduleRefusal::Offence { event, offence } => RunFault::Lossy { event, offence },
        ScheduleRefusal::Bytes => RunFault::Bytes,
    }
}

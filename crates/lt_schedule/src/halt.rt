// Why the rows of a schedule are not all taken.
use lt_rows::RowFault;

/// Why a schedule is refused. Rows and events are counted from 1, and the header is row 0.
#[derive(Clone, Copy, Drop)]
pub enum ScheduleRefusal<O> {
    /// The row is no event, the first line is no header, or there are too many rows.
    Row { row: u32, fault: RowFault },
    /// The event has an offence. The one of a list that stops too early is numbered one past its last event.
    Offence { event: u32, offence: O },
    /// The next row holds the first byte past the limit on the bytes of a schedule file.
    Bytes,
}

/// Why the rows of a schedule file are not all taken.
#[derive(Clone, Copy, Drop)]
pub enum Halt<O> {
    /// The schedule is refused.
    Refused(ScheduleRefusal<O>),
    /// A call on the files failed, and their count of faults rose.
    Read,
    /// A call on the outside failed, and its count of faults rose.
    Link,
}

/// Why a line is not taken.
#[derive(Drop)]
pub enum Stop<O> {
    /// It reads as no event.
    Row(RowFault),
    /// Its event has an offence.
    Offence(O),
    /// A call on the outside failed, and its count of faults rose.
    Link,
    /// No memory was found.
    Memory,
}

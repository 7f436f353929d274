// Faults of an inputs file.

/// What is wrong with a row.
#[derive(Clone, Copy, Debug, PartialEq, Eq, Drop)]
pub enum InputKind {
    /// The row is no record of text, or it has another number of fields than the header.
    NotCsv = 1,
    /// The header is missing, or it names other columns than the program's inputs in their order.
    Header = 2,
    /// The first field is not the number of the row's instant.
    Instant = 3,
    /// A field is no value of its input's type.
    Value = 4,
    /// A row past the greatest number of rows.
    TooMany = 5,
}

/// The first fault of an inputs file. Rows count from 1, and the header is row 0.
#[derive(Clone, Copy, Debug, PartialEq, Eq, Drop)]
pub struct InputFault {
    pub row: u32,
    pub kind: InputKind,
}

// Why a list of events is not recorded.

/// Why a list of events is not recorded.
#[derive(Clone, Copy, Debug, PartialEq, Eq, Drop)]
pub enum SimFault {
    /// The sink failed, and its count of faults rose.
    Write,
    /// The list has more events than the limit, its end included.
    TooMany,
}

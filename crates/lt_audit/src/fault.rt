// Why an auditor does not take an event.
use lt_arch::Offence;

/// Why an auditor does not take an event.
#[derive(Clone, Copy, Debug, PartialEq, Eq)]
pub enum AuditFault {
    /// The event has an offence.
    Offence(Offence),
    /// No memory was found.
    Memory,
}

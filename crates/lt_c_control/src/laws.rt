//! What holds of the emitted controllers; nothing here is run.
ghost use Rattle.lt_c_control.specs.Control.{PressureIsDeed, CountingIsDeed};
ghost use Rattle.lt_c_control.specs.Inboxes.{MessagesPut, StartsFresh};
ghost use Rattle.lt_c_control.specs.Lossy.{LosingIsDeed};

/// Under back-pressure an activation does what the table of deeds says, and leaves its phase.
pub fn pressure_is_deed()
    ensures { PressureIsDeed }
{}

/// Under the time-based protocol an activation does what the table of deeds says, and leaves its phase.
pub fn counting_is_deed()
    ensures { CountingIsDeed }
{}

/// What comes is put into its inbox, as `Inbox::put` does.
pub fn messages_put()
    ensures { MessagesPut }
{}

/// A node begins with inboxes for data that are fresh, with those for acknowledgements that are not, and in its first phase.
pub fn starts_fresh()
    ensures { StartsFresh }
{}

/// Over links that lose messages an activation does what the table of deeds says, counts, and keeps the values that it sends.
pub fn losing_is_deed()
    ensures { LosingIsDeed }
{}

// What the rows of a plot have to do with its run and its streams; nothing here is run.
ghost use Rattle.lt_plotting.specs.Laws.{SaysAsWatch, SolidIsPromised, StreamsEndTogether};

/// What is drawn solid is what the run printed.
pub fn solid_is_promised()
    ensures { SolidIsPromised }
{}

/// The line of a plot's observer is what `watch` prints, without its line feed.
pub fn says_as_watch()
    ensures { SaysAsWatch }
{}

/// A window is cut where the streams end: each row has a cell for each row of inputs.
pub fn streams_end_together()
    ensures { StreamsEndTogether }
{}

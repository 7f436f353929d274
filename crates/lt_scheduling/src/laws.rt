// What a schedule that is drawn by pace has to do with one that `sim` draws.
ghost use Rattle.lt_scheduling.specs.Laws.{DrawsAsSim};

/// Where `sim` prints a text, the same text is right of a schedule with no loss and no jitter given.
pub fn draws_as_sim()
    ensures { DrawsAsSim }
{}

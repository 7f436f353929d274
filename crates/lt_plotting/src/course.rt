// What was printed of a program's outputs.
use lt_base::List;
use lt_watch::Watched;

/// What a run came to, or the streams where there is no run.
#[derive(Drop)]
pub(crate) struct Course {
    /// Whether there was a run.
    pub run: bool,
    /// How many cells of each output were printed.
    pub lengths: List<usize>,
    /// What an observer makes of them, where one watches.
    pub told: Option<Watched>,
}

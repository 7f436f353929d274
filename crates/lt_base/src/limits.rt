// The limits that several crates keep. The definitions have each number for themselves, so a number that is changed here is refused.

/// The greatest height of an expression or of an observer's formula, in levels.
pub const GREATEST_HEIGHT: u32 = 200;

/// The most that `main` may weigh, with all functions that it calls, in variables.
pub const GREATEST_WEIGHT: u64 = 4_096;

/// The most expression parts of `main`, with all functions that it calls.
pub const MOST_PARTS: u64 = 262_144;

/// The most rows of inputs, and so the most instants of a run.
pub const MOST_ROWS: u32 = 100_000;

/// The most cells: the weight of `main` for each row of inputs.
pub const GREATEST_CELLS: u64 = 16_000_000;

/// The greatest time of an event, in ticks, and so the greatest horizon.
pub const GREATEST_TIME: u64 = 1_000_000_000_000_000;

/// The most bytes of a program file.
pub const MOST_PROGRAM_BYTES: usize = 1_048_576;

/// The most bytes of a setup file.
pub const MOST_CONFIG_BYTES: usize = 262_144;

/// The most bytes of an inputs file.
pub const MOST_INPUTS_BYTES: usize = 67_108_864;

/// The most bytes of an observer file.
pub const MOST_OBSERVER_BYTES: usize = 65_536;

/// The most bytes of a schedule file.
pub const MOST_SCHEDULE_BYTES: u64 = 1_073_741_824;

/// The most bytes of a line of a schedule file, its carriage return counted and its line feed not.
pub const LONGEST_LINE: usize = 4_096;

/// The most events of a schedule file, the end included.
pub const MOST_EVENTS: u32 = 5_000_000;

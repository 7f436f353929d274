// Commands.

/// A command of the program, with the values that its words give. Files are named as in the words.
#[derive(Drop)]
pub enum Command<'a> {
    /// Check a program, and with a setup also its placement and timing, and print it in its canonical form.
    Check {
        program: &'a str,
        config: Option<&'a str>,
    },
    /// Print what a program's outputs are for these inputs.
    Meaning {
        program: &'a str,
        inputs: &'a str,
    },
    /// Run a program on these inputs by this schedule, and where there is a setup, as it says.
    Run {
        program: &'a str,
        inputs: &'a str,
        schedule: &'a str,
        config: Option<&'a str>,
    },
    /// Print the least countdowns and the cycles of a setup, and the bounds for a horizon in ticks.
    Plan {
        config: &'a str,
        horizon: Option<u64>,
    },
    /// Print a schedule of a program on these inputs in a setup, drawn from a seed up to a horizon in ticks.
    Sim {
        program: &'a str,
        inputs: &'a str,
        config: &'a str,
        seed: u64,
        horizon: u64,
    },
    /// Run the large input for so many instants, and print a summary.
    Big {
        instants: u32,
    },
    /// Run a program as `run` does, and print whether the observer holds of what it shows.
    Watch {
        program: &'a str,
        inputs: &'a str,
        schedule: &'a str,
        observer: &'a str,
        config: Option<&'a str>,
    },
    /// Print the first event of a schedule at which a node executes with a message too few or too many.
    Audit {
        program: &'a str,
        inputs: &'a str,
        schedule: &'a str,
        config: &'a str,
    },
    /// Print the events of a schedule between two times, both included; with a node, those at it alone.
    Trace {
        program: &'a str,
        inputs: &'a str,
        schedule: &'a str,
        config: &'a str,
        node: Option<&'a str>,
        from: u64,
        to: u64,
    },
}

// The commands of the second program.

/// A command of `lttac`, with the values that its words give. Files are named as in the words.
#[derive(Drop)]
pub enum LttacCommand<'a> {
    /// Print the C of the node of this name, of a program that a setup places; or its header alone.
    Emit {
        header: bool,
        program: &'a str,
        config: &'a str,
        node: &'a str,
    },
    /// Print a schedule of a program on these inputs in a setup, drawn from a seed up to a horizon in ticks; with a jitter, periods are drawn from so
    /// many thousandths of their intervals, and with a loss so many of a thousand messages are lost where links may lose them.
    Schedule {
        program: &'a str,
        inputs: &'a str,
        config: &'a str,
        seed: u64,
        horizon: u64,
        jitter: Option<u64>,
        loss: Option<u64>,
    },
    /// Print a picture of a schedule: its activations and messages, those of one node alone where it is named, between two ticks.
    Draw {
        program: &'a str,
        inputs: &'a str,
        schedule: &'a str,
        config: &'a str,
        node: Option<&'a str>,
        from: Option<u64>,
        to: Option<u64>,
        width: Option<u32>,
    },
    /// Print a picture of a program's outputs between two instants; with a schedule and a setup also how far a run along it prints them,
    /// and with an observer where it first fails.
    Plot {
        program: &'a str,
        inputs: &'a str,
        along: Option<(&'a str, &'a str)>,
        observer: Option<&'a str>,
        from: Option<u32>,
        to: Option<u32>,
        width: Option<u32>,
    },
}

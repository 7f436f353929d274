// Where outputs come from.

/// Which node gives an output of `main` out, and where among its outputs.
#[derive(Clone, Copy)]
pub struct Exit {
    pub node: usize,
    pub out: usize,
}

// Where the values of crossings go.

/// Where the value of a crossing stands: among the sender's outputs, and on which channel and where in its payloads.
#[derive(Clone, Copy)]
pub struct Route {
    pub out: usize,
    pub channel: usize,
    pub place: usize,
}

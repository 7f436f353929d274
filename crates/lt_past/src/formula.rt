// Formulas of past time.

/// A formula of past time.
#[derive(Drop)]
pub enum Obs {
    Lit(bool),
    /// The output at this place among the outputs that are named.
    Out(u32),
    Not(Box<Obs>),
    /// At the instant before; false at the first one.
    Previous(Box<Obs>),
    /// At some instant so far.
    Once(Box<Obs>),
    /// At every instant so far.
    Historically(Box<Obs>),
    And(Box<Obs>, Box<Obs>),
    Or(Box<Obs>, Box<Obs>),
    /// The second at some instant so far, and the first at every later one.
    Since(Box<Obs>, Box<Obs>),
    Implies(Box<Obs>, Box<Obs>),
}

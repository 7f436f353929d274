// Which functions a file calls.

/// Which functions at the head a file calls.
#[derive(Clone, Copy)]
pub struct Calls {
    pub negate: bool,
    pub add: bool,
    pub sub: bool,
    pub mul: bool,
    pub div: bool,
    pub rest: bool,
    pub min: bool,
    pub max: bool,
    pub gcd: bool,
}

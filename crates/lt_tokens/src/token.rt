// The tokens of programs.

use lt_base::{Bin, Name, Ty};

/// What may stand between two expressions.
#[derive(Clone, Copy, Debug, PartialEq, Eq)]
pub enum Infix {
    Operator(Bin),
    Fby,
    Arrow,
}

/// A token. `=` of an equation is the comparison, and `-` before an operand the difference.
#[derive(Drop)]
pub enum Token {
    Number(u64),
    Truth(bool),
    Ident(Name),
    Infix(Infix),
    Not,
    When,
    Merge,
    If,
    Then,
    Else,
    Open,
    Close,
    Comma,
    Semicolon,
    Colon,
    Node,
    Returns,
    Var,
    Let,
    Tel,
    Type(Ty),
}

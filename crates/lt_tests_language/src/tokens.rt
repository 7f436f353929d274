// What stands at the front of a text.

use crate::texts::{tell, tell_bytes, tell_word};
use lt_base::{Bin, Memory, Ty};
use lt_tokens::{Front, Infix, Token, read_front, skip};
use std::alloc::Global;

// How an operator is written.
fn operator(op: Bin) -> &'static str {
    match op {
        Bin::Add => "+",
        Bin::Sub => "-",
        Bin::Mul => "*",
        Bin::Div => "div",
        Bin::Mod => "mod",
        Bin::Eq => "=",
        Bin::Ne => "<>",
        Bin::Lt => "<",
        Bin::Le => "<=",
        Bin::Gt => ">",
        Bin::Ge => ">=",
        Bin::And => "and",
        Bin::Or => "or",
        Bin::Xor => "xor",
        Bin::Implies => "=>",
    }
}

// How a token is written, or what it is.
fn kind(token: &Token) -> &'static str {
    match token {
        Token::Number(_) => "a number",
        Token::Ident(_) => "a name",
        Token::Truth(true) => "true",
        Token::Truth(false) => "false",
        Token::Infix(Infix::Operator(op)) => operator(*op),
        Token::Infix(Infix::Fby) => "fby",
        Token::Infix(Infix::Arrow) => "->",
        Token::Not => "not",
        Token::When => "when",
        Token::Merge => "merge",
        Token::If => "if",
        Token::Then => "then",
        Token::Else => "else",
        Token::Open => "(",
        Token::Close => ")",
        Token::Comma => ",",
        Token::Semicolon => ";",
        Token::Colon => ":",
        Token::Node => "node",
        Token::Returns => "returns",
        Token::Var => "var",
        Token::Let => "let",
        Token::Tel => "tel",
        Token::Type(Ty::Int) => "int",
        Token::Type(Ty::Bool) => "bool",
    }
}

/// Tells what stands at the front of a text: the token with the number of its bytes, or the number or the name that it holds.
pub fn tell_front(alloc: Global, line: &mut String, what: &str, text: &[u8]) -> Result<(), Memory> {
    match read_front(alloc, text) {
        Ok(front) => tell_of_front(line, what, &front),
        Err(_) => Err(Memory),
    }
}

fn tell_of_front(line: &mut String, what: &str, front: &Front) -> Result<(), Memory> {
    match front {
        Front::Over => tell_word(line, "the end"),
        Front::Begins(token, length) => tell_token(line, what, token, *length),
        Front::BadByte => tell_word(line, "a bad byte"),
        Front::BadNumber => tell_word(line, "a bad number"),
    }
}

fn tell_token(line: &mut String, what: &str, token: &Token, length: usize) -> Result<(), Memory> {
    if what == "held" {
        return tell_held(line, token);
    }
    tell_word(line, kind(token))?;
    tell(line, length)
}

fn tell_held(line: &mut String, token: &Token) -> Result<(), Memory> {
    match token {
        Token::Number(n) => tell(line, *n),
        Token::Ident(name) => tell_word(line, name.as_str()),
        _ => Err(Memory),
    }
}

/// Tells a text without the blanks and comments at its front.
pub fn tell_rest(line: &mut String, text: &[u8]) -> Result<(), Memory> {
    tell_bytes(line, skip(text))
}

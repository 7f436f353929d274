// Keywords and names.
ghost use Rattle.std.specs.Prelude.{◌≡◌, bytes_eq, IfOk, IfSome};
ghost use Rattle.lt_tokens.specs.Fronts.{IsSmall};
ghost use Rattle.std.specs.Str.{IsUtf8};
ghost use Rattle.lt_tokens.specs.Words as words;

use crate::token::{Infix, Token};
use lt_base::{Bin, Memory, Name, Ty};
use std::alloc::Global;

fn is(s: &[u8], word: &[u8]) -> bool
    ensures { result ≡ bytes_eq s.now word.now }
{
    s == word
}

/// The keywords of declarations.
fn declaring(s: &[u8]) -> Option<Token>
    ensures value { result ≡ words.declaring s.now }
    ensures small { IfSome result IsSmall }
{
    if is(s, b"node") {
        Some(Token::Node)
    } else if is(s, b"returns") {
        Some(Token::Returns)
    } else if is(s, b"var") {
        Some(Token::Var)
    } else if is(s, b"let") {
        Some(Token::Let)
    } else if is(s, b"tel") {
        Some(Token::Tel)
    } else if is(s, b"int") {
        Some(Token::Type(Ty::Int))
    } else if is(s, b"bool") {
        Some(Token::Type(Ty::Bool))
    } else {
        None
    }
}

/// The keywords that begin or divide an expression.
fn forming(s: &[u8]) -> Option<Token>
    ensures value { result ≡ words.forming s.now }
    ensures small { IfSome result IsSmall }
{
    if is(s, b"true") {
        Some(Token::Truth(true))
    } else if is(s, b"false") {
        Some(Token::Truth(false))
    } else if is(s, b"if") {
        Some(Token::If)
    } else if is(s, b"then") {
        Some(Token::Then)
    } else if is(s, b"else") {
        Some(Token::Else)
    } else if is(s, b"not") {
        Some(Token::Not)
    } else if is(s, b"when") {
        Some(Token::When)
    } else if is(s, b"merge") {
        Some(Token::Merge)
    } else {
        None
    }
}

/// The keywords between two expressions.
fn joining(s: &[u8]) -> Option<Infix>
    ensures { result ≡ words.joining s.now }
{
    if is(s, b"and") {
        Some(Infix::Operator(Bin::And))
    } else if is(s, b"or") {
        Some(Infix::Operator(Bin::Or))
    } else if is(s, b"xor") {
        Some(Infix::Operator(Bin::Xor))
    } else if is(s, b"div") {
        Some(Infix::Operator(Bin::Div))
    } else if is(s, b"mod") {
        Some(Infix::Operator(Bin::Mod))
    } else if is(s, b"fby") {
        Some(Infix::Fby)
    } else {
        None
    }
}

fn name_of(alloc: Global, s: &[u8]) -> Result<Name, Memory>
    requires { IsUtf8 s.now }
    ensures { IfOk result (λ name. name ≡ s.now) }
{
    // The condition is what this call asks for, so the text is not gone over again.
    let text = unsafe { std::str::from_utf8_unchecked(s) };
    Name::from_str(alloc, text)
}

/// The second byte is a small letter, as in each keyword. Most names of long programs have a digit there.
fn second_is_small(s: &[u8]) -> bool
    ensures { result ≡ words.second_is_small s.now }
{
    match s {
        [_, b, ..] => b.is_ascii_lowercase(),
        _ => false,
    }
}

/// The keyword or the name that a word is.
pub fn word_of(alloc: Global, s: &[u8]) -> Result<Token, Memory>
    requires { IsUtf8 s.now }
    ensures value { IfOk result (λ token. token ≡ words.word_of s.now) }
    ensures small { IfOk result IsSmall }
{
    if !second_is_small(s) {
        return Ok(Token::Ident(name_of(alloc, s)?));
    }
    if let Some(token) = declaring(s) {
        return Ok(token);
    }
    if let Some(token) = forming(s) {
        return Ok(token);
    }
    if let Some(infix) = joining(s) {
        return Ok(Token::Infix(infix));
    }
    Ok(Token::Ident(name_of(alloc, s)?))
}

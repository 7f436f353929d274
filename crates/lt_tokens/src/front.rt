// The token at the front of a text.
ghost use Rattle.std.specs.Prelude.{◌≡◌, ◌≤◌, ◌<◌, ◌+◌, ◌++◌, ◌∷◌, true, List, ℕ, length, MatchOption, IfOk, IfSome, ⊤};
ghost use Rattle.lt_base.specs.Digits.{all_digits, read_on};
ghost use Rattle.lt_tokens.specs.Text as text;
ghost use Rattle.lt_tokens.specs.Fronts.{front_of, IsSmall, IsWithin};

use crate::bytes::{digits_length, is_letter, word_length};
use crate::token::{Infix, Token};
use crate::word::word_of;
use lt_base::{Bin, Memory, number_up_to};
use std::alloc::Global;

/// What stands at the front of a text: a token and the number of its bytes, or the end, or no token.
#[derive(Drop)]
pub enum Front {
    Over,
    Begins(Token, usize),
    BadByte,
    BadNumber,
}

/// The greatest number of the language.
const GREATEST: u64 = 9_223_372_036_854_775_807;

/// The value of some digits, if it is a number of the language.
#[tactic(auto, using(crate::proofs::Digits::number_tells))]
fn value(digits: &[u8]) -> Option<u64>
    requires some { 1 ≤ length digits.now }
    requires digits { all_digits digits.now ≡ true }
    ensures { MatchOption result (text.greatest_number < read_on 0 digits.now) (λ n. (n ≡ read_on 0 digits.now) × (n ≤ text.greatest_number)) }
{
    number_up_to(digits, GREATEST)
}

/// The symbol of two bytes that begins with this one.
fn pair(b: u8, after: &[u8]) -> Option<Infix>
    ensures value { result ≡ text.pair b after.now }
    ensures length { MatchOption result ⊤ (λ _. 1 ≤ length after.now) }
{
    let [c, ..] = after else {
        return None;
    };
    if b == b'=' && *c == b'>' {
        Some(Infix::Operator(Bin::Implies))
    } else if b == b'<' && *c == b'>' {
        Some(Infix::Operator(Bin::Ne))
    } else if b == b'<' && *c == b'=' {
        Some(Infix::Operator(Bin::Le))
    } else if b == b'>' && *c == b'=' {
        Some(Infix::Operator(Bin::Ge))
    } else if b == b'-' && *c == b'>' {
        Some(Infix::Arrow)
    } else {
        None
    }
}

/// The symbol that is this byte.
fn single(b: u8) -> Option<Token>
    ensures value { result ≡ text.single b }
    ensures small { IfSome result IsSmall }
{
    match b {
        b'=' => Some(Token::Infix(Infix::Operator(Bin::Eq))),
        b'<' => Some(Token::Infix(Infix::Operator(Bin::Lt))),
        b'>' => Some(Token::Infix(Infix::Operator(Bin::Gt))),
        b'+' => Some(Token::Infix(Infix::Operator(Bin::Add))),
        b'-' => Some(Token::Infix(Infix::Operator(Bin::Sub))),
        b'*' => Some(Token::Infix(Infix::Operator(Bin::Mul))),
        b'(' => Some(Token::Open),
        b')' => Some(Token::Close),
        b',' => Some(Token::Comma),
        b';' => Some(Token::Semicolon),
        b':' => Some(Token::Colon),
        _ => None,
    }
}

fn symbol(b: u8, after: &[u8]) -> Front
    ensures value { front_of result (b ∷ after.now) ≡ text.symbol b after.now }
    ensures within { IsWithin result (1 + length after.now) }
{
    if let Some(infix) = pair(b, after) {
        return Front::Begins(Token::Infix(infix), 2);
    }
    match single(b) {
        Some(token) => Front::Begins(token, 1),
        None => Front::BadByte,
    }
}

fn number(digits: &[u8]) -> Front
    requires some { 1 ≤ length digits.now }
    requires digits { all_digits digits.now ≡ true }
    ensures within { IsWithin result (length digits.now) }
    ensures value { (rest : List ℕ) → front_of result (digits.now ++ rest) ≡ text.number digits.now rest }
{
    match value(digits) {
        Some(n) => Front::Begins(Token::Number(n), digits.len()),
        None => Front::BadNumber,
    }
}

/// What stands at the front of a text without blanks there.
pub fn read_front(alloc: Global, bytes: &[u8]) -> Result<Front, Memory>
    ensures value { IfOk result (λ f. front_of f bytes.now ≡ text.front bytes.now) }
    ensures within { IfOk result (λ f. IsWithin f (length bytes.now)) }
{
    let [b, after @ ..] = bytes else {
        return Ok(Front::Over);
    };
    if is_letter(*b) {
        let n = word_length(bytes);
        Ok(Front::Begins(word_of(alloc, &bytes[..n])?, n))
    } else if b.is_ascii_digit() {
        Ok(number(&bytes[..digits_length(bytes)]))
    } else {
        Ok(symbol(*b, after))
    }
}

// The token at the front of a text.
ghost use Rattle.std.specs.Prelude.{◌≡◌, ◌≤◌, ◌+◌, ◌∷◌, bytes_eq, length, take_while};
ghost use Rattle.lt_tokens.specs.Text.{is_letter, is_word};
ghost use Rattle.lt_past.specs.Tokens as text;
ghost use Rattle.lt_past.specs.Fronts.{observer_front_of, ObserverFrontIsWithin};

use crate::words::{Infix, Prefix, Sign};

/// What stands at the front of a text: a name, another token, each with the number of its bytes, the end, or no token.
#[derive(Clone, Copy, Debug, PartialEq, Eq)]
pub enum Front {
    Over,
    Name(usize),
    Other(Sign, usize),
    BadByte,
}

fn is_letter(b: u8) -> bool
    ensures { result ≡ is_letter b }
{
    b.is_ascii_alphabetic() || b == b'_'
}

fn is_word(b: u8) -> bool
    ensures { result ≡ is_word b }
{
    is_letter(b) || b.is_ascii_digit()
}

/// The number of bytes of letters, digits and `_` at the front.
fn word_length(bytes: &[u8]) -> usize
    ensures { result ≡ length (take_while is_word bytes.now) }
{
    bytes.iter().take_while(|b| is_word(**b)).count()
}

fn is(s: &[u8], word: &[u8]) -> bool
    ensures { result ≡ bytes_eq s.now word.now }
{
    s == word
}

fn keyword(s: &[u8]) -> Option<Sign>
    ensures { result ≡ text.keyword s.now }
{
    if is(s, b"true") {
        Some(Sign::Truth(true))
    } else if is(s, b"false") {
        Some(Sign::Truth(false))
    } else if is(s, b"not") {
        Some(Sign::Before(Prefix::Not))
    } else if is(s, b"previous") {
        Some(Sign::Before(Prefix::Previous))
    } else if is(s, b"once") {
        Some(Sign::Before(Prefix::Once))
    } else if is(s, b"historically") {
        Some(Sign::Before(Prefix::Historically))
    } else if is(s, b"and") {
        Some(Sign::Between(Infix::And))
    } else if is(s, b"or") {
        Some(Sign::Between(Infix::Or))
    } else if is(s, b"since") {
        Some(Sign::Between(Infix::Since))
    } else {
        None
    }
}

fn word(bytes: &[u8]) -> Front
    requires { 1 ≤ length (take_while is_word bytes.now) }
    ensures value { observer_front_of result bytes.now ≡ text.observer_word bytes.now }
    ensures within { ObserverFrontIsWithin result (length bytes.now) }
{
    let n = word_length(bytes);
    match keyword(&bytes[..n]) {
        Some(sign) => Front::Other(sign, n),
        None => Front::Name(n),
    }
}

fn symbol(b: u8, after: &[u8]) -> Front
    ensures value { observer_front_of result (b ∷ after.now) ≡ text.observer_symbol b after.now }
    ensures within { ObserverFrontIsWithin result (1 + length after.now) }
{
    if b == b'(' {
        Front::Other(Sign::Open, 1)
    } else if b == b')' {
        Front::Other(Sign::Close, 1)
    } else if b == b'=' && after.first() == Some(&b'>') {
        Front::Other(Sign::Between(Infix::Implies), 2)
    } else {
        Front::BadByte
    }
}

/// What stands at the front of a text without blanks there.
pub fn read_front(bytes: &[u8]) -> Front
    ensures value { observer_front_of result bytes.now ≡ text.observer_front bytes.now }
    ensures within { ObserverFrontIsWithin result (length bytes.now) }
{
    let [b, after @ ..] = bytes else {
        return Front::Over;
    };
    if is_letter(*b) {
        word(bytes)
    } else {
        symbol(*b, after)
    }
}

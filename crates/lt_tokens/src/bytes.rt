// Bytes: their kinds, and what stands between tokens.
ghost use Rattle.std.specs.Prelude.{◌≡◌, ◌≤◌, length, take_while};
ghost use Rattle.lt_base.specs.Digits.{is_digit};
ghost use Rattle.lt_tokens.specs.Text as text;

pub fn is_blank(b: u8) -> bool
    ensures { result ≡ text.is_blank b }
{
    b == b' ' || b == b'\t' || b == b'\r' || b == b'\n'
}

pub fn is_letter(b: u8) -> bool
    ensures { result ≡ text.is_letter b }
{
    b.is_ascii_alphabetic() || b == b'_'
}

pub fn is_word(b: u8) -> bool
    ensures { result ≡ text.is_word b }
{
    is_letter(b) || b.is_ascii_digit()
}

/// The number of bytes of letters, digits and `_` at the front.
pub fn word_length(bytes: &[u8]) -> usize
    ensures { result ≡ length (take_while text.is_word bytes.now) }
{
    bytes.iter().take_while(|b| is_word(**b)).count()
}

/// The number of digits at the front.
pub fn digits_length(bytes: &[u8]) -> usize
    ensures { result ≡ length (take_while is_digit bytes.now) }
{
    bytes.iter().take_while(|b| b.is_ascii_digit()).count()
}

/// The text without the blanks and comments at its front.
pub fn skip(bytes: &[u8]) -> &[u8]
    ensures value { result.now ≡ text.skip bytes.now }
    ensures length { length result.now ≤ length bytes.now }
{
    let mut rest = bytes;
    let mut in_comment = false;
    'bytes: while let [b, after @ ..] = rest {
        if in_comment {
            in_comment = *b != b'\n';
        } else if !is_blank(*b) {
            if *b != b'-' || after.first() != Some(&b'-') {
                return rest;
            }
            in_comment = true;
        }
        rest = after;
    }
    rest
}

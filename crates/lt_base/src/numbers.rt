// Numbers in decimal digits.

ghost use Rattle.std.specs.Prelude.{◌≡◌, ◌≤◌, ◌++◌, OnOk, OnErr};
ghost use Rattle.lt_base.specs.Digits.{number_of, up_to};

use crate::{List, Memory};
use itoa::{Buffer, Integer};

/// The number that some digits are, one or more, up to a bound. Leading zeros are accepted.
#[inline]
pub fn number_up_to(digits: &[u8], most: u64) -> Option<u64>
    requires digit { 9 ≤ most }
    ensures { result ≡ up_to most (number_of digits.now) }
{
    if digits.is_empty() {
        return None;
    }
    // with one more digit, no number below this one passes the bound
    let plain = most / 10;
    let mut number = 0u64;
    for byte in digits {
        if *byte < b'0' || b'9' < *byte {
            return None;
        }
        let digit = (*byte - b'0') as u64;
        if number >= plain && (most - digit) / 10 < number {
            return None;
        }
        number = number * 10 + digit;
    }
    Some(number)
}

/// Appends a number in decimal digits, with `-` before a negative one.
#[inline]
pub fn append_number<N: Integer>(text: &mut List<u8>, number: N) -> Result<(), Memory>
    ensures ok { OnOk result (text.new ≡ text.old ++ N.text number) }
    ensures err { OnErr result (text.new ≡ text.old) }
{
    text.extend(Buffer::new().format(number).as_bytes())
}

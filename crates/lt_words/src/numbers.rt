// Numbers in the words.
ghost use Rattle.std.specs.Prelude.{◌≡◌, ◌≤◌};
ghost use Rattle.lt_words.specs.Numbers.{number_text};

use lt_base::number_up_to;

/// The number that a text is to the parser of whole numbers, which takes a plus; 0 where it is none up to a bound.
pub fn number_text(text: &str, most: u64) -> u64
    requires digit { 9 ≤ most }
    ensures value { result ≡ number_text most text.now }
    ensures bounded { result ≤ most }
{
    match text.as_bytes() {
        [b'+', rest @ ..] => number_up_to(rest, most).unwrap_or(0),
        bytes => number_up_to(bytes, most).unwrap_or(0),
    }
}

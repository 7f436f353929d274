// Rows that stand as they are written.
ghost use Rattle.std.specs.Prelude.{◌≡◌, ◌++◌, ◌∷◌, codes, IfSome};
ghost use Rattle.lt_rows.specs.Texts.{kind_text};
ghost use Rattle.lt_rows.specs.Written.{IsTimed};

use core::dec2flt::read_digits;
use lt_arch::ChanKind;
use lt_base::limits::LONGEST_LINE;

// So many digits are a time in range.
const MOST_DIGITS: usize = 15;

/// The time at the head of a line, and what stands behind its comma. A line of anything else may have none.
#[tactic(auto, using(crate::proofs::Heads::is_timed))]
#[inline(always)]
pub fn time_of_line(line: &[u8]) -> Option<(u64, &[u8])>
    ensures { IfSome result (λ both. IsTimed line.now both.0 both.1.now) }
{
    if line.len() > LONGEST_LINE {
        return None;
    }
    let (count, time) = read_digits(line, 0, 0);
    if count == 0 || count > MOST_DIGITS || count == line.len() {
        return None;
    }
    if line[count] == b',' {
        Some((time, &line[count + 1..]))
    } else {
        None
    }
}

/// The kind and the ends of a message, where a kind stands in front.
pub fn message(rest: &[u8]) -> Option<(ChanKind, &[u8])>
    ensures { IfSome result (λ both. rest.now ≡ kind_text both.0 ++ 44 ∷ both.1.now) }
{
    match rest {
        [b'd', b'a', b't', b'a', b',', ends @ ..] => Some((ChanKind::Data, ends)),
        [b'a', b'c', b'k', b',', ends @ ..] => Some((ChanKind::Ack, ends)),
        _ => None,
    }
}

/// The name of a node that is activated, where the kind of activations stands in front.
pub fn activated(rest: &[u8]) -> Option<&[u8]>
    ensures { IfSome result (λ name. rest.now ≡ codes "act," ++ name.now) }
{
    match rest {
        [b'a', b'c', b't', b',', name @ ..] => Some(name),
        _ => None,
    }
}

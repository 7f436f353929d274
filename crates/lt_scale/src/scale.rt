// The scale of a row: which values stand at its foot and at its head.
ghost use Rattle.std.specs.Prelude.{◌≡◌, ◌≤◌, ◌++◌, OnOk};
ghost use Rattle.lt_scale.specs.Scale.{number_level, value_level, range_widened, no_range, cells_range, is_zero_near, range_with_zero, scale_over_range, range_scale, cells_scale, scale_floor, level_text, decimal_width, level_width, widest_value};

use itoa::Buffer;
use lt_base::{Cell, List, Memory, Value, append_number};
use std::cmp::{max, min};

// The level of the number 0: levels count from the least number of 64 bits on.
const ZERO: u64 = 9_223_372_036_854_775_808;

/// What a row shows from its foot to its head, as levels.
#[derive(Clone, Copy, Drop)]
pub struct Scale {
    pub truth: bool,
    pub low: u64,
    pub high: u64,
    /// Whether the level of 0 is on it.
    pub zero: bool,
}

// The least and the greatest level of some cells. Without a cell that is there the least is above the greatest.
#[derive(Clone, Copy, Drop)]
struct Range {
    least: u64,
    greatest: u64,
}

fn number_level(number: i64) -> u64
    ensures { result ≡ number_level number }
{
    let size = number.unsigned_abs();
    if number < 0 { ZERO - size } else { ZERO + size }
}

/// The place of a value among the values of its type, from the least on.
#[tactic(auto, unfolding(crate::specs::Scale::value_level))]
pub fn level(value: Value) -> u64
    ensures { result ≡ value_level value }
{
    match value {
        Value::Int(number) => number_level(number),
        Value::Bool(true) => 1,
        Value::Bool(false) => 0,
    }
}

fn widened(range: Range, cell: Cell) -> Range
    ensures { result ≡ range_widened range cell }
{
    match cell {
        Cell::Absent => range,
        Cell::Here(value) => Range {
            least: min(range.least, level(value)),
            greatest: max(range.greatest, level(value)),
        },
    }
}

fn no_range() -> Range
    ensures { result ≡ no_range }
{
    Range {
        least: u64::MAX,
        greatest: 0,
    }
}

fn range_of(cells: &[Cell]) -> Range
    ensures { result ≡ cells_range cells.now }
{
    let mut range = no_range();
    'cells: for cell in cells {
        range = widened(range, *cell);
    }
    range
}

// Whether 0 is to be on the scale: it is not further from the range than three times its height.
fn is_zero_near(range: Range) -> bool
    ensures { result ≡ is_zero_near range }
{
    let reach = 3 * u128::from(range.greatest.saturating_sub(range.least));
    let above = u128::from(range.least.saturating_sub(ZERO));
    let below = u128::from(ZERO.saturating_sub(range.greatest));
    range.greatest < range.least || above <= reach && below <= reach
}

fn with_zero(range: Range) -> Range
    ensures { result ≡ range_with_zero range }
{
    Range {
        least: min(range.least, ZERO),
        greatest: max(range.greatest, ZERO),
    }
}

fn scale_over(range: Range, zero: bool) -> Scale
    ensures { result ≡ scale_over_range range zero }
{
    Scale {
        truth: false,
        low: range.least,
        high: max(range.greatest, range.least.saturating_add(1)),
        zero,
    }
}

fn range_scale(range: Range) -> Scale
    ensures { result ≡ range_scale range }
{
    if is_zero_near(range) {
        scale_over(with_zero(range), true)
    } else {
        scale_over(range, false)
    }
}

/// The scale of some cells: from `false` to `true`, or over their numbers.
#[tactic(auto, unfolding(crate::specs::Scale::cells_scale))]
pub fn scale_of(truth: bool, cells: &[Cell]) -> Scale
    ensures { result ≡ cells_scale truth cells.now }
{
    if truth {
        Scale {
            truth: true,
            low: 0,
            high: 1,
            zero: true,
        }
    } else {
        range_scale(range_of(cells))
    }
}

/// The level from which the area below a line is filled.
#[tactic(auto, unfolding(crate::specs::Scale::scale_floor))]
pub fn floor(scale: Scale) -> u64
    ensures { result ≡ scale_floor scale }
{
    if scale.truth { 0 } else { ZERO }
}

/// Appends the value at a level.
///
/// # Errors
///
/// When memory is short. What was appended till then stays.
#[tactic(auto, unfolding(crate::specs::Scale::level_text))]
pub fn write_level(out: &mut List<u8>, truth: bool, level: u64) -> Result<(), Memory>
    ensures { OnOk result (out.new ≡ out.old ++ level_text truth level) }
{
    if truth {
        if level == 0 {
            return out.extend(b"false");
        }
        return out.extend(b"true");
    }
    if level < ZERO {
        out.extend(b"-")?;
        append_number(out, ZERO - level)
    } else {
        append_number(out, level - ZERO)
    }
}

/// How many digits a number has.
#[tactic(auto, unfolding(crate::specs::Scale::decimal_width))]
pub fn digits(number: u64) -> usize
    ensures value { result ≡ decimal_width number }
    ensures within { result ≤ 20 }
{
    Buffer::new().format(number).len()
}

fn level_width(level: u64) -> usize
    ensures value { result ≡ level_width level }
    ensures within { result ≤ 21 }
{
    if level < ZERO {
        1 + digits(ZERO - level)
    } else {
        digits(level - ZERO)
    }
}

/// How many characters the widest value on a scale has.
#[tactic(auto, unfolding(crate::specs::Scale::widest_value))]
pub fn scale_width(scale: Scale) -> usize
    ensures value { result ≡ widest_value scale }
    ensures within { result ≤ 21 }
{
    if scale.truth {
        5
    } else {
        max(level_width(scale.low), level_width(scale.high))
    }
}

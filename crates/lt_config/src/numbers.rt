// The numbers that a setup gives a node and a pair of nodes, where it has no fault.
ghost use Rattle.std.specs.Prelude.{◌≡◌, option_map};
ghost use Rattle.std.specs.Option.{option_map_or};
ghost use Rattle.toml.specs.View.{view, table_view};
ghost use Rattle.lt_config.specs.declared.keys.Key.TheVariants.{Delays};
ghost use Rattle.lt_config.specs.Keys.{table_at};
ghost use Rattle.lt_config.specs.Setup.{natural, naturals, bounds_of, countdown_of, own_or_plain, losses_of, greatest_upper, most_delay};

use crate::keys::{Key, entry_at, table_at, value_at};
use crate::values::pair_of;
use std::cmp::max;
use toml::{Table, Value};

fn natural(number: i64) -> u64
    ensures { result ≡ natural number }
{
    if number < 0 { 0 } else { number as u64 }
}

/// The bounds that a value is.
pub fn bounds_of(value: Option<&Value>) -> (u64, u64)
    ensures { result ≡ bounds_of (option_map (λ v. view v.now) value.entry) }
{
    match value {
        Some(value) => pair_bounds(pair_of(value)),
        None => (0, 0),
    }
}

fn pair_bounds(pair: Option<(i64, i64)>) -> (u64, u64)
    ensures { result ≡ option_map_or naturals pair (0, 0) }
{
    match pair {
        Some((first, second)) => (natural(first), natural(second)),
        None => (0, 0),
    }
}

/// The countdown that a value is, which is 1 where there is none.
pub fn countdown_of(value: Option<&Value>) -> u64
    ensures { result ≡ countdown_of (option_map (λ v. view v.now) value.entry) }
{
    match value {
        Some(value) => integer_countdown(value.as_integer()),
        None => 1,
    }
}

fn integer_countdown(number: Option<i64>) -> u64
    ensures { result ≡ option_map_or natural number 1 }
{
    match number {
        Some(number) => natural(number),
        None => 1,
    }
}

/// How many losses in a row a setup allows on a channel, which is none where it doesn't say.
pub fn losses_of(table: &Table) -> u64
    ensures { result ≡ losses_of (table_view table.now) }
{
    match value_at(table, Key::Losses) {
        Some(value) => integer_losses(value.as_integer()),
        None => 0,
    }
}

fn integer_losses(number: Option<i64>) -> u64
    ensures { result ≡ option_map_or natural number 0 }
{
    match number {
        Some(number) => natural(number),
        None => 0,
    }
}

/// The value of a name in a table, or else the plain one.
pub fn own_or_plain<'a>(table: &'a Table, own: Key, plain: Key, name: &str) -> Option<&'a Value>
    ensures { option_map (λ v. view v.now) result ≡ own_or_plain (table_view table.entry.now) own plain name.now }
{
    if let Some(value) = entry_at(table, own, name) {
        return Some(value);
    }
    value_at(table, plain)
}

fn greatest_upper(entries: &Table) -> u64
    ensures { result ≡ greatest_upper (table_view entries.now) }
{
    let mut greatest = 0;
    for (_, value) in entries {
        let (_, upper) = bounds_of(Some(value));
        greatest = max(greatest, upper);
    }
    greatest
}

fn greatest_own(table: &Table) -> u64
    ensures { result ≡ option_map_or greatest_upper (table_at (table_view table.now) Delays) 0 }
{
    match table_at(table, Key::Delays) {
        Some(entries) => greatest_upper(entries),
        None => 0,
    }
}

/// The greatest upper delay that a setup names.
pub fn most_delay(table: &Table) -> u64
    ensures { result ≡ most_delay (table_view table.now) }
{
    let (_, plain) = bounds_of(value_at(table, Key::Delay));
    max(plain, greatest_own(table))
}

// What a value of a setup is, and whether it is in range.
ghost use Rattle.std.specs.Prelude.{◌≡◌, false};
ghost use Rattle.std.specs.Option.{option_map_or};
ghost use Rattle.toml.specs.View.{view, items_view, table_view};
ghost use Rattle.toml.specs.Data.{as_str, as_table};
ghost use Rattle.lt_config.specs.Wanted.{is_wanted};
ghost use Rattle.lt_config.specs.Values.{pair_items, pair_of, all_texts, is_texts, all_values, is_table_of, is_pair, is_integer, has_kind};
ghost use Rattle.lt_config.specs.Values.{is_node, is_int_between, is_bounds, is_period, is_delay_pair, is_countdown, is_losses, names_protocol};
ghost use Rattle.lt_config.specs.Values.{is_count_of_nodes, in_range, count_members};

use crate::keys::{Key, entry_at};
use crate::limits::{MOST_LOSSES, MOST_NODES};
use lt_arch::{GREATEST_BOUND, GREATEST_COUNTDOWN};
use toml::{Table, Value};

// The two integers, if the items are just these.
fn pair_items(items: &[Value]) -> Option<(i64, i64)>
    ensures { result ≡ pair_items (items_view items.now) }
{
    if items.len() != 2 {
        return None;
    }
    let first = items[0].as_integer()?;
    let second = items[1].as_integer()?;
    Some((first, second))
}

/// The two integers of an array.
pub fn pair_of(value: &Value) -> Option<(i64, i64)>
    ensures { result ≡ pair_of (view value.now) }
{
    match value.as_array() {
        Some(items) => pair_items(items),
        None => None,
    }
}

fn all_texts(items: &[Value]) -> bool
    ensures { result ≡ all_texts (items_view items.now) }
{
    for text in items {
        if text.as_str().is_none() {
            return false;
        }
    }
    true
}

fn is_texts(value: &Value) -> bool
    ensures { result ≡ is_texts (view value.now) }
{
    match value.as_array() {
        Some(items) => all_texts(items),
        None => false,
    }
}

fn is_pair(value: &Value) -> bool
    ensures { result ≡ is_pair (view value.now) }
{
    pair_of(value).is_some()
}

fn is_integer(value: &Value) -> bool
    ensures { result ≡ is_integer (view value.now) }
{
    value.as_integer().is_some()
}

/// Whether a value has the kind that a key asks for.
pub fn has_kind(key: Key, value: &Value) -> bool
    ensures { result ≡ has_kind key (view value.now) }
{
    match key {
        Key::Protocol | Key::Leader => value.as_str().is_some(),
        Key::Period | Key::Delay => is_pair(value),
        Key::Send | Key::Execute | Key::Losses => is_integer(value),
        Key::Nodes => is_table_of(value, Wanted::Texts),
        Key::Periods | Key::Delays => is_table_of(value, Wanted::Pair),
        Key::Sends | Key::Executes => is_table_of(value, Wanted::Integer),
    }
}

fn is_between(low: u64, high: u64, number: i64) -> bool
    ensures { result ≡ is_int_between low high number }
{
    number >= 0 && low <= number as u64 && number as u64 <= high
}

fn is_bounds(low: u64, bounds: Option<(i64, i64)>) -> bool
    ensures { result ≡ is_bounds low bounds }
{
    match bounds {
        Some((first, second)) => {
            is_between(low, GREATEST_BOUND, first)
                && is_between(low, GREATEST_BOUND, second)
                && first <= second
        }
        None => false,
    }
}

fn is_period(value: &Value) -> bool
    ensures { result ≡ is_period (view value.now) }
{
    is_bounds(1, pair_of(value))
}

fn is_delay(value: &Value) -> bool
    ensures { result ≡ is_delay_pair (view value.now) }
{
    is_bounds(0, pair_of(value))
}

fn is_countdown(value: &Value) -> bool
    ensures { result ≡ is_countdown (view value.now) }
{
    match value.as_integer() {
        Some(number) => is_between(1, GREATEST_COUNTDOWN, number),
        None => false,
    }
}

fn is_losses(value: &Value) -> bool
    ensures { result ≡ is_losses (view value.now) }
{
    match value.as_integer() {
        Some(number) => is_between(0, MOST_LOSSES, number),
        None => false,
    }
}

fn is_protocol(value: &Value) -> bool
    ensures { result ≡ option_map_or names_protocol (as_str (view value.now)) false }
{
    match value.as_str() {
        Some(text) => names_protocol(text),
        None => false,
    }
}

fn names_protocol(text: &str) -> bool
    ensures { result ≡ names_protocol text.now }
{
    text == "backpressure" || text == "timebased" || text == "leader" || text == "lossy"
}

#[tactic(auto, using(crate::proofs::Tables::count_view))]
fn has_some_nodes(value: &Value) -> bool
    ensures { result ≡ option_map_or (λ nodes. is_count_of_nodes (count_members nodes)) (as_table (view value.now)) false }
{
    match value.as_table() {
        Some(nodes) => 1 <= nodes.len() && nodes.len() <= MOST_NODES,
        None => false,
    }
}

/// Whether the setup has a node of a name.
pub fn is_node(table: &Table, name: &str) -> bool
    ensures { result ≡ is_node (table_view table.now) name.now }
{
    entry_at(table, Key::Nodes, name).is_some()
}

fn names_node(table: &Table, value: &Value) -> bool
    ensures { result ≡ option_map_or (is_node (table_view table.now)) (as_str (view value.now)) false }
{
    match value.as_str() {
        Some(name) => is_node(table, name),
        None => false,
    }
}

/// Whether a value is in the range of a key of this setup.
pub fn in_range(table: &Table, key: Key, value: &Value) -> bool
    ensures { result ≡ in_range (table_view table.now) key (view value.now) }
{
    match key {
        Key::Protocol => is_protocol(value),
        Key::Period => is_period(value),
        Key::Delay => is_delay(value),
        Key::Send | Key::Execute => is_countdown(value),
        Key::Losses => is_losses(value),
        Key::Leader => names_node(table, value),
        Key::Nodes => has_some_nodes(value),
        Key::Periods => is_table_of(value, Wanted::Period),
        Key::Delays => is_table_of(value, Wanted::Delay),
        Key::Sends | Key::Executes => is_table_of(value, Wanted::Countdown),
    }
}

// What is asked of each value of a table.
#[derive(Clone, Copy)]
enum Wanted {
    Texts,
    Pair,
    Integer,
    Period,
    Delay,
    Countdown,
}

fn is_wanted(wanted: Wanted, value: &Value) -> bool
    ensures { result ≡ is_wanted wanted (view value.now) }
{
    match wanted {
        Wanted::Texts => is_texts(value),
        Wanted::Pair => is_pair(value),
        Wanted::Integer => is_integer(value),
        Wanted::Period => is_period(value),
        Wanted::Delay => is_delay(value),
        Wanted::Countdown => is_countdown(value),
    }
}

fn all_values(entries: &Table, wanted: Wanted) -> bool
    ensures { result ≡ all_values (is_wanted wanted) (table_view entries.now) }
{
    for (_, value) in entries {
        if !is_wanted(wanted, value) {
            return false;
        }
    }
    true
}

fn is_table_of(value: &Value, wanted: Wanted) -> bool
    ensures { result ≡ is_table_of (is_wanted wanted) (view value.now) }
{
    match value.as_table() {
        Some(entries) => all_values(entries, wanted),
        None => false,
    }
}

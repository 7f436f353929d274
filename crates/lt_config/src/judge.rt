// The first fault of a setup's table.
ghost use Rattle.std.specs.Prelude.{◌≡◌, option_map, option_and_then, find};
ghost use Rattle.toml.specs.Data.{as_str};
ghost use Rattle.toml.specs.View.{table_view};
ghost use Rattle.lt_config.specs.Keys.{keys, value_at};
ghost use Rattle.lt_config.specs.declared.keys.Key.TheVariants.{Protocol};
ghost use Rattle.lt_config.specs.Faults.{says_time, is_led, is_lossy, is_time_based, is_needed, is_missing, is_wrong, is_outside, first_fault};
ghost use Rattle.lt_config.specs.Judged.{Judged, IsSetupFault};

use crate::keys::{KEYS, Key, key_text, value_at};
use crate::names::{bad_name, first_unknown};
use crate::values::{has_kind, in_range};
use crate::{ConfigFault, ConfigKind};
use lt_base::{Name, Or};
use std::alloc::Global;
use toml::Table;

fn protocol_text<'a>(table: &'a Table) -> Option<&'a str>
    ensures { option_map (λ s. s.now) result ≡ option_and_then as_str (value_at (table_view table.entry.now) Protocol) }
{
    match value_at(table, Key::Protocol) {
        Some(value) => value.as_str(),
        None => None,
    }
}

/// Whether the protocol is the one in which a node leads.
pub fn is_led(table: &Table) -> bool
    ensures { result ≡ is_led (table_view table.now) }
{
    match protocol_text(table) {
        Some(text) => text == "leader",
        None => false,
    }
}

/// Whether the protocol is the one over links that lose messages.
pub fn is_lossy(table: &Table) -> bool
    ensures { result ≡ is_lossy (table_view table.now) }
{
    match protocol_text(table) {
        Some(text) => text == "lossy",
        None => false,
    }
}

fn says_time(text: &str) -> bool
    ensures { result ≡ says_time text.now }
{
    text == "timebased" || text == "leader"
}

/// Whether nodes count their activations.
pub fn is_time_based(table: &Table) -> bool
    ensures { result ≡ is_time_based (table_view table.now) }
{
    match protocol_text(table) {
        Some(text) => says_time(text),
        None => false,
    }
}

fn is_needed(table: &Table, key: Key) -> bool
    ensures { result ≡ is_needed (table_view table.now) key }
{
    match key {
        Key::Protocol | Key::Period | Key::Delay | Key::Nodes => true,
        Key::Send | Key::Execute => is_time_based(table),
        Key::Losses => is_lossy(table),
        Key::Leader => is_led(table),
        Key::Periods | Key::Delays | Key::Sends | Key::Executes => false,
    }
}

fn is_missing(table: &Table, key: Key) -> bool
    ensures { result ≡ is_missing (table_view table.now) key }
{
    value_at(table, key).is_none() && is_needed(table, key)
}

fn is_wrong(table: &Table, key: Key) -> bool
    ensures { result ≡ is_wrong (table_view table.now) key }
{
    match value_at(table, key) {
        Some(value) => !has_kind(key, value),
        None => false,
    }
}

fn is_outside(table: &Table, key: Key) -> bool
    ensures { result ≡ is_outside (table_view table.now) key }
{
    match value_at(table, key) {
        Some(value) => !in_range(table, key, value),
        None => false,
    }
}

/// The first key that is needed and absent.
fn first_missing(table: &Table) -> Option<Key>
    ensures { result ≡ find (is_missing (table_view table.now)) keys }
{
    for key in KEYS {
        if is_missing(table, key) {
            return Some(key);
        }
    }
    None
}

/// The first key whose value is of another kind.
fn first_wrong(table: &Table) -> Option<Key>
    ensures { result ≡ find (is_wrong (table_view table.now)) keys }
{
    for key in KEYS {
        if is_wrong(table, key) {
            return Some(key);
        }
    }
    None
}

/// The first key whose value is outside its range.
fn first_outside(table: &Table) -> Option<Key>
    ensures { result ≡ find (is_outside (table_view table.now)) keys }
{
    for key in KEYS {
        if is_outside(table, key) {
            return Some(key);
        }
    }
    None
}

/// A fault with a copy of its name.
pub fn fault(alloc: Global, kind: ConfigKind, name: &str) -> Or<ConfigFault>
    ensures { IsSetupFault (record { kind = kind; key = name.now }) result }
{
    match Name::from_str(alloc, name) {
        Ok(key) => Or::Fault(ConfigFault { kind, key }),
        Err(_) => Or::Memory,
    }
}

/// Judges the table of a setup: its first fault, if it has one.
pub fn judge(alloc: Global, table: &Table) -> Result<(), Or<ConfigFault>>
    ensures { Judged (first_fault (table_view table.now)) result }
{
    if let Some(key) = first_missing(table) {
        return Err(fault(alloc, ConfigKind::Missing, key_text(key)));
    }
    if let Some(key) = first_wrong(table) {
        return Err(fault(alloc, ConfigKind::WrongKind, key_text(key)));
    }
    if let Some(name) = first_unknown(table) {
        return Err(fault(alloc, ConfigKind::UnknownKey, name));
    }
    if let Some(key) = first_outside(table) {
        return Err(fault(alloc, ConfigKind::OutOfRange, key_text(key)));
    }
    if let Some(name) = bad_name(table) {
        return Err(fault(alloc, ConfigKind::BadName, name));
    }
    Ok(())
}

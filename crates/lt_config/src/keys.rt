// The keys of a setup, and what its table has at them.
ghost use Rattle.std.specs.Prelude.{◌≡◌, option_map};
ghost use Rattle.toml.specs.Data.{get_member};
ghost use Rattle.toml.specs.View.{view, table_view};
ghost use Rattle.lt_config.specs.Keys.{key_text, value_at, table_at, table_entry};

use toml::{Table, Value};

/// A key of the top table.
#[derive(Clone, Copy)]
pub enum Key {
    Protocol,
    Period,
    Delay,
    Send,
    Execute,
    Losses,
    Leader,
    Nodes,
    Periods,
    Delays,
    Sends,
    Executes,
}

/// The keys, in the order in which they are tried.
pub const KEYS: [Key; 12] = [
    Key::Protocol,
    Key::Period,
    Key::Delay,
    Key::Send,
    Key::Execute,
    Key::Losses,
    Key::Leader,
    Key::Nodes,
    Key::Periods,
    Key::Delays,
    Key::Sends,
    Key::Executes,
];

/// The tables by which nodes and pairs of nodes differ from the plain keys, in that order.
pub const TABLES: [Key; 4] = [Key::Periods, Key::Delays, Key::Sends, Key::Executes];

pub fn key_text(key: Key) -> &'static str
    ensures { result.now ≡ key_text key }
{
    match key {
        Key::Protocol => "protocol",
        Key::Period => "period",
        Key::Delay => "delay",
        Key::Send => "send",
        Key::Execute => "execute",
        Key::Losses => "losses",
        Key::Leader => "leader",
        Key::Nodes => "nodes",
        Key::Periods => "periods",
        Key::Delays => "delays",
        Key::Sends => "sends",
        Key::Executes => "executes",
    }
}

/// The value at a key.
pub fn value_at<'a>(table: &'a Table, key: Key) -> Option<&'a Value>
    ensures { option_map (λ v. view v.now) result ≡ value_at (table_view table.entry.now) key }
{
    entry(table, key_text(key))
}

/// The table at a key.
pub fn table_at<'a>(table: &'a Table, key: Key) -> Option<&'a Table>
    ensures { option_map (λ entries. table_view entries.now) result ≡ table_at (table_view table.entry.now) key }
{
    match value_at(table, key) {
        Some(value) => value.as_table(),
        None => None,
    }
}

/// The value at a name in the table at a key.
pub fn entry_at<'a>(table: &'a Table, key: Key, name: &str) -> Option<&'a Value>
    ensures { option_map (λ v. view v.now) result ≡ table_entry (table_view table.entry.now) key name.now }
{
    match table_at(table, key) {
        Some(entries) => entry(entries, name),
        None => None,
    }
}

fn entry<'a>(entries: &'a Table, name: &str) -> Option<&'a Value>
    ensures { option_map (λ v. view v.now) result ≡ get_member name.now (table_view entries.entry.now) }
{
    entries.get(name)
}

// The names in a setup: nodes, and pairs of nodes.
ghost use Rattle.std.specs.Prelude.{◌≡◌, ◌<◌, ◌==◌, ◌||◌, option_map, length};
ghost use Rattle.std.specs.List.{list_all};
ghost use Rattle.toml.specs.View.{table_view};
ghost use Rattle.lt_arch.specs.Names.{is_word_start, is_word_byte, is_name_word, is_identifier};
ghost use Rattle.lt_config.specs.Faults.{first_not, is_key, is_cut, is_node_pair, is_entry_of, stray_of, first_stray, first_unknown, bad_name};
ghost use Rattle.lt_config.specs.Keys.{table_at, tables};

use crate::keys::{KEYS, Key, TABLES, key_text, table_at};
use crate::values::is_node;
use toml::Table;

fn is_word_start(byte: u8) -> bool
    ensures { result ≡ is_word_start byte }
{
    byte.is_ascii_uppercase() || byte.is_ascii_lowercase() || byte == b'_'
}

fn is_word_byte(byte: u8) -> bool
    ensures { result ≡ is_word_byte byte }
{
    is_word_start(byte) || byte.is_ascii_digit()
}

fn are_word_bytes(bytes: &[u8]) -> bool
    ensures { result ≡ list_all is_word_byte bytes.now }
{
    bytes.iter().all(|byte| is_word_byte(*byte))
}

fn is_word(bytes: &[u8]) -> bool
    ensures { result ≡ is_name_word bytes.now }
{
    if bytes.is_empty() {
        return false;
    }
    is_word_start(bytes[0]) && are_word_bytes(&bytes[1..])
}

/// Whether a name is an identifier of at most 64 bytes.
fn is_identifier(name: &[u8]) -> bool
    ensures { result ≡ is_identifier name.now }
{
    is_word(name) && name.len() <= 64
}

/// The first name of a node that is none, in byte order.
pub fn bad_name<'a>(table: &'a Table) -> Option<&'a str>
    ensures { option_map (λ s. s.now) result ≡ bad_name (table_view table.entry.now) }
{
    match table_at(table, Key::Nodes) {
        Some(nodes) => first_bad(nodes),
        None => None,
    }
}

fn first_bad<'a>(nodes: &'a Table) -> Option<&'a str>
    ensures { option_map (λ s. s.now) result ≡ first_not is_identifier (table_view nodes.entry.now) }
{
    for (name, _) in nodes {
        if !is_identifier(name.as_bytes()) {
            return Some(name.as_str());
        }
    }
    None
}

/// Whether a name of the top table is a key.
fn is_key(name: &str) -> bool
    ensures { result ≡ is_key name.now }
{
    for key in KEYS {
        if name == key_text(key) {
            return true;
        }
    }
    false
}

fn first_other<'a>(table: &'a Table) -> Option<&'a str>
    ensures { option_map (λ s. s.now) result ≡ first_not is_key (table_view table.entry.now) }
{
    for (name, _) in table {
        if !is_key(name.as_str()) {
            return Some(name.as_str());
        }
    }
    None
}

/// Whether the byte at a place is a `>` between the names of two different nodes.
#[tactic(auto)]
fn is_cut(table: &Table, name: &str, place: usize) -> bool
    requires { place < length name.now }
    ensures { result ≡ is_cut (table_view table.now) name.now place }
{
    if name.as_bytes()[place] != b'>' {
        return false;
    }
    let (from, to) = (&name[..place], &name[place + 1..]);
    is_node(table, from) && is_node(table, to) && from != to
}

/// Whether a name is `a>b` for two different nodes a and b.
fn is_node_pair(table: &Table, name: &str) -> bool
    ensures { result ≡ is_node_pair (table_view table.now) name.now }
{
    for place in 0..name.len() {
        if is_cut(table, name, place) {
            return true;
        }
    }
    false
}

/// Whether a table may have an entry of a name.
fn is_entry_of(table: &Table, key: Key, name: &str) -> bool
    ensures { result ≡ is_entry_of (table_view table.now) key name.now }
{
    match key {
        Key::Delays => is_node_pair(table, name),
        _ => is_node(table, name),
    }
}

fn first_stray_of<'a>(table: &'a Table, key: Key, entries: &'a Table) -> Option<&'a str>
    ensures { option_map (λ s. s.now) result ≡ first_not (is_entry_of (table_view table.now) key) (table_view entries.entry.now) }
{
    for (name, _) in entries {
        if !is_entry_of(table, key, name.as_str()) {
            return Some(name.as_str());
        }
    }
    None
}

/// The first entry of a table that is for no node, or for no pair of nodes.
fn stray_of<'a>(table: &'a Table, key: Key) -> Option<&'a str>
    ensures { option_map (λ s. s.now) result ≡ stray_of (table_view table.entry.now) key }
{
    match table_at(table, key) {
        Some(entries) => first_stray_of(table, key, entries),
        None => None,
    }
}

fn first_stray<'a>(table: &'a Table) -> Option<&'a str>
    ensures { option_map (λ s. s.now) result ≡ first_stray (table_view table.entry.now) tables }
{
    for key in TABLES {
        if let Some(name) = stray_of(table, key) {
            return Some(name);
        }
    }
    None
}

/// The first name that is no key, or else the first entry that is for no node or pair.
pub fn first_unknown<'a>(table: &'a Table) -> Option<&'a str>
    ensures { option_map (λ s. s.now) result ≡ first_unknown (table_view table.entry.now) }
{
    if let Some(name) = first_other(table) {
        return Some(name);
    }
    first_stray(table)
}

// What the protocol of a setup without a fault does beside its timing, and how long the nodes that follow a leader count.
ghost use Rattle.std.specs.Prelude.{◌≡◌, ◌≤◌, length, option_map, position, false};
ghost use Rattle.std.specs.Option.{option_map_or};
ghost use Rattle.std.specs.Str.{bytes_eq};
ghost use Rattle.toml.specs.View.{table_view};
ghost use Rattle.lt_config.specs.Setup.{leader_name, has_name, follows, paced_send, setup_node_number, setup_nodes, pace_of};

use crate::Pace;
use crate::judge::{is_led, is_lossy};
use crate::keys::{Key, value_at};
use crate::numbers::{countdown_of, losses_of, own_or_plain};
use lt_arch::{GREATEST_COUNTDOWN, NamedNode};
use toml::Table;

fn leader_name<'a>(table: &'a Table) -> Option<&'a str>
    ensures { option_map (λ s. s.now) result ≡ leader_name (table_view table.entry.now) }
{
    match value_at(table, Key::Leader) {
        Some(value) => value.as_str(),
        None => None,
    }
}

fn is_leader(table: &Table, name: &str) -> bool
    ensures { result ≡ option_map_or (λ leader. bytes_eq name.now leader) (leader_name (table_view table.now)) false }
{
    match leader_name(table) {
        Some(leader) => name == leader,
        None => false,
    }
}

fn follows(table: &Table, name: &str) -> bool
    ensures { result ≡ follows (table_view table.now) name.now }
{
    is_led(table) && !is_leader(table, name)
}

/// The send countdown of a node: the greatest there is where it follows another.
pub fn paced_send(table: &Table, name: &str) -> u64
    ensures { result ≡ paced_send (table_view table.now) name.now }
{
    if follows(table, name) {
        return GREATEST_COUNTDOWN;
    }
    countdown_of(own_or_plain(table, Key::Sends, Key::Send, name))
}

fn has_name(node: &NamedNode, name: &str) -> bool
    ensures { result ≡ has_name name.now node.now }
{
    node.name.as_str() == name
}

fn position_of(nodes: &[NamedNode], name: &str) -> Option<usize>
    ensures { result ≡ position (has_name name.now) nodes.now }
{
    nodes.iter().position(|node| has_name(node, name))
}

#[tactic(auto, using(crate::proofs::Leaders::number_few))]
fn number_of(nodes: &[NamedNode], name: &str) -> u32
    requires { length nodes.now ≤ 32 }
    ensures { result ≡ setup_node_number nodes.now name.now }
{
    position_of(nodes, name).unwrap_or(0) as u32
}

fn leader_of(table: &Table, nodes: &[NamedNode]) -> u32
    requires { length nodes.now ≤ 32 }
    ensures { result ≡ option_map_or (setup_node_number nodes.now) (leader_name (table_view table.now)) 0 }
{
    match leader_name(table) {
        Some(name) => number_of(nodes, name),
        None => 0,
    }
}

/// What the protocol does beside its timing.
pub fn pace_of(table: &Table, nodes: &[NamedNode]) -> Pace
    requires nodes { nodes.now ≡ setup_nodes (table_view table.now) }
    requires few { length nodes.now ≤ 32 }
    ensures { result ≡ pace_of (table_view table.now) }
{
    if is_led(table) {
        Pace::Leader(leader_of(table, nodes))
    } else if is_lossy(table) {
        Pace::Lossy(losses_of(table))
    } else {
        Pace::Plain
    }
}

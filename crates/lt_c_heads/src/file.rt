// What the C file of a node is made of.
ghost use Rattle.std.specs.Prelude.{◌<◌, ◌≤◌, ◌^◌, length};

use lt_arch::NodeTime;
use lt_base::{Decl, List, Name, Value};
use lt_c_step::{Output, Source};
use lt_step::Code;

/// A value of the messages from one node to another: its slot in the sender's part, its value in the message that stands in the inbox at the
/// start, and the name of the variable.
#[derive(Drop)]
pub struct Carried {
    pub from_slot: u32,
    pub first: Value,
    pub meant: Name,
}

/// Another node, by its number, with the values of the messages from it or to it.
#[derive(Drop)]
pub struct Peer {
    pub number: u32,
    pub values: List<Carried>,
    ghost few: { length values < 2 ^ 32 },
}

/// The controller: by acknowledgements, by counting activations, or by acknowledgements over links that lose messages.
#[derive(Clone, Copy)]
pub enum Regime {
    Pressing,
    Counting(NodeTime),
    Losing,
}

/// The part of a node: its variables, its step code, where each of its inputs comes from, and the outputs of the program that it gives. Inputs
/// and outputs of the program have the numbers of the part's variables.
#[derive(Drop)]
pub struct PartCode {
    pub decls: List<Decl>,
    pub code: Code,
    pub sources: List<Source>,
    pub outputs: List<Output>,
    ghost numbered: { length decls < 2 ^ 32 },
    ghost fed: { length sources ≤ length decls },
}

/// The nodes with which a node exchanges messages: those from which data comes, those to which it goes, and those from which acknowledgements
/// come.
#[derive(Drop)]
pub struct Correspondence {
    pub senders: List<Peer>,
    pub receivers: List<Peer>,
    pub answerers: List<u32>,
}

/// What the file of a node is made of: the names of all nodes, the node's number, its part, its messages, and its controller.
#[derive(Drop)]
pub struct NodeFile {
    pub names: List<Name>,
    pub node: u32,
    pub part: PartCode,
    pub links: Correspondence,
    pub regime: Regime,
}

// Faults of a setup.

use lt_base::Name;

/// What is wrong with a setup.
#[derive(Clone, Copy, Debug, PartialEq, Eq)]
pub enum ConfigKind {
    /// The bytes are no TOML document in UTF-8.
    NotToml,
    /// A key is needed and absent.
    Missing,
    /// A key's value is of another kind, or holds one that is.
    WrongKind,
    /// A key of the setup is none that it may have, or an entry of a table is for no node, or for no pair of nodes.
    UnknownKey,
    /// A key's value is outside its range, or holds one that is.
    OutOfRange,
    /// A node's name is no identifier of at most 64 bytes.
    BadName,
}

/// The first fault of a setup, with the key, the entry or the node that has it; of bytes that are no TOML the key is empty.
#[derive(Drop)]
pub struct ConfigFault {
    pub kind: ConfigKind,
    pub key: Name,
}

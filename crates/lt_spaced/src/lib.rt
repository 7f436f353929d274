//! How many events a list without an offence has at most: activations of a node are a least period apart, and a channel delivers no more
//! messages than there are instants. Nothing here is run.
#![tactic(auto)]

pub mod laws;

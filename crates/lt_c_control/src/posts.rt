// What is sent again.

/// A value that is sent, where links lose messages: the node to which, its place in the message, and its slot.
#[derive(Clone, Copy)]
pub struct Post {
    pub to_node: u32,
    pub at_place: u32,
    pub from_slot: u32,
}

// What a part is fed with, and what it gives.

use lt_base::Clock;

/// Where an input of a part comes from.
#[derive(Clone, Copy)]
pub enum Source {
    /// An input of the program, by the variable's number.
    Given(u32),
    /// A value of the messages from a node, at a place of them.
    Arrived(u32, u32),
}

/// An output of the program that a part gives: the number that its variable has in the program, its slot, and its clock over slots.
#[derive(Drop)]
pub struct Output {
    pub output_number: u32,
    pub from_slot: u32,
    pub guard: Clock,
}

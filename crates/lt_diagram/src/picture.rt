// What is drawn, as plain data.
use lt_base::{List, Name};

/// What an activation is drawn as.
#[derive(Clone, Copy)]
pub enum Sign {
    Nothing,
    /// It executes the instant of this number.
    Executes(u32),
    /// It sends the message of this number.
    Sends(u32),
}

/// The activation of a node.
#[derive(Clone, Copy)]
pub struct Mark {
    /// The number of the event in its list.
    pub event: u32,
    pub node: u32,
    pub time: u64,
    pub sign: Sign,
}

/// What a message is drawn as.
#[derive(Clone, Copy)]
pub enum Ink {
    /// It carries values that its receiver has not had.
    Strong,
    /// It carries no values, or none that its receiver has not had.
    Pale,
    /// It acknowledges an instant.
    Dashed,
}

/// What became of a message.
#[derive(Clone, Copy)]
pub enum Fate {
    /// The event of this number delivered it.
    Delivered(u32),
    /// The event of this number lost it.
    Lost(u32),
    /// It is on its way, and due by the time at which the arrow ends.
    Pending,
}

/// A message, from the activation that sent it.
#[derive(Clone, Copy)]
pub struct Arrow {
    pub ink: Ink,
    pub from: u32,
    pub to: u32,
    pub sent: u64,
    pub come: u64,
    pub fate: Fate,
}

/// Where an event that is refused stands out.
#[derive(Clone, Copy)]
pub enum Wrong {
    /// Nowhere but at its time.
    Moment,
    /// A node's activation was due by this time.
    Absent {
        node: u32,
        due: u64,
    },
    /// A node is activated before this time.
    Soon {
        node: u32,
        last: u64,
        least: u64,
    },
    /// A message is not delivered by this time, or before it.
    Untimely {
        from: u32,
        to: u32,
        sent: u64,
        come: u64,
    },
    /// A message is lost that had to come.
    Gone {
        from: u32,
        to: u32,
        sent: u64,
    },
    /// A message comes that was never sent.
    Unsent {
        from: u32,
        to: u32,
    },
}

/// An event that is refused.
#[derive(Drop)]
pub struct Offence {
    /// The time of the event, or of the one before it where there is none.
    pub time: u64,
    /// The line of the refusal.
    pub refusal: List<u8>,
    /// The event as the schedule has it.
    pub row: List<u8>,
    /// A few words for the place where it stands out.
    pub note: List<u8>,
    pub wrong: Wrong,
}

/// An activation that executes with a message too few or too many.
#[derive(Drop)]
pub struct Ring {
    pub event: u32,
    pub node: u32,
    pub time: u64,
    /// The line that tells of it.
    pub line: List<u8>,
}

/// A diagram: time to the right, and a line for each node.
#[derive(Drop)]
pub struct Picture {
    /// How wide it is to be.
    pub width: u32,
    /// The first and the last tick that are drawn.
    pub from: u64,
    pub to: u64,
    pub title: List<u8>,
    /// A line below the title.
    pub facts: List<u8>,
    /// The nodes, from above.
    pub names: List<Name>,
    /// The activations by their times. One before the first tick counts for what the node is at.
    pub marks: List<Mark>,
    pub arrows: List<Arrow>,
    /// Whether pale messages carry nothing new, and else no values.
    pub again: bool,
    pub offence: Option<Offence>,
    pub ring: Option<Ring>,
}

// Which setups are taken.

/// Which setups a load takes.
#[derive(Clone, Copy)]
pub enum Setups {
    /// Those in which no link loses messages and no node leads.
    Plain,
    /// Those with the window that their pace asks for: a node may lead, or links may lose messages.
    Windowed,
}

// Why no C is emitted.

use lt_base::Name;
use lt_load::CommandFault;

/// Why no C is emitted.
#[derive(Drop)]
pub enum EmitFault {
    /// The program or its setup is at fault, or a call on their files failed.
    Command(CommandFault),
    /// The setup has no node of this name.
    NoNode(Name),
}

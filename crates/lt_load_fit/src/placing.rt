// The fault of a placement as a command's.
ghost use Rattle.lt_load_fit.specs.Fits.{AsPlace};

use crate::CommandFault;
use lt_base::{Func, Or};
use lt_place::PlaceFault;

/// A placement's fault as the command's, with a copy of the function whose variables it names.
pub fn as_place(main: &Func, fault: Or<PlaceFault>) -> Or<CommandFault>
    ensures { AsPlace main.now fault result }
{
    match fault {
        Or::Fault(fault) => match main.copy() {
            Ok(main) => Or::Fault(CommandFault::Place { fault, main }),
            Err(_) => Or::Memory,
        },
        Or::Memory => Or::Memory,
    }
}

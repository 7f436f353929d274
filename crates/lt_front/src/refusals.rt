// The faults of single checks as those of a program. Want of memory stays what it is.
ghost use Rattle.std.specs.Prelude.{◌≡◌};
ghost use Rattle.lt_base.specs.Or.{MapsFault};
ghost use Rattle.lt_front.specs.declared.fault.ProgramFault.TheVariants as fault;

use crate::ProgramFault;
use crate::causality::Circle;
use lt_base::Or;
use lt_cause::Cycle;
use lt_check::ClockFault;
use lt_resolve::NameFault;
use lt_syntax::Tree;

/// A fault of names, with the tree in which they stand.
pub(crate) fn of_names(error: Or<NameFault>, tree: Tree) -> Or<ProgramFault>
    ensures { MapsFault error result (λ e g. g ≡ fault.Name e tree) }
{
    match error {
        Or::Fault(e) => Or::Fault(ProgramFault::Name(e, tree)),
        Or::Memory => Or::Memory,
    }
}

/// A fault of clocks, with the tree that has the names of the variables.
pub(crate) fn of_clocks(error: Or<ClockFault>, tree: Tree) -> Or<ProgramFault>
    ensures { MapsFault error result (λ e g. g ≡ fault.Clock e tree) }
{
    match error {
        Or::Fault(e) => Or::Fault(ProgramFault::Clock(e, tree)),
        Or::Memory => Or::Memory,
    }
}

/// A cycle of the function of this number.
pub(crate) fn of_function(error: Or<Cycle>, func: u32) -> Or<Circle>
    ensures { MapsFault error result (λ cycle circle. circle ≡ record { func = func; cycle = cycle }) }
{
    match error {
        Or::Fault(cycle) => Or::Fault(Circle { func, cycle }),
        Or::Memory => Or::Memory,
    }
}

/// A cycle in a function, with the tree that has the names of the variables.
pub(crate) fn of_circle(error: Or<Circle>, tree: Tree) -> Or<ProgramFault>
    ensures { MapsFault error result (λ circle g. g ≡ fault.Cycle circle.func circle.cycle tree) }
{
    match error {
        Or::Fault(circle) => Or::Fault(ProgramFault::Cycle {
            func: circle.func,
            cycle: circle.cycle,
            tree,
        }),
        Or::Memory => Or::Memory,
    }
}

// Whether a setup fits a program.
ghost use Rattle.std.specs.Prelude.{◌≡◌, IfOk};
ghost use Rattle.lt_answer.specs.Answered.{Settles};
ghost use Rattle.lt_front.specs.Checked.{examined_part};
ghost use Rattle.lt_lossy.specs.Window.{HasWindow};
ghost use Rattle.lt_load_fit.specs.Fits.{HasWindowBy, IsOutsideWindow, SetupPasses, accepted_verdict, fitting_verdict, placed_verdict, timed_verdict, windowed_verdict};

use crate::placing::as_place;
use crate::{CommandFault, main_of};
use lt_base::Or;
use lt_config::{Config, Pace};
use lt_front::Checked;
use lt_lossy::window;
use lt_place::legal_nodes;
use lt_timing::accepts;
use std::alloc::Global;

/// The setup, if the program's placement by it is legal, its timing is accepted and it has its window, in this order.
pub fn fitting(alloc: Global, checked: &Checked, setup: Config) -> Result<Config, Or<CommandFault>>
    ensures { Settles (fitting_verdict (examined_part checked.now) setup) result }
{
    let legal = place_setup(alloc, checked, setup)?;
    let timed = accept_setup(alloc, legal)?;
    Ok(timed)
}

/// The setup, if the program's placement by it is legal.
#[tactic(auto, unfolding(crate::specs::Fits::placed_verdict))]
pub fn place_setup(
    alloc: Global,
    checked: &Checked,
    setup: Config,
) -> Result<Config, Or<CommandFault>>
    ensures { Settles (placed_verdict (examined_part checked.now) setup) result }
{
    checked.invariant_holds();
    match legal_nodes(alloc, &checked.flat, &setup.placement) {
        Ok(nodes) => {
            drop(nodes);
            Ok(setup)
        }
        Err(fault) => {
            drop(setup);
            Err(as_place(main_of(&checked.program), fault))
        }
    }
}

/// The setup, if its timing is accepted, and if it has the window that its pace asks for, in this order.
pub fn accept_setup(alloc: Global, setup: Config) -> Result<Config, Or<CommandFault>>
    ensures { Settles (accepted_verdict setup) result }
{
    let timed = accept_timing(alloc, setup)?;
    accept_window(alloc, timed)
}

// The setup, if its timing is accepted.
#[tactic(auto, unfolding(crate::specs::Fits::timed_verdict))]
fn accept_timing(alloc: Global, setup: Config) -> Result<Config, Or<CommandFault>>
    ensures { Settles (timed_verdict setup) result }
{
    match accepts(&setup.timing) {
        Ok(()) => Ok(setup),
        Err(fault) => {
            let mixed = setup.mixed;
            let named = setup.placement.names(alloc);
            drop(setup);
            let names = named?;
            Err(Or::Fault(CommandFault::Timing {
                fault,
                names,
                mixed,
            }))
        }
    }
}

/// The setup, if it has the window that its pace asks for.
#[tactic(auto, unfolding(crate::specs::Fits::windowed_verdict))]
pub fn accept_window(alloc: Global, setup: Config) -> Result<Config, Or<CommandFault>>
    ensures settles { Settles (windowed_verdict setup) result }
    ensures windowed { IfOk result (λ setup. HasWindowBy setup.pace setup.timing) }
{
    match setup.pace {
        Pace::Lossy(_) => in_window(alloc, setup),
        Pace::Plain | Pace::Leader(_) => Ok(setup),
    }
}

// The setup, if a channel has room for all messages that are in transit.
#[tactic(auto, using(crate::proofs::Windows::no_window))]
fn in_window(alloc: Global, setup: Config) -> Result<Config, Or<CommandFault>>
    ensures settles { Settles (SetupPasses setup (HasWindow setup.timing) (IsOutsideWindow setup)) result }
    ensures same { IfOk result (λ passed. passed ≡ setup) }
    ensures window { IfOk result (λ passed. HasWindow passed.timing) }
{
    if let Err(fault) = window(&setup.timing) {
        let named = setup.placement.names(alloc);
        drop(setup);
        let names = named?;
        return Err(Or::Fault(CommandFault::Window { fault, names }));
    }
    Ok(setup)
}

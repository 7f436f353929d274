// `sim`: a schedule that a seed draws, written to `out` as it is drawn.
ghost use Rattle.std.specs.Prelude.{◌≡◌, ◌⊎◌, ◌≤◌};
ghost use Rattle.lt_io.specs.Counts.{MayFail};
ghost use Rattle.lt_arch.specs.declared.limits.TheConstants.{GREATEST_TIME};
ghost use Rattle.lt_load_fit.specs.Rows.{too_many_events};
ghost use Rattle.lt_text_answers.specs.Draws.{recorded_status};
ghost use Rattle.lt_cli.specs.Asked.{FinishesDrawn, IsDrawnShort, IsReported, drawn_outcome};
ghost use Rattle.lt_cli.specs.Commands.Sim.{ObeysSim};
ghost use Rattle.lt_cli.specs.Drawing.{DrawsShown};

use crate::printer::Printer;
use crate::top::refuse;
use lt_base::Or;
use lt_io::Files;
use lt_load::{CommandFault, Loaded, load_plain};
use lt_load_fit::too_many_events;
use lt_sim::SimFault;
use lt_text_answers::{Refusal, Status};
use std::alloc::Global;

/// Prints the schedule that the seed draws, up to the horizon, for a program, its inputs and a setup, or the line of a refusal.
pub(crate) fn sim<F: Files, O: Printer, E: Printer>(
    alloc: Global,
    files: &mut F,
    out: &mut O,
    err: &mut E,
    program: &str,
    inputs: &str,
    config: &str,
    seed: u64,
    horizon: u64,
) -> Status
    requires files { MayFail (F.state files.old).faults }
    requires out { MayFail (O.state out.old).faults }
    requires err { MayFail (E.state err.old).faults }
    requires horizon { horizon ≤ GREATEST_TIME }
    ensures { ObeysSim F.state O.state E.state program.now inputs.now config.now seed horizon files.old files.new out.old out.new err.old err.new result }
{
    let loaded = load_plain(alloc, files, program, inputs, config);
    draw(alloc, out, err, loaded, seed, horizon)
}

// Prints the schedule of what was loaded on `out`, or the line of a refusal on `err`.
fn draw<O: Printer, E: Printer>(
    alloc: Global,
    out: &mut O,
    err: &mut E,
    loaded: Result<Loaded, Or<CommandFault>>,
    seed: u64,
    horizon: u64,
) -> Status
    requires horizon { horizon ≤ GREATEST_TIME }
    requires out { MayFail (O.state out.old).faults }
    requires err { MayFail (E.state err.old).faults }
    ensures finishes { FinishesDrawn loaded seed horizon (O.state out.old) (O.state out.new) (E.state err.old) (E.state err.new) result }
    ensures short { result ≡ Status.Memory → IsDrawnShort loaded O.short E.short }
{
    match loaded {
        Ok(loaded) => {
            let status = draw_loaded(alloc, out, err, &loaded, seed, horizon);
            drop(loaded);
            status
        }
        Err(Or::Fault(fault)) => refuse(alloc, err, Refusal::Command(fault)),
        Err(Or::Memory) => Status::Memory,
    }
}

// Prints the schedule of what was loaded, or the refusal of one with too many events.
fn draw_loaded<O: Printer, E: Printer>(
    alloc: Global,
    out: &mut O,
    err: &mut E,
    loaded: &Loaded,
    seed: u64,
    horizon: u64,
) -> Status
    requires horizon { horizon ≤ GREATEST_TIME }
    requires out { MayFail (O.state out.old).faults }
    requires err { MayFail (E.state err.old).faults }
    ensures reported { IsReported (drawn_outcome loaded.now seed horizon) (O.state out.old) (O.state out.new) (E.state err.old) (E.state err.new) result }
    ensures shown { DrawsShown loaded.now seed horizon }
    ensures short { result ≡ Status.Memory → O.short ⊎ E.short }
{
    match recorded_status(out.print_drawn(alloc, loaded, seed, horizon)) {
        Some(status) => status,
        None => refuse(alloc, err, too_many()),
    }
}

// How a call ends by how its schedule was recorded, unless that is refused.
fn recorded_status(recorded: Result<u64, Or<SimFault>>) -> Option<Status>
    ensures { result ≡ recorded_status recorded }
{
    match recorded {
        Ok(_) => Some(Status::Ok),
        Err(Or::Fault(SimFault::Write)) => Some(Status::Write),
        Err(Or::Fault(SimFault::TooMany)) => None,
        Err(Or::Memory) => Some(Status::Memory),
    }
}

// The refusal of a schedule that has more events than a run takes, as at the first row past the limit.
fn too_many() -> Refusal
    ensures { result ≡ Refusal.Command too_many_events }
{
    Refusal::Command(too_many_events())
}

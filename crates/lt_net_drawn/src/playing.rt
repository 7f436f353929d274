// A net that takes the events of a list as they are drawn.
ghost use Rattle.std.specs.Prelude.{◌≡◌, ◌<◌, ◌≤◌, ◌-◌, ◌^◌, ℕ, [], ◌∷◌, ◌++◌, List as Items, None, OnOk};
ghost use Rattle.lt_arch.specs.declared.event.Event.{Event as OfEvent};
ghost use Rattle.lt_arch.specs.declared.limits.TheConstants.{GREATEST_TIME};
ghost use Rattle.lt_arch.specs.Schedule.{IsEventOf, OnePlace};
ghost use Rattle.lt_io.specs.Counts.{MayFail, LinkCounted};
ghost use Rattle.lt_net_replay.specs.Playing.{PlaysFor, KeepsPlayback};
ghost use Rattle.lt_sim.specs.Drawn.{drawn};
ghost use Rattle.lt_sim.specs.Standing.{DrawingStarts, DrawsFewEvents};
ghost use Rattle.lt_net_drawn.specs.Listed.{IsNetOf, IsFree};

use lt_arch::{Controller, Event, Shape, Timing};
use lt_base::Steps;
use lt_io::{Fabric, LinkErr};
use lt_machine::Machine;
use lt_net_replay::playback::Playback;
use lt_rows::MOST_EVENTS;
use lt_schedule::Stop;
use lt_sim::drawing::{Drawing, event_at};
use std::marker::Brand;
use std::sync::ledger::{Blank, Ledger};

/// Has a net that was just started take the events of a list as they are drawn, up to the horizon and with the end there.
///
/// An error ends the play. After one nothing is said of the net but what no event changes.
pub(crate) fn play<W: Fabric, C: Controller, M: Machine>(
    drawing: &mut Drawing,
    playback: &mut Playback<'_, C, M>,
    shape: &Shape,
    timing: &Timing,
    rows: u32,
    horizon: u64,
    fabric: &mut W,
) -> Result<(), LinkErr>
    requires one_place { OnePlace shape.now timing.now rows }
    requires horizon { horizon ≤ GREATEST_TIME }
    requires same { IsNetOf shape.now timing.now rows playback.old.net.bench }
    requires count { MayFail (W.state fabric.old).faults }
    requires starts { DrawsFewEvents drawing.old shape.now timing.now rows horizon }
    requires ready { PlaysFor C.Controller M.Machine playback.old 0 (W.state fabric.old) [] }
    ensures cause { LinkCounted (W.state fabric.old).faults (W.state fabric.new).faults result }
    ensures keeps { KeepsPlayback M.size playback.old playback.new (W.state fabric.old) (W.state fabric.new) }
    ensures takes { (seed : ℕ) → DrawingStarts drawing.old shape.now timing.now seed → OnOk result ((steps : ℕ)
        × PlaysFor C.Controller M.Machine playback.new steps (W.state fabric.new) (drawn shape.now timing.now rows seed horizon)) }
{
    play_counted::<W, C, M, Brand>(
        drawing,
        playback,
        shape,
        timing,
        rows,
        horizon,
        fabric,
        Blank::new(1),
    )
}

// The same in steps that are counted in a ledger of their own.
fn play_counted<W: Fabric, C: Controller, M: Machine, L: Ledger>(
    drawing: &mut Drawing,
    playback: &mut Playback<'_, C, M>,
    shape: &Shape,
    timing: &Timing,
    rows: u32,
    horizon: u64,
    fabric: &mut W,
    blank: Blank,
) -> Result<(), LinkErr>
    requires one_place { OnePlace shape.now timing.now rows }
    requires horizon { horizon ≤ GREATEST_TIME }
    requires same { IsNetOf shape.now timing.now rows playback.old.net.bench }
    requires count { MayFail (W.state fabric.old).faults }
    requires starts { DrawsFewEvents drawing.old shape.now timing.now rows horizon }
    requires ready { PlaysFor C.Controller M.Machine playback.old 0 (W.state fabric.old) [] }
    requires name { blank.name ≡ L.name }
    requires parts { blank.parts ≡ L.parts }
    requires some { 0 < blank.parts }
    ensures cause { LinkCounted (W.state fabric.old).faults (W.state fabric.new).faults result }
    ensures keeps { KeepsPlayback M.size playback.old playback.new (W.state fabric.old) (W.state fabric.new) }
    ensures takes { (seed : ℕ) → DrawingStarts drawing.old shape.now timing.now seed → OnOk result ((steps : ℕ)
        × PlaysFor C.Controller M.Machine playback.new steps (W.state fabric.new) (drawn shape.now timing.now rows seed horizon)) }
{
    let mut steps = Steps::<L>::new(blank);
    take_all(
        drawing, playback, shape, timing, rows, horizon, fabric, &mut steps,
    )
}

// Takes all events of the list. It is not too long, so that the end comes.
fn take_all<W: Fabric, C: Controller, M: Machine, L: Ledger>(
    drawing: &mut Drawing,
    playback: &mut Playback<'_, C, M>,
    shape: &Shape,
    timing: &Timing,
    rows: u32,
    horizon: u64,
    fabric: &mut W,
    steps: &mut Steps<L>,
) -> Result<(), LinkErr>
    requires one_place { OnePlace shape.now timing.now rows }
    requires horizon { horizon ≤ GREATEST_TIME }
    requires same { IsNetOf shape.now timing.now rows playback.old.net.bench }
    requires count { MayFail (W.state fabric.old).faults }
    requires starts { DrawsFewEvents drawing.old shape.now timing.now rows horizon }
    requires ready { PlaysFor C.Controller M.Machine playback.old steps.old (W.state fabric.old) [] }
    ensures cause { LinkCounted (W.state fabric.old).faults (W.state fabric.new).faults result }
    ensures keeps { KeepsPlayback M.size playback.old playback.new (W.state fabric.old) (W.state fabric.new) }
    ensures takes { (seed : ℕ) → DrawingStarts drawing.old shape.now timing.now seed → OnOk result
        (PlaysFor C.Controller M.Machine playback.new steps.new (W.state fabric.new) (drawn shape.now timing.now rows seed horizon)) }
{
    for _number in 0..MOST_EVENTS {
        match drawing.next(horizon) {
            Some((at, place)) => {
                take(playback, event_at(shape, at, place), fabric, steps)?;
                drawing.take(shape, timing, rows, at, place);
            }
            None => return take(playback, Event::End(horizon), fabric, steps),
        }
    }
    unreachable!()
}

// Takes an event that has no offence behind those that were taken.
fn take<W: Fabric, C: Controller, M: Machine, L: Ledger>(
    playback: &mut Playback<'_, C, M>,
    e: Event,
    fabric: &mut W,
    steps: &mut Steps<L>,
) -> Result<(), LinkErr>
    requires event { IsEventOf playback.old.net.bench.shape e }
    requires count { MayFail (W.state fabric.old).faults }
    requires free { (before : Items OfEvent) × PlaysFor C.Controller M.Machine playback.old steps.old (W.state fabric.old) before × IsFree playback.old.net.bench before e }
    ensures cause { LinkCounted (W.state fabric.old).faults (W.state fabric.new).faults result }
    ensures keeps { KeepsPlayback M.size playback.old playback.new (W.state fabric.old) (W.state fabric.new) }
    ensures takes { (before : Items OfEvent) → PlaysFor C.Controller M.Machine playback.old steps.old (W.state fabric.old) before
        → OnOk result (PlaysFor C.Controller M.Machine playback.new steps.new (W.state fabric.new) (before ++ e ∷ [])) }
{
    match playback.take_event(e, fabric, steps) {
        Ok(()) => Ok(()),
        Err(Stop::Link) => Err(LinkErr::Failed),
        Err(Stop::Memory) => Err(LinkErr::Memory),
        Err(Stop::Row(_)) => unreachable!(),
        Err(Stop::Offence(_)) => unreachable!(),
    }
}

// A list that is recorded in memory, as text.
ghost use Rattle.std.specs.Prelude.{◌≡◌, ◌≤◌, length};
ghost use Rattle.lt_answer.specs.Answered.{Settles};
ghost use Rattle.lt_answer.specs.Rules.{Shown};
ghost use Rattle.lt_arch.specs.declared.limits.TheConstants.{GREATEST_TIME};
ghost use Rattle.lt_io.specs.MemSink.{mem_sink_state};
ghost use Rattle.lt_narrow.specs.Narrow.{HasBoundsWithin};
ghost use Rattle.lt_text_answers.specs.Texts.{drawing_text};
ghost use Rattle.lt_scheduling.specs.Losses.{listing_text};
ghost use Rattle.lt_scheduling.specs.Scheduled.{arriving_verdict, losing_verdict};
ghost use Rattle.lt_scheduling.specs.Stage.{IsUnbroken, recorded_text};

use lt_arch::Timing;
use lt_base::{List, Or};
use lt_io::MemSink;
use lt_load::{CommandFault, Loaded};
use lt_load_fit::too_many_events;
use lt_losing::lose;
use lt_narrow::laws::stays_one_place;
use lt_net_replay::laws::networks_are_sound;
use lt_sim::{SimFault, record};
use std::alloc::Global;

/// What the seed draws where each message arrives, by a timing within the bounds of what was loaded.
pub(crate) fn draw_arriving(
    alloc: Global,
    loaded: &Loaded,
    timing: &Timing,
    seed: u64,
    horizon: u64,
) -> Result<List<u8>, Or<CommandFault>>
    requires horizon { horizon ≤ GREATEST_TIME }
    requires within { HasBoundsWithin loaded.now.timing timing.now }
    ensures { Settles (Shown drawing_text (arriving_verdict loaded.now.shape loaded.now.timing timing.now (length loaded.now.inputs.rows) seed horizon)) result }
{
    loaded.invariant_holds();
    networks_are_sound();
    stays_one_place();
    let mut sink = MemSink::new(alloc, List::new(alloc));
    let recorded = record(
        alloc,
        &loaded.shape,
        timing,
        loaded.inputs.rows(),
        seed,
        horizon,
        &mut sink,
    );
    recorded_text(recorded, sink)
}

/// What the seed draws where links lose messages, by a timing within the bounds of what was loaded.
pub(crate) fn draw_losing(
    alloc: Global,
    loaded: &Loaded,
    timing: &Timing,
    limit: u64,
    loss: u64,
    seed: u64,
    horizon: u64,
) -> Result<List<u8>, Or<CommandFault>>
    requires horizon { horizon ≤ GREATEST_TIME }
    requires within { HasBoundsWithin loaded.now.timing timing.now }
    ensures { Settles (Shown listing_text (losing_verdict limit loss loaded.now.shape loaded.now.timing timing.now (length loaded.now.inputs.rows) seed horizon)) result }
{
    loaded.invariant_holds();
    networks_are_sound();
    let mut sink = MemSink::new(alloc, List::new(alloc));
    let recorded = lose(
        alloc,
        &loaded.shape,
        timing,
        limit,
        loss,
        loaded.inputs.rows(),
        seed,
        horizon,
        &mut sink,
    );
    recorded_text(recorded, sink)
}

// What a sink took that fails nowhere, or why nothing was recorded.
fn recorded_text(
    recorded: Result<u64, Or<SimFault>>,
    sink: MemSink,
) -> Result<List<u8>, Or<CommandFault>>
    requires { IsUnbroken recorded }
    ensures { result ≡ recorded_text recorded (mem_sink_state sink).taken }
{
    match recorded {
        Ok(_) => Ok(sink.into_bytes()),
        Err(Or::Fault(SimFault::TooMany)) => Err(Or::Fault(too_many_events())),
        Err(Or::Fault(SimFault::Write)) => unreachable!(),
        Err(Or::Memory) => Err(Or::Memory),
    }
}

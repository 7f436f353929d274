// A watch over two nodes whose links lose at most one message in a row.
ghost use Rattle.std.specs.Prelude.{◌≡◌, ◌<◌, [], length, IfOk};
ghost use Rattle.lt_lossy.specs.Times.{queue_at, losses_at};

use crate::architecture::{both_ways, timing_of_both};
use crate::shown::show_value;
use lt_arch::{Event, Offence};
use lt_base::{Memory, Steps};
use lt_lossy::{LossyEvent, LossyOffence, LossyWatch, read_lossy, window};
use std::alloc::Global;
use std::marker::Brand;
use std::sync::ledger::{Blank, Ledger};

// A watch over these nodes, before anything happened.
fn watch_of_two(alloc: Global) -> Result<LossyWatch, Memory>
    ensures { IfOk result (λ watch. (length watch.lasts ≡ 2) × (length watch.queues ≡ 2) × (queue_at watch 0 ≡ []) × (losses_at watch 0 ≡ 0) × (watch.limit ≡ 1)) }
{
    let shape = both_ways(alloc)?;
    let timing = timing_of_both(alloc)?;
    LossyWatch::start(alloc, &shape, &timing, 1)
}

// What the watch says of losses from a to b: before anything happened; of the message that a sent at 10; of the one that it sent at
// 19, once the first is lost; and of its delivery.
fn judge_events<L: Ledger>(alloc: Global, blank: Blank) -> Result<[Option<LossyOffence>; 4], Memory>
    requires name { blank.name ≡ L.name }
    requires parts { blank.parts ≡ L.parts }
    requires some { 0 < blank.parts }
{
    let mut steps = Steps::<L>::new(blank);
    let mut watch = watch_of_two(alloc)?;
    let nothing_sent = watch.judge(&LossyEvent::Lose(0, 0), &mut steps);
    watch.acted(0, 10, &mut steps);
    watch.acted(1, 10, &mut steps);
    watch.sent(0, 10, &mut steps);
    let in_time = watch.judge(&LossyEvent::Lose(0, 10), &mut steps);
    watch.lost(0, 10, &mut steps);
    watch.acted(0, 19, &mut steps);
    watch.sent(0, 19, &mut steps);
    let too_many = watch.judge(&LossyEvent::Lose(0, 20), &mut steps);
    let delivery = watch.judge(&LossyEvent::Plain(Event::Del(0, 20)), &mut steps);
    watch.delivered(0, 20, &mut steps);
    watch.ended(20, &mut steps);
    Ok([nothing_sent, in_time, too_many, delivery])
}

/// What a watch over losses says.
pub fn show_watch(alloc: Global) -> Result<String, Memory> {
    show_value(alloc, judge_events::<Brand>(alloc, Blank::new(1))?)
}

/// Whether there is room for the losses, and a row of one.
pub fn window_and_row(alloc: Global) -> Result<String, Memory> {
    let shape = both_ways(alloc)?;
    let timing = timing_of_both(alloc)?;
    let row = read_lossy(b"3,losedata,b>a", &shape);
    show_value(alloc, (window(&timing), row))
}

// A schedule that is drawn, and long enough that a run along it shows the whole streams.

use crate::calls::{Ended, NOTHING, Texts, call};
use lt_base::Memory;
use lt_cli::Status;
use std::alloc::Global;

// The cruise controller on four computers without acknowledgements. By the horizon 30,000 each has executed all of 300 instants, since
// the bound for it is 455.
const CRUISE: Texts = Texts {
    program: "node limit(v: int) returns (r: int) let r = max(0, min(v, 100)); tel node main(speed: int; button: bool) returns (on: bool; gap: int when act; throttle: int) var was: bool; act: bool; seen: int; target: int when act; cmd: int; let was = false fby button; on = (false fby on) xor (button and not was); act = false fby on; seen = 0 fby speed; target = 60; gap = target - (seen when act); cmd = merge act (limit(gap + (0 fby gap))) 0; throttle = 0 fby cmd; tel",
    inputs: "instant,speed,button/0,50,true/{299*@,55,false/}",
    schedule: "",
    setup: "protocol = 'timebased'/period = [9, 11]/delay = [1, 4]/send = 3/execute = 3/[nodes]/control = ['act', 'seen', 'target', 'gap', 'cmd']/engine = ['throttle']/panel = ['button', 'was', 'on']/sensor = ['speed']/",
    observer: "true",
};

// Whether a run along a schedule prints what the program means on all rows.
fn is_whole(alloc: Global, schedule: &str) -> Result<bool, Memory> {
    let texts = Texts { schedule, ..CRUISE };
    let run = call(alloc, "run p i s c", texts, NOTHING)?;
    let meaning = call(alloc, "meaning p i", texts, NOTHING)?;
    Ok(is_same(&run, &meaning))
}

fn is_same(run: &Ended, meaning: &Ended) -> bool {
    run.status == Status::Ok
        && meaning.status == Status::Ok
        && run.out.as_slice() == meaning.out.as_slice()
}

// The same of the schedule that a seed draws.
fn is_whole_along_a_drawn_one(alloc: Global) -> Result<bool, Memory> {
    let drawn = call(alloc, "sim p i c --seed 7 --horizon 30000", CRUISE, NOTHING)?;
    match str::from_utf8(drawn.out.as_slice()) {
        Ok(schedule) => is_whole(alloc, schedule),
        Err(_) => Ok(false),
    }
}

#[test]
fn a_drawn_schedule_shows_the_whole_streams(rt: HostRuntime) {
    let is_whole = is_whole_along_a_drawn_one(rt.alloc());
    assert!(rt; is_whole == Ok(true));
}

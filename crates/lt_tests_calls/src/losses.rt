// Runs over links that lose messages.

use crate::calls::{Ended, NOTHING, Texts, call};
use crate::drawn::{Drawn, draw};
use crate::script::holds;
use lt_base::Memory;
use lt_cli::Status;
use rand_core::{Rng, SeedableRng};
use rand_xoshiro::SplitMix64;
use std::alloc::Global;
use std::process::Abort;

const LOSSY: &str = "\
- two nodes that read each other's last value: the acknowledgement and the message that are lost come again
p node main(x: int) returns (u: int; v: int) let u = x + (0 fby v); v = 10 + (0 fby u); tel
i instant,x/0,1/1,1/2,1/
c protocol = 'lossy'/losses = 1/period = [9, 11]/delay = [1, 4]/[nodes]/a = ['x', 'u']/b = ['v']/
s time,event,place/0,act,a/0,act,b/3,loseack,a>b/3,ack,b>a/10,act,a/10,act,b/12,data,a>b/12,ack,a>b/12,ack,b>a/20,act,a/20,act,b/22,data,b>a/24,data,a>b/24,ack,a>b/24,ack,b>a/30,act,a/30,end,/
> run p i s c
0 u: 1 11/v: 10/
- the channels are opened, the nodes send once, once, twice, once, and twice each later time, and nine messages are delivered or lost
x fabric 1 21
6 fault: link/
x fabric 22 22
0 u: 1 11/v: 10/
- of the eleven messages one finds no memory
x send 1 11
9
x send 12 12
0 u: 1 11/v: 10/
- each int is one more than what was sent
x flip 0 0
0 u: 1 12/v: 10/
> check p c
0 node main(x: int) returns (u: int; v: int)/let/  u = x + (0 fby v);/  v = 10 + (0 fby u);/tel/
- message 1 of a is the third delivery and, again, the seventh, each of which changes it by its number: b runs on the last one
s time,event,place/0,act,a/0,act,b/3,loseack,a>b/3,ack,b>a/10,act,a/10,act,b/12,data,a>b/12,ack,a>b/12,ack,b>a/20,act,a/20,act,b/22,data,b>a/24,data,a>b/24,ack,a>b/24,ack,b>a/30,act,a/30,act,b/30,end,/
> run p i s c
x drift 0 0
0 u: 1 17/v: 10 18/
- one more than may be lost in a row
s time,event,place/0,act,a/0,act,b/3,loseack,a>b/3,ack,b>a/10,act,a/10,act,b/12,loseack,a>b/12,ack,a>b/12,ack,b>a/20,act,a/20,act,b/22,data,b>a/24,data,a>b/24,ack,a>b/24,ack,b>a/30,act,a/30,end,/
> run p i s c
5 schedule offence at event 7: TooManyLost ack a>b/
- a delivery ends the count, so more may be lost after it
s time,event,place/0,act,a/0,act,b/3,loseack,a>b/3,ack,b>a/10,act,a/10,act,b/12,data,a>b/12,ack,a>b/12,ack,b>a/20,act,a/20,act,b/20,loseack,a>b/20,loseack,b>a/20,losedata,a>b/20,losedata,b>a/20,end,/
> run p i s c
0 u: 1/v: 10/
- a loss is judged as a delivery that may come at once
s time,event,place/0,loseack,a>b/
> run p i s c
5 schedule offence at event 1: NothingSent ack a>b/
s time,event,place/0,act,a/0,act,b/5,loseack,a>b/
> run p i s c
5 schedule offence at event 3: ChannelOverdue ack a>b/
s time,event,place/0,act,a/0,act,b/0,loseack,a>b/0,losedata,a>c/
> run p i s c
5 schedule 4 UnknownPlace at row 4/
s time,event,place/0,end,/0,loseack,a>b/
> run p i s c
5 schedule offence at event 2: AfterEnd/
s time,event,place/0,act,a/0,act,b/
> run p i s c
5 schedule offence at event 3: NoEnd/
- where links lose nothing there are no losses to read
c protocol = 'backpressure'/losses = 1/period = [9, 11]/delay = [1, 4]/[nodes]/a = ['x', 'u']/b = ['v']/
s time,event,place/0,act,a/0,loseack,a>b/
> run p i s c
5 schedule 3 Kind at row 2/
";

const SETUPS: &str = "\
p node main(x: int) returns (u: int; v: int) let u = x + (0 fby v); v = 10 + (0 fby u); tel
c protocol = 'lossy'/period = [9, 11]/delay = [1, 4]/[nodes]/a = ['x', 'u']/b = ['v']/
> check p c
3 config 2 Missing: losses/
c protocol = 'lossy'/losses = 1001/period = [9, 11]/delay = [1, 4]/[nodes]/a = ['x', 'u']/b = ['v']/
> check p c
3 config 5 OutOfRange: losses/
c protocol = 'lossy'/losses = -1/period = [9, 11]/delay = [1, 4]/[nodes]/a = ['x', 'u']/b = ['v']/
> check p c
3 config 5 OutOfRange: losses/
c protocol = 'backpressure'/losses = 'few'/period = [9, 11]/delay = [1, 4]/[nodes]/a = ['x', 'u']/b = ['v']/
> check p c
3 config 3 WrongKind: losses/
- the greatest number of losses, and none
c protocol = 'lossy'/losses = 1000/period = [9, 11]/delay = [1, 4]/[nodes]/a = ['x', 'u']/b = ['v']/
> plan c
0 least execute 3/least send 3/timebased cycle 66/backpressure cycle 30/
c protocol = 'lossy'/losses = 0/period = [9, 11]/delay = [1, 575]/[nodes]/a = ['x', 'u']/b = ['v']/
> check p c
0 node main(x: int) returns (u: int; v: int)/let/  u = x + (0 fby v);/  v = 10 + (0 fby u);/tel/
- more messages than a channel has room for may be in transit
c protocol = 'lossy'/losses = 0/period = [9, 11]/delay = [1, 576]/[nodes]/a = ['x', 'u']/b = ['v']/
> check p c
3 timing 4 Window at a: 576 is not above 576/
> run p i s c
3 timing 4 Window at a: 576 is not above 576/
c protocol = 'lossy'/losses = 0/period = [9, 11]/delay = [1, 4]/[nodes]/a = ['x', 'u']/b = ['v']/[delays]/'b>a' = [1, 600]/
> check p c
3 timing 4 Window at b: 576 is not above 600/
- commands that go by the plain protocols alone
c protocol = 'lossy'/losses = 1/period = [9, 11]/delay = [1, 4]/[nodes]/a = ['x', 'u']/b = ['v']/
> sim p i c --seed 1 --horizon 100
3 config 5 OutOfRange: protocol/
> audit p i s c
3 config 5 OutOfRange: protocol/
> trace p i s c
3 config 5 OutOfRange: protocol/
";

// Two nodes that read each other's last value, on six rows.
const PROGRAM: &str =
    "node main(x: int) returns (u: int; v: int) let u = x + (0 fby v); v = 10 + (0 fby u); tel";

const INPUTS: &str = "instant,x/0,1/1,2/2,3/3,4/4,5/5,6/";

fn setup(alloc: Global, limit: u64) -> Result<String, Memory> {
    Ok(format!(in alloc;
        "protocol = 'lossy'/losses = {limit}/period = [9, 11]/delay = [1, 4]/[nodes]/a = ['x', 'u']/b = ['v']/"
    )?)
}

// Adds a line of a meaning with only so many of its cells.
fn add_front(line: &str, cells: u32, text: &mut String) -> Result<(), Memory> {
    let mut left = cells.saturating_add(1);
    for word in line.split(' ') {
        if left > 0 {
            text.push_str(if left > cells { "" } else { " " })?;
            text.push_str(word)?;
            left -= 1;
        }
    }
    text.push_str("\n")?;
    Ok(())
}

// What the outputs are to show: of the whole program's streams as many cells as their nodes have executed instants.
fn wanted_text(alloc: Global, meaning: &str, executed: [u32; 2]) -> Result<String, Memory> {
    let mut text = String::new(alloc);
    for (line, cells) in meaning.lines().zip(executed) {
        add_front(line, cells, &mut text)?;
    }
    Ok(text)
}

// The files of a run along a schedule.
fn texts<'a>(schedule: &'a str, setup: &'a str) -> Texts<'a> {
    Texts {
        program: PROGRAM,
        inputs: INPUTS,
        schedule,
        setup,
        observer: "true",
    }
}

fn run_along<'a>(alloc: Global, schedule: &'a str, setup: &'a str) -> Result<Ended, Memory> {
    call(alloc, "run p i s c", texts(schedule, setup), NOTHING)
}

// Whether a run along a drawn schedule shows what it is to show.
fn is_right(alloc: Global, drawn: &Drawn, limit: u64, meaning: &str) -> Result<bool, Memory> {
    let setup = setup(alloc, limit)?;
    let ended = run_along(alloc, drawn.rows.as_str(), setup.as_str())?;
    let wanted = wanted_text(alloc, meaning, drawn.executed())?;
    Ok(ended.status == Status::Ok && ended.out.as_slice() == wanted.as_str().as_bytes())
}

// What the program means on these rows.
const MEANING: &str = "u: 1 12 14 26 29 42\nv: 10 11 22 24 36 39\n";

#[test]
fn runs_over_lossy_links(rt: HostRuntime) {
    holds(&rt, rt.alloc(), LOSSY);
    holds(&rt, rt.alloc(), SETUPS);
}

// Draws a schedule, and gives its rows where a run along it is wrong.
fn wrong(alloc: Global, dice: &mut SplitMix64) -> Result<Option<String>, Memory> {
    let limit = dice.next_u64() % 4;
    let drawn = draw(alloc, dice, limit)?;
    if is_right(alloc, &drawn, limit, MEANING)? {
        return Ok(None);
    }
    let rows = String::from_str(alloc, drawn.rows.as_str())?;
    Ok(Some(rows))
}

fn must_be_right<R: Abort>(rt: &R, wrong: Result<Option<String>, Memory>, case: u32) {
    match wrong {
        Ok(None) => {}
        Ok(Some(rows)) => assert!(rt; false, "case {case}: {}", rows.as_str()),
        Err(_) => assert!(rt; false, "no memory in case {case}"),
    }
}

#[test]
fn drawn_losses_keep_the_meaning(rt: HostRuntime) {
    let mut dice = SplitMix64::seed_from_u64(1);
    for case in 0..1_000 {
        must_be_right(&rt, wrong(rt.alloc(), &mut dice), case);
    }
}

// Calls on the files, on the fabric and on the sinks that fail, and messages that find no memory.

use crate::calls::{ACROSS, NOTHING, call_into};
use crate::script::holds;
use lt_base::{List, Memory};
use lt_cli::Status;
use lt_io::RealSink;
use std::alloc::Global;
use std::io::Cursor;
use std::process::Abort;

const FILES: &str = "\
- each file is opened once and read twice, and nothing is written where a call on one fails
> check p
x files 1 3
6 fault: read/
x files 4 4
0 node main(x: int) returns (y: int)/let/  y = 0 fby y + x;/tel/
> check p c
x files 1 6
6 fault: read/
x files 7 7
0 node main(x: int) returns (y: int)/let/  y = 0 fby y + x;/tel/
> meaning p i
x files 1 6
6 fault: read/
x files 7 7
0 y: 0 1 3/
> run p i s
x files 1 9
6 fault: read/
x files 10 10
0 y: 0 1/
> run p i s c
x files 1 12
6 fault: read/
x files 13 13
0 y: 0 1/
> plan c
x files 1 3
6 fault: read/
x files 4 4
0 least execute 1/least send 1/timebased cycle 2000/backpressure cycle 4000/
> sim p i c --seed 0 --horizon 0
x files 1 9
6 fault: read/
> watch p i s o
x files 1 12
6 fault: read/
x files 13 13
0 holds 2/
> watch p i s o c
x files 1 15
6 fault: read/
x files 16 16
0 holds 2/
> audit p i s c
x files 1 12
6 fault: read/
x files 13 13
0 clean 4/
> trace p i s c
x files 1 12
6 fault: read/
x files 13 13
0 time,event,place/0,act,all/4,act,all/8,act,all/12,end,/
- the second piece of this schedule would be the ninth call
s time,event,place/5,act,all/5,act,all/{10000000*x}
> run p i s
x files 8 8
6 fault: read/
x files 9 9
5 schedule offence at event 2: TooSoon all/
";

const FABRIC: &str = "\
- two nodes; the last line of the schedule has no line feed, so that its file is read three times
p node main(x: int) returns (u: int; v: int) let u = x + (0 fby v); v = 10 + (0 fby u); tel
i instant,x/0,1/1,1/2,1/
c protocol = 'backpressure'/period = [9, 11]/delay = [1, 4]/[nodes]/a = ['x', 'u']/b = ['v']/
s time,event,place/0,act,a/0,act,b/3,ack,a>b/3,ack,b>a/10,act,a/10,act,b/12,data,a>b/12,data,b>a/20,act,a/20,end,
> run p i s c
x files 1 13
6 fault: read/
x files 14 14
0 u: 1 11/v: 10/
- the channels are opened, both nodes acknowledge, both acknowledgements are delivered, both nodes send, both messages are
- delivered, and one node acknowledges again
x fabric 1 10
6 fault: link/
x fabric 11 11
0 u: 1 11/v: 10/
- of the five messages one finds no memory
x send 1 5
9
x send 6 6
0 u: 1 11/v: 10/
- each int is one more than what was sent
x flip 0 0
0 u: 1 12/v: 10/
> watch p i s o c
x fabric 1 10
6 fault: link/
x fabric 11 11
0 holds 1/
x send 1 5
9
x send 6 6
0 holds 1/
- the channels are opened before the schedule
> run p i q c
6 fault: read/
x fabric 1 1
6 fault: link/
x fabric 2 2
6 fault: read/
- no other command calls the fabric
> check p c
x fabric 1 1
0 node main(x: int) returns (u: int; v: int)/let/  u = x + (0 fby v);/  v = 10 + (0 fby u);/tel/
> meaning p i
x fabric 1 1
0 u: 1 11 12/v: 10 11 21/
> plan c
x fabric 1 1
0 least execute 3/least send 3/timebased cycle 66/backpressure cycle 30/
> audit p i s c
x fabric 1 1
0 clean 10/
> trace p i s c --from 20
x fabric 1 1
0 time,event,place/20,act,a/20,end,/
- the message that is delivered too late would be the eighth call
s time,event,place/0,act,a/0,act,b/3,ack,a>b/3,ack,b>a/10,act,a/10,act,b/15,data,a>b/15,data,b>a/20,act,a/20,end,
> run p i s c
x fabric 1 7
6 fault: link/
x fabric 8 8
5 schedule offence at event 7: ChannelOverdue data a>b/
x send 1 4
9
x send 5 5
5 schedule offence at event 7: ChannelOverdue data a>b/
";

const WRITES: &str = "\
- a text is taken at one write, and where that fails nothing is written at all
> check p
x out 1 1
7
x out 2 2
0 node main(x: int) returns (y: int)/let/  y = 0 fby y + x;/tel/
x err 1 1
0 node main(x: int) returns (y: int)/let/  y = 0 fby y + x;/tel/
> meaning p i
x out 1 1
7
> run p i s
x out 1 1
7
x err 1 1
0 y: 0 1/
> plan c
x out 1 1
7
> watch p i s o
x out 1 1
7
> audit p i s c
x out 1 1
7
> trace p i s c
x out 1 1
7
- where the files fail nothing is written to out, and err may fail too
> run p i s
x files,out 1 1
6 fault: read/
x files,err 1 1
7
> run p i s c
x fabric,out 1 1
6 fault: link/
x fabric,err 1 1
7
- the line of a refusal of each status
> run
x out 1 1
1 words: usage: ltta check P [C] | meaning P I | run P I S [C] | plan C [--horizon H] | sim P I C --seed N --horizon H | big N | watch P I S O [C] | audit P I S C | trace P I S C [--node NAME] [--from T] [--to T]/
x err 1 1
7
> check i
x out 1 1
2 syntax 3 Unexpected at byte 0/
x err 1 1
7
> check p i
x out 1 1
3 config 1 NotToml/
x err 1 1
7
> meaning p p
x out 1 1
4 inputs 2 Header at row 0/
x err 1 1
7
> run p i c
x out 1 1
5 schedule 5 NotCsv at row 0/
x err 1 1
7
> check q
x out 1 1
6 fault: read/
x err 1 1
7
> watch p i s p
x out 1 1
10 observer 2 Unexpected at byte 5/
x err 1 1
7
p {1048577* }
> check p
x out 1 1
8 limit: program bytes 1048576/
x err 1 1
7
";

const PIECES: &str = "\
- a drawn schedule is written in pieces; where one of them fails, the earlier ones were taken
c protocol = 'backpressure'/period = [1, 1]/delay = [0, 0]/[nodes]/all = ['x', 'y']/
> sim p i c --seed 1 --horizon 10000
0 time,event,place/{10000*@,act,all/}10000,end,/
x out 1 1
7
x out 2 2
7 time,event,place/{10000*@,act,all/}10000,end,/
x out 3 3
0 time,event,place/{10000*@,act,all/}10000,end,/
x files,out 1 1
6 fault: read/
";

#[test]
fn failed_calls(rt: HostRuntime) {
    holds(&rt, rt.alloc(), FILES);
    holds(&rt, rt.alloc(), FABRIC);
    holds(&rt, rt.alloc(), WRITES);
    holds(&rt, rt.alloc(), PIECES);
}

// What a run writes into a place with so much room: the status, and what is written of a refusal.
fn run_into(alloc: Global, room: &mut [u8]) -> Result<(Status, List<u8>), Memory> {
    let mut out = RealSink::new(Cursor::new(room));
    call_into(alloc, "run p i s c", ACROSS, NOTHING, &mut out)
}

const SHOWN: &[u8; 14] = b"u: 1 11\nv: 10\n";

// Whether a place with room for so many bytes is filled, and nothing else is written.
fn fills(alloc: Global, length: usize) -> Result<bool, Memory> {
    let mut room = [0u8; 14];
    let length = length.min(14);
    let (status, err) = run_into(alloc, &mut room[..length])?;
    let wanted = if length < 14 {
        Status::Write
    } else {
        Status::Ok
    };
    Ok(status == wanted && SHOWN.starts_with(&room[..length]) && err.is_empty())
}

fn must_fill<R: Abort>(rt: &R, filled: Result<bool, Memory>, length: usize) {
    let filled = matches!(filled, Ok(true));
    assert!(rt; filled, "room for {length}");
}

// A place that is full holds as much of the text as it has room for.
#[test]
fn a_front_fills_the_room(rt: HostRuntime) {
    for length in 0usize..=14 {
        must_fill(&rt, fills(rt.alloc(), length), length);
    }
}

// Calls of `lttac`.

use crate::calls::COUNTING;
use crate::script::{ends, holds, plain};
use std::alloc::Global;
use std::process::Abort;

// Words that say no command of `lttac`.
const WORDS: &str = "\
lttac emit p c
lttac emit p c all all
lttac check p c
lttac emit --help
lttac emit --header p c
lttac emit --headers p c all
lttac emit --header --header p c all
lttac emit --header=true p c all
lttac schedule p i c --seed 0
lttac schedule p i c --seed 0 --horizon 7 --jitter 1001
lttac schedule p i c --seed 0 --horizon 7 --loss 1001
lttac draw p i s
lttac draw p i s c --width 399
lttac draw p i s c --to 1000000000000001
lttac plot p
lttac plot p i s
lttac plot p i s --width 400 c
lttac plot p i s c o
lttac plot p i --from 4294967296
";

const USAGE: &str =
    "words: usage: lttac emit [--header] P C NODE | schedule P I C --seed N --horizon H [--jitter J] [--loss R] | draw P I S C [--node NAME] [--from T] [--to T] [--width W] | plot P I [S C] [--observer O] [--from K] [--to K] [--width W]/";

const OUTSIDE: &str = "\
- what is to be printed is written by one call, which fails with nothing written
> lttac emit p c all
x out 1 1
7 
> lttac draw p i s c
x out 1 1
7 
> lttac plot p i s c --observer o
x out 1 1
7 
- each file is opened once and read twice
x files 1 6
6 fault: read/
> lttac emit q c all
6 fault: read/
> lttac emit --header q c all
6 fault: read/
> lttac emit p q all
6 fault: read/
> lttac draw q i s c
6 fault: read/
> lttac draw p i q c --node all --from 0 --to 1000000000000000 --width 400
6 fault: read/
> lttac plot p q
6 fault: read/
> lttac plot p i q c --observer o --from 0 --to 4294967295 --width 10000
6 fault: read/
> lttac emit p c nobody
x err 1 1
7 
";

const REFUSED: &str = "\
- the name is looked for last
> lttac emit p c nobody
1 words: no node nobody/
> lttac emit p c al
1 words: no node al/
> lttac emit --header p c al
1 words: no node al/
> lttac emit p c --header al
1 words: no node al/
p node main(x: int) returns (u: int; v: int) let u = x + (0 fby v); v = 10 + (0 fby u)
> lttac emit p c nobody
2 syntax 3 Unexpected at byte 84/
p node main(x: int) returns (u: int; v: int) let u = x + (0 fby w); v = 10 + (0 fby u); tel
> lttac emit p c nobody
2 name 2 Unknown in node main: w/
p node main(x: int) returns (u: int; v: int) let u = x + v; v = 10 + u; tel
> lttac emit p c nobody
2 cycle in node main: u v/
p node main(x: int) returns (u: int; v: int) let u = x + (0 fby v); v = 10 + (0 fby u); tel
c protocol = 'backpressure'/period = [9]/delay = [1, 4]/[nodes]/a = ['x', 'u']/b = ['v']/
> lttac emit p c nobody
3 config 3 WrongKind: period/
c protocol = 'backpressure'/period = [9, 11]/delay = [1, 4]/[nodes]/a = ['x']/b = ['v']/
> lttac emit p c nobody
3 placement 1 Unplaced: u/
c protocol = 'timebased'/period = [9, 11]/delay = [1, 4]/send = 2/execute = 3/[nodes]/a = ['x', 'u']/b = ['v']/
> lttac emit p c nobody
3 timing 2 Send: 46 is not above 48/
c protocol = 'backpressure'/period = [9, 11]/delay = [1, 4]/[nodes]/a = ['x', 'u']/b = ['v']/
> lttac emit p c nobody
1 words: no node nobody/
";

const SCHEDULES: &str = "\
- where a leads, with periods of 9 to 11 ticks, and with a jitter of 0 of 10 ticks
p node main(x: int) returns (u: int; v: int) let u = x + (0 fby v); v = 10 + (0 fby u); tel
i instant,x/0,1/1,1/
c protocol = 'leader'/leader = 'a'/period = [9, 11]/delay = [1, 4]/send = 5/execute = 3/[nodes]/a = ['x', 'u']/b = ['v']/
> lttac schedule p i c --seed 1 --horizon 70
0 time,event,place/5,act,a/7,act,b/14,act,a/18,act,b/23,act,a/29,act,b/32,act,a/38,act,b/41,act,a/48,act,b/50,act,a/53,data,a>b/58,act,b/61,act,a/62,data,b>a/68,act,b/70,act,a/70,end,/
> lttac schedule p i c --seed 1 --horizon 30 --jitter 0
0 time,event,place/8,act,b/9,act,a/18,act,b/19,act,a/28,act,b/29,act,a/30,end,/
- as `sim` draws it, of no choice but the first activations
c protocol = 'backpressure'/period = [3, 3]/delay = [0, 0]/[nodes]/a = ['x', 'u']/b = ['v']/
> lttac schedule p i c --seed 0 --horizon 7
0 time,event,place/0,act,b/0,ack,b>a/3,act,a/3,act,b/3,ack,a>b/6,act,a/6,act,b/6,data,a>b/6,data,b>a/7,end,/
> lttac schedule p i c --seed 0 --horizon 7 --loss 1
3 config 5 OutOfRange: losses/
- links that lose one message in a row: none is lost, and some are
c protocol = 'lossy'/losses = 1/period = [9, 11]/delay = [1, 4]/[nodes]/a = ['x', 'u']/b = ['v']/
> lttac schedule p i c --seed 1 --horizon 30
0 time,event,place/5,act,a/7,act,b/8,ack,b>a/9,ack,a>b/14,act,a/16,act,b/16,ack,a>b/17,data,a>b/17,data,b>a/19,ack,b>a/23,act,a/24,data,a>b/26,act,b/26,ack,a>b/27,data,b>a/30,ack,b>a/30,end,/
> lttac schedule p i c --seed 1 --horizon 45 --loss 500
0 time,event,place/5,act,a/7,act,b/8,loseack,b>a/9,ack,a>b/14,act,a/16,act,b/17,ack,a>b/17,ack,b>a/19,data,b>a/23,act,a/25,act,b/25,losedata,a>b/26,ack,a>b/26,ack,b>a/28,losedata,b>a/32,act,a/34,act,b/35,data,b>a/36,data,a>b/36,ack,a>b/37,ack,b>a/42,act,a/43,ack,a>b/44,data,a>b/45,act,b/45,end,/
";

// Each of these words has to be refused by the usage line.
fn refused_words<R: Abort>(rt: &R, alloc: Global) {
    for line in WORDS.lines() {
        ends(rt, alloc, plain(line, COUNTING), 1, USAGE);
    }
}

#[test]
fn emission(rt: HostRuntime) {
    refused_words(&rt, rt.alloc());
    holds(&rt, rt.alloc(), OUTSIDE);
    holds(&rt, rt.alloc(), REFUSED);
    holds(&rt, rt.alloc(), SCHEDULES);
}

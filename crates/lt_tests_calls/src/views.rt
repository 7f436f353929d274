// Schedules that are drawn, the large input, observers, and schedules that are judged alone.

use crate::script::holds;

const DRAWN: &str = "\
- the words of seed 0 draw 3 and 0 of the first activations; there is no choice after that
p node main(x: int) returns (u: int; v: int) let u = x + (0 fby v); v = 10 + (0 fby u); tel
i instant,x/0,1/1,1/
c protocol = 'backpressure'/period = [3, 3]/delay = [0, 0]/[nodes]/a = ['x', 'u']/b = ['v']/
> sim p i c --seed 0 --horizon 7
0 time,event,place/0,act,b/0,ack,b>a/3,act,a/3,act,b/3,ack,a>b/6,act,a/6,act,b/6,data,a>b/6,data,b>a/7,end,/
- on what was drawn a run ends well
s time,event,place/0,act,b/0,ack,b>a/3,act,a/3,act,b/3,ack,a>b/6,act,a/6,act,b/6,data,a>b/6,data,b>a/7,end,/
> run p i s c
0 u: 1/v: 10/
- the timing has to be accepted
c protocol = 'timebased'/period = [9, 11]/delay = [1, 4]/send = 1/execute = 1/[nodes]/a = ['x', 'u']/b = ['v']/
> sim p i c --seed 0 --horizon 7
3 timing 1 Execute: 9 is not above 19/
";

const LARGE: &str = "\
- the large input: the first output is the input and the last output of the instant before, and each other one is 1 more than
- the one before it was
> big 2
0 instants 2/y0 2 2/y1 2 1/y2 2 2/y3 2 2/y4 2 2/y5 2 2/y6 2 2/y7 2 2/
> big 10
0 instants 10/y0 10 18/y1 10 16/y2 10 16/y3 10 15/y4 10 14/y5 10 13/y6 10 12/y7 10 11/
";

const WATCHED: &str = "\
p node main(c: bool) returns (b: bool) let b = false fby c; tel
i instant,c/0,true/1,false/2,true/
s time,event,place/0,act,all/1,act,all/2,act,all/3,act,all/4,act,all/4,end,/
o previous b => not b
> watch p i s o
0 holds 3/
o historically not b
> watch p i s o
0 fails at 1/
o since b
> watch p i s o
10 observer 2 Unexpected at byte 0/
o {65537* }
> watch p i s o
8 limit: observer bytes 65536/
o {65536* }
> watch p i s o
10 observer 2 Unexpected at byte 65536/
- the observer stands after the inputs and before the schedule
o since b
> watch p i q o
10 observer 2 Unexpected at byte 0/
i instant,y/
> watch p i q q
4 inputs 2 Header at row 0/
- an output that is an int
p node main(x: int) returns (y: int) let y = 0 fby (y + x); tel
i instant,x/0,1/1,2/2,3/
s time,event,place/0,act,all/4,act,all/8,act,all/12,end,/
o not y
> watch p i s o
10 observer 5 NotBool at byte 4/
- each other kind of fault, at the first byte of its token; an input is no output
o not 1
> watch p i s o
10 observer 1 BadByte at byte 4/
o not x
> watch p i s o
10 observer 4 UnknownName at byte 4/
p node main(c: bool) returns (b: bool when c) let b = c when c; tel
i instant,c/0,true/1,false/2,true/
o true or b
> watch p i s o
10 observer 6 NotBase at byte 8/
- the height 200, and one more
o {199*not }true
> watch p i s o
0 fails at 0/
o {200*not }true
> watch p i s o
10 observer 3 TooDeep at byte 796/
- two nodes, of which one executes two instants and the other one: u is true and then false, and v is false
p node main(x: bool) returns (u: bool; v: bool) let u = x and (true fby v); v = false fby u; tel
i instant,x/0,true/1,true/2,true/
c protocol = 'backpressure'/period = [9, 11]/delay = [1, 4]/[nodes]/a = ['x', 'u']/b = ['v']/
s time,event,place/0,act,a/0,act,b/3,ack,a>b/3,ack,b>a/10,act,a/10,act,b/12,data,a>b/12,data,b>a/20,act,a/20,end,/
o historically u
> watch p i s o c
0 fails at 1/
o not v since u
> watch p i s o c
0 holds 1/
o u or previous u
> watch p i s o c
0 holds 2/
o true
> watch p i s o c
0 holds 1/
";

const JUDGED: &str = "\
- a timing that is refused, and the first instant that is executed with a message too many
p node main(x: int) returns (u: int; v: int) let u = x + (0 fby v); v = 10 + (0 fby u); tel
i instant,x/0,1/1,1/2,1/
c protocol = 'timebased'/period = [9, 11]/delay = [1, 4]/send = 1/execute = 1/[nodes]/a = ['x', 'u']/b = ['v']/
s time,event,place/0,act,a/9,act,a/10,data,a>b/11,act,b/11,end,/
> run p i s c
3 timing 1 Execute: 9 is not above 19/
> audit p i s c
0 event 4: b executes 0 with 1 of data a>b/
> trace p i s c --node b
0 time,event,place/10,data,a>b/11,act,b/
> trace p i s c --from 9 --to 10
0 time,event,place/9,act,a/10,data,a>b/
> trace p i s c
0 time,event,place/0,act,a/9,act,a/10,data,a>b/11,act,b/11,end,/
- a node that there is not, before the inputs
> trace p q s c --node z
3 placement 3 UnknownName: z/
- a timing that is accepted
c protocol = 'timebased'/period = [9, 11]/delay = [1, 4]/send = 5/execute = 3/[nodes]/a = ['x', 'u']/b = ['v']/
s time,event,place/0,act,a/9,act,a/11,act,b/18,act,a/22,act,b/27,act,a/33,act,b/36,act,a/44,act,b/45,act,a/46,data,a>b/54,act,a/55,act,b/56,data,b>a/63,act,a/66,act,b/72,act,a/72,end,/
> audit p i s c
0 clean 18/
- an offence
s time,event,place/5,act,a/5,act,a/
> audit p i s c
5 schedule offence at event 2: TooSoon a/
> trace p i s c
5 schedule offence at event 2: TooSoon a/
";

#[test]
fn drawn_watched_and_judged(rt: HostRuntime) {
    holds(&rt, rt.alloc(), DRAWN);
    holds(&rt, rt.alloc(), LARGE);
    holds(&rt, rt.alloc(), WATCHED);
    holds(&rt, rt.alloc(), JUDGED);
}

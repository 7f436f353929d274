// The streams that are printed: of the whole program, and of runs on one node.

use crate::script::holds;

const MEANINGS: &str = "\
- a counter, on three rows and on none
> meaning p i
0 y: 0 1 3/
i instant,x/
> meaning p i
0 y:/
- a stream that is there where c is true, and the same one of its instants late
p node main(x: int; c: bool) returns (y, w: int when c) let y = x when c; w = 0 fby y; tel
i instant,x,c/0,5,true/1,6,false/2,7,true/
> meaning p i
0 y: 5 . 7/w: 0 . 5/
- two variables that read each other's last value
p node main(x: int) returns (u: int; v: int) let u = x + (0 fby v); v = 10 + (0 fby u); tel
i instant,x/0,1/1,1/2,1/
> meaning p i
0 u: 1 11 12/v: 10 11 21/
- sums that wrap, divisions by zero, and quotients that are cut towards zero
p node main() returns (a, b, c, d, e, f: int) let a = (-9223372036854775807 - 1) div -1; b = 7 div 0; c = 7 mod 0; d = 9223372036854775807 + 1; e = -7 div 2; f = -7 mod 2; tel
i instant/0/
> meaning p i
0 a: -9223372036854775808/b: 0/c: 7/d: -9223372036854775808/e: -3/f: -1/
- a divisor that wraps
p node main(x: int) returns (y: int) let y = gcd(x, 0); tel
i instant,x/0,-9223372036854775808/
> meaning p i
0 y: -9223372036854775808/
- nine outputs
p node main(x: int) returns (a, b, c, d, e, f, g, h, i: int) let a = x; b = -x; c = x + 1; d = x - 1; e = 2 * x; f = 0 fby x; g = x * x; h = x mod 2; i = x div 2; tel
i instant,x/0,1/1,2/
> meaning p i
0 a: 1 2/b: -1 -2/c: 2 3/d: 0 1/e: 2 4/f: 0 1/g: 1 4/h: 1 0/i: 0 1/
> run p i s
0 a: 1 2/b: -1 -2/c: 2 3/d: 0 1/e: 2 4/f: 0 1/g: 1 4/h: 1 0/i: 0 1/
- equations out of order
p node main(x: int) returns (y: int; z: int) let y = z + 1; z = 0 fby x; tel
i instant,x/0,1/1,2/2,3/
> meaning p i
0 y: 1 2 3/z: 0 1 2/
- a delay with an expression on its left, and a start
p node main(x: int) returns (y: int) let y = (x + 1) fby x; tel
> meaning p i
0 y: 2 1 2/
p node main(x: int) returns (y: int) let y = x -> 10 + (0 fby y); tel
> meaning p i
0 y: 1 11 21/
";

const RUNS: &str = "\
- the second activation only sends
> run p i s
0 y: 0 1/
- the rows run out, and the last activation does nothing
s time,event,place/0,act,all/4,act,all/8,act,all/9,act,all/10,act,all/11,act,all/12,act,all/12,end,/
> run p i s
0 y: 0 1 3/
- nothing was due
s time,event,place/0,end,/
> run p i s
0 y:/
- a stream on a slow clock
p node main(x: int; c: bool) returns (y, w: int when c) let y = x when c; w = 0 fby y; tel
i instant,x,c/0,5,true/1,6,false/2,7,true/
s time,event,place/0,act,all/1,act,all/2,act,all/3,act,all/4,act,all/4,end,/
> run p i s
0 y: 5 . 7/w: 0 . 5/
";

const CRUISE: &str = "\
- the cruise controller of the examples, whole and along a schedule
p node limit(v: int) returns (r: int) let r = max(0, min(v, 100)); tel node main(speed: int; button: bool) returns (on: bool; gap: int when act; throttle: int) var was: bool; act: bool; seen: int; target: int when act; cmd: int; let was = false fby button; on = (false fby on) xor (button and not was); act = false fby on; seen = 0 fby speed; target = 60; gap = target - (seen when act); cmd = merge act (limit(gap + (0 fby gap))) 0; throttle = 0 fby cmd; tel
i instant,speed,button/0,50,true/1,52,false/2,55,false/3,58,false/4,59,false/
s time,event,place/0,act,all/4,act,all/8,act,all/9,act,all/10,act,all/11,act,all/12,act,all/12,end,/
> meaning p i
0 on: true true true true true/gap: . 10 8 5 2/throttle: 0 0 10 18 13/
> run p i s
0 on: true true true true/gap: . 10 8 5/throttle: 0 0 10 18/
";

const RUNS_ON_A_NODE: &str = "\
- of six activations back-pressure executes at the first, the third and the fifth
s time,event,place/0,act,b/1,act,b/2,act,b/3,act,b/4,act,b/5,act,b/5,end,/
c protocol = 'backpressure'/period = [1, 1000]/delay = [0, 1000]/[nodes]/b = ['x', 'y']/
> run p i s c
0 y: 0 1 3/
- one that sends at the second activation after an instant, and executes at the next one
c protocol = 'timebased'/period = [1, 10]/delay = [1, 4]/send = 2/execute = 1/[nodes]/b = ['x', 'y']/
> run p i s c
0 y: 0 1/
- one that sends at the next activation after an instant, and executes at the second one after that
c protocol = 'timebased'/period = [1, 10]/delay = [1, 4]/send = 1/execute = 2/[nodes]/b = ['y', 'x']/
> run p i s c
0 y: 0 1/
- two variables that read each other's last value, together
p node main(x: int) returns (u: int; v: int) let u = x + (0 fby v); v = 10 + (0 fby u); tel
c protocol = 'backpressure'/period = [1, 11]/delay = [1, 4]/[nodes]/b = ['v', 'u', 'x']/
> run p i s c
0 u: 1 12 14/v: 10 11 22/
";

#[test]
fn streams(rt: HostRuntime) {
    holds(&rt, rt.alloc(), MEANINGS);
    holds(&rt, rt.alloc(), RUNS);
    holds(&rt, rt.alloc(), CRUISE);
    holds(&rt, rt.alloc(), RUNS_ON_A_NODE);
}

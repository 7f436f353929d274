// Files at a limit, and past it.

use crate::script::holds;

const BYTES: &str = "\
p {1048577* }
> check p
8 limit: program bytes 1048576/
p {1048576* }
> check p
2 syntax 3 Unexpected at byte 1048576/
p node main(x: int) returns (y: int) let y = 0 fby (y + x); tel
c {262145*/}
> check p c
8 limit: config bytes 262144/
c {262144*/}
> check p c
3 config 2 Missing: protocol/
i {67108865*/}
> meaning p i
8 limit: inputs bytes 67108864/
i {67108864*/}
> meaning p i
4 inputs 2 Header at row 0/
";

const GREATEST_SCHEDULE: &str = "\
- empty lines behind the end are read up to the limit
s time,event,place/0,act,all/4,act,all/12,end,/{1073741779*/}
> run p i s
0 y: 0/
";

const GREATER_SCHEDULE: &str = "\
s time,event,place/0,act,all/4,act,all/12,end,/{1073741780*/}
> run p i s
8 limit: schedule bytes 1073741824/
";

const PROGRAMS: &str = "\
- as many functions as there may be, and one more
p {63*node f#(a: int) returns (b: int) let b = a; tel }node main(x: int) returns (y: int) let y = x; tel
> check p
0 {63*node f#(a: int) returns (b: int)/let/  b = a;/tel/}node main(x: int) returns (y: int)/let/  y = x;/tel/
p {64*node f#(a: int) returns (b: int) let b = a; tel }node main(x: int) returns (y: int) let y = x; tel
> check p
8 limit: functions 64/
- delays are variables too
p node main(x: int) returns (y: int) var {2047*v#: int; }let y = x; {2047*v# = 0 fby x; }tel
> check p
0 node main(x: int) returns (y: int)/var/{2047*  v#: int;/}let/  y = x;/{2047*  v# = 0 fby x;/}tel/
p node main(x: int) returns (y: int) var {2047*v#: int; }let y = 0 fby x; {2047*v# = 0 fby x; }tel
> check p
8 limit: variables 4096/
p node main(x: int{63*; x#: int}) returns (y: int) let y = x; tel
> check p
0 node main(x: int{63*; x#: int}) returns (y: int)/let/  y = x;/tel/
p node main(x: int{64*; x#: int}) returns (y: int) let y = x; tel
> check p
8 limit: inputs 64/
p node main(x: int) returns (y: int{63*; y#: int}) let y = x; {63*y# = x; }tel
> check p
0 node main(x: int) returns (y: int{63*; y#: int})/let/  y = x;/{63*  y# = x;/}tel/
p node main(x: int) returns (y: int{64*; y#: int}) let y = x; {64*y# = x; }tel
> check p
8 limit: outputs 64/
- of several the first in this order
p {64*node f#(a: int) returns (b: int) let b = a; tel }node main(x: int{64*; x#: int}) returns (y: int{64*; y#: int}) let y = x; {64*y# = x; }tel
> check p
8 limit: functions 64/
p node main(x: int{64*; x#: int}) returns (y: int{64*; y#: int}) var {4096*v#: int; }let y = x; {64*y# = x; }{4096*v# = x; }tel
> check p
8 limit: variables 4096/
p node main(x: int{64*; x#: int}) returns (y: int{64*; y#: int}) let y = x; {64*y# = x; }tel
> check p
8 limit: inputs 64/
- the greatest number, and one more
p node main() returns (y: int) let y = 09223372036854775807; tel
> check p
0 node main() returns (y: int)/let/  y = 9223372036854775807;/tel/
p node main() returns (y: int) let y = -9223372036854775808; tel
> check p
2 syntax 2 BadNumber at byte 38/
";

const SIZES: &str = "\
- functions that each call the one before twice
p node f0(a: int) returns (b: int) let b = a; tel {10*node f@(a: int) returns (b: int) let b = f#(a) + f#(a); tel }node main(x: int) returns (y: int) let y = f10(x); tel
> check p
0 node f0(a: int) returns (b: int)/let/  b = a;/tel/{10*node f@(a: int) returns (b: int)/let/  b = f#(a) + f#(a);/tel/}node main(x: int) returns (y: int)/let/  y = f10(x);/tel/
p node f0(a: int) returns (b: int) let b = a; tel {11*node f@(a: int) returns (b: int) let b = f#(a) + f#(a); tel }node main(x: int) returns (y: int) let y = f11(x); tel
> check p
8 limit: weight 4096/
> meaning p i
8 limit: weight 4096/
> run p i s
8 limit: weight 4096/
- the same with one input more than there is room for
p node f0(a: int) returns (b: int) let b = a; tel {10*node f@(a: int) returns (b: int) let b = f#(a) + f#(a); tel }node main(x, w: int) returns (y: int) let y = f10(x); tel
> check p
8 limit: weight 4096/
- the first of them adds its input up
p node f0(a: int) returns (b: int) let b = a{127* + a}; tel {10*node f@(a: int) returns (b: int) let b = f#(a) + f#(a); tel }node main(x: int) returns (y: int) let y = f10(x); tel
> check p
8 limit: parts 262144/
- as many parts as there may be, and one more
p node f0(a: int) returns (b: int) let b = a{125* + a}; tel {10*node f@(a: int) returns (b: int) let b = f#(a) + f#(a); tel }node main(x: int) returns (y: int) let y = -f10(x) + x; tel
> check p
0 node f0(a: int) returns (b: int)/let/  b = a{125* + a};/tel/{10*node f@(a: int) returns (b: int)/let/  b = f#(a) + f#(a);/tel/}node main(x: int) returns (y: int)/let/  y = -f10(x) + x;/tel/
p node f0(a: int) returns (b: int) let b = a{125* + a}; tel {10*node f@(a: int) returns (b: int) let b = f#(a) + f#(a); tel }node main(x: int) returns (y: int) let y = -f10(x) + -x; tel
> check p
8 limit: parts 262144/
";

const HEIGHTS: &str = "\
- the height of an expression, and the place of its two hundredth parenthesis or sign
p node main(x: int) returns (y: int) let y = {199*(}x{199*)}; tel
> check p
0 node main(x: int) returns (y: int)/let/  y = x;/tel/
p node main(x: int) returns (y: int) let y = {200*(}x{200*)}; tel
> check p
2 syntax 4 TooDeep at byte 242/
p node main(x: int) returns (y: int) let y = x{199* + x}; tel
> check p
0 node main(x: int) returns (y: int)/let/  y = x{199* + x};/tel/
p node main(x: int) returns (y: int) let y = x{200* + x}; tel
> check p
2 syntax 4 TooDeep at byte 841/
- the same through calls, delays, starts and a merge
p node f(a: int) returns (b: int) let b = a; tel node main(x: int) returns (y: int) let y = {199*f(}x{199*)}; tel
> check p
0 node f(a: int) returns (b: int)/let/  b = a;/tel/node main(x: int) returns (y: int)/let/  y = {199*f(}x{199*)};/tel/
p node f(a: int) returns (b: int) let b = a; tel node main(x: int) returns (y: int) let y = {200*f(}x{200*)}; tel
> check p
2 syntax 4 TooDeep at byte 489/
p node main(x: int) returns (y: int) let y = {199*0 fby }x; tel
> check p
0 node main(x: int) returns (y: int)/let/  y = {199*0 fby }x;/tel/
p node main(x: int) returns (y: int) let y = {200*0 fby }x; tel
> check p
2 syntax 4 TooDeep at byte 1239/
p node main(x: int) returns (y: int) let y = {199*x -> }x; tel
> check p
0 node main(x: int) returns (y: int)/let/  y = {199*x -> }x;/tel/
p node main(x: int) returns (y: int) let y = {200*x -> }x; tel
> check p
2 syntax 4 TooDeep at byte 1040/
p node main(c: bool) returns (y: int) let y = merge c (1{197* + 1}) 0; tel
> check p
0 node main(c: bool) returns (y: int)/let/  y = merge c (1{197* + 1}) 0;/tel/
p node main(c: bool) returns (y: int) let y = merge c (1{198* + 1}) 0; tel
> check p
2 syntax 4 TooDeep at byte 843/
- and through signs, conditions, implications and clocks
p node main(x: int) returns (y: int) let y = {99*-(}x{99*)}; tel
> check p
0 node main(x: int) returns (y: int)/let/  y = {98*-(}-x{98*)};/tel/
p node main(x: int) returns (y: int) let y = {100*-(}x{100*)}; tel
> check p
2 syntax 4 TooDeep at byte 242/
p node main(x: bool) returns (y: bool) let y = {199*not }x; tel
> check p
0 node main(x: bool) returns (y: bool)/let/  y = {199*not }x;/tel/
p node main(x: bool) returns (y: bool) let y = {200*not }x; tel
> check p
2 syntax 4 TooDeep at byte 841/
p node main(x: int; c: bool) returns (y: int) let y = {199*if c then x else }x; tel
> check p
0 node main(x: int; c: bool) returns (y: int)/let/  y = {199*if c then x else }x;/tel/
p node main(x: int; c: bool) returns (y: int) let y = {200*if c then x else }x; tel
> check p
2 syntax 4 TooDeep at byte 3435/
p node main(x: bool) returns (y: bool) let y = x{199* => x}; tel
> check p
0 node main(x: bool) returns (y: bool)/let/  y = x{199* => x};/tel/
p node main(x: bool) returns (y: bool) let y = x{200* => x}; tel
> check p
2 syntax 4 TooDeep at byte 1042/
p node main(x: int; c: bool) returns (y: int) let y = x{199* when c}; tel
> check p
2 clock in node main: equation 1 of y on base/
p node main(x: int; c: bool) returns (y: int) let y = x{200* when c}; tel
> check p
2 syntax 4 TooDeep at byte 1447/
- as many parentheses as a file may have
p node main(x: int) returns (y: int) let y = {1048533*(}
> check p
2 syntax 4 TooDeep at byte 242/
";

const SETUPS: &str = "\
- nodes
p node main(x: int) returns (y: int) let y = x; tel
c protocol = 'backpressure'/period = [9, 11]/delay = [1, 4]/[nodes]/a = ['x', 'y']/{31*n# = []/}
> check p c
0 node main(x: int) returns (y: int)/let/  y = x;/tel/
c protocol = 'backpressure'/period = [9, 11]/delay = [1, 4]/[nodes]/a = ['x', 'y']/{32*n# = []/}
> check p c
3 config 5 OutOfRange: nodes/
- a node's name
c protocol = 'backpressure'/period = [9, 11]/delay = [1, 4]/[nodes]/{64*a} = ['x', 'y']/
> check p c
0 node main(x: int) returns (y: int)/let/  y = x;/tel/
c protocol = 'backpressure'/period = [9, 11]/delay = [1, 4]/[nodes]/{65*a} = ['x', 'y']/
> check p c
3 config 6 BadName: {65*a}/
- the greatest ticks and countdowns, and one more of each
c protocol = 'backpressure'/period = [1, 1000000000]/delay = [0, 1000000000]/[nodes]/a = ['x', 'y']/b = []/
> plan c
0 least execute 3000000001/least send 3000000000000000000/timebased cycle 3000000003000000001000000000/backpressure cycle 4000000000/
c protocol = 'backpressure'/period = [1, 1000000001]/delay = [0, 1000000000]/[nodes]/a = ['x', 'y']/b = []/
> plan c
3 config 5 OutOfRange: period/
c protocol = 'backpressure'/period = [1, 1000000000]/delay = [0, 1000000001]/[nodes]/a = ['x', 'y']/b = []/
> plan c
3 config 5 OutOfRange: delay/
c protocol = 'timebased'/period = [1000000000, 1000000000]/delay = [0, 0]/send = 4000000000000000000/execute = 4000000000000000000/[nodes]/a = ['x', 'y']/b = []/
> check p c
0 node main(x: int) returns (y: int)/let/  y = x;/tel/
c protocol = 'timebased'/period = [1, 1000000000]/delay = [0, 0]/send = 1/execute = 4000000000000000000/[nodes]/a = ['x', 'y']/b = []/
> check p c
3 timing 2 Send: 4000000000000000001 is not above 4000000000000000001000000000/
c protocol = 'timebased'/period = [9, 11]/delay = [1, 4]/send = 4000000000000000001/execute = 4000000000000000000/[nodes]/a = ['x', 'y']/b = []/
> check p c
3 config 5 OutOfRange: send/
- the greatest time
c protocol = 'backpressure'/period = [9, 11]/delay = [1, 4]/[nodes]/a = ['x', 'y']/b = []/
> plan c --horizon 1000000000000000
0 least execute 3/least send 3/timebased cycle 66/backpressure cycle 30/timebased bound 15151515151515/backpressure bound 33333333333333/
";

const ROWS: &str = "\
- one row more than there may be, whatever it says
i instant,x/{100000*#,1/}not a row
> meaning p i
8 limit: input rows 100000/
> run p i s
8 limit: input rows 100000/
- as many rows as there may be
p node main(x: int) returns (y: int) let y = x; tel
i instant,x/{100000*#,1/}
> meaning p i
0 y:{100000* 1}/
- as many cells as a meaning may have, and more
p node main(x: int) returns (y: int) var {158*v#: int; }let y = x; {158*v# = x; }tel
> meaning p i
0 y:{100000* 1}/
p node main(x: int) returns (y: int) var {159*v#: int; }let y = x; {159*v# = x; }tel
> meaning p i
8 limit: meaning cells 16000000/
- an activation at each tick
p node main(x: int) returns (y: int) let y = 0 fby (y + x); tel
i instant,x/0,1/1,2/2,3/
s time,event,place/{4999999*#,act,all/}4999999,end,/
> run p i s
0 y: 0 1 3/
- one row more than there may be, whatever it says
s time,event,place/{5000000*#,act,all/}not a row
> run p i s
8 limit: events 5000000/
- a schedule that is drawn with as many events as there may be, and with one more
c protocol = 'backpressure'/period = [1, 1]/delay = [0, 0]/[nodes]/all = ['x', 'y']/
> sim p i c --seed 1 --horizon 4999999
0 time,event,place/{4999999*@,act,all/}4999999,end,/
> sim p i c --seed 1 --horizon 5000000
8 limit: events 5000000/
- a meaning has a limit on its cells; a run makes a step for each instant that is executed, whatever the rows are
p node f0(a: int) returns (b: int) let b = a; tel {10*node f@(a: int) returns (b: int) let b = f#(a) + f#(a); tel }node main(x: int) returns (y: int) let y = f10(x); tel
i instant,x/{3907*#,1/}
s time,event,place/0,act,all/4,act,all/8,act,all/12,end,/
> meaning p i
8 limit: meaning cells 16000000/
> run p i s
0 y: 1024 1024/
";

#[test]
fn limits_on_bytes(rt: HostRuntime) {
    holds(&rt, rt.alloc(), BYTES);
}

// Each reads a thousand million bytes, for some ten seconds.
#[test]
fn the_greatest_schedule_is_read(rt: HostRuntime) {
    holds(&rt, rt.alloc(), GREATEST_SCHEDULE);
}

#[test]
fn a_greater_schedule_is_refused(rt: HostRuntime) {
    holds(&rt, rt.alloc(), GREATER_SCHEDULE);
}

#[test]
fn limits_on_programs(rt: HostRuntime) {
    holds(&rt, rt.alloc(), PROGRAMS);
    holds(&rt, rt.alloc(), SIZES);
    holds(&rt, rt.alloc(), HEIGHTS);
    holds(&rt, rt.alloc(), SETUPS);
}

#[test]
fn limits_on_rows(rt: HostRuntime) {
    holds(&rt, rt.alloc(), ROWS);
}

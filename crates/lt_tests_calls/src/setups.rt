// Programs that are checked with a setup, and plans of setups.

use crate::script::holds;

const ACCEPTED: &str = "\
p node main(x: int) returns (u: int; v: int) let u = x + (0 fby v); v = 10 + (0 fby u); tel
c protocol = 'backpressure'/period = [9, 11]/delay = [1, 4]/[nodes]/a = ['x', 'u']/b = ['v']/
> check p c
0 node main(x: int) returns (u: int; v: int)/let/  u = x + (0 fby v);/  v = 10 + (0 fby u);/tel/
c protocol = 'backpressure'/period = [9, 11]/delay = [1, 4]/[nodes]/all = ['x', 'u', 'v']/
> check p c
0 node main(x: int) returns (u: int; v: int)/let/  u = x + (0 fby v);/  v = 10 + (0 fby u);/tel/
c protocol = 'timebased'/period = [9, 11]/delay = [1, 4]/send = 3/execute = 3/[nodes]/a = ['x', 'u']/b = ['v']/
> check p c
0 node main(x: int) returns (u: int; v: int)/let/  u = x + (0 fby v);/  v = 10 + (0 fby u);/tel/
- a call's argument crosses where it is a delay
p node f(a: int) returns (b: int) let b = a; tel node main(x: int) returns (u: int; v: int) let u = f(0 fby v); v = x; tel
c protocol = 'backpressure'/period = [9, 11]/delay = [1, 4]/[nodes]/a = ['x', 'v']/b = ['u']/
> check p c
0 node f(a: int) returns (b: int)/let/  b = a;/tel/node main(x: int) returns (u: int; v: int)/let/  u = f(0 fby v);/  v = x;/tel/
";

const SETUPS: &str = "\
p node main(x: int) returns (u: int; v: int) let u = x + (0 fby v); v = 10 + (0 fby u); tel
c protocol =
> check p c
3 config 1 NotToml/
c
> check p c
3 config 2 Missing: protocol/
c protocol = 'backpressure'/period = [9]/delay = [1, 4]/[nodes]/a = ['x', 'u']/b = ['v']/
> check p c
3 config 3 WrongKind: period/
c protocol = 'backpressure'/period = [9, 11]/delay = [1, 4]/colour = 1/[nodes]/a = ['x', 'u']/b = ['v']/
> check p c
3 config 4 UnknownKey: colour/
- a node that there is not, among the countdowns
c protocol = 'timebased'/period = [9, 11]/delay = [1, 4]/send = 3/execute = 4/[nodes]/a = ['x', 'u']/b = ['v']/[periods]/b = [20, 22]/[sends]/b = 2/c = 1/[executes]/b = 1/
> check p c
3 config 4 UnknownKey: c/
c protocol = 'backpressure'/period = [0, 11]/delay = [1, 4]/[nodes]/a = ['x', 'u']/b = ['v']/
> check p c
3 config 5 OutOfRange: period/
c protocol = 'backpressure'/period = [9, 11]/delay = [1, 4]/[nodes]/a = ['x', 'u']/b = ['v']/'a b' = []/
> check p c
3 config 6 BadName: a b/
";

const PLACEMENTS: &str = "\
p node main(x: int) returns (u: int; v: int) let u = x + (0 fby v); v = 10 + (0 fby u); tel
c protocol = 'backpressure'/period = [9, 11]/delay = [1, 4]/[nodes]/a = ['x']/b = ['v']/
> check p c
3 placement 1 Unplaced: u/
c protocol = 'backpressure'/period = [9, 11]/delay = [1, 4]/[nodes]/a = ['x', 'u']/b = ['v', 'u']/
> check p c
3 placement 2 PlacedTwice: u/
c protocol = 'backpressure'/period = [9, 11]/delay = [1, 4]/[nodes]/a = ['x', 'u', 'z']/b = ['v']/
> check p c
3 placement 3 UnknownName: z/
- a variable that reads another one at once, by itself and by a call
p node main(x: int) returns (u: int; v: int) let u = x; v = u + 1; tel
c protocol = 'backpressure'/period = [9, 11]/delay = [1, 4]/[nodes]/a = ['x', 'u']/b = ['v']/
> check p c
3 placement 4 DirectCross: v reads u/
p node f(a: int) returns (b: int) let b = a; tel node main(x: int) returns (u: int; v: int) let u = f(v); v = x; tel
c protocol = 'backpressure'/period = [9, 11]/delay = [1, 4]/[nodes]/a = ['x', 'v']/b = ['u']/
> check p c
3 placement 4 DirectCross: u reads v/
- a slow variable apart from its clock, and one that another node reads, whichever equation stands first
p node main(x: int; c: bool) returns (y, w: int when c) let y = x when c; w = 0 fby y; tel
c protocol = 'backpressure'/period = [9, 11]/delay = [1, 4]/[nodes]/a = ['x', 'y']/b = ['c', 'w']/
> check p c
3 placement 6 ClockElsewhere: y on c/
p node main(x: int; c: bool) returns (y, w: int when c) let w = 0 fby y; y = x when c; tel
> check p c
3 placement 5 SlowCross: w reads y/
";

const TIMINGS: &str = "\
p node main(x: int) returns (u: int; v: int) let u = x + (0 fby v); v = 10 + (0 fby u); tel
c protocol = 'timebased'/period = [10, 10]/delay = [5, 5]/send = 1000/execute = 2/[nodes]/a = ['x', 'u']/b = ['v']/
> check p c
3 timing 1 Execute: 20 is not above 20/
c protocol = 'timebased'/period = [9, 11]/delay = [1, 4]/send = 2/execute = 3/[nodes]/a = ['x', 'u']/b = ['v']/
> check p c
3 timing 2 Send: 46 is not above 48/
- the placement comes first
c protocol = 'timebased'/period = [9, 11]/delay = [1, 4]/send = 2/execute = 3/[nodes]/a = ['x']/b = ['v']/
> check p c
3 placement 1 Unplaced: u/
- nodes that differ
c protocol = 'timebased'/period = [9, 11]/delay = [1, 4]/send = 2/execute = 4/[nodes]/a = ['x', 'u']/b = ['v']/[periods]/b = [20, 22]/[sends]/b = 2/[executes]/b = 1/
> check p c
3 timing 2 Send at a: 55 is not above 59/
";

const PLANS: &str = "\
c protocol = 'backpressure'/period = [9, 11]/delay = [1, 4]/[nodes]/a = ['x', 'u']/b = ['v']/
> plan c
0 least execute 3/least send 3/timebased cycle 66/backpressure cycle 30/
> plan c --horizon 1000
0 least execute 3/least send 3/timebased cycle 66/backpressure cycle 30/timebased bound 15/backpressure bound 33/
> plan --horizon=1001 c
0 least execute 3/least send 3/timebased cycle 66/backpressure cycle 30/timebased bound 16/backpressure bound 34/
- nodes that differ
c protocol = 'timebased'/period = [9, 11]/delay = [1, 4]/send = 3/execute = 4/[nodes]/a = ['x', 'u']/b = ['v']/[periods]/b = [20, 22]/[sends]/b = 2/[executes]/b = 1/
> plan c --horizon 1000
0 a least execute 4/a least send 3/a timebased cycle 77/a backpressure cycle 52/b least execute 1/b least send 2/b timebased cycle 66/b backpressure cycle 52/a timebased bound 13/a backpressure bound 19/b timebased bound 15/b backpressure bound 19/
- no delays
c protocol = 'backpressure'/period = [9, 11]/[nodes]/a = ['x']/
> plan c
3 config 2 Missing: delay/
";

#[test]
fn setups(rt: HostRuntime) {
    holds(&rt, rt.alloc(), ACCEPTED);
    holds(&rt, rt.alloc(), SETUPS);
    holds(&rt, rt.alloc(), PLACEMENTS);
    holds(&rt, rt.alloc(), TIMINGS);
    holds(&rt, rt.alloc(), PLANS);
}

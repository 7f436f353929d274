// What is made of programs, from their checks to their streams.

use crate::script::holds;

const PROGRAMS: &str = "\
- main calls, where a clock variable is true, a function that calls one with a delay three times: each call has a copy of its own
p node s(a: int) returns (b: int) let b = a + (0 fby b); tel node t(a: int) returns (b: int) let b = s(a) + s(s(a)); tel node main(c: bool; x: int) returns (y: int) let y = merge c (t(x when c)) 1; tel
> whole origins
= [0, 1, 2, 2, 2, 2, 2, 2, 2, 2, 2]
> whole clocks
= [] [] [] [(0, true)] [(0, true)] [(0, true)] [(0, true)] [(0, true)] [(0, true)] [(0, true)] [(0, true)]
> whole sums
= 6 8 10
> ways
= false true
- a delay under merge, and one under when: each stands on the clock of its place
p node main(a: bool) returns (x: bool) var y: bool when x; z: bool when not x; let x = false fby (merge x (true fby y) z); y = (false fby a) when x; z = a when not x; tel
> flat origins
= [0, 1, 2, 3, 1, 2]
> flat clocks
= [] [] [(1, true)] [(1, false)] [(1, true)] []
> ways
= false true
- two ways to say what holds at first: a flag and a delay each
p node main(x: int) returns (y, z: int) let y = (x + 1) fby x; z = x -> 10 + (0 fby z); tel
> copy origins
= [0, 1, 2, 1, 1, 2, 2]
> copy types
= Int Int Int Bool Int Bool Int
> ways
= false true
- a delay that crosses from node a to node b
p node main(x: int) returns (u, v: int) let u = x; v = 0 fby u; tel
> layout nodes
= 2
> layout outputs
= [1, 2]
> layout crossings
= [Crossing { from: 0, to: 1, first: Int(0), var: 1, reader: 2 }]
> layout feeds
= [Input(0)] [Cross(0)]
> layout outs
= [1] [2]
> ways
= false true
- the sum of what came before
p node main(x: int) returns (y: int) let y = 0 fby (y + x); tel
> code 1 true, 2 true, 3 true
= 0; 1; 3;
> table 1 true, 2 true, 3 true
= 0; 1; 3;
- sums of what came before, and the highest value so far
p node main(x: int; c: bool) returns (y, z: int) let y = 0 fby (y + x); z = max(x, 0 fby z); tel
> code 2 true, 1 false, 5 true
= 0 2; 2 2; 3 5;
> table 2 true, 1 false, 5 true
= 0 2; 2 2; 3 5;
> ways
= false true
- a delay moves at the instants of its own clock
p node main(x: int; c: bool) returns (y, w: int when c) let y = x when c; w = 0 fby y; tel
> code 5 true, 6 false, 7 true
= 5 0; . .; 7 5;
> table 5 true, 6 false, 7 true
= 5 0; . .; 7 5;
> ways
= false true
- clocks, delays and calls
p node sum(a: int) returns (b: int) let b = a + (0 fby b); tel node main(a: int; b: bool) returns (c, d: int when b; e: int; f: int when b; g, h: int) let c = a when b; d = 0 fby c; e = sum(a); f = sum(c); g = (a + 1) fby a; h = a -> 10 + (0 fby h); tel
i instant,a,b/0,5,true/1,6,false/2,7,true/
> streams
= 5 6 7; true false true; 5 . 7; 0 . 5; 5 11 18; 5 . 12; 6 5 6; 5 15 25;
> outputs
= 5 . 7; 0 . 5; 5 11 18; 5 . 12; 6 5 6; 5 15 25;
> ways
= false true
";

#[test]
fn programs_on_their_way(rt: HostRuntime) {
    holds(&rt, rt.alloc(), PROGRAMS);
}

// Whether their machines take flat code: the one for few steps, and the one for enough of them.
const WAYS: &str = "\
- all operators on numbers
p node main(a, b: int) returns (s, t, u, v, w, x, y, z, n: int) let s = a + b; t = a - b; u = a * b; v = a div b; w = a mod b; x = min(a, b); y = max(a, b); z = gcd(a, b); n = -a; tel
> ways
= false true
- all comparisons, and all operators on truth values
p node main(a, b: int; c, d: bool) returns (e, f, g, h, i, j, k, l, m, n, o, p, q: bool) let e = a = b; f = a <> b; g = a < b; h = a <= b; i = a > b; j = a >= b; k = c and d; l = c or d; m = c xor d; n = c => d; o = not c; p = c = d; q = c <> d; tel
> ways
= false true
- clocks on clocks, choices and literals
p node main(x: int; c, d: bool) returns (y: int when c; z, u, v: int; e: bool when c; w: int when c when e) let y = x when c; e = d when c; w = (y when e) + 1; z = merge c (merge e (w + 1) (-1)) (if (x when not c) > 3 then 2 else 4); u = 7; v = x; tel
> ways
= false true
- a push button that is debounced
p node debounced(raw: bool) returns (stable: bool) var same: int; let same = 1 -> if raw = (raw fby raw) then min(3, 1 + (1 fby same)) else 1; stable = if same >= 3 then raw else false fby stable; tel node main(raw: bool) returns (pressed: bool; light: bool; stuck: bool; times: int when edge) var edge: bool; length: int when pressed; longest: int; let pressed = debounced(raw); edge = pressed and not (false fby pressed); times = 1 fby (times + 1); length = if edge when pressed then 1 else 1 + (0 fby length); longest = merge pressed length 0; stuck = longest > 8; light = ((false fby light) xor edge) and not stuck; tel
> ways
= false true
- a counter
p node main(x: int) returns (y: int) let y = 0 fby (y + x); tel
> ways
= false true
- a level crossing
p node to_int(b: bool) returns (n: int) let n = if b then 1 else 0; tel node since(b: bool; most: int) returns (n: int) let n = if b then min(most, 1 + (0 fby n)) else 0; tel node main(enter: bool; leave: bool; closed: bool) returns (close: bool; lamp: bool; alarm: bool; trains: int) var busy: bool; late: int; flash: bool; fault: bool; on: bool when flash; let trains = max(0, (0 fby trains) + to_int(enter) - to_int(leave)); busy = trains > 0; close = false fby busy; late = since(close and not closed, 4); alarm = late > 3 or (false fby alarm) and close and not closed; flash = false fby close; fault = false fby alarm; on = true fby not on; lamp = (merge flash on false) or fault; tel
> ways
= false true
- cruise control
p node limit(v: int) returns (r: int) let r = max(0, min(v, 100)); tel node main(speed: int; button: bool) returns (on: bool; gap: int when act; throttle: int) var was: bool; act: bool; seen: int; target: int when act; cmd: int; let was = false fby button; on = (false fby on) xor (button and not was); act = false fby on; seen = 0 fby speed; target = 60; gap = target - (seen when act); cmd = merge act (limit(gap + (0 fby gap))) 0; throttle = 0 fby cmd; tel
> ways
= false true
- a press with two buttons
p node held(button: bool) returns (n: int) let n = if button then 1 + (0 fby n) else 0; tel node main(left: bool; right: bool) returns (down: bool; late: bool; strokes: int) var l: int; r: int; l_seen: int; r_seen: int; both: bool; close: bool; meet: bool; free: bool; begin: bool; count: int when begin; let l = held(left); r = held(right); l_seen = 0 fby l; r_seen = 0 fby r; both = l_seen > 0 and r_seen > 0; close = max(l_seen, r_seen) - min(l_seen, r_seen) <= 2; meet = both and not (false fby both); free = l_seen = 0 and r_seen = 0 or (true fby free) and not (false fby meet); begin = meet and close and free; late = meet and not close; down = begin or (false fby down) and both; count = 1 -> 1 + (0 fby count); strokes = merge begin count ((0 fby strokes) when not begin); tel
> ways
= false true
- a tank
p node third() returns (tick: bool) var phase: int; let phase = 0 fby (phase + 1) mod 3; tick = phase = 0; tel node between(x: int; low: int; high: int) returns (on: bool) let on = if x < low then true else if x > high then false else false fby on; tel node main(level: int; reset: bool) returns (valve: bool; mean: int when tick; alarm: bool; shown: int; lamp: bool) var tick: bool; smooth: int; open: bool when tick; far: bool when tick; twice: bool when tick; let tick = third(); smooth = (level + (level fby level)) div 2; mean = smooth when tick; open = between(mean, 300, 700); valve = merge tick open ((false fby valve) when not tick); far = mean > 900 or mean < 100; twice = far and (false fby far); alarm = (merge tick twice false) or (false -> (false fby alarm) and not reset); shown = 0 fby smooth; lamp = false fby alarm; tel
> ways
= false true
- a voter of three sensors
p node middle(a: int; b: int; c: int) returns (m: int) let m = max(min(a, b), min(max(a, b), c)); tel node distance(a: int; b: int) returns (d: int) let d = max(a, b) - min(a, b); tel node main(a: int; b: int; c: int) returns (value: int; alarm: bool; suspect: int when alarm; faults: int) var x: int; y: int; z: int; apart: bool; run: int; dx: int when alarm; dy: int when alarm; dz: int when alarm; let x = 20 fby a; y = 20 fby b; z = 20 fby c; value = middle(x, y, z); apart = max(x, max(y, z)) - min(x, min(y, z)) > 10; run = if apart then 1 + (0 fby run) else 0; alarm = run >= 3; dx = distance(x when alarm, value when alarm); dy = distance(y when alarm, value when alarm); dz = distance(z when alarm, value when alarm); suspect = if dx >= dy and dx >= dz then 1 else if dy >= dz then 2 else 3; faults = (0 fby faults) + (if alarm and not (false fby alarm) then 1 else 0); tel
> ways
= false true
";

#[test]
fn machines_take_flat_code(rt: HostRuntime) {
    holds(&rt, rt.alloc(), WAYS);
}

// Programs that are checked.

use crate::script::holds;

const PRINTED: &str = "\
> check p
0 node main(x: int) returns (y: int)/let/  y = 0 fby y + x;/tel/
p node main(x: int) returns (y: int) let y = (-5) fby x -> x; tel
> check p
0 node main(x: int) returns (y: int)/let/  y = (-5) fby x -> x;/tel/
p node main(x: int) returns (y: int) let y = -5 fby x; tel
> check p
0 node main(x: int) returns (y: int)/let/  y = -5 fby x;/tel/
p node main(x: int) returns (y: int) let y = if (x < 1) then ((x)) else 0 fby (y + 2); tel
> check p
0 node main(x: int) returns (y: int)/let/  y = if x < 1 then x else 0 fby y + 2;/tel/
";

const REFUSED: &str = "\
- the text ends too early
p node main(x: int) returns (y: int) let y = 0 fby (y + x);
> check p
2 syntax 3 Unexpected at byte 57/
p node main(x: int) returns (y: int) let y = x x; tel
> check p
2 syntax 3 Unexpected at byte 45/
p node main(x, x: int) returns (y: int) let y = x; tel
> check p
2 name 1 Twice in node main: x/
p node main(x: int) returns (y: int) let y = z; tel
> check p
2 name 2 Unknown in node main: z/
p node main(x: int) returns (y: int) let tel
> check p
2 name 3 NoEquation in node main: y/
p node main(x: int) returns (y: int) let y = x; y = x; tel
> check p
2 name 4 TwoEquations in node main: y/
p node main(x: int) returns (y: int) let y = x; x = y; tel
> check p
2 name 5 EquationForInput in node main: x/
p node f(x: int) returns (y: int) let y = x; tel
> check p
2 name 6 NoMain/
p node f(a: int) returns (b: int) let b = a; tel node main(x: int) returns (y: int) let y = f(x, x); tel
> check p
2 name 7 WrongCount in node main: f/
p node f(a: int) returns (b, c: int) let b = a; c = a; tel node main(x: int) returns (y: int) let y = f(x); tel
> check p
2 name 8 NotOneOutput in node main: f/
p node f(a: int) returns (b: int) let b = f(a); tel node main(x: int) returns (y: int) let y = x; tel
> check p
2 name 9 Recursive in node f: f/
p node main(x: int) returns (y: int) let y = x < 1; tel
> check p
2 type in node main: y is int, found bool/
p node main(x: int; c: bool) returns (y: int) let y = x when c; tel
> check p
2 clock in node main: equation 1 of y on base/
p node main(x: int) returns (y: int) let y = y + x; tel
> check p
2 cycle in node main: y/
p node main(x: int) returns (y: int; z: int) let y = z + x; z = y; tel
> check p
2 cycle in node main: y z/
p node main(x: int) returns (y: int) let y = y -> x; tel
> check p
2 cycle in node main: y/
";

#[test]
fn programs(rt: HostRuntime) {
    holds(&rt, rt.alloc(), PRINTED);
    holds(&rt, rt.alloc(), REFUSED);
}

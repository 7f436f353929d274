// What is answered of texts, programs and graphs.

use crate::script::holds;

const TEXTS: &str = "\
- keywords and symbols
> token node
= node 4
> token returns
= returns 7
> token var
= var 3
> token let
= let 3
> token tel
= tel 3
> token int
= int 3
> token bool
= bool 4
> token true
= true 4
> token false
= false 5
> token if
= if 2
> token then
= then 4
> token else
= else 4
> token not
= not 3
> token and
= and 3
> token or
= or 2
> token xor
= xor 3
> token div
= div 3
> token mod
= mod 3
> token fby
= fby 3
> token when
= when 4
> token merge
= merge 5
> token (
= ( 1
> token )
= ) 1
> token ,
= , 1
> token ;
= ; 1
> token :
= : 1
> token =
= = 1
> token <>
= <> 2
> token <
= < 1
> token <=
= <= 2
> token >
= > 1
> token >=
= >= 2
> token =>
= => 2
> token +
= + 1
> token *
= * 1
> token -
= - 1
> token ->
= -> 2
- the longest token comes first
> token
= the end
> token nodes
= a name 5
> token node_
= a name 5
> token if0+1
= a name 3
> token Node
= a name 4
> token _
= a name 1
> token min(x)
= a name 3
> token < =
= < 1
> token <=>
= <= 2
> token >>=
= > 1
> token ==>
= = 1
> token ->-
= -> 2
> token 007x
= a number 3
> token 9223372036854775807
= a number 19
> token 9223372036854775808
= a bad number
> token &x
= a bad byte
> token \u{2013}
= a bad byte
> token \u{e9}t\u{e9}
= a bad byte
- what tokens hold
> held 0
= 0
> held 0070\u{20}
= 70
> held 9223372036854775807
= 9223372036854775807
> held Speed_2+x
= Speed_2
- blanks and comments
> rest x -- y
= \"x -- y\"
> rest  \t\r/x
= \"x\"
> rest -- a/--/ -x
= \"-x\"
> rest -- a\rx
= \"\"
> rest --
= \"\"
> rest - -
= \"- -\"
> rest ->
= \"->\"
- heights
> tree node main(x: int) returns (y: int) let y = {199*(}x{199*)}; tel
= 1
> tree node main(x: int) returns (y: int) let y = {200*(}x{200*)}; tel
= 242 TooDeep
> tree node main(x: int) returns (y: int) let y = {199*x + }x; tel
= 1
> tree node main(x: int) returns (y: int) let y = {200*x + }x; tel
= 841 TooDeep
> tree node main(x: int) returns (y: int) let y = {199*not }x; tel
= 1
- programs and faults
> tree node main(x: int) returns (y: int) let y = 0 fby (y + x); tel
= 1
> tree node main(x: int; c: bool) returns (y, w: int when c) let y = x when c; w = 0 fby y; tel
= 1
> tree node f(a: int) returns (b: int) let b = a; tel node main(x: int) returns (y: int); var z: bool when not c when x; let y = (-5) fby x -> merge c (f(x, max(y))) 0; z = if not a = b => c then true else -y mod 2 <> 3; tel; -- end
= 2
> tree node main(x: int) returns (y: int) let y = 0 fby (y + x);
= 57 Unexpected
> tree node main(x: int) returns (y: int) let y = x x; tel
= 45 Unexpected
> tree node main(x: int) returns (y: int) let y = x # x; tel
= 45 BadByte
> tree node main(x: int) returns (y: int) let y = 9223372036854775808; tel
= 43 BadNumber
> tree node main(x: int when c) returns (y: int) let tel
= 17 Unexpected
> tree node main() returns (y: int) let y = a < b < c; tel
= 43 Unexpected
> tree
= 0 Unexpected
- canonical texts
> canonical node main(x: int) returns (y: int) let y = if (x < 1) then ((x)) else 0 fby (y + 2); tel
= \"node main(x: int) returns (y: int)/let/  y = if x < 1 then x else 0 fby y + 2;/tel/\"
> canonical node main(x: int) returns (y: int) let y = (-5) fby x -> x; z = -5 fby x; tel
= \"node main(x: int) returns (y: int)/let/  y = (-5) fby x -> x;/  z = -5 fby x;/tel/\"
> canonical node f() returns (a, b: bool when not c when d) var e: int; let a = merge c (f(007, not true)) (-g); tel
= \"node f() returns (a: bool when not c when d; b: bool when not c when d)/var/  e: int;/let/  a = merge c (f(7, not true)) (-g);/tel/\"
- a cruise controller; its canonical text is without the line before `returns` and two pairs of parentheses: `and` binds tighter than `xor`, and `when` than `-`
> canonical node limit(v: int) returns (r: int)/let/  r = max(0, min(v, 100));/tel/node main(speed: int; button: bool)/returns (on: bool; gap: int when act; throttle: int)/var/  was: bool;/  act: bool;/  seen: int;/  target: int when act;/  cmd: int;/let/  was = false fby button;/  on = (false fby on) xor (button and not was);/  act = false fby on;/  seen = 0 fby speed;/  target = 60;/  gap = target - (seen when act);/  cmd = merge act (limit(gap + (0 fby gap))) 0;/  throttle = 0 fby cmd;/tel/
= \"node limit(v: int) returns (r: int)/let/  r = max(0, min(v, 100));/tel/node main(speed: int; button: bool) returns (on: bool; gap: int when act; throttle: int)/var/  was: bool;/  act: bool;/  seen: int;/  target: int when act;/  cmd: int;/let/  was = false fby button;/  on = (false fby on) xor button and not was;/  act = false fby on;/  seen = 0 fby speed;/  target = 60;/  gap = target - seen when act;/  cmd = merge act (limit(gap + (0 fby gap))) 0;/  throttle = 0 fby cmd;/tel/\"
";

const PROGRAMS: &str = "\
- names and calls
> names node main(x: int) returns (y: int) let y = 0 fby (y + x); tel
= a program
> names node main(x, x: int) returns (y: int) let y = x; tel
= Twice 0 x
> names node main(x: int) returns (y: int) let y = z; tel
= Unknown 0 z
> names node main(x: int) returns (y: int when c) let y = f(z); tel
= Unknown 0 c
> names node main(x: int) returns (y: int) let y = f(z); tel
= Unknown 0 f
> names node main(x: int) returns (y: int) let tel
= NoEquation 0 y
> names node main(x: int) returns (y: int) let y = x; y = x; tel
= TwoEquations 0 y
> names node main(x: int) returns (y: int) let y = x; x = y; x = y; tel
= TwoEquations 0 x
> names node main(x: int) returns (y: int) let y = x; x = y; tel
= EquationForInput 0 x
> names node f(x: int) returns (y: int) let y = x; tel
= NoMain 0 main
> names node main(x: int) returns (y: int) let y = min(x); tel
= WrongCount 0 min
> names node main(x: int) returns (y: int) let y = min(x, 1); tel
= a program
> names node f(a: int) returns (b: int) let b = a; tel node main(x: int) returns (y: int) let y = f(x, x); tel
= WrongCount 1 f
> names node f(a: int) returns (b, c: int) let b = a; c = a; tel node main(x: int) returns (y: int) let y = f(x); tel
= NotOneOutput 1 f
> names node f(a: int) returns (b: int) let b = f(a); tel node main(x: int) returns (y: int) let y = x; tel
= Recursive 0 f
> names node main(x: int) returns (y: int) let y = f(x); tel node f(a: int) returns (b: int) let b = g(a); tel node g(a: int) returns (b: int) let b = f(a); tel
= Recursive 1 g
> names node min(a: int) returns (b: int) let b = a; tel node main(x: int) returns (y: int) let y = min(x); tel
= a program
> names node f(a: int) returns (b: int) let b = a; tel node f(a: int) returns (b: int) let b = a; tel
= Twice 1 f
- limits on what a text declares
> names {63*node f#(a: int) returns (b: int) let b = a; tel }node main(x: int) returns (y: int) let y = x; tel
= a program
> names node main(x{63*, x#}: int) returns (y: int) let y = x; tel
= a program
> names node main() returns (y{63*, x#}: int) let y = 1;{63* x# = 1;} tel
= a program
> names {64*node f#(a: int) returns (b: int) let b = a; tel }node main(x: int) returns (y: int) let y = x; tel
= Limit 0 functions
> names node main(x{64*, x#}: int) returns (y: int) let y = x; tel
= Limit 0 inputs
> names node main() returns (y{64*, x#}: int) let y = 1;{64* x# = 1;} tel
= Limit 0 outputs
- x, y, v and as many more variables, with their delays
> names node main(x: int) returns (y: int) var v{4093*, v#}: int; let y = 0 fby x; v = x;{4093* v# = x;} tel
= Limit 0 variables
> names node main(x: int) returns (y: int) var v{4093*, v#}: int; let y = x; v = x;{4093* v# = x;} tel
= a program
> names node main(x: int) returns (y: int) var v{2045*, v#}: int; let y = x fby (0 fby x); v = x;{2045* v# = 0 fby x;} tel
= a program
> names node main(x: int) returns (y: int) var v{2045*, v#}: int; let y = x fby (x fby x); v = x;{2045* v# = 0 fby x;} tel
= Limit 0 variables
- orders and cycles
> order node main(x: int) returns (y, z: int) let y = z + x; z = y; tel
= cycle [1, 2]
> order node main(x: int) returns (y, z: int) let y = y + x; z = x; tel
= cycle [1]
> order node main(x: int) returns (y, z: int) let y = y -> x; z = y; tel
= cycle [1]
> order node main(x: int) returns (y, z: int) let y = z + x; z = 0 fby y; tel
= order [1, 0]
- faults of types
> types node main(x: int; c: bool) returns (y: int) let y = x < 1; tel
= Err(TypeFault { func: 0, var: 2, want: Int, got: Some(Bool) })
> types node f(x: int) returns (y: int) let y = x; tel node main(x: int; c: bool) returns (y: int when x) let y = x when x; tel
= Err(TypeFault { func: 1, var: 2, want: Bool, got: Some(Int) })
> types node main(x: int; c: bool) returns (y: int when c) let y = x when c; tel
= Ok(())
- faults of clocks
> clocks node main(x: int; c: bool) returns (y: int) let y = x when c; tel
= 2 0 Some(0)
> clocks node main(x: int; c: bool) returns (y: int when c) let y = x when c; tel
= no fault
- c is on the base clock, and not on x
> clocks node main(x: bool; c: bool) returns (y: bool when x when c) let y = x when c; tel
= 2 2 None
- types and clocks together: no fault, one of a type, one of a right side's clock, and one of a declared clock
> fits node main(x: int; c: bool) returns (y: int when c) let y = x when c; tel
= true
> fits node main(x: int; c: bool) returns (y: int) let y = x < 1; tel
= false
> fits node main(x: int; c: bool) returns (y: int) let y = x when c; tel
= false
> fits node main(x: bool; c: bool) returns (y: bool when x when c) let y = x when c; tel
= false
- sizes, and copies of programs and functions
- one delay for `0 fby`, one for `->` and two for the other `fby`; the 0 is no part
> sizes node main(x: int) returns (y: int) let y = (x -> 0 fby x) fby x; tel
= Sizes { weight: 6, parts: 6 }
> copies node f(a: int) returns (b: int) let b = 0 fby a; tel node main(a: int) returns (b: int) let b = f(a) + f(a); tel
= 2 Sizes { weight: 8, parts: 9 }
- every form once; `fby` behind an expression and `->` are two delays and one
> copies node main(a: int; c: bool) returns (b: int) var d: int when c; let b = a -> (a fby (if not c then max(a, 1) else -a)); d = (merge c (a when c) 1) when c; tel
= 1 Sizes { weight: 7, parts: 17 }
- functions of which each calls the one before it twice, so that the sizes double
> copies node f0(a: int) returns (b: int) let b = 0 fby a; tel {62*node f@(a: int) returns (b: int) let b = f#(a) + f#(a); tel }node main(a: int) returns (b: int) let b = f62(a); tel
= 64 Sizes { weight: 18446744073709551615, parts: 18446744073709551615 }
- closed walks, and components
- 0 -> 1 -> 2 -> 0, and out to 3
> circular 2>3 0>1 1>2 2>0
= Some(1)
- two ways from 0 to 3, and back from none
> circular 0>1 0>2 1>3 2>3
= None
- a node that leads to itself, behind one that only leads there
> circular 0>1 1>1
= Some(1)
- two rings, and an edge between them on neither
> circular 1>2 0>1 1>0 2>3 3>2
= Some(1)
- the components of 0 -> 1 -> 0, and on to 2
> ring
= [1, 2, 0] Some(0) Some(0) Some(2)
- what grows
> grown clock
= [(3, true)]
> grown list
= [1, 2, 3]
> grown bytes
= [97, 98]
> grown table
= Int(7)
";

#[test]
fn texts_and_tokens(rt: HostRuntime) {
    holds(&rt, rt.alloc(), TEXTS);
}

#[test]
fn programs_and_graphs(rt: HostRuntime) {
    holds(&rt, rt.alloc(), PROGRAMS);
}

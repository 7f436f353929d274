// What is answered of files, and of what they hold.

use crate::script::holds;

const TEXTS: &str = "\
- first faults of setups
> fault protocol =
= NotToml \"\"
> fault protocol = 7/
= Missing \"period\"
> fault protocol = 'timebased'/period = [9, 11]/delay = [1, 4]/execute = 3/sends = {a = 1, b = 1}/nodes = {a = [], b = []}/
= Missing \"send\"
> fault protocol = 'backpressure'/period = [0, 11]/delay = true/nodes = {a = []}/
= WrongKind \"delay\"
> fault zz = 1/Zz = 1/protocol = 'ring'/period = [0, 11]/delay = [1, 4]/nodes = {a = [], b = []}/
= UnknownKey \"Zz\"
> fault protocol = 'backpressure'/period = [9, 11]/delay = [1, 4]/nodes = {a = [], b = []}/delays = {'a>b' = [1, 2], 'a>a' = [1, 2]}/
= UnknownKey \"a>a\"
> fault protocol = 'backpressure'/period = [9, 1000000001]/delay = [1, 4]/nodes = {a = []}/
= OutOfRange \"period\"
> fault protocol = 'backpressure'/period = [9, 11]/delay = [1, 4]/nodes = {}/
= OutOfRange \"nodes\"
> fault protocol = 'backpressure'/period = [9, 11]/delay = [1, 4]/nodes = {'b-' = [], 'a-' = []}/
= BadName \"a-\"
> fault protocol = 'leader'/period = [9, 11]/delay = [1, 4]/send = 5/execute = 3/nodes = {a = []}/
= Missing \"leader\"
> fault protocol = 'backpressure'/period = [9, 11]/delay = [1, 4]/leader = 1/nodes = {a = []}/
= WrongKind \"leader\"
> fault protocol = 'backpressure'/period = [9, 11]/delay = [1, 4]/leader = 'c'/nodes = {a = []}/sends = {a = 0}/
= OutOfRange \"leader\"
> fault protocol = 'lossy'/period = [9, 11]/delay = [1, 4]/leader = 'a'/nodes = {a = []}/
= Missing \"losses\"
> fault protocol = 'backpressure'/period = [9, 11]/delay = [1, 4]/losses = 1001/leader = 'c'/nodes = {a = []}/
= OutOfRange \"losses\"
- good setups: of each node the times between its activations and its countdowns, the delays, and the greatest of both
> setup protocol = 'timebased'/period = [9, 11]/delay = [1, 4]/send = 3/execute = 4/nodes = {a = ['x', 'u'], b = ['v']}/periods = {b = [20, 22]}/sends = {b = 2}/executes = {b = 1}/
= [9, 11, 3, 4] [20, 22, 2, 1] [1, 4, 1, 4] (4, 22) TimeBased true Plain
> setup protocol = 'leader'/leader = 'b'/period = [9, 11]/delay = [1, 4]/send = 5/execute = 3/nodes = {a = ['x', 'u'], b = ['v']}/sends = {a = 7}/
= [9, 11, 4000000000000000000, 3] [9, 11, 5, 3] [1, 4, 1, 4] (4, 11) TimeBased true Leader(1)
> setup protocol = 'lossy'/losses = 1000/period = [9, 11]/delay = [1, 4]/nodes = {a = ['x', 'u'], b = ['v']}/
= [9, 11, 1, 1] [9, 11, 1, 1] [1, 4, 1, 4] (4, 11) BackPressure false Lossy(1000)
> lead protocol = 'leader'/leader = 'b'/period = [9, 11]/delay = [1, 4]/send = 5/execute = 3/nodes = {a = ['x', 'u'], b = ['v']}/sends = {a = 7}/
= 12 12
> follow protocol = 'leader'/leader = 'a'/period = [9, 11]/delay = [1, 4]/send = 5/execute = 3/nodes = {a = ['x', 'u'], b = ['v']}/
= 12 12
> plain
= all (1000, 1)
- worked plans
> plan protocol = 'backpressure'/period = [9, 11]/delay = [1, 4]/nodes = {a = ['x', 'u'], b = ['v']}/
= \"least execute 3/least send 3/timebased cycle 66/backpressure cycle 30/\"
> plan protocol = 'lossy'/losses = 2/period = [9, 11]/delay = [1, 4]/nodes = {a = ['x', 'u'], b = ['v']}/
= \"least execute 3/least send 3/timebased cycle 66/backpressure cycle 30/\"
> plan-1000 protocol = 'backpressure'/period = [9, 11]/delay = [1, 4]/nodes = {a = ['x', 'u'], b = ['v']}/
= \"least execute 3/least send 3/timebased cycle 66/backpressure cycle 30/timebased bound 15/backpressure bound 33/\"
> plan-1000 protocol = 'timebased'/period = [9, 11]/delay = [1, 4]/send = 3/execute = 4/nodes = {a = ['x', 'u'], b = ['v']}/periods = {b = [20, 22]}/sends = {b = 2}/executes = {b = 1}/
= \"a least execute 4/a least send 3/a timebased cycle 77/a backpressure cycle 52/b least execute 1/b least send 2/b timebased cycle 66/b backpressure cycle 52/a timebased bound 13/a backpressure bound 19/b timebased bound 15/b backpressure bound 19/\"
- the first check that fails refuses
> program node main(x: int) returns (y: int) let y = 0 fby (y + x); tel
= \"\"
> program node main(x: int) returns (y: int) let y = x x; tel
= \"syntax 3 Unexpected at byte 45\"
> program node main(x: int) returns (y: int) let y = z + (x < 1); tel
= \"name 2 Unknown in node main: z\"
> program node f(x: int) returns (y: int) let y = x; tel
= \"name 6 NoMain\"
> program node main(x: int) returns (y: int) let y = x < 1; tel
= \"type in node main: y is int, found bool\"
> program node main(x: int) returns (y: int) let y = y + (x < 1); tel
= \"type in node main: y is int, found no type\"
> program node main(x: int; c: bool) returns (y: int) let y = y + (x when c); tel
= \"clock in node main: equation 1 of y on base\"
> program node main(x: int; c, d: bool) returns (y: int when c; z: int when c when not e) var e: bool when c; let y = 1; e = d when c; z = x when c; tel
= \"clock in node main: equation 3 of z on base on c on not e\"
> program node main(x: int; d: bool) returns (y: int when c) var c: bool when d; let c = true; y = 1; tel
= \"clock in node main: declaration of y on base on c\"
> program node f(x: int) returns (y: int) let y = x; tel node main(x: int) returns (y: int) var a, b: int; let y = f(x); b = a + x; a = b; tel
= \"cycle in node main: a b\"
- a flat form has copies and inner delays, also when it is made again
> flat node main(x: int) returns (y: int) let y = f(x); tel node f(x: int) returns (y: int) let y = x + (0 fby y); tel
= 5 5
";

const FILES: &str = "\
- inputs of x: int and c: bool, in one row
- blank lines are no rows, and no line feed stands at the end
> inputs //instant,x,c^/^/000,-007,false
= Int(-7) Bool(false)
- a byte order mark, and quotes
> inputs \u{feff}\"instant\",\"x\",c/\"0\",\"42\",\"true\"/
= Int(42) Bool(true)
> inputs instant,x,c/0,-9223372036854775808,true/
= Int(-9223372036854775808) Bool(true)
- faults of inputs
> inputs
= 0 Header
> inputs instant,c,x/
= 0 Header
> inputs instant,x,c/0,1,true/1,1/
= 2 NotCsv
- no text, also where the instant is another
> inputs instant,x,c/5,~(,true/
= 1 NotCsv
> inputs instant,x,c/0,1,true/0,1,true/
= 2 Instant
> inputs instant,x,c/0,9223372036854775808,true/
= 1 Value
- no piece is read too early
> far x 1
= (0, Some(Read))
> far x 2
= (0, Some(Read))
- the first piece shows that the second row is too long
> far x 3
= (1, Some(TooLong))
- the last row is in the second piece, and the third one is the end
> far / 3
= (1, Some(Read))
> far / 4
= (2, Some(Read))
> far / 0
= (2, None)
> first /^/first^/second
= \"first^\"
- rows are read and written
> event 007,act,b^
= Act(1, 7) \"7,act,b/\"
> event 12,data,a>b
= Del(0, 12) \"12,data,a>b/\"
> event 1000000000000000,end,
= End(1000000000000000) \"1000000000000000,end,/\"
> event 1000000000000001,end,
= Time
> event 0,ack,a>b
= UnknownPlace
> event 0,end,,
= NotCsv
> header time,event,place^
= Ok(())
> event 10,act,b
= Act(1, 10) \"10,act,b/\"
> event 3,ack,b>a
= Del(1, 3) \"3,ack,b>a/\"
- lines of words: the command with its texts, in order and empty where one is left out, and its numbers
> words check p
= check [\"p\", \"\", \"\", \"\", \"\"] [0, 0]
> words check p c
= check [\"p\", \"c\", \"\", \"\", \"\"] [0, 0]
> words meaning p i
= meaning [\"p\", \"i\", \"\", \"\", \"\"] [0, 0]
> words run p i s
= run [\"p\", \"i\", \"s\", \"\", \"\"] [0, 0]
> words run p i s c
= run [\"p\", \"i\", \"s\", \"c\", \"\"] [0, 0]
> words plan c
= plan [\"c\", \"\", \"\", \"\", \"\"] [0, 0]
> words plan c --horizon +7
= plan [\"c\", \"\", \"\", \"\", \"\"] [7, 0]
> words plan --horizon=1000000000000000 -- -c
= plan [\"-c\", \"\", \"\", \"\", \"\"] [1000000000000000, 0]
> words check help
= check [\"help\", \"\", \"\", \"\", \"\"] [0, 0]
> words sim p i c --seed 18446744073709551615 --horizon=1000000000000000
= sim [\"p\", \"i\", \"c\", \"\", \"\"] [18446744073709551615, 1000000000000000]
> words sim --horizon 0 p i --seed=+5 c
= sim [\"p\", \"i\", \"c\", \"\", \"\"] [5, 0]
> words big 1
= big [\"\", \"\", \"\", \"\", \"\"] [1, 0]
> words big 100000
= big [\"\", \"\", \"\", \"\", \"\"] [100000, 0]
> words watch p i s o
= watch [\"p\", \"i\", \"s\", \"o\", \"\"] [0, 0]
> words watch p i s o c
= watch [\"p\", \"i\", \"s\", \"o\", \"c\"] [0, 0]
> words audit p i s c
= audit [\"p\", \"i\", \"s\", \"c\", \"\"] [0, 0]
> words trace p i s c
= trace [\"p\", \"i\", \"s\", \"c\", \"\"] [0, 1000000000000000]
> words trace --from 3 --node b p i s c --to 4
= trace [\"p\", \"i\", \"s\", \"c\", \"b\"] [3, 4]
- lines that are refused
> words
= refused
> words help
= refused
> words check
= refused
> words check --help
= refused
> words run p i s c x
= refused
> words plan c --horizon 1000000000000001
= refused
> words plan c --horizon 1 --horizon 2
= refused
> words sim p i c --horizon 1
= refused
> words sim p i c --seed 18446744073709551616 --horizon 1
= refused
> words sim p i c --seed -1 --horizon 1
= refused
> words big
= refused
> words big 0
= refused
> words big 100001
= refused
> words big 1 2
= refused
> words watch p i s
= refused
> words audit p i s
= refused
> words trace p i s c --to 1000000000000001
= refused
> words trace p i s c --node
= refused
- files: two of one name, of which the first is read; the numbers of the call that fails, and the limit
> file 0 5
= \"first\"
> file 0 4
= \"too long\"
> file 1 5
= \"failed\"
> file 3 5
= \"failed\"
> file 4 5
= \"first\"
> file repeated
= \"on/on/on/on/\"
- sinks, of which a call fails or the room is little
> sink 0
= Ok(()) \"one two\"
> sink 2
= Err(Failed) \"one \"
> sink room
= Err(Failed) \"one tw\"
- fabrics, of which a call fails, no memory is found or what is carried changes
> fabric 0
= Ok([([Int(5), Bool(true)], true), ([Int(9223372036854775807), Bool(false)], false)])
> fabric 1
= Err(Failed)
> fabric 3
= Err(Failed)
> fabric 5
= Err(Failed)
> fabric 6
= Ok([([Int(5), Bool(true)], true), ([Int(9223372036854775807), Bool(false)], false)])
> fabric tight
= Err(Memory)
> fabric flip
= Ok([([Int(6), Bool(false)], true), ([Int(-9223372036854775808), Bool(true)], false)])
";

const LIMIT: &str = "\
- empty lines end at the limit
> same at
= (0, None)
> same past
= (0, Some(Bytes))
- rows end at the limit too: the last one that is given ends exactly there
> same rows
= (262144, Some(Bytes))
";

#[test]
fn setups_and_programs(rt: HostRuntime) {
    holds(&rt, rt.alloc(), TEXTS);
}

#[test]
fn files_and_words(rt: HostRuntime) {
    holds(&rt, rt.alloc(), FILES);
}

// Each reads a thousand million bytes.
#[test]
fn a_file_ends_at_the_limit(rt: HostRuntime) {
    holds(&rt, rt.alloc(), LIMIT);
}

// What is refused first, and schedules that are refused.

use crate::script::holds;

const WORDS: &str = "\
- thirteen words
> trace p i s c --node all --from 0 --to 9 c c
1 words: usage: ltta check P [C] | meaning P I | run P I S [C] | plan C [--horizon H] | sim P I C --seed N --horizon H | big N | watch P I S O [C] | audit P I S C | trace P I S C [--node NAME] [--from T] [--to T]/
> run p i
1 words: usage: ltta check P [C] | meaning P I | run P I S [C] | plan C [--horizon H] | sim P I C --seed N --horizon H | big N | watch P I S O [C] | audit P I S C | trace P I S C [--node NAME] [--from T] [--to T]/
> check p c c
1 words: usage: ltta check P [C] | meaning P I | run P I S [C] | plan C [--horizon H] | sim P I C --seed N --horizon H | big N | watch P I S O [C] | audit P I S C | trace P I S C [--node NAME] [--from T] [--to T]/
> meaning p
1 words: usage: ltta check P [C] | meaning P I | run P I S [C] | plan C [--horizon H] | sim P I C --seed N --horizon H | big N | watch P I S O [C] | audit P I S C | trace P I S C [--node NAME] [--from T] [--to T]/
> run p i s c c
1 words: usage: ltta check P [C] | meaning P I | run P I S [C] | plan C [--horizon H] | sim P I C --seed N --horizon H | big N | watch P I S O [C] | audit P I S C | trace P I S C [--node NAME] [--from T] [--to T]/
> plan
1 words: usage: ltta check P [C] | meaning P I | run P I S [C] | plan C [--horizon H] | sim P I C --seed N --horizon H | big N | watch P I S O [C] | audit P I S C | trace P I S C [--node NAME] [--from T] [--to T]/
> plan c --horizon -1
1 words: usage: ltta check P [C] | meaning P I | run P I S [C] | plan C [--horizon H] | sim P I C --seed N --horizon H | big N | watch P I S O [C] | audit P I S C | trace P I S C [--node NAME] [--from T] [--to T]/
> sim p i c --seed 0
1 words: usage: ltta check P [C] | meaning P I | run P I S [C] | plan C [--horizon H] | sim P I C --seed N --horizon H | big N | watch P I S O [C] | audit P I S C | trace P I S C [--node NAME] [--from T] [--to T]/
> sim p i c --seed 18446744073709551616 --horizon 7
1 words: usage: ltta check P [C] | meaning P I | run P I S [C] | plan C [--horizon H] | sim P I C --seed N --horizon H | big N | watch P I S O [C] | audit P I S C | trace P I S C [--node NAME] [--from T] [--to T]/
> big 0
1 words: usage: ltta check P [C] | meaning P I | run P I S [C] | plan C [--horizon H] | sim P I C --seed N --horizon H | big N | watch P I S O [C] | audit P I S C | trace P I S C [--node NAME] [--from T] [--to T]/
> big 100001
1 words: usage: ltta check P [C] | meaning P I | run P I S [C] | plan C [--horizon H] | sim P I C --seed N --horizon H | big N | watch P I S O [C] | audit P I S C | trace P I S C [--node NAME] [--from T] [--to T]/
> watch p i s
1 words: usage: ltta check P [C] | meaning P I | run P I S [C] | plan C [--horizon H] | sim P I C --seed N --horizon H | big N | watch P I S O [C] | audit P I S C | trace P I S C [--node NAME] [--from T] [--to T]/
> audit p i s
1 words: usage: ltta check P [C] | meaning P I | run P I S [C] | plan C [--horizon H] | sim P I C --seed N --horizon H | big N | watch P I S O [C] | audit P I S C | trace P I S C [--node NAME] [--from T] [--to T]/
> trace p i s c --to 1000000000000001
1 words: usage: ltta check P [C] | meaning P I | run P I S [C] | plan C [--horizon H] | sim P I C --seed N --horizon H | big N | watch P I S O [C] | audit P I S C | trace P I S C [--node NAME] [--from T] [--to T]/
> walk p i s
1 words: usage: ltta check P [C] | meaning P I | run P I S [C] | plan C [--horizon H] | sim P I C --seed N --horizon H | big N | watch P I S O [C] | audit P I S C | trace P I S C [--node NAME] [--from T] [--to T]/
> help
1 words: usage: ltta check P [C] | meaning P I | run P I S [C] | plan C [--horizon H] | sim P I C --seed N --horizon H | big N | watch P I S O [C] | audit P I S C | trace P I S C [--node NAME] [--from T] [--to T]/
";

const FILES: &str = "\
- each file in its turn, where it is missing
> check q
6 fault: read/
> check p q
6 fault: read/
> meaning q i
6 fault: read/
> meaning p q
6 fault: read/
> run q i s
6 fault: read/
> run p q s
6 fault: read/
> run p i q
6 fault: read/
> plan q
6 fault: read/
> sim p i q --seed 0 --horizon 7
6 fault: read/
> watch p i s q
6 fault: read/
> audit p i q c
6 fault: read/
> trace p i s q
6 fault: read/
- a setup before the inputs, and the inputs before a schedule
i instant,y/
s time,event/
> run p i s q
6 fault: read/
> run p i s
4 inputs 2 Header at row 0/
> run p i q c
4 inputs 2 Header at row 0/
> meaning p i
4 inputs 2 Header at row 0/
- the form of a setup, its placement and then its timing, before the inputs
p node main(x: int) returns (u: int; v: int) let u = x + (0 fby v); v = 10 + (0 fby u); tel
c protocol =
> run p q q c
3 config 1 NotToml/
c protocol = 'backpressure'/period = [9, 11]/delay = [1, 4]/[nodes]/a = ['x']/b = ['v']/
> run p q q c
3 placement 1 Unplaced: u/
c protocol = 'timebased'/period = [9, 11]/delay = [1, 4]/send = 2/execute = 3/[nodes]/a = ['x', 'u']/b = ['v']/
> run p q q c
3 timing 2 Send: 46 is not above 48/
- the program before all
p node main(x: int) returns (y: int) let y = z; tel
> check p q
2 name 2 Unknown in node main: z/
> meaning p q
2 name 2 Unknown in node main: z/
> run p q q q
2 name 2 Unknown in node main: z/
";

const INPUTS: &str = "\
i
> meaning p i
4 inputs 2 Header at row 0/
i instant,x/0,1/1/
> run p i s
4 inputs 1 NotCsv at row 2/
i instant,x/1,1/
> meaning p i
4 inputs 3 Instant at row 1/
i instant,x/0,1/1,true/
> meaning p i
4 inputs 4 Value at row 2/
";

const SCHEDULES: &str = "\
s time,event,node/0,act,all/
> run p i s
5 schedule 1 Header at row 0/
s time,event,place/1000000000000001,act,all/
> run p i s
5 schedule 2 Time at row 1/
s time,event,place/0,fly,all/4,act,all/12,end,/
> run p i s
5 schedule 3 Kind at row 1/
s time,event,place/0,data,all>all/4,act,all/12,end,/
> run p i s
5 schedule 4 UnknownPlace at row 1/
s time,event/0,act,all/4,act,all/12,end,/
> run p i s
5 schedule 5 NotCsv at row 0/
- the greatest time, and the longest line, in which the time has zeros before it
s time,event,place/1000000000000000,act,all/
> run p i s
5 schedule offence at event 1: NodeOverdue all/
s time,event,place/{4088*0},act,all/4,act,all/12,end,/
> run p i s
0 y: 0/
s time,event,place/{4089*0},act,all/4,act,all/12,end,/
> run p i s
5 schedule 5 NotCsv at row 1/
- the first deadline is the horizon
s time,event,place/1000,end,/
> run p i s
5 schedule offence at event 1: NodeOverdue all/
s time,event,place/5,act,all/5,act,all/6,end,/
> run p i s
5 schedule offence at event 2: TooSoon all/
s time,event,place/4,act,all/3,act,all/4,end,/
> run p i s
5 schedule offence at event 2: Backwards/
s time,event,place/0,act,all/4,act,all/8,act,all/
> run p i s
5 schedule offence at event 4: NoEnd/
s time,event,place/0,act,all/4,act,all/8,act,all/12,end,/13,act,all/
> run p i s
5 schedule offence at event 5: AfterEnd/
- the node and the bounds of a setup
c protocol = 'backpressure'/period = [9, 11]/delay = [1, 4]/[nodes]/b = ['x', 'y']/
> run p i s c
5 schedule 4 UnknownPlace at row 1/
s time,event,place/5,act,b/13,act,b/14,end,/
> run p i s c
5 schedule offence at event 2: TooSoon b/
s time,event,place/12,act,b/13,end,/
> run p i s c
5 schedule offence at event 1: NodeOverdue b/
c protocol = 'timebased'/period = [1, 10]/delay = [1, 4]/send = 2/execute = 1/[nodes]/b = ['x', 'y']/
s time,event,place/0,act,b/10,end,/
> run p i s c
5 schedule offence at event 2: NodeOverdue b/
s time,event,place/0,act,b/
> run p i s c
5 schedule offence at event 2: NoEnd/
";

const STRANGE: &str = "\
- empty files
p
> check p
2 syntax 3 Unexpected at byte 0/
p node main(b: bool) returns (y: bool) let y = b; tel
i instant,b/0,true/
s
> run p i s
5 schedule 1 Header at row 0/
o
> watch p i q o
10 observer 2 Unexpected at byte 0/
- bytes that are no text
p ~
> check p
2 syntax 1 BadByte at byte 0/
p -- ~/node main(b: bool) returns (y: bool) let y = b; tel
> check p
0 node main(b: bool) returns (y: bool)/let/  y = b;/tel/
c ~
> check p c
3 config 1 NotToml/
i instant,b/0,~/
> meaning p i
4 inputs 1 NotCsv at row 1/
i instant,b/0,true/
s time,event,place/~,act,all/
> run p i s
5 schedule 2 Time at row 1/
s time,event,place/0,~,all/
> run p i s
5 schedule 3 Kind at row 1/
s time,event,place/0,act,~/
> run p i s
5 schedule 4 UnknownPlace at row 1/
o ~
> watch p i q o
10 observer 1 BadByte at byte 0/
- brackets without an end
c a = {200000*[}
> check p c
3 config 1 NotToml/
i {1000000*,}
> meaning p i
4 inputs 2 Header at row 0/
s {4096*,}
> run p i s
4 inputs 2 Header at row 0/
i instant,b/0,true/
> run p i s
5 schedule 5 NotCsv at row 0/
o {200*(}
> watch p i q o
10 observer 3 TooDeep at byte 199/
o {199*(}y{199*)}
s time,event,place/0,act,all/1,end,/
> watch p i s o
0 holds 1/
";

#[test]
fn the_first_fault_is_told(rt: HostRuntime) {
    holds(&rt, rt.alloc(), WORDS);
    holds(&rt, rt.alloc(), FILES);
    holds(&rt, rt.alloc(), INPUTS);
    holds(&rt, rt.alloc(), SCHEDULES);
    holds(&rt, rt.alloc(), STRANGE);
}

// Runs on several nodes.

use crate::script::holds;

const BACK_PRESSURE: &str = "\
- two nodes that read each other's last value: both execute, acknowledge, send, and a executes again
p node main(x: int) returns (u: int; v: int) let u = x + (0 fby v); v = 10 + (0 fby u); tel
i instant,x/0,1/1,1/2,1/
c protocol = 'backpressure'/period = [9, 11]/delay = [1, 4]/[nodes]/a = ['x', 'u']/b = ['v']/
s time,event,place/0,act,a/0,act,b/3,ack,a>b/3,ack,b>a/10,act,a/10,act,b/12,data,a>b/12,data,b>a/20,act,a/20,end,/
> run p i s c
0 u: 1 11/v: 10/
- b is slower than a, and both of the last events of one tick come in either order
s time,event,place/0,act,a/4,ack,a>b/6,act,b/8,ack,b>a/10,act,a/12,data,a>b/17,act,b/20,data,b>a/20,act,a/20,end,/
> run p i s c
0 u: 1 11/v: 10/
s time,event,place/0,act,a/4,ack,a>b/6,act,b/8,ack,b>a/10,act,a/12,data,a>b/17,act,b/20,act,a/20,data,b>a/20,end,/
> run p i s c
0 u: 1/v: 10/
- nobody is due before tick 11
s time,event,place/10,end,/
> run p i s c
0 u:/v:/
- a delay that begins with an expression
p node main(x: int) returns (u: int; v: int) let u = x + (0 fby v); v = 10 + ((3 + 4) fby u); tel
s time,event,place/0,act,a/0,act,b/3,ack,a>b/3,ack,b>a/10,act,a/10,act,b/12,data,a>b/12,data,b>a/20,act,a/20,end,/
> run p i s c
0 u: 1 18/v: 17/
";

const OFFENCES: &str = "\
- messages that were due, too early, and never sent
p node main(x: int) returns (u: int; v: int) let u = x + (0 fby v); v = 10 + (0 fby u); tel
i instant,x/0,1/1,1/2,1/
c protocol = 'backpressure'/period = [9, 11]/delay = [1, 4]/[nodes]/a = ['x', 'u']/b = ['v']/
s time,event,place/0,act,a/0,act,b/3,ack,a>b/3,ack,b>a/10,act,a/10,act,b/15,data,a>b/15,data,b>a/20,act,a/20,end,/
> run p i s c
5 schedule offence at event 7: ChannelOverdue data a>b/
s time,event,place/0,act,a/0,act,b/3,ack,a>b/3,ack,b>a/10,act,a/10,act,b/10,data,a>b/12,data,b>a/20,act,a/20,end,/
> run p i s c
5 schedule offence at event 7: TooEarly data a>b/
s time,event,place/0,data,a>b/0,end,/
> run p i s c
5 schedule offence at event 1: NothingSent data a>b/
s time,event,place/0,act,a/0,act,b/5,ack,a>b/
> run p i s c
5 schedule offence at event 3: ChannelOverdue ack a>b/
- the node that is late, and of two that are the first
s time,event,place/0,act,a/4,ack,a>b/11,act,a/12,act,a/
> run p i s c
5 schedule offence at event 4: NodeOverdue b/
s time,event,place/11,end,/
> run p i s c
5 schedule offence at event 1: NodeOverdue a/
- a list of both nodes without an end
s time,event,place/0,act,a/0,act,b/
> run p i s c
5 schedule offence at event 3: NoEnd/
- nodes and channels that there are not
s time,event,place/0,act,c/
> run p i s c
5 schedule 4 UnknownPlace at row 1/
s time,event,place/0,data,a>a/
> run p i s c
5 schedule 4 UnknownPlace at row 1/
- a slow node, whose second activation comes too soon
c protocol = 'backpressure'/period = [9, 11]/delay = [1, 4]/[nodes]/a = ['x', 'u']/b = ['v']/[periods]/b = [20, 22]/
s time,event,place/0,act,a/0,act,b/3,ack,a>b/3,ack,b>a/10,act,a/10,act,b/12,data,a>b/12,data,b>a/20,act,a/20,end,/
> run p i s c
5 schedule offence at event 6: TooSoon b/
";

const TIME_BASED: &str = "\
- at 55 node b has two left on its countdown, finds the message and sends
p node main(x: int) returns (u: int; v: int) let u = x + (0 fby v); v = 10 + (0 fby u); tel
i instant,x/0,1/1,1/2,1/
c protocol = 'timebased'/period = [9, 11]/delay = [1, 4]/send = 5/execute = 3/[nodes]/a = ['x', 'u']/b = ['v']/
s time,event,place/0,act,a/9,act,a/11,act,b/18,act,a/22,act,b/27,act,a/33,act,b/36,act,a/44,act,b/45,act,a/46,data,a>b/54,act,a/55,act,b/56,data,b>a/63,act,a/66,act,b/72,act,a/72,end,/
> run p i s c
0 u: 1 11/v: 10/
- there are no acknowledgements
s time,event,place/0,act,a/3,ack,a>b/
> run p i s c
5 schedule 4 UnknownPlace at row 2/
";

const LEADER: &str = "\
- the same with a as the leader: b sends when it finds a's message
p node main(x: int) returns (u: int; v: int) let u = x + (0 fby v); v = 10 + (0 fby u); tel
i instant,x/0,1/1,1/2,1/
c protocol = 'leader'/leader = 'a'/period = [9, 11]/delay = [1, 4]/send = 5/execute = 3/[nodes]/a = ['x', 'u']/b = ['v']/
s time,event,place/0,act,a/9,act,a/11,act,b/18,act,a/22,act,b/27,act,a/33,act,b/36,act,a/44,act,b/45,act,a/46,data,a>b/54,act,a/55,act,b/56,data,b>a/63,act,a/66,act,b/72,act,a/72,end,/
> run p i s c
0 u: 1 11/v: 10/
> check p c
0 node main(x: int) returns (u: int; v: int)/let/  u = x + (0 fby v);/  v = 10 + (0 fby u);/tel/
- with b as the leader a has not sent at its countdown
c protocol = 'leader'/leader = 'b'/period = [9, 11]/delay = [1, 4]/send = 5/execute = 3/[nodes]/a = ['x', 'u']/b = ['v']/
> run p i s c
5 schedule offence at event 11: NothingSent data a>b/
- there is a channel from the leader to every node, and else only where something crosses
p node main(x: int) returns (u: int; v: int; w: int) let u = x + (0 fby v); v = 10 + (0 fby u); w = 0 fby u; tel
c protocol = 'leader'/leader = 'a'/period = [9, 11]/delay = [1, 4]/send = 5/execute = 3/[nodes]/a = ['x', 'u']/b = ['v']/c = ['w']/
s time,event,place/0,data,b>c/0,end,/
> run p i s c
5 schedule 4 UnknownPlace at row 1/
- the leader's timing has to be accepted
c protocol = 'leader'/leader = 'a'/period = [9, 11]/delay = [1, 4]/send = 2/execute = 3/[nodes]/a = ['x', 'u']/b = ['v']/c = ['w']/
> run p i s c
3 timing 2 Send: 46 is not above 48/
";

const CRUISE: &str = "\
- the cruise controller of the examples on its four nodes
p node limit(v: int) returns (r: int) let r = max(0, min(v, 100)); tel node main(speed: int; button: bool) returns (on: bool; gap: int when act; throttle: int) var was: bool; act: bool; seen: int; target: int when act; cmd: int; let was = false fby button; on = (false fby on) xor (button and not was); act = false fby on; seen = 0 fby speed; target = 60; gap = target - (seen when act); cmd = merge act (limit(gap + (0 fby gap))) 0; throttle = 0 fby cmd; tel
i instant,speed,button/0,50,true/1,52,false/2,55,false/3,58,false/4,59,false/
c protocol = 'backpressure'/period = [9, 11]/delay = [1, 4]/[nodes]/control = ['act', 'seen', 'target', 'gap', 'cmd']/engine = ['throttle']/panel = ['button', 'was', 'on']/sensor = ['speed']/
s time,event,place/0,act,control/0,act,engine/0,act,panel/0,act,sensor/3,ack,control>panel/3,ack,control>sensor/3,ack,engine>control/10,act,control/10,act,engine/10,act,panel/10,act,sensor/12,data,control>engine/12,data,panel>control/12,data,sensor>control/20,act,control/20,act,engine/20,act,panel/20,act,sensor/20,end,/
> run p i s c
0 on: true true/gap: . 10/throttle: 0 0/
";

#[test]
fn runs_on_nodes(rt: HostRuntime) {
    holds(&rt, rt.alloc(), BACK_PRESSURE);
    holds(&rt, rt.alloc(), OFFENCES);
    holds(&rt, rt.alloc(), TIME_BASED);
    holds(&rt, rt.alloc(), LEADER);
    holds(&rt, rt.alloc(), CRUISE);
}

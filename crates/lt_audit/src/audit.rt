// What an auditor holds, and how it changes from event to event.
ghost use Rattle.std.specs.Prelude.{◌≡◌, ◌<◌, ◌*◌, ◌+◌, ◌≤◌, ◌^◌, [], None, IfOk, OnOk, OnErr, length, map, replicate, slice_get};
ghost use Rattle.lt_arch.specs.declared.limits.TheConstants.{GREATEST_TIME};
ghost use Rattle.lt_arch.specs.declared.shape.Shape.{Shape as OfShape};
ghost use Rattle.lt_arch.specs.declared.timing.Timing.{Timing as OfTiming};
ghost use Rattle.lt_arch.specs.State.{State};
ghost use Rattle.lt_arch.specs.Readers.{node_count, chan_count};
ghost use Rattle.lt_arch.specs.Schedule.{IsEventOf};
ghost use Rattle.lt_arch.specs.Shapes.{HaveSameNodes};
ghost use Rattle.lt_arch.specs.Step.{offence_of};
ghost use Rattle.lt_arch.specs.Times.{HasTimes};
ghost use Rattle.lt_audit.specs.Audit.{IsKeptAudit, chan_at, kept_of, member_at, no_chan_state};
ghost use Rattle.lt_audit.specs.Acts.{AuditActs, AuditDelivers, AuditTakes, next_number};
ghost use Rattle.lt_audit.specs.Standing.{AuditStands};
ghost use Rattle.lt_audit.specs.Starts.{MembersAreAtStart};

use crate::Miss;
use crate::hearing::hear;
use crate::line::Line;
use crate::member::Member;
use crate::missing::first_missed;
use crate::sending::{deliver, make_room, send_all};
use lt_arch::{Deed, Event, Offence, Protocol, Shape, Timing, Watch};
use lt_base::{Memory, Steps};
use lt_link::Wiring;
use std::alloc::Global;
use std::marker::Model;
use std::sync::ledger::Ledger;

/// The nodes and the channels after some events, and the first miss among them.
#[derive(Drop)]
pub struct Audit {
    wiring: Wiring,
    watch: Watch,
    pub first: Option<Miss>,
    protocol: Protocol,
    rows: u32,
    members: Vec<Member>,
    lines: Vec<Line>,
    pub taken: u32,
}

impl Model for Audit {
    ghost use Rattle.std.specs.Prelude.{map};
    ghost use Rattle.lt_audit.specs.Audit.{AuditState, kept_of};

    ghost Value = { AuditState };

    ghost view = { λ a. record {
      shape = a.wiring;
      protocol = a.protocol;
      rows = a.rows;
      watch = a.watch;
      members = a.members.items;
      chans = map kept_of a.lines.items;
      taken = a.taken;
      first = a.first;
    } };
}

impl Audit {
    /// Before the first event.
    pub fn start(alloc: Global, shape: Shape, timing: Timing, rows: u32) -> Result<Audit, Memory>
        requires same { HaveSameNodes shape timing }
        requires numbered { 2 * (node_count shape + chan_count shape) < 2 ^ 32 }
        ensures kept { IfOk result IsKeptAudit }
        ensures stands { IfOk result (λ audit. AuditStands audit shape timing rows []) }
    {
        let wiring = Wiring::of(alloc, shape)?;
        Audit::of_wiring(alloc, wiring, &timing, rows)
    }

    // Before the first event, over these nodes and channels.
    fn of_wiring(alloc: Global, wiring: Wiring, timing: &Timing, rows: u32) -> Result<Audit, Memory>
        requires same { HaveSameNodes wiring timing.now }
        requires numbered { 2 * (node_count wiring + chan_count wiring) < 2 ^ 32 }
        ensures kept { IfOk result IsKeptAudit }
        ensures stands { IfOk result (λ audit. AuditStands audit wiring timing.now rows []) }
    {
        let (members, lines) = at_start(alloc, timing, wiring.channels().len())?;
        let watch = Watch::start(alloc, wiring.shape(), timing)?;
        Ok(Audit {
            wiring,
            watch,
            first: None,
            protocol: timing.protocol,
            rows,
            members,
            lines,
            taken: 0,
        })
    }

    /// Its nodes and channels.
    pub fn shape(&self) -> &Shape
        ensures { result.now ≡ self.now.shape }
    {
        self.wiring.shape()
    }

    /// The horizon, once the end was taken.
    pub fn reached(&self) -> Option<u64>
        ensures { result ≡ self.now.watch.horizon }
    {
        self.watch.reached()
    }

    /// What a node did when it was activated last.
    pub fn did(&self, node: u32) -> Deed
        requires kept { IsKeptAudit self.now }
        requires node { node < node_count self.now.shape }
        ensures { result ≡ (member_at self.now.members node).did }
    {
        self.members[node as usize].did()
    }

    /// How many instants a node has executed.
    pub fn executed(&self, node: u32) -> u32
        requires kept { IsKeptAudit self.now }
        requires node { node < node_count self.now.shape }
        ensures { result ≡ (member_at self.now.members node).executed }
    {
        self.members[node as usize].executed()
    }

    /// How many messages are in transit on a channel.
    pub fn transit_count(&self, channel: u32) -> usize
        requires kept { IsKeptAudit self.now }
        requires channel { channel < chan_count self.now.shape }
        ensures { result ≡ length (chan_at self.now.chans channel).transit }
    {
        self.lines[channel as usize].in_transit()
    }

    /// The send time of the message in transit on a channel at this place, the oldest one first.
    pub fn in_transit(&self, channel: u32, place: usize) -> Option<u64>
        requires kept { IsKeptAudit self.now }
        requires channel { channel < chan_count self.now.shape }
        ensures { result ≡ slice_get (chan_at self.now.chans channel).transit place }
    {
        self.lines[channel as usize].sent_at(place)
    }

    /// The offence of an event, if it has one.
    pub fn judge<L: Ledger>(&self, e: &Event, steps: &mut Steps<L>) -> Option<Offence>
        requires kept { IsKeptAudit self.now }
        requires event { IsEventOf self.now.shape e.now }
        ensures offence { (s : OfShape) (t : OfTiming) (st : State) → HasTimes self.now.watch s t st → result ≡ offence_of s t st e.now }
        ensures cost { steps.new ≤ steps.old + 4 }
    {
        self.watch.judge(e, steps)
    }

    /// Takes an event that has no offence. Want of memory changes nothing.
    pub fn take<L: Ledger>(&mut self, e: Event, steps: &mut Steps<L>) -> Result<(), Memory>
        requires kept { IsKeptAudit self.old }
        requires event { IsEventOf self.old.shape e }
        requires passes { (s : OfShape) (t : OfTiming) (st : State) → HasTimes self.old.watch s t st → offence_of s t st e ≡ None }
        ensures kept { IsKeptAudit self.new }
        ensures unchanged { OnErr result (self.new ≡ self.old) }
        ensures takes { OnOk result (AuditTakes self.old self.new e) }
        ensures number { OnOk result (self.new.taken ≡ next_number self.old.taken) }
        ensures shape { self.new.shape ≡ self.old.shape }
    {
        self.change(e, steps)?;
        self.taken = self.taken.saturating_add(1);
        Ok(())
    }

    // What an event changes but the count of events.
    fn change<L: Ledger>(&mut self, e: Event, steps: &mut Steps<L>) -> Result<(), Memory>
        requires kept { IsKeptAudit self.old }
        requires event { IsEventOf self.old.shape e }
        ensures unchanged { OnErr result (self.new ≡ self.old) }
        ensures takes { OnOk result (AuditTakes self.old self.new e) }
        ensures taken { self.new.taken ≡ self.old.taken }
    {
        match e {
            Event::Act(node, at) => self.act(node, at, steps),
            Event::Del(ch, at) => {
                self.deliver(ch, at, steps);
                Ok(())
            }
            Event::End(at) => {
                self.watch.ended(at, steps);
                Ok(())
            }
        }
    }

    fn act<L: Ledger>(&mut self, node: u32, at: u64, steps: &mut Steps<L>) -> Result<(), Memory>
        requires kept { IsKeptAudit self.old }
        requires node { node < node_count self.old.shape }
        requires time { at ≤ GREATEST_TIME }
        ensures unchanged { OnErr result (self.new ≡ self.old) }
        ensures acts { OnOk result (AuditActs self.old self.new node at) }
        ensures taken { self.new.taken ≡ self.old.taken }
    {
        make_room(&self.wiring, &mut self.lines, node)?;
        let executed = self.members[node as usize].executed();
        let heard = hear(&self.wiring, &self.lines, node, executed);
        let deed = self.members[node as usize].wake(heard, self.rows);
        let number = self.taken.saturating_add(1);
        self.first = first_missed(
            self.first,
            &self.wiring,
            &self.lines,
            node,
            executed,
            number,
            deed,
        );
        send_all(
            &self.wiring,
            &mut self.lines,
            &mut self.watch,
            self.protocol,
            node,
            deed,
            at,
            steps,
        );
        self.watch.acted(node, at, steps);
        Ok(())
    }

    fn deliver<L: Ledger>(&mut self, ch: u32, at: u64, steps: &mut Steps<L>)
        requires kept { IsKeptAudit self.old }
        requires channel { ch < chan_count self.old.shape }
        requires time { at ≤ GREATEST_TIME }
        ensures delivers { AuditDelivers self.old self.new ch at }
        ensures taken { self.new.taken ≡ self.old.taken }
    {
        deliver(&mut self.lines[ch as usize], &mut self.watch, ch, at, steps);
    }
}

// The nodes, and so many channels.
fn at_start(
    alloc: Global,
    timing: &Timing,
    channels: usize,
) -> Result<(Vec<Member>, Vec<Line>), Memory>
    ensures members { IfOk result (λ first. MembersAreAtStart first.0.items timing.now (length timing.now.nodes)) }
    ensures lines { IfOk result (λ first. map kept_of first.1.items ≡ replicate channels no_chan_state) }
{
    let members = members_of(alloc, timing)?;
    let lines = lines_of(alloc, channels)?;
    Ok((members, lines))
}

fn members_of(alloc: Global, timing: &Timing) -> Result<Vec<Member>, Memory>
    ensures { IfOk result (λ members. MembersAreAtStart members.items timing.now (length timing.now.nodes)) }
{
    let mut members = Vec::new(alloc);
    for node in 0..timing.node_count() {
        members.push(Member::start(timing, node))?;
    }
    Ok(members)
}

fn lines_of(alloc: Global, count: usize) -> Result<Vec<Line>, Memory>
    ensures { IfOk result (λ lines. map kept_of lines.items ≡ replicate count no_chan_state) }
{
    let mut lines = Vec::new(alloc);
    for _channel in 0..count {
        lines.push(Line::new(alloc))?;
    }
    Ok(lines)
}

// What an auditor holds over links that lose messages, and how it changes from event to event.
ghost use Rattle.std.specs.Prelude.{◌≡◌, ◌<◌, ◌*◌, ◌+◌, ◌≤◌, ◌^◌, [], None, IfOk, replicate};
ghost use Rattle.lt_arch.specs.declared.limits.TheConstants.{GREATEST_TIME};
ghost use Rattle.lt_arch.specs.declared.event.Event.TheVariants.{Act, Del};
ghost use Rattle.lt_arch.specs.Readers.{node_count, chan_count};
ghost use Rattle.lt_arch.specs.Shapes.{HaveSameNodes};
ghost use Rattle.lt_lossy.specs.declared.event.LossyEvent.TheVariants.{Plain, Lose};
ghost use Rattle.lt_lossy.specs.Events.{IsLossyEventOf};
ghost use Rattle.lt_lossy.specs.Step.{lossy_offence};
ghost use Rattle.lt_lossy.specs.Times.{WhereverHasTimes};
ghost use Rattle.lt_lossy.specs.Window.{HasWindow};
ghost use Rattle.lt_lossy_audit.specs.Links.{no_link, link_seen};
ghost use Rattle.lt_lossy_audit.specs.Nodes.{nothing_seen, node_seen};
ghost use Rattle.lt_lossy_audit.specs.LossyAudit.{IsKeptLossyAudit, LossyAuditStands};
ghost use Rattle.lt_lossy_audit.specs.LossyActs.{LossyAuditActs, LossyAuditDelivers, LossyAuditLoses, LossyAuditTakes};

use crate::hearing::all_heard;
use crate::link::Link;
use crate::seen::Seen;
use crate::sending::send_all;
use lt_arch::{Event, Shape, Timing};
use lt_base::{Memory, Steps};
use lt_lossy::{LossyEvent, LossyOffence, LossyWatch};
use std::alloc::Global;
use std::marker::Model;
use std::sync::ledger::Ledger;

/// The nodes and the channels after some events.
#[derive(Drop)]
pub struct LossyAudit {
    shape: Shape,
    rows: u32,
    watch: LossyWatch,
    nodes: Vec<Seen>,
    links: Vec<Link>,
}

impl Model for LossyAudit {
    ghost use Rattle.lt_lossy_audit.specs.LossyAudit.{LossyAuditState};

    ghost Value = { LossyAuditState };

    ghost view = { λ a. record {
      shape = a.shape;
      rows = a.rows;
      watch = a.watch;
      nodes = a.nodes.items;
      links = a.links.items;
    } };
}

impl LossyAudit {
    /// Before the first event.
    pub fn start(
        alloc: Global,
        shape: Shape,
        timing: &Timing,
        limit: u64,
        rows: u32,
    ) -> Result<LossyAudit, Memory>
        requires same { HaveSameNodes shape timing.now }
        requires window { HasWindow timing.now }
        requires numbered { 2 * (node_count shape + chan_count shape) < 2 ^ 32 }
        ensures kept { IfOk result IsKeptLossyAudit }
        ensures stands { IfOk result (λ audit. LossyAuditStands audit shape timing.now limit rows []) }
    {
        let nodes = nodes_of(alloc, shape.nodes.len())?;
        let links = links_of(alloc, shape.channels.len())?;
        let watch = LossyWatch::start(alloc, &shape, timing, limit)?;
        Ok(LossyAudit {
            shape,
            rows,
            watch,
            nodes,
            links,
        })
    }

    /// Its nodes and channels.
    pub fn shape(&self) -> &Shape
        ensures { result.now ≡ self.now.shape }
    {
        &self.shape
    }

    /// The horizon, once the end was taken.
    pub fn reached(&self) -> Option<u64>
        ensures { result ≡ self.now.watch.horizon }
    {
        self.watch.reached()
    }

    /// What is known of a node.
    pub fn seen(&self, node: u32) -> Seen
        requires kept { IsKeptLossyAudit self.now }
        requires node { node < node_count self.now.shape }
        ensures { result ≡ node_seen self.now.nodes node }
    {
        self.nodes[node as usize]
    }

    /// What is known of a channel.
    pub fn link(&self, channel: u32) -> &Link
        requires kept { IsKeptLossyAudit self.now }
        requires channel { channel < chan_count self.now.shape }
        ensures { result.now ≡ link_seen self.now.links channel }
    {
        &self.links[channel as usize]
    }

    /// The offence of an event, if it has one.
    pub fn judge<L: Ledger>(&self, e: &LossyEvent, steps: &mut Steps<L>) -> Option<LossyOffence>
        requires kept { IsKeptLossyAudit self.now }
        requires event { IsLossyEventOf self.now.shape e.now }
        ensures offence { WhereverHasTimes self.now.watch (λ s t allowed st. result ≡ lossy_offence s t allowed st e.now) }
        ensures cost { steps.new ≤ steps.old + 4 }
    {
        self.watch.judge(e, steps)
    }

    /// Takes an event that has no offence.
    pub fn take<L: Ledger>(&mut self, e: LossyEvent, steps: &mut Steps<L>)
        requires kept { IsKeptLossyAudit self.old }
        requires event { IsLossyEventOf self.old.shape e }
        requires passes { WhereverHasTimes self.old.watch (λ s t allowed st. lossy_offence s t allowed st e ≡ None) }
        ensures kept { IsKeptLossyAudit self.new }
        ensures takes { LossyAuditTakes self.old self.new e }
    {
        self.change(e, steps);
    }

    // What an event changes.
    fn change<L: Ledger>(&mut self, e: LossyEvent, steps: &mut Steps<L>)
        requires kept { IsKeptLossyAudit self.old }
        requires event { IsLossyEventOf self.old.shape e }
        requires passes { WhereverHasTimes self.old.watch (λ s t allowed st. lossy_offence s t allowed st e ≡ None) }
        ensures { LossyAuditTakes self.old self.new e }
    {
        match e {
            LossyEvent::Plain(Event::Act(node, at)) => self.act(node, at, steps),
            LossyEvent::Plain(Event::Del(ch, at)) => self.deliver(ch, at, steps),
            LossyEvent::Plain(Event::End(at)) => self.watch.ended(at, steps),
            LossyEvent::Lose(ch, at) => self.lose(ch, at, steps),
        }
    }

    fn act<L: Ledger>(&mut self, node: u32, at: u64, steps: &mut Steps<L>)
        requires kept { IsKeptLossyAudit self.old }
        requires node { node < node_count self.old.shape }
        requires time { at ≤ GREATEST_TIME }
        requires passes { WhereverHasTimes self.old.watch (λ s t allowed st. lossy_offence s t allowed st (Plain (Act node at)) ≡ None) }
        ensures { LossyAuditActs self.old self.new node at }
    {
        let n = node as usize;
        let seen = self.nodes[n];
        let all_in = all_heard(&self.shape, &self.links, node, seen.executed, true);
        let all_ack = all_heard(&self.shape, &self.links, node, seen.executed, false);
        let woken = seen.woken(all_in, all_ack, self.rows);
        send_all(
            &mut self.links,
            &mut self.watch,
            &self.shape,
            node,
            &woken,
            at,
            steps,
        );
        self.watch.acted(node, at, steps);
        self.nodes[n] = woken;
    }

    fn deliver<L: Ledger>(&mut self, ch: u32, at: u64, steps: &mut Steps<L>)
        requires kept { IsKeptLossyAudit self.old }
        requires channel { ch < chan_count self.old.shape }
        requires time { at ≤ GREATEST_TIME }
        ensures { LossyAuditDelivers self.old self.new ch at }
    {
        self.links[ch as usize].deliver();
        self.watch.delivered(ch, at, steps);
    }

    fn lose<L: Ledger>(&mut self, ch: u32, at: u64, steps: &mut Steps<L>)
        requires kept { IsKeptLossyAudit self.old }
        requires channel { ch < chan_count self.old.shape }
        requires time { at ≤ GREATEST_TIME }
        requires passes { WhereverHasTimes self.old.watch (λ s t allowed st. lossy_offence s t allowed st (Lose ch at) ≡ None) }
        ensures { LossyAuditLoses self.old self.new ch at }
    {
        self.links[ch as usize].lose();
        self.watch.lost(ch, at, steps);
    }
}

// Nodes that were never activated.
fn nodes_of(alloc: Global, count: usize) -> Result<Vec<Seen>, Memory>
    ensures { IfOk result (λ nodes. nodes.items ≡ replicate count nothing_seen) }
{
    let mut nodes = Vec::with_capacity(alloc, count)?;
    for _node in 0..count {
        nodes.push(Seen::first())?;
    }
    Ok(nodes)
}

// Channels that were never used.
fn links_of(alloc: Global, count: usize) -> Result<Vec<Link>, Memory>
    ensures { IfOk result (λ links. links.items ≡ replicate count no_link) }
{
    let mut links = Vec::with_capacity(alloc, count)?;
    for _channel in 0..count {
        links.push(Link::new(alloc)?)?;
    }
    Ok(links)
}

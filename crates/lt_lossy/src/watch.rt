// The watch over the times of events where links lose messages.
ghost use Rattle.std.specs.Prelude.{◌≡◌, ◌≤◌, ◌<◌, ◌+◌, ◌*◌, ◌^◌, ℕ, length, Option, Some, None, IfOk, [], replicate};
ghost use Rattle.lt_arch.specs.declared.limits.TheConstants.{GREATEST_TIME};
ghost use Rattle.lt_arch.specs.declared.shape.Shape.{Shape};
ghost use Rattle.lt_arch.specs.declared.timing.Timing.{Timing};
ghost use Rattle.lt_arch.specs.Shapes.{HaveSameNodes};
ghost use Rattle.lt_lossy.specs.State.{lossy_start};
ghost use Rattle.lt_lossy.specs.Step.{lossy_offence, too_many_lost, at_any_time};
ghost use Rattle.lt_lossy.specs.Times.{HasLossyTimes, WhereverHasTimes, IsLossyPlaced, lossy_time_of, queue_at, losses_at};
ghost use Rattle.lt_lossy.specs.Times.{with_last, with_sent_on, without_oldest, with_losses, with_end};
ghost use Rattle.lt_lossy.specs.Window.{room};

use crate::queue::Queue;
use crate::{LossyEvent, LossyOffence};
use lt_arch::{Event, Offence, Shape, Timing, Watch};
use lt_base::{Memory, Steps};
use std::alloc::Global;
use std::marker::Model;
use std::sync::ledger::Ledger;

/// Keeps the last activation of each node, and of each channel the send times of the messages in transit and how many it lost in
/// a row, and judges events by them. All its room is taken at the start, for 64 messages in transit on a channel.
#[derive(Drop)]
pub struct LossyWatch {
    // over the oldest messages alone
    watch: Watch,
    queues: Vec<Queue>,
    losses: Vec<u64>,
    limit: u64,
}

impl Model for LossyWatch {
    ghost use Rattle.lt_lossy.specs.Times.{LossyTimes};

    ghost Value = { LossyTimes };

    ghost use Rattle.lt_lossy.specs.Watched.{lossy_times_of, IsLossyKept};

    ghost view = { lossy_times_of };

    ghost invariant = { IsLossyKept };
}

impl LossyWatch {
    /// Before the first event, where so many losses in a row are allowed. There are two entries of a queue of deadlines for each
    /// node and each channel, and fewer than 2^32 entries.
    pub fn start(
        alloc: Global,
        shape: &Shape,
        timing: &Timing,
        limit: u64,
    ) -> Result<LossyWatch, Memory>
        requires same { HaveSameNodes shape.now timing.now }
        requires numbered { 2 * (length shape.now.nodes + length shape.now.channels) < 2 ^ 32 }
        ensures { IfOk result (λ watch. HasLossyTimes watch shape.now timing.now limit lossy_start) }
    {
        let (queues, losses) = nothing_sent(alloc, shape.channels.len())?;
        let watch = Watch::start(alloc, shape, timing)?;
        Ok(LossyWatch {
            watch,
            queues,
            losses,
            limit,
        })
    }

    /// The horizon, once the end was taken.
    pub fn reached(&self) -> Option<u64>
        ensures { result ≡ self.now.horizon }
    {
        self.watch.reached()
    }

    /// The offence of an event, if it has one.
    pub fn judge<L: Ledger>(&self, e: &LossyEvent, steps: &mut Steps<L>) -> Option<LossyOffence>
        requires place { IsLossyPlaced self.now e.now }
        requires time { lossy_time_of e.now ≤ GREATEST_TIME }
        ensures offence { WhereverHasTimes self.now (λ s t allowed st. result ≡ lossy_offence s t allowed st e.now) }
        ensures cost { steps.new ≤ steps.old + 4 }
    {
        match e {
            LossyEvent::Plain(e) => match self.watch.judge(e, steps) {
                Some(offence) => Some(LossyOffence::Common(offence)),
                None => None,
            },
            LossyEvent::Lose(ch, time) => {
                let offence = self.watch.judge(&Event::Del(*ch, *time), steps);
                match at_any_time(offence) {
                    Some(offence) => Some(LossyOffence::Common(offence)),
                    None => self.too_many_lost(*ch),
                }
            }
        }
    }

    fn too_many_lost(&self, ch: u32) -> Option<LossyOffence>
        requires { ch < length self.now.losses }
        ensures { result ≡ too_many_lost self.now.limit ch (losses_at self.now ch) }
    {
        if self.losses[ch as usize] == self.limit {
            Some(LossyOffence::TooManyLost(ch))
        } else {
            None
        }
    }

    /// A node was activated.
    pub fn acted<L: Ledger>(&mut self, node: u32, time: u64, steps: &mut Steps<L>)
        requires node { node < length self.old.lasts }
        requires time { time ≤ GREATEST_TIME }
        ensures times { self.new ≡ with_last self.old node time }
        ensures cost { (d : ℕ) → length self.old.lasts + length self.old.queues ≤ 2 ^ d → steps.new ≤ steps.old + (8 * d + 8) }
    {
        self.watch.acted(node, time, steps);
    }

    /// A message was sent on a channel.
    pub fn sent<L: Ledger>(&mut self, ch: u32, time: u64, steps: &mut Steps<L>)
        requires channel { ch < length self.old.queues }
        requires space { length (queue_at self.old ch) < room }
        requires time { time ≤ GREATEST_TIME }
        ensures times { self.new ≡ with_sent_on self.old ch time }
        ensures cost { (d : ℕ) → length self.old.lasts + length self.old.queues ≤ 2 ^ d → steps.new ≤ steps.old + (8 * d + 8) }
    {
        if self.queues[ch as usize].oldest().is_none() {
            self.watch.sent(ch, time, steps);
        }
        self.queues[ch as usize].push(time);
    }

    /// The oldest message in transit on a channel was delivered.
    pub fn delivered<L: Ledger>(&mut self, ch: u32, time: u64, steps: &mut Steps<L>)
        requires channel { ch < length self.old.queues }
        requires time { time ≤ GREATEST_TIME }
        ensures times { self.new ≡ with_losses (without_oldest self.old ch time) ch 0 }
        ensures cost { (d : ℕ) → length self.old.lasts + length self.old.queues ≤ 2 ^ d → steps.new ≤ steps.old + (16 * d + 16) }
    {
        self.take_oldest(ch, time, steps);
        self.losses[ch as usize] = 0;
    }

    /// The oldest message in transit on a channel was lost.
    pub fn lost<L: Ledger>(&mut self, ch: u32, time: u64, steps: &mut Steps<L>)
        requires channel { ch < length self.old.queues }
        requires few { losses_at self.old ch < self.old.limit }
        requires time { time ≤ GREATEST_TIME }
        ensures times { self.new ≡ with_losses (without_oldest self.old ch time) ch (losses_at self.old ch + 1) }
        ensures cost { (d : ℕ) → length self.old.lasts + length self.old.queues ≤ 2 ^ d → steps.new ≤ steps.old + (16 * d + 16) }
    {
        let losses = self.losses[ch as usize] + 1;
        self.take_oldest(ch, time, steps);
        self.losses[ch as usize] = losses;
    }

    // The oldest message in transit on a channel left it, and the next one is the oldest.
    fn take_oldest<L: Ledger>(&mut self, ch: u32, time: u64, steps: &mut Steps<L>)
        requires channel { ch < length self.old.queues }
        requires time { time ≤ GREATEST_TIME }
        ensures times { self.new ≡ without_oldest self.old ch time }
        ensures cost { (d : ℕ) → length self.old.lasts + length self.old.queues ≤ 2 ^ d → steps.new ≤ steps.old + (16 * d + 16) }
    {
        self.watch.delivered(ch, time, steps);
        self.queues[ch as usize].pop();
        if let Some(next) = self.queues[ch as usize].oldest() {
            self.watch.sent(ch, next, steps);
        }
    }

    /// The end was taken.
    pub fn ended<L: Ledger>(&mut self, time: u64, steps: &mut Steps<L>)
        requires { time ≤ GREATEST_TIME }
        ensures times { self.new ≡ with_end self.old time }
        ensures cost { steps.new ≡ steps.old }
    {
        self.watch.ended(time, steps);
    }
}

// The offence of a loss, by that of a delivery: a loss never comes too early.
fn at_any_time(offence: Option<Offence>) -> Option<Offence>
    ensures { result ≡ at_any_time offence }
{
    match offence {
        Some(Offence::TooEarly(_)) => None,
        _ => offence,
    }
}

// The queues and the counts of losses of so many channels that were not used.
fn nothing_sent(alloc: Global, count: usize) -> Result<(Vec<Queue>, Vec<u64>), Memory>
    ensures queues { IfOk result (λ first. first.0.items ≡ replicate count []) }
    ensures losses { IfOk result (λ first. first.1.items ≡ replicate count 0) }
{
    let queues = empty_queues(alloc, count)?;
    let losses = no_losses(alloc, count)?;
    Ok((queues, losses))
}

fn empty_queues(alloc: Global, count: usize) -> Result<Vec<Queue>, Memory>
    ensures { IfOk result (λ queues. queues.items ≡ replicate count []) }
{
    let mut queues = Vec::with_capacity(alloc, count)?;
    for _channel in 0..count {
        queues.push(Queue::new(alloc)?)?;
    }
    Ok(queues)
}

fn no_losses(alloc: Global, count: usize) -> Result<Vec<u64>, Memory>
    ensures { IfOk result (λ losses. losses.items ≡ replicate count 0) }
{
    Ok(vec![in alloc; 0; count]?)
}

// The messages that a node sends.
ghost use Rattle.std.specs.Prelude.{◌≡◌, ◌<◌, ◌≤◌, ◌+◌, ◌-◌, ◌*◌, ◌^◌, ◌==◌, ◌&&◌, ◌++◌, ◌∷◌, [], ℕ, nat_lt, OnOk, length, slice_set, slice_index_or, if◌then◌else◌};
ghost use Rattle.rand_core.specs.Stream.{next_u64};
ghost use Rattle.rand_core.specs.Steps.{stream_of};
ghost use Rattle.rand_xoshiro.specs.SplitMix64.{splitmix_steps};
ghost use Rattle.lt_arch.specs.declared.limits.TheConstants.{GREATEST_TIME};
ghost use Rattle.lt_arch.specs.Readers.{chan_count, node_count, dmin_of, dmax_of, is_data};
ghost use Rattle.lt_arch.specs.Ends.{HasEnds};
ghost use Rattle.lt_arch.specs.Shapes.{HaveSameNodes};
ghost use Rattle.lt_sim.specs.Words.{left_after, number_in};
ghost use Rattle.lt_base.specs.Truths.{how_many};
ghost use Rattle.lt_losing.specs.Losing.{with_arrival};
ghost use Rattle.lt_losing.specs.Held.{count_on, sends_count, SendsAnew};

use crate::queue::Queue;
use lt_arch::{Chan, ChanKind, Shape, Timing};
use lt_base::Memory;
use lt_sim::words::draw;
use rand_xoshiro::SplitMix64;

/// Sends the messages of an activation: on each channel from the node the number that it counts there, but never 0, and draws their delays.
pub fn send(
    generator: &mut SplitMix64,
    numbers: &mut Vec<Queue>,
    arrivals: &mut Vec<Queue>,
    shape: &Shape,
    timing: &Timing,
    node: u32,
    sent: u32,
    executed: u32,
    at: u64,
) -> Result<(), Memory>
    requires same { HaveSameNodes shape.now timing.now }
    requires numbers { length numbers.old.items ≡ chan_count shape.now }
    requires arrivals { length arrivals.old.items ≡ chan_count shape.now }
    requires time { at ≤ GREATEST_TIME }
    ensures left { (seed words : ℕ) → stream_of splitmix_steps generator.old ≡ left_after seed words
        → OnOk result (stream_of splitmix_steps generator.new
        ≡ left_after seed (words + how_many (sends_count shape.now node sent executed) (chan_count shape.now))) }
    ensures sends { (seed words : ℕ) → stream_of splitmix_steps generator.old ≡ left_after seed words
        → OnOk result (SendsAnew shape.now timing.now seed words at (chan_count shape.now)
        (sends_count shape.now node sent executed) (count_on shape.now sent executed)
        numbers.old.items arrivals.old.items numbers.new.items arrivals.new.items) }
{
    let channels = shape.channels.as_slice();
    for c in 0..channels.len() {
        let channel = channels[c];
        let number = counted(channel.kind, sent, executed);
        send_on(
            generator, numbers, arrivals, timing, channel, c, node, number, at,
        )?;
    }
    Ok(())
}

// What a node counts on channels of a kind.
fn counted(kind: ChanKind, sent: u32, executed: u32) -> u32
    ensures { result ≡ (if is_data kind then sent else executed) }
{
    match kind {
        ChanKind::Data => sent,
        ChanKind::Ack => executed,
    }
}

// Sends a message on a channel, if it is one of the node, and the number is not 0.
fn send_on(
    generator: &mut SplitMix64,
    numbers: &mut Vec<Queue>,
    arrivals: &mut Vec<Queue>,
    timing: &Timing,
    channel: Chan,
    c: usize,
    node: u32,
    number: u32,
    at: u64,
) -> Result<(), Memory>
    requires ends { HasEnds (length timing.now.nodes) channel }
    requires numbers { c < length numbers.old.items }
    requires arrivals { c < length arrivals.old.items }
    requires time { at ≤ GREATEST_TIME }
    ensures left { OnOk result (stream_of splitmix_steps generator.new
        ≡ (if (channel.from == node) && nat_lt 0 number then (next_u64 (stream_of splitmix_steps generator.old)).1
        else stream_of splitmix_steps generator.old)) }
    ensures numbers { OnOk result (numbers.new.items ≡ (if (channel.from == node) && nat_lt 0 number
        then slice_set numbers.old.items c (slice_index_or numbers.old.items c [] ++ number ∷ [])
        else numbers.old.items)) }
    ensures arrivals { OnOk result (arrivals.new.items ≡ (if (channel.from == node) && nat_lt 0 number
        then slice_set arrivals.old.items c (with_arrival (slice_index_or arrivals.old.items c []) (at + number_in
        (dmin_of timing.now channel.from channel.to) (dmax_of timing.now channel.from channel.to)
        (next_u64 (stream_of splitmix_steps generator.old)).0))
        else arrivals.old.items)) }
{
    let sends = channel.from == node && 0 < number;
    if !sends {
        return Ok(());
    }
    let least = timing.dmin_of(channel.from, channel.to);
    let greatest = timing.dmax_of(channel.from, channel.to);
    let delay = draw(generator, least, greatest);
    numbers[c].push(u64::from(number))?;
    arrivals[c].push_arrival(at + delay)
}

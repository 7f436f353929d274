// What an event is drawn as.
ghost use Rattle.std.specs.Prelude.{◌≡◌, ◌<◌};
ghost use Rattle.lt_arch.specs.declared.chan.ChanKind.TheVariants as kinds;
ghost use Rattle.lt_arch.specs.Ends.{HasEnds};
ghost use Rattle.lt_arch.specs.Readers.{chan_count, chan_of, node_count};
ghost use Rattle.lt_arch.specs.Schedule.{IsPlacedIn};
ghost use Rattle.lt_audit.specs.Acts.{next_number};
ghost use Rattle.lt_course.specs.Strokes.{arrow_of, ink_by, ink_of, sign_of};
ghost use Rattle.lt_course.specs.Sketches.{stroke_by};

use lt_arch::{Chan, ChanKind, Deed, Event, Shape};
use lt_diagram::{Arrow, Fate, Ink, Mark, Sign};
use lt_net_node::is_crossed;
use lt_place::Crossing;
use lt_tape::Stroke;

/// The number of the event behind so many, as far as a number of 32 bits goes.
pub fn number_behind(count: usize) -> u32
    ensures { result ≡ next_number count }
{
    if count < 4_294_967_295 {
        count as u32 + 1
    } else {
        4_294_967_295
    }
}

/// The sign of a deed of a node that has executed so many instants.
pub fn sign_of(deed: Deed, executed: u32) -> Sign
    ensures { result ≡ sign_of deed executed }
{
    match deed {
        Deed::Nothing => Sign::Nothing,
        Deed::Execute => Sign::Executes(executed),
        Deed::Send => Sign::Sends(executed),
    }
}

fn data_ink(crossed: bool) -> Ink
    ensures { result ≡ ink_by kinds.Data crossed }
{
    if crossed { Ink::Strong } else { Ink::Pale }
}

/// The ink of a message on a channel of this kind, where it brings something or nothing.
pub fn ink_by(kind: ChanKind, crossed: bool) -> Ink
    ensures { result ≡ ink_by kind crossed }
{
    match kind {
        ChanKind::Data => data_ink(crossed),
        ChanKind::Ack => Ink::Dashed,
    }
}

/// A channel of a shape.
#[tactic(auto, using(crate::proofs::Ends::channel_ends))]
pub fn chan_at(shape: &Shape, channel: u32) -> Chan
    requires { channel < chan_count shape.now }
    ensures chan { result ≡ chan_of shape.now channel }
    ensures ends { HasEnds (node_count shape.now) result }
{
    shape.channels[channel as usize]
}

/// A message of a channel.
#[tactic(auto)]
pub(crate) fn arrow_of(
    cross: &[Crossing],
    shape: &Shape,
    channel: u32,
    sent: u64,
    come: u64,
    fate: Fate,
) -> Arrow
    requires { channel < chan_count shape.now }
    ensures { result ≡ arrow_of cross.now shape.now channel sent come fate }
{
    let chan = chan_at(shape, channel);
    Arrow {
        ink: ink_by(chan.kind, is_crossed(cross, chan.from, chan.to)),
        from: chan.from,
        to: chan.to,
        sent,
        come,
        fate,
    }
}

/// What the event of this number is drawn as, where an activation does this deed at a node that has executed so many instants, and a delivery
/// hands over a message that was sent at this time.
pub(crate) fn stroke_by(
    cross: &[Crossing],
    shape: &Shape,
    number: u32,
    deed: Deed,
    executed: u32,
    sent: u64,
    e: &Event,
) -> Stroke
    requires { IsPlacedIn shape.now e.now }
    ensures { result ≡ stroke_by cross.now shape.now number deed executed sent e.now }
{
    match e {
        Event::Act(node, at) => Stroke::Point(Mark {
            event: number,
            node: *node,
            time: *at,
            sign: sign_of(deed, executed),
        }),
        Event::Del(channel, at) => {
            let fate = Fate::Delivered(number);
            Stroke::Line(arrow_of(cross, shape, *channel, sent, *at, fate))
        }
        Event::End(at) => Stroke::Edge(*at),
    }
}

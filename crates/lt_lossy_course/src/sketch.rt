// What an event is drawn as.
ghost use Rattle.std.specs.Prelude.{◌≡◌, ◌<◌, ◌&&◌, nat_lt};
ghost use Rattle.std.specs.List.{list_any};
ghost use Rattle.lt_arch.specs.Readers.{chan_count};
ghost use Rattle.lt_lossy.specs.Events.{IsLossyPlacedIn};
ghost use Rattle.lt_net_node.specs.Layout.{joins};
ghost use Rattle.lt_lossy_course.specs.LossySketches.{left_message, lossy_stroke_by};
ghost use Rattle.lt_lossy_course.specs.LossyStrokes.{message_arrow};

use lt_arch::{Chan, Deed, Event, Shape};
use lt_course::{chan_at, ink_by, sign_of};
use lt_diagram::{Arrow, Fate, Mark};
use lt_lossy::LossyEvent;
use lt_net_node::is_crossed;
use lt_place::Crossing;
use lt_tape::Stroke;

/// A message that leaves its channel or is on its way: the newest number that the channel has delivered, its own number, and when it was sent.
#[derive(Clone, Copy)]
pub struct Leaving {
    pub newest: u32,
    pub number: u32,
    pub sent: u64,
}

// Whether something crosses on a channel, and a message of it is newer than what it has delivered.
fn brings_news(cross: &[Crossing], chan: Chan, message: Leaving) -> bool
    ensures { result ≡ (list_any (joins chan.from chan.to) cross.now && nat_lt message.newest message.number) }
{
    is_crossed(cross, chan.from, chan.to) && message.newest < message.number
}

/// A message of a channel, up to a time.
pub(crate) fn message_arrow(
    cross: &[Crossing],
    shape: &Shape,
    channel: u32,
    message: Leaving,
    come: u64,
    fate: Fate,
) -> Arrow
    requires { channel < chan_count shape.now }
    ensures { result ≡ message_arrow cross.now shape.now channel message.newest (left_message message) come fate }
{
    let chan = chan_at(shape, channel);
    let brings = brings_news(cross, chan, message);
    Arrow {
        ink: ink_by(chan.kind, brings),
        from: chan.from,
        to: chan.to,
        sent: message.sent,
        come,
        fate,
    }
}

/// What the event of this number is drawn as, where an activation does this deed at a node that has executed so many instants, and a delivery
/// or a loss takes this message.
pub(crate) fn lossy_stroke_by(
    cross: &[Crossing],
    shape: &Shape,
    number: u32,
    deed: Deed,
    executed: u32,
    message: Leaving,
    e: &LossyEvent,
) -> Stroke
    requires { IsLossyPlacedIn shape.now e.now }
    ensures { result ≡ lossy_stroke_by cross.now shape.now number deed executed message e.now }
{
    match e {
        LossyEvent::Plain(Event::Act(node, at)) => Stroke::Point(Mark {
            event: number,
            node: *node,
            time: *at,
            sign: sign_of(deed, executed),
        }),
        LossyEvent::Plain(Event::Del(channel, at)) => {
            let fate = Fate::Delivered(number);
            Stroke::Line(message_arrow(cross, shape, *channel, message, *at, fate))
        }
        LossyEvent::Plain(Event::End(at)) => Stroke::Edge(*at),
        LossyEvent::Lose(channel, at) => {
            let fate = Fate::Lost(number);
            Stroke::Line(message_arrow(cross, shape, *channel, message, *at, fate))
        }
    }
}

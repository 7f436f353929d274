// What a node hears when it is activated.
ghost use Rattle.std.specs.Prelude.{◌≡◌, ◌<◌, length, map, nat_le};
ghost use Rattle.lt_arch.specs.Deeds.{all_below, some_below};
ghost use Rattle.lt_arch.specs.Readers.{node_count, chan_count};
ghost use Rattle.lt_audit.specs.Audit.{kept_of};
ghost use Rattle.lt_audit.specs.Acts.{heard_below, delivered_or_other, delivered_one};

use crate::line::Line;
use lt_link::Wiring;

/// Whether every, or some, data channel to a node has delivered enough for its next instant, and whether every acknowledgement
/// channel to it has.
#[derive(Clone, Copy)]
pub struct Heard {
    pub all_in: bool,
    pub any_in: bool,
    pub all_ack: bool,
}

fn has_delivered(line: &Line, executed: u32) -> bool
    ensures { result ≡ nat_le executed line.now.delivered }
{
    executed <= line.delivered()
}

// Whether each channel to a node, of data channels or of the others, has delivered so many messages.
fn all_delivered(wiring: &Wiring, lines: &[Line], node: u32, kind: bool, executed: u32) -> bool
    requires lines { length lines.now ≡ chan_count wiring.now }
    requires node { node < node_count wiring.now }
    ensures { result ≡ all_below (delivered_or_other wiring.now.channels (map kept_of lines.now) node kind executed) (length wiring.now.channels) }
{
    let numbers = wiring.incoming(node, kind);
    for number in numbers {
        let c = *number as usize;
        if !has_delivered(&lines[c], executed) {
            return false;
        }
    }
    true
}

// Whether some channel to a node, of data channels or of the others, has delivered so many messages.
fn any_delivered(wiring: &Wiring, lines: &[Line], node: u32, kind: bool, executed: u32) -> bool
    requires lines { length lines.now ≡ chan_count wiring.now }
    requires node { node < node_count wiring.now }
    ensures { result ≡ some_below (delivered_one wiring.now.channels (map kept_of lines.now) node kind executed) (length wiring.now.channels) }
{
    let numbers = wiring.incoming(node, kind);
    for number in numbers {
        let c = *number as usize;
        if has_delivered(&lines[c], executed) {
            return true;
        }
    }
    false
}

/// What a node hears that has executed so many instants.
pub fn hear(wiring: &Wiring, lines: &[Line], node: u32, executed: u32) -> Heard
    requires lines { length lines.now ≡ chan_count wiring.now }
    requires node { node < node_count wiring.now }
    ensures { result ≡ heard_below wiring.now.channels (map kept_of lines.now) node executed (length wiring.now.channels) }
{
    let all_in = all_delivered(wiring, lines, node, true, executed);
    let any_in = any_delivered(wiring, lines, node, true, executed);
    let all_ack = all_delivered(wiring, lines, node, false, executed);
    Heard {
        all_in,
        any_in,
        all_ack,
    }
}

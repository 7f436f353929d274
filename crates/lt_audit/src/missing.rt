// The miss of an execution.
ghost use Rattle.std.specs.Prelude.{◌≡◌, ◌==◌, ◌<◌, not, length, map};
ghost use Rattle.lt_arch.specs.declared.event.Deed.TheVariants.{Execute};
ghost use Rattle.lt_arch.specs.Readers.{node_count, chan_count};
ghost use Rattle.lt_audit.specs.Audit.{kept_of};
ghost use Rattle.lt_audit.specs.Acts.{IsLowestOff, Notes, NotesFirst};

use crate::Miss;
use crate::line::Line;
use lt_arch::Deed;
use lt_link::Wiring;

fn is_off(line: &Line, executed: u32) -> bool
    ensures { result ≡ not (line.now.delivered == executed) }
{
    line.delivered() != executed
}

// The lowest data channel to a node that has delivered another number of messages than this.
fn lowest_off(wiring: &Wiring, lines: &[Line], node: u32, executed: u32) -> Option<u32>
    requires lines { length lines.now ≡ chan_count wiring.now }
    requires node { node < node_count wiring.now }
    ensures { IsLowestOff wiring.now.channels (map kept_of lines.now) node executed result }
{
    let numbers = wiring.incoming(node, true);
    for number in numbers {
        let c = *number as usize;
        if is_off(&lines[c], executed) {
            return Some(*number);
        }
    }
    None
}

// The miss of an execution, if it makes one, of a node that has executed so many instants, where the event has this number.
fn miss_of(wiring: &Wiring, lines: &[Line], node: u32, executed: u32, number: u32) -> Option<Miss>
    requires lines { length lines.now ≡ chan_count wiring.now }
    requires node { node < node_count wiring.now }
    ensures { Notes wiring.now.channels (map kept_of lines.now) node executed number Execute result }
{
    match lowest_off(wiring, lines, node, executed) {
        None => None,
        Some(channel) => Some(Miss {
            event: number,
            node,
            instant: executed,
            channel,
            delivered: lines[channel as usize].delivered(),
        }),
    }
}

// The miss of a deed, if it makes one.
fn miss_of_deed(
    wiring: &Wiring,
    lines: &[Line],
    node: u32,
    executed: u32,
    number: u32,
    deed: Deed,
) -> Option<Miss>
    requires lines { length lines.now ≡ chan_count wiring.now }
    requires node { node < node_count wiring.now }
    ensures { Notes wiring.now.channels (map kept_of lines.now) node executed number deed result }
{
    match deed {
        Deed::Nothing => None,
        Deed::Execute => miss_of(wiring, lines, node, executed, number),
        Deed::Send => None,
    }
}

/// The first miss, if there was one before, or that of this deed.
pub fn first_missed(
    first: Option<Miss>,
    wiring: &Wiring,
    lines: &[Line],
    node: u32,
    executed: u32,
    number: u32,
    deed: Deed,
) -> Option<Miss>
    requires lines { length lines.now ≡ chan_count wiring.now }
    requires node { node < node_count wiring.now }
    ensures { NotesFirst wiring.now.channels (map kept_of lines.now) node executed number deed first result }
{
    match first {
        Some(miss) => Some(miss),
        None => miss_of_deed(wiring, lines, node, executed, number, deed),
    }
}

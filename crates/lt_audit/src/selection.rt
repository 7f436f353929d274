// Which events are selected.
ghost use Rattle.std.specs.Prelude.{◌≡◌};
ghost use Rattle.lt_audit.specs.Selected as selected;

use lt_arch::{Event, Shape};

/// The events whose time, in ticks, is at least `from` and at most `to`; where a node is named, its activations and the
/// deliveries to it alone.
#[derive(Clone, Copy, Debug, PartialEq, Eq)]
pub struct Selection {
    pub node: Option<u32>,
    pub from: u64,
    pub to: u64,
}

impl Selection {
    /// Whether it selects an event of this shape.
    pub fn selects(&self, shape: &Shape, e: &Event) -> bool
        ensures { result ≡ selected.selected self.now shape.now e.now }
    {
        let time = e.time();
        self.from <= time && time <= self.to && concerns_named(shape, self.node, e)
    }
}

fn concerns_named(shape: &Shape, node: Option<u32>, e: &Event) -> bool
    ensures { result ≡ selected.concerns_named shape.now node e.now }
{
    match node {
        None => true,
        Some(node) => concerns(shape, node, e),
    }
}

fn concerns(shape: &Shape, node: u32, e: &Event) -> bool
    ensures { result ≡ selected.concerns shape.now node e.now }
{
    match e {
        Event::Act(acting, _) => *acting == node,
        Event::Del(ch, _) => leads_to(shape, *ch, node),
        Event::End(_) => false,
    }
}

#[tactic(auto, unfolding(lt_arch::specs::Readers::chan_of))]
fn leads_to(shape: &Shape, ch: u32, node: u32) -> bool
    ensures { result ≡ selected.leads_to_node shape.now ch node }
{
    let channels = shape.channels.as_slice();
    if (ch as usize) < channels.len() {
        channels[ch as usize].to == node
    } else {
        false
    }
}

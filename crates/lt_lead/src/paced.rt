// The shape of a network by the pace of its protocol.
ghost use Rattle.std.specs.Prelude.{◌≡◌, ◌<◌, ◌^◌, length, IfOk};
ghost use Rattle.lt_arch.specs.declared.timing.Protocol.TheVariants.{BackPressure};
ghost use Rattle.lt_norm.specs.Flat.{Originated};
ghost use Rattle.lt_place.specs.Layout.{IsPlaced};
ghost use Rattle.lt_net_node.specs.Channels.{IsShapeOf};
ghost use Rattle.lt_arch.specs.Paced.{FitsPace};
ghost use Rattle.lt_lead.specs.Paced.{IsShapeBy};

use crate::lead_shape;
use lt_arch::{Pace, Shape, Timing};
use lt_base::Memory;
use lt_net_node::shape_of;
use lt_place::Layout;
use std::alloc::Global;

/// The nodes of a placed layout and the channels between them: those of the timing's protocol, also where links lose messages, or those of
/// rounds that a node leads.
pub fn shape_by(
    alloc: Global,
    layout: &Layout,
    timing: &Timing,
    pace: Pace,
) -> Result<Shape, Memory>
    requires placed { (f : Originated) × IsPlaced f layout.now }
    requires numbered { length layout.now.names < 2 ^ 32 }
    requires timed { length timing.now.nodes ≡ length layout.now.names }
    requires paced { FitsPace pace timing.now }
    ensures { IfOk result (IsShapeBy layout.now pace timing.now) }
{
    match pace {
        Pace::Plain => shape_of(alloc, layout, timing),
        Pace::Lossy(_) => answered_shape(alloc, layout, timing),
        Pace::Leader(leader) => lead_shape(alloc, layout, leader),
    }
}

// The same where nodes acknowledge what they get.
fn answered_shape(alloc: Global, layout: &Layout, timing: &Timing) -> Result<Shape, Memory>
    requires placed { (f : Originated) × IsPlaced f layout.now }
    requires numbered { length layout.now.names < 2 ^ 32 }
    requires acknowledges { timing.now.protocol ≡ BackPressure }
    ensures { IfOk result (IsShapeOf layout.now BackPressure) }
{
    shape_of(alloc, layout, timing)
}

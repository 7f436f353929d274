// What the shape of a layout is good for.
ghost use Rattle.lt_net_node.specs.Channels.{ShapesFit};

/// The shape of a placed layout has the channels that its protocol and a net over it ask for, and no other.
pub fn shapes_fit()
    ensures { ShapesFit }
{}

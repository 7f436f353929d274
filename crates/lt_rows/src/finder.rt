// What finds nodes and channels by their names.
ghost use Rattle.std.specs.Prelude.{◌≡◌, ◌<◌, ◌^◌, length, IfSome};
ghost use Rattle.lt_rows.specs.Events as events;

use crate::places::{chan_named, node_named};
use lt_arch::{ChanKind, Shape};

/// Finds the nodes and channels of a shape by their names.
pub(crate) trait Finder {
    /// The number of the node of this name.
    fn find_node(&self, shape: &Shape, name: &[u8]) -> Option<u32>
        requires { length shape.now.nodes < 2 ^ 32 }
        ensures found { result ≡ events.named_node_number shape.now name.now }
        ensures placed { IfSome result (λ node. node < length shape.now.nodes) };

    /// The number of the channel of this kind that has these ends.
    fn find_chan(&self, shape: &Shape, kind: ChanKind, ends: &[u8]) -> Option<u32>
        requires { length shape.now.channels < 2 ^ 32 }
        ensures found { result ≡ events.chan_named shape.now kind ends.now }
        ensures placed { IfSome result (λ chan. chan < length shape.now.channels) };
}

/// Tries one after another.
pub(crate) struct Search;

impl Finder for Search {
    fn find_node(&self, shape: &Shape, name: &[u8]) -> Option<u32> {
        node_named(shape, name)
    }

    fn find_chan(&self, shape: &Shape, kind: ChanKind, ends: &[u8]) -> Option<u32> {
        chan_named(shape, kind, ends)
    }
}

// A shape whose nodes know their channels.
ghost use Rattle.std.specs.Prelude.{◌≡◌, ◌<◌, ◌+◌, ◌*◌, ◌^◌, ℕ, true, length, IfOk, slice_index_or};
ghost use Rattle.lt_arch.specs.Readers.{node_count, chan_count};
ghost use Rattle.lt_link.specs.Ports.{numbers, is_to, is_from};

use crate::listing::all_ports;
use crate::ports::{Ports, incoming, outgoing};
use lt_arch::{Chan, Shape};
use lt_base::{List, Memory};
use std::alloc::Global;
use std::marker::Model;

/// A shape that knows of each node which channels lead to it, and which from it. Contracts see the shape alone.
#[derive(Drop)]
pub struct Wiring {
    shape: Shape,
    ports: List<Ports>,
}

impl Model for Wiring {
    ghost use Rattle.std.specs.Prelude.{◌≡◌};
    ghost use Rattle.lt_arch.specs.declared.shape.Shape.{Shape as OfShape};
    ghost use Rattle.lt_arch.specs.Readers.{node_count};
    ghost use Rattle.lt_link.specs.Ports.{all_ports};

    ghost Value = { OfShape };

    ghost view = { λ w. w.shape };

    ghost invariant = { λ w. w.ports ≡ all_ports w.shape.channels (node_count w.shape) };
}

impl Wiring {
    /// Lists the channels of each node of a shape.
    pub fn of(alloc: Global, shape: Shape) -> Result<Wiring, Memory>
        requires { 2 * (node_count shape + chan_count shape) < 2 ^ 32 }
        ensures { IfOk result (λ wiring. wiring ≡ shape) }
    {
        let ports = all_ports(alloc, &shape)?;
        Ok(Wiring { shape, ports })
    }

    pub fn shape(&self) -> &Shape
        ensures { result.now ≡ self.now }
    {
        &self.shape
    }

    pub fn channels(&self) -> &[Chan]
        ensures { result.now ≡ self.now.channels }
    {
        &self.shape.channels
    }

    /// The numbers of the channels to a node that carry data, or of those that carry acknowledgements, in increasing order.
    pub fn incoming(&self, node: u32, kind: bool) -> &[u32]
        requires { node < node_count self.now }
        ensures are { result.now ≡ numbers (is_to self.now.channels node kind) (length self.now.channels) }
        ensures within { (i : ℕ) → i < length result.now → slice_index_or result.now i 0 < length self.now.channels }
        ensures on { (i : ℕ) → i < length result.now → is_to self.now.channels node kind (slice_index_or result.now i 0) ≡ true }
    {
        incoming(&self.shape.channels, &self.ports, node, kind)
    }

    /// The numbers of the channels from a node that carry data, or of those that carry acknowledgements, in increasing order.
    pub fn outgoing(&self, node: u32, kind: bool) -> &[u32]
        requires { node < node_count self.now }
        ensures are { result.now ≡ numbers (is_from self.now.channels node kind) (length self.now.channels) }
        ensures within { (i : ℕ) → i < length result.now → slice_index_or result.now i 0 < length self.now.channels }
        ensures on { (i : ℕ) → i < length result.now → is_from self.now.channels node kind (slice_index_or result.now i 0) ≡ true }
    {
        outgoing(&self.shape.channels, &self.ports, node, kind)
    }
}

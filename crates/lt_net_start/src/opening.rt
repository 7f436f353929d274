// A fabric before the first event.
ghost use Rattle.std.specs.Prelude.{◌≡◌, ◌<◌, ◌+◌, ◌-◌, ◌*◌, ◌^◌, IsTrue, [], length, IfOk, OnOk};
ghost use Rattle.lt_arch.specs.Readers.{node_count, chan_count};
ghost use Rattle.lt_io.specs.Counts.{MayFail, LinkCounted};
ghost use Rattle.lt_io.specs.FabricState.{KeepsPromises, OpensFabric, OpensOnce};
ghost use Rattle.lt_net_bench.specs.Starts.{kinds_for};

use crate::room_for;
use lt_arch::Shape;
use lt_base::Value;
use lt_io::{Fabric, LinkErr};
use lt_net_bench::literals::kinds_of;
use lt_place::Layout;
use lt_rows::PlaceTable;
use std::alloc::Global;

/// Opens the channels of a layout, and takes room for reading its events and a row so wide.
pub fn open<W: Fabric>(
    alloc: Global,
    layout: &Layout,
    shape: &Shape,
    width: u32,
    fabric: &mut W,
) -> Result<(PlaceTable, Vec<Value>), LinkErr>
    requires numbered { 2 * (node_count shape.now + chan_count shape.now) < 2 ^ 32 }
    requires count { MayFail (W.state fabric.old).faults }
    requires empty { (W.state fabric.old).kinds ≡ [] }
    ensures room { IfOk result (λ room. length room.1.items ≡ width) }
    ensures opens { OpensOnce (W.state fabric.old) (W.state fabric.new) result }
    ensures opened { OnOk result (OpensFabric (W.state fabric.old) (W.state fabric.new) (kinds_for layout.now shape.now)) }
    ensures cause { LinkCounted (W.state fabric.old).faults (W.state fabric.new).faults result }
    ensures keeps { KeepsPromises (W.state fabric.old) (W.state fabric.new) }
    ensures sound { IsTrue (W.state fabric.old).sound → (W.state fabric.new).faults ≡ (W.state fabric.old).faults }
{
    let places = PlaceTable::new(alloc, shape)?;
    let row = room_for(alloc, width)?;
    let kinds = kinds_of(alloc, layout, shape)?;
    fabric.open(&kinds)?;
    Ok((places, row))
}

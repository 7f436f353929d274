// A bench before the first event.
ghost use Rattle.std.specs.Prelude.{◌≡◌, ◌<◌, ◌+◌, ◌*◌, ◌^◌, IfOk};
ghost use Rattle.lt_arch.specs.Readers.{node_count, chan_count};
ghost use Rattle.lt_arch.specs.Schedule.{OnePlace};
ghost use Rattle.lt_arch.specs.Shapes.{HaveSameNodes};
ghost use Rattle.lt_arch.specs.State.{start};
ghost use Rattle.lt_arch.specs.Times.{HasTimes};
ghost use Rattle.lt_norm.specs.Flat.{Originated};
ghost use Rattle.lt_place.specs.Layout.{IsPlaced};
ghost use Rattle.lt_net_node.specs.Channels.{FitsLayout};
ghost use Rattle.lt_net_bench.specs.Initial.{IsInitial};
ghost use Rattle.lt_net.specs.Kept.{Kept, NetHasRoom};
ghost use Rattle.lt_net_node.specs.Wakes.{AreConfigured};
ghost use Rattle.lt_net_bench.specs.Starts.{AreReady, ControllersAreAtStart};
ghost use Rattle.lt_net.specs.Starts.{IsMadeOf, IsFresh};

use crate::bench::TimedBench;
use lt_arch::{Controller, Shape, Timing, Watch};
use lt_base::Memory;
use lt_machine::Machine;
use lt_net_bench::Bench;
use lt_net_bench::initial::Initial;
use lt_place::Layout;
use std::alloc::Global;

// The watch, and what nodes and channels have.
fn at_start(
    alloc: Global,
    layout: &Layout,
    shape: &Shape,
    timing: &Timing,
    rows: u32,
) -> Result<(Watch, Initial), Memory>
    requires placed { (f : Originated) × IsPlaced f layout.now }
    requires nodes { HaveSameNodes shape.now timing.now }
    requires numbered { 2 * (node_count shape.now + chan_count shape.now) < 2 ^ 32 }
    ensures watch { IfOk result (λ both. HasTimes both.0 shape.now timing.now (start timing.now.protocol)) }
    ensures initial { IfOk result (λ both. IsInitial layout.now shape.now rows both.1) }
{
    let watch = Watch::start(alloc, shape, timing)?;
    let initial = Initial::of(alloc, layout, shape, rows)?;
    Ok((watch, initial))
}

impl<C: Controller, M: Machine> TimedBench<C, M> {
    /// Nothing has happened. Room for all that an event needs is taken here.
    pub fn start(
        alloc: Global,
        layout: Layout,
        shape: Shape,
        timing: Timing,
        rows: u32,
        machines: Vec<M>,
        controllers: Vec<C>,
    ) -> Result<TimedBench<C, M>, Memory>
        requires placed { (f : Originated) × IsPlaced f layout }
        requires shape { FitsLayout layout timing.protocol shape }
        requires nodes { HaveSameNodes shape timing }
        requires numbered { 2 * (node_count shape + chan_count shape) < 2 ^ 32 }
        requires one_place { OnePlace shape timing rows }
        requires machines { AreReady M.Machine layout rows machines.items }
        requires controllers { ControllersAreAtStart C.Controller shape timing controllers.items }
        requires configured { AreConfigured C.Controller timing controllers.items }
        ensures made { IfOk result (IsMadeOf layout shape timing rows machines.items controllers.items) }
        ensures fresh { IfOk result (IsFresh C.Controller M.Machine) }
        ensures kept { IfOk result (Kept C.Controller M.Machine) }
        ensures room { IfOk result NetHasRoom }
        ensures configured { IfOk result (λ bench. AreConfigured C.Controller bench.timing bench.controllers) }
    {
        match at_start(alloc, &layout, &shape, &timing, rows) {
            Ok((watch, initial)) => {
                let bench = TimedBench::assemble(
                    layout,
                    shape,
                    timing,
                    rows,
                    machines,
                    controllers,
                    watch,
                    initial,
                );
                Ok(bench)
            }
            Err(memory) => {
                drop((layout, shape, timing));
                drop((machines, controllers));
                Err(memory)
            }
        }
    }

    // A bench of what nodes and channels have at the start.
    fn assemble(
        layout: Layout,
        shape: Shape,
        timing: Timing,
        rows: u32,
        machines: Vec<M>,
        controllers: Vec<C>,
        watch: Watch,
        initial: Initial,
    ) -> TimedBench<C, M>
        requires placed { (f : Originated) × IsPlaced f layout }
        requires shape { FitsLayout layout timing.protocol shape }
        requires numbered { 2 * (node_count shape + chan_count shape) < 2 ^ 32 }
        requires one_place { OnePlace shape timing rows }
        requires machines { AreReady M.Machine layout rows machines.items }
        requires controllers { ControllersAreAtStart C.Controller shape timing controllers.items }
        requires configured { AreConfigured C.Controller timing controllers.items }
        requires watch { HasTimes watch shape timing (start timing.protocol) }
        requires initial { IsInitial layout shape rows initial }
        ensures made { IsMadeOf layout shape timing rows machines.items controllers.items result }
        ensures fresh { IsFresh C.Controller M.Machine result }
        ensures kept { Kept C.Controller M.Machine result }
        ensures room { NetHasRoom result }
        ensures configured { AreConfigured C.Controller result.timing result.controllers }
    {
        let Initial {
            executed,
            ends,
            tables,
            space,
        } = initial;
        let bench = Bench {
            layout,
            shape,
            rows,
            machines,
            controllers,
            executed,
            inboxes: ends.inboxes,
            buffers: ends.buffers,
            tracks: space.tracks,
            routes: tables.routes,
            exits: tables.exits,
            ports: tables.ports,
            values: space.values,
            outs: space.outs,
        };
        TimedBench {
            inner: bench,
            timing,
            watch,
        }
    }
}

// A bench before the first event.
ghost use Rattle.std.specs.Prelude.{◌≡◌, ◌<◌, ◌+◌, ◌*◌, ◌^◌, IfOk, All, length, replicate};
ghost use Rattle.lt_arch.specs.declared.timing.Protocol.TheVariants.{BackPressure as ByPressure};
ghost use Rattle.lt_arch.specs.Readers.{node_count, chan_count};
ghost use Rattle.lt_arch.specs.Shapes.{HaveSameNodes};
ghost use Rattle.lt_arch.specs.State.{Wait};
ghost use Rattle.lt_lossy.specs.State.{lossy_start};
ghost use Rattle.lt_lossy.specs.Times.{HasLossyTimes};
ghost use Rattle.lt_lossy.specs.Window.{HasWindow};
ghost use Rattle.lt_norm.specs.Flat.{Originated};
ghost use Rattle.lt_place.specs.Layout.{IsPlaced};
ghost use Rattle.lt_net_node.specs.Channels.{FitsLayout};
ghost use Rattle.lt_net_bench.specs.Initial.{IsInitial};
ghost use Rattle.lt_net_bench.specs.Starts.{AreReady, ControllersAreAtStart};
ghost use Rattle.lt_net_lossy.specs.Starts.{IsFirstBench, HasFirstBench, IsMadeOfLossy, IsFreshLossy};
ghost use Rattle.lt_net_lossy.specs.Taken.{IsKeptLossy};

use crate::bench::LossyBench;
use crate::posted::Posted;
use crate::posting::posted_of;
use lt_arch::{Controller, Shape, Timing};
use lt_base::Memory;
use lt_bp::BackPressure;
use lt_lossy::LossyWatch;
use lt_machine::Machine;
use lt_net_bench::Bench;
use lt_net_bench::initial::Initial;
use lt_net_bench::room::counts;
use lt_place::Layout;
use std::alloc::Global;

/// So many controllers at their start.
pub fn controllers(alloc: Global, count: usize) -> Result<Vec<BackPressure>, Memory>
    ensures count { IfOk result (λ controllers. length controllers.items ≡ count) }
    ensures phases { IfOk result (λ controllers. All (λ c. ⟦<BackPressure as Controller>⟧.phase c ≡ Wait) controllers.items) }
{
    let mut controllers = Vec::with_capacity(alloc, count)?;
    for _node in 0..count {
        controllers.push(BackPressure::new())?;
    }
    Ok(controllers)
}

// What a bench has at its start beside its nodes and channels.
#[derive(Drop)]
struct AtStart {
    watch: LossyWatch,
    sent: Vec<u32>,
    initial: Initial,
    posted: Vec<Posted>,
}

// The same, where nodes and channels have this.
fn with_initial(
    alloc: Global,
    shape: &Shape,
    timing: &Timing,
    losses: u64,
    initial: Initial,
) -> Result<AtStart, Memory>
    requires nodes { HaveSameNodes shape.now timing.now }
    requires numbered { 2 * (node_count shape.now + chan_count shape.now) < 2 ^ 32 }
    ensures watch { IfOk result (λ first. HasLossyTimes first.watch shape.now timing.now losses lossy_start) }
    ensures sent { IfOk result (λ first. first.sent.items ≡ replicate (node_count shape.now) 0) }
    ensures initial { IfOk result (λ first. first.initial ≡ initial) }
    ensures posted { IfOk result (λ first. first.posted.items ≡ first.initial.ends.buffers.items) }
{
    let posted = posted_of(alloc, &initial.ends.buffers)?;
    let sent = counts(alloc, shape)?;
    let watch = LossyWatch::start(alloc, shape, timing, losses)?;
    Ok(AtStart {
        watch,
        sent,
        initial,
        posted,
    })
}

fn at_start(
    alloc: Global,
    layout: &Layout,
    shape: &Shape,
    timing: &Timing,
    losses: u64,
    rows: u32,
) -> Result<AtStart, Memory>
    requires placed { (f : Originated) × IsPlaced f layout.now }
    requires nodes { HaveSameNodes shape.now timing.now }
    requires numbered { 2 * (node_count shape.now + chan_count shape.now) < 2 ^ 32 }
    ensures watch { IfOk result (λ first. HasLossyTimes first.watch shape.now timing.now losses lossy_start) }
    ensures sent { IfOk result (λ first. first.sent.items ≡ replicate (node_count shape.now) 0) }
    ensures initial { IfOk result (λ first. IsInitial layout.now shape.now rows first.initial) }
    ensures posted { IfOk result (λ first. first.posted.items ≡ first.initial.ends.buffers.items) }
{
    match Initial::of(alloc, layout, shape, rows) {
        Ok(initial) => with_initial(alloc, shape, timing, losses, initial),
        Err(error) => Err(error),
    }
}

// Nodes and channels before the first event.
fn first_bench<C: Controller, M: Machine>(
    layout: Layout,
    shape: Shape,
    rows: u32,
    machines: Vec<M>,
    controllers: Vec<C>,
    initial: Initial,
) -> Bench<C, M>
    requires { IsInitial layout shape rows initial }
    ensures first { IsFirstBench layout shape rows machines.items controllers.items result }
    ensures buffers { result.buffers ≡ initial.ends.buffers.items }
{
    let Initial {
        executed,
        ends,
        tables,
        space,
    } = initial;
    Bench {
        layout,
        shape,
        rows,
        machines,
        controllers,
        executed,
        inboxes: ends.inboxes,
        buffers: ends.buffers,
        tracks: space.tracks,
        routes: tables.routes,
        exits: tables.exits,
        ports: tables.ports,
        values: space.values,
        outs: space.outs,
    }
}

// A bench with these parts.
fn first_lossy_bench<C: Controller, M: Machine>(
    layout: Layout,
    shape: Shape,
    timing: Timing,
    rows: u32,
    machines: Vec<M>,
    controllers: Vec<C>,
    first: AtStart,
) -> LossyBench<C, M>
    requires initial { IsInitial layout shape rows first.initial }
    requires posted { first.posted.items ≡ first.initial.ends.buffers.items }
    ensures { HasFirstBench layout shape timing rows machines.items controllers.items first.watch first.sent.items result }
{
    let AtStart {
        watch,
        sent,
        initial,
        posted,
    } = first;
    LossyBench {
        inner: first_bench(layout, shape, rows, machines, controllers, initial),
        timing,
        watch,
        sent,
        posted,
    }
}

impl<C: Controller, M: Machine> LossyBench<C, M> {
    /// Nothing has happened. Room for all that an event needs is taken here.
    pub fn start(
        alloc: Global,
        layout: Layout,
        shape: Shape,
        timing: Timing,
        losses: u64,
        rows: u32,
        machines: Vec<M>,
        controllers: Vec<C>,
    ) -> Result<LossyBench<C, M>, Memory>
        requires placed { (f : Originated) × IsPlaced f layout }
        requires protocol { timing.protocol ≡ ByPressure }
        requires shape { FitsLayout layout timing.protocol shape }
        requires nodes { HaveSameNodes shape timing }
        requires window { HasWindow timing }
        requires numbered { 2 * (node_count shape + chan_count shape) < 2 ^ 32 }
        requires machines { AreReady M.Machine layout rows machines.items }
        requires controllers { ControllersAreAtStart C.Controller shape timing controllers.items }
        ensures made { IfOk result (IsMadeOfLossy layout shape timing losses rows machines.items) }
        ensures fresh { IfOk result (IsFreshLossy C.Controller M.Machine) }
        ensures kept { IfOk result IsKeptLossy }
    {
        match at_start(alloc, &layout, &shape, &timing, losses, rows) {
            Ok(first) => Ok(first_lossy_bench(
                layout,
                shape,
                timing,
                rows,
                machines,
                controllers,
                first,
            )),
            Err(error) => Err(error),
        }
    }
}

// The setup where none is given.
ghost use Rattle.std.specs.Prelude.{◌≡◌, [], map, IfOk};
ghost use Rattle.lt_arch.specs.declared.timing.Protocol.TheVariants.{BackPressure};
ghost use Rattle.lt_config.specs.Reading.{plain_setup, setup_in, numbers_of};

use crate::{Config, Pace};
use lt_arch::{NodeTime, Placement, Protocol, Timing};
use lt_base::{List, Memory};
use std::alloc::Global;

impl Config {
    /// The setup of a run that names none: back-pressure on one node, with periods from 1 to 1000 ticks.
    pub fn plain(alloc: Global) -> Result<Config, Memory>
        ensures { IfOk result (λ config. setup_in config ≡ plain_setup) }
    {
        Ok(Config {
            timing: plain_timing(alloc)?,
            placement: Placement::All,
            mixed: false,
            pace: Pace::Plain,
        })
    }
}

fn plain_timing(alloc: Global) -> Result<Timing, Memory>
    ensures nodes { IfOk result (λ timing. map numbers_of timing.nodes ≡ plain_setup.times) }
    ensures pairs { IfOk result (λ timing. timing.pairs ≡ []) }
    ensures most { IfOk result (λ timing. timing.most ≡ 1000) }
    ensures protocol { IfOk result (λ timing. timing.protocol ≡ BackPressure) }
{
    let mut nodes = List::new(alloc);
    nodes.push(NodeTime {
        tmin: 1,
        tmax: 1000,
        send: 1,
        execute: 1,
    })?;
    Ok(Timing {
        nodes,
        pairs: List::new(alloc),
        most: 1000,
        protocol: Protocol::BackPressure,
    })
}

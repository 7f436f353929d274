// Setups with their faults, setups with their numbers, and plans.
ghost use Rattle.std.specs.Prelude.{◌<◌, length};

use crate::texts::{tell, tell_bytes, tell_word};
use lt_arch::Timing;
use lt_base::{Memory, Or};
use lt_config::{Config, ConfigFault, read_config};
use lt_lead::lead_bound;
use lt_place::Placement;
use lt_text_lines::plan_text;
use std::alloc::Global;

/// The horizon of the plans that have one.
const HORIZON: u64 = 1000;

/// Tells something of a setup, or the kind and the key of its fault; of no setup what there is without one.
pub fn tell_config(
    alloc: Global,
    line: &mut String,
    what: &str,
    text: &[u8],
) -> Result<(), Memory> {
    if what == "plain" {
        return tell_plain(alloc, line);
    }
    match read_config(alloc, text) {
        Ok(config) => {
            let told = tell_of_config(alloc, line, what, &config);
            drop(config);
            told
        }
        Err(Or::Fault(fault)) => tell_fault(line, &fault),
        Err(Or::Memory) => Err(Memory),
    }
}

fn tell_fault(line: &mut String, fault: &ConfigFault) -> Result<(), Memory> {
    tell(line, fault.kind)?;
    tell_bytes(line, fault.key.as_str().as_bytes())
}

fn tell_of_config(
    alloc: Global,
    line: &mut String,
    what: &str,
    config: &Config,
) -> Result<(), Memory> {
    if what == "setup" {
        return tell_setup(line, config);
    }
    if what == "lead" {
        return tell_lead(line, &config.timing, 1);
    }
    if what == "follow" {
        return tell_lead(line, &config.timing, 0);
    }
    if what == "plan" {
        return tell_plan(alloc, line, config, None);
    }
    if what == "plan-1000" {
        return tell_plan(alloc, line, config, Some(HORIZON));
    }
    Err(Memory)
}

// Tells what a setup for two nodes has.
fn tell_setup(line: &mut String, config: &Config) -> Result<(), Memory> {
    tell_numbers(line, &config.timing)?;
    tell_protocol(line, config)
}

fn tell_protocol(line: &mut String, config: &Config) -> Result<(), Memory> {
    tell(line, config.timing.protocol)?;
    tell(line, config.mixed)?;
    tell(line, config.pace)
}

fn tell_numbers(line: &mut String, timing: &Timing) -> Result<(), Memory> {
    if timing.node_count() != 2 {
        return Err(Memory);
    }
    let nodes = [numbers_of(timing, 0), numbers_of(timing, 1)];
    let delays = [
        timing.dmin_of(0, 1),
        timing.dmax_of(0, 1),
        timing.dmin_of(1, 0),
        timing.dmax_of(1, 0),
    ];
    tell(line, nodes[0].as_slice())?;
    tell(line, nodes[1].as_slice())?;
    tell(line, delays.as_slice())?;
    tell(line, (timing.most(), timing.slowest()))
}

// The least and greatest time between two activations of a node, and its countdowns.
fn numbers_of(timing: &Timing, node: u32) -> [u64; 4]
    requires { node < length timing.now.nodes }
{
    [
        timing.tmin_of(node),
        timing.tmax_of(node),
        timing.send_of(node),
        timing.execute_of(node),
    ]
}

// Tells the bounds of two nodes, the second node's first, where this one leads.
fn tell_lead(line: &mut String, timing: &Timing, leader: u32) -> Result<(), Memory>
    requires { leader < 2 }
{
    if timing.node_count() != 2 {
        return Err(Memory);
    }
    tell(line, lead_bound(timing, leader, 1, HORIZON))?;
    tell(line, lead_bound(timing, leader, 0, HORIZON))
}

// Tells what there is without a setup.
fn tell_plain(alloc: Global, line: &mut String) -> Result<(), Memory> {
    match Config::plain(alloc) {
        Ok(config) => {
            let told = tell_one_node(line, &config);
            drop(config);
            told
        }
        Err(_) => Err(Memory),
    }
}

fn tell_one_node(line: &mut String, config: &Config) -> Result<(), Memory> {
    tell_placement(line, &config.placement)?;
    tell(line, (config.timing.most(), config.timing.node_count()))
}

fn tell_placement(line: &mut String, placement: &Placement) -> Result<(), Memory> {
    match placement {
        Placement::All => tell_word(line, "all"),
        Placement::Named(_) => tell_word(line, "named"),
    }
}

// Tells the plan of a setup, for a horizon where one is given.
fn tell_plan(
    alloc: Global,
    line: &mut String,
    config: &Config,
    horizon: Option<u64>,
) -> Result<(), Memory> {
    match plan_text(alloc, config, horizon) {
        Ok(plan) => tell_bytes(line, plan.as_slice()),
        Err(_) => Err(Memory),
    }
}

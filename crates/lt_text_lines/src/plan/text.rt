// The text of a plan.
ghost use Rattle.std.specs.Prelude.{◌≡◌, ◌≤◌, ◌<◌, ◌++◌, ◌∷◌, [], codes, length, map, IfOk, OnOk};
ghost use Rattle.lt_arch.specs.Placement.{node_names};
ghost use Rattle.lt_text_lines.specs.PlanText.{plan_line, countdown_lines, cycle_lines, node_lines, bound_lines, titles_of, title_at, titled, plan_of};

use crate::plan::numbers::{least_bound, least_cycle};
use lt_arch::Timing;
use lt_base::{List, Memory, Name, append_number};
use lt_config::Config;
use lt_timing::{back_pressure_bound, back_pressure_cycle, least};
use std::alloc::Global;

/// The text of a setup's plan: the least countdowns and the cycles of both protocols and, with a horizon in ticks, their
/// bounds. A setup whose nodes differ has these lines for each node, after its name. The protocol of the setup does not matter,
/// nor whether its timing is accepted.
pub fn plan_text(alloc: Global, config: &Config, horizon: Option<u64>) -> Result<List<u8>, Memory>
    ensures { IfOk result (λ text. text ≡ plan_of config.now horizon) }
{
    let titles = titles_of(alloc, config)?;
    let mut text = List::new(alloc);
    append_numbers(&config.timing, &titles, &mut text)?;
    if let Some(horizon) = horizon {
        append_bounds(&config.timing, &titles, horizon, &mut text)?;
    }
    Ok(text)
}

// What stands before the lines of each node; lines of no node's own for equal nodes.
fn titles_of(alloc: Global, config: &Config) -> Result<List<Name>, Memory>
    ensures titles { IfOk result (λ titles. titles ≡ titles_of config.now) }
    ensures few { IfOk result (λ titles. length titles ≤ length config.now.timing.nodes) }
{
    if config.mixed {
        let names = config.placement.names(alloc)?;
        spaced_names(alloc, &names)
    } else {
        no_title(alloc)
    }
}

fn no_title(alloc: Global) -> Result<List<Name>, Memory>
    ensures { IfOk result (λ titles. titles ≡ [] ∷ []) }
{
    let mut titles = List::new(alloc);
    titles.push(Name::from_str(alloc, "")?)?;
    Ok(titles)
}

fn spaced_names(alloc: Global, names: &[Name]) -> Result<List<Name>, Memory>
    ensures { IfOk result (λ titles. titles ≡ map (λ name. name ++ 32 ∷ []) names.now) }
{
    let mut titles = List::new(alloc);
    for name in names {
        titles.push(with_space(alloc, name.as_str())?)?;
    }
    Ok(titles)
}

fn with_space(alloc: Global, name: &str) -> Result<Name, Memory>
    ensures { IfOk result (λ title. title ≡ name.now ++ 32 ∷ []) }
{
    let mut title = String::from_str(alloc, name)?;
    title.push_str(" ")?;
    Ok(Name::of(title))
}

fn append_numbers(timing: &Timing, titles: &[Name], text: &mut List<u8>) -> Result<(), Memory>
    requires { length titles.now ≤ length timing.now.nodes }
    ensures { OnOk result (text.new ≡ text.old ++ titled (node_lines timing.now) titles.now (length titles.now)) }
{
    for node in 0..titles.len() {
        append_node(timing, &titles[node], node as u32, text)?;
    }
    Ok(())
}

fn append_bounds(
    timing: &Timing,
    titles: &[Name],
    horizon: u64,
    text: &mut List<u8>,
) -> Result<(), Memory>
    requires { length titles.now ≤ length timing.now.nodes }
    ensures { OnOk result (text.new ≡ text.old ++ titled (bound_lines timing.now horizon) titles.now (length titles.now)) }
{
    for node in 0..titles.len() {
        append_bound(timing, &titles[node], node as u32, horizon, text)?;
    }
    Ok(())
}

fn append_node(timing: &Timing, title: &Name, node: u32, text: &mut List<u8>) -> Result<(), Memory>
    requires { node < length timing.now.nodes }
    ensures { OnOk result (text.new ≡ text.old ++ node_lines timing.now title.now node) }
{
    append_countdowns(timing, title, node, text)?;
    append_cycles(timing, title, node, text)
}

fn append_countdowns(
    timing: &Timing,
    title: &Name,
    node: u32,
    text: &mut List<u8>,
) -> Result<(), Memory>
    requires { node < length timing.now.nodes }
    ensures { OnOk result (text.new ≡ text.old ++ countdown_lines timing.now title.now node) }
{
    let (send, execute) = least(timing, node);
    append_line(text, title, "least execute ", execute as u128)?;
    append_line(text, title, "least send ", send as u128)
}

fn append_cycles(
    timing: &Timing,
    title: &Name,
    node: u32,
    text: &mut List<u8>,
) -> Result<(), Memory>
    requires { node < length timing.now.nodes }
    ensures { OnOk result (text.new ≡ text.old ++ cycle_lines timing.now title.now node) }
{
    let time_based = least_cycle(timing, node);
    append_line(text, title, "timebased cycle ", time_based)?;
    let back_pressure = back_pressure_cycle(timing);
    append_line(text, title, "backpressure cycle ", back_pressure as u128)
}

fn append_bound(
    timing: &Timing,
    title: &Name,
    node: u32,
    horizon: u64,
    text: &mut List<u8>,
) -> Result<(), Memory>
    requires { node < length timing.now.nodes }
    ensures { OnOk result (text.new ≡ text.old ++ bound_lines timing.now horizon title.now node) }
{
    let time_based = least_bound(timing, node, horizon);
    append_line(text, title, "timebased bound ", time_based as u128)?;
    let back_pressure = back_pressure_bound(timing, node, horizon);
    append_line(text, title, "backpressure bound ", back_pressure as u128)
}

fn append_line(text: &mut List<u8>, title: &Name, label: &str, number: u128) -> Result<(), Memory>
    ensures { OnOk result (text.new ≡ text.old ++ plan_line title.now label.now number) }
{
    text.extend(title.as_str().as_bytes())?;
    text.extend(label.as_bytes())?;
    append_number(text, number)?;
    text.extend(b"\n")
}

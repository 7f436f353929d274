// The nodes of a program and the channels between them, by a setup whose timing need not be accepted.
ghost use Rattle.std.specs.Prelude.{◌≡◌, ◌<◌, ◌^◌, IfSome, bytes_eq, length, position};
ghost use Rattle.lt_answer.specs.Alone.{given_word};
ghost use Rattle.lt_answer.specs.Answered.{Settles};
ghost use Rattle.lt_front.specs.Checked.{examined_part};
ghost use Rattle.lt_load_fit.specs.Fits.{HasWindowBy};
ghost use Rattle.lt_inspect.specs.Stages.{ground_verdict, node_name_verdict, node_verdict};

use crate::laws::paced_is_clean;
use crate::stage::Ground;
use lt_arch::Shape;
use lt_base::{Name, Or};
use lt_config::Config;
use lt_front::Checked;
use lt_lead::laws::lead_shapes_fit;
use lt_lead::shape_by;
use lt_load::{CommandFault, layout_of, main_of};
use lt_net_bench::laws::shapes_fit;
use lt_place::PlaceFault;
use std::alloc::Global;

/// Where a program runs by a setup: its placement is legal, and the node that is named, if one is, is one of the setup's, in this
/// order.
pub(crate) fn find_ground(
    alloc: Global,
    checked: &Checked,
    setup: Config,
    node: Option<&str>,
) -> Result<Ground, Or<CommandFault>>
    requires { HasWindowBy setup.pace setup.timing }
    ensures { Settles (ground_verdict (examined_part checked.now) setup (given_word node.entry)) result }
{
    shapes_fit();
    lead_shapes_fit();
    paced_is_clean();
    let layout = layout_of(alloc, checked, &setup)?;
    let shape = shape_by(alloc, &layout, &setup.timing, setup.pace)?;
    let node = find_node(alloc, checked, &shape, node)?;
    Ok(Ground {
        shape,
        timing: setup.timing,
        cross: layout.cross,
        pace: setup.pace,
        node,
    })
}

// The number of the node that is named, if one is.
fn find_node(
    alloc: Global,
    checked: &Checked,
    shape: &Shape,
    node: Option<&str>,
) -> Result<Option<u32>, Or<CommandFault>>
    requires { length shape.now.nodes < 2 ^ 32 }
    ensures { Settles (node_verdict (examined_part checked.now) shape.now.nodes (given_word node.entry)) result }
{
    match node {
        Some(name) => Ok(Some(node_named(alloc, checked, shape, name)?)),
        None => Ok(None),
    }
}

// The number of the node of this name.
fn node_named(
    alloc: Global,
    checked: &Checked,
    shape: &Shape,
    name: &str,
) -> Result<u32, Or<CommandFault>>
    requires { length shape.now.nodes < 2 ^ 32 }
    ensures { Settles (node_name_verdict (examined_part checked.now) shape.now.nodes name.now) result }
{
    match place_of(&shape.nodes, name.as_bytes()) {
        Some(node) => Ok(node as u32),
        None => {
            let name = Name::from_str(alloc, name)?;
            let main = main_of(&checked.program).copy()?;
            Err(Or::Fault(CommandFault::Place {
                fault: PlaceFault::UnknownName { name },
                main,
            }))
        }
    }
}

#[tactic(auto, using(lt_rows::proofs::Ends::position_within))]
fn place_of(nodes: &[Name], name: &[u8]) -> Option<usize>
    ensures found { result ≡ position (λ node. bytes_eq node name.now) nodes.now }
    ensures placed { IfSome result (λ node. node < length nodes.now) }
{
    nodes
        .iter()
        .position(|node| is(node.as_str().as_bytes(), name))
}

fn is(text: &[u8], other: &[u8]) -> bool
    ensures { result ≡ bytes_eq text.now other.now }
{
    text == other
}

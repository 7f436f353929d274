// The file of a node, from its placed program.

ghost use Rattle.std.specs.Prelude.{◌≡◌, ◌<◌, ◌≤◌, ◌^◌, length, IfOk};
ghost use Rattle.std.specs.List.{All};
ghost use Rattle.lt_norm.specs.Flat.{Originated};
ghost use Rattle.lt_place.specs.Layout.{IsPlaced};
ghost use Rattle.lt_place.specs.Sizes.{HasCodeRoom, IsCompilable};
ghost use Rattle.lt_step.specs.Compile.{CodeOf};
ghost use Rattle.lt_c_node.specs.NodeText.{emitted_text};
ghost use Rattle.lt_c_node.specs.NodeOf.{IsFeedOf, sources_of, protocol_regime, regime_of, IsPartCodeOf, IsFileOfNode, IsEmitted};

use crate::linking::links_of;
use crate::part::{outputs_of, part_of, sources_of};
use crate::writer::write_node;
use lt_arch::{Pace, Protocol, Shape, Timing};
use lt_base::{Decl, List, Memory};
use lt_c_heads::interface::write_header;
use lt_c_heads::{NodeFile, PartCode, Regime};
use lt_c_step::Source;
use lt_cause::order_of;
use lt_norm::Flat;
use lt_place::laws::parts_compile;
use lt_place::{Layout, Part};
use lt_step::{Code, compile};
use std::alloc::Global;

fn protocol_regime(timing: &Timing, n: usize) -> Regime
    requires { n < length timing.now.nodes }
    ensures { result ≡ protocol_regime timing.now.protocol timing.now n }
{
    match timing.protocol {
        Protocol::BackPressure => Regime::Pressing,
        Protocol::TimeBased => Regime::Counting(timing.nodes[n]),
    }
}

fn regime_of(pace: Pace, timing: &Timing, n: usize) -> Regime
    requires { n < length timing.now.nodes }
    ensures { result ≡ regime_of pace timing.now n }
{
    match pace {
        Pace::Lossy(_) => Regime::Losing,
        Pace::Plain | Pace::Leader(_) => protocol_regime(timing, n),
    }
}

// The step code of a part.
fn code_of(alloc: Global, flat: &Flat) -> Result<Code, Memory>
    requires { IsCompilable flat.now.func }
    ensures { IfOk result (CodeOf flat.now.func) }
{
    let order = order_of(alloc, &flat.func)?;
    compile(alloc, flat, &order)
}

fn declared(part: &Part) -> Result<List<Decl>, Memory>
    ensures { IfOk result (λ decls. decls ≡ part.now.flat.func.decls) }
{
    part.flat.func.decls.copy()
}

// Where the inputs of a part come from.
fn fed_from(alloc: Global, layout: &Layout, part: &Part) -> Result<List<Source>, Memory>
    requires few { length part.now.feeds < 2 ^ 32 }
    requires feeds { All (IsFeedOf layout.now) part.now.feeds }
    ensures { IfOk result (λ sources. sources ≡ sources_of layout.now part.now.feeds) }
{
    sources_of(alloc, layout, &part.feeds)
}

// The part of a node with its step code.
fn part_code(alloc: Global, layout: &Layout, part: &Part) -> Result<PartCode, Memory>
    requires compiles { IsCompilable part.now.flat.func }
    requires fed { length part.now.feeds ≤ length part.now.flat.func.decls }
    requires few { length part.now.flat.func.decls < 2 ^ 32 }
    requires feeds { All (IsFeedOf layout.now) part.now.feeds }
    ensures { IfOk result (IsPartCodeOf layout.now part.now) }
{
    let decls = declared(part)?;
    let code = code_of(alloc, &part.flat)?;
    let sources = fed_from(alloc, layout, part)?;
    let outputs = outputs_of(alloc, layout, part)?;
    Ok(PartCode {
        decls,
        code,
        sources,
        outputs,
    })
}

/// What the file of a node is made of.
///
/// # Errors
///
/// When memory is short.
pub fn node_of(
    alloc: Global,
    layout: &Layout,
    shape: &Shape,
    timing: &Timing,
    pace: Pace,
    node: usize,
) -> Result<NodeFile, Memory>
    requires placed { (f : Originated) × IsPlaced f layout.now × HasCodeRoom f.func }
    requires node { node < length layout.now.nodes }
    requires timed { length timing.now.nodes ≡ length layout.now.names }
    requires few { length layout.now.names < 2 ^ 32 }
    ensures { IfOk result (IsFileOfNode layout.now shape.now timing.now pace node) }
{
    parts_compile();
    let n = node as u32;
    let regime = regime_of(pace, timing, node);
    let names = layout.names.copy()?;
    let part = part_code(alloc, layout, part_of(layout, node))?;
    let links = links_of(alloc, layout, &shape.channels, n)?;
    Ok(NodeFile {
        names,
        node: n,
        part,
        links,
        regime,
    })
}

// The header of a file, or all of it.
fn print(alloc: Global, file: &NodeFile, header: bool) -> Result<List<u8>, Memory>
    ensures { IfOk result (λ text. text ≡ emitted_text header file.now) }
{
    if header {
        write_header(alloc, file)
    } else {
        write_node(alloc, file)
    }
}

/// The C file of a node of a placed program, or its header alone, by what `lt_compile::place_program` gives.
///
/// # Errors
///
/// When memory is short.
pub fn emit_node(
    alloc: Global,
    layout: &Layout,
    shape: &Shape,
    timing: &Timing,
    pace: Pace,
    node: usize,
    header: bool,
) -> Result<List<u8>, Memory>
    requires placed { (f : Originated) × IsPlaced f layout.now × HasCodeRoom f.func }
    requires node { node < length layout.now.nodes }
    requires timed { length timing.now.nodes ≡ length layout.now.names }
    requires few { length layout.now.names < 2 ^ 32 }
    ensures { IfOk result (IsEmitted layout.now shape.now timing.now pace node header) }
{
    let file = node_of(alloc, layout, shape, timing, pace, node)?;
    print(alloc, &file, header)
}

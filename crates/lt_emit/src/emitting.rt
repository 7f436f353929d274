// The C of a node, from the files of a program and its setup.
ghost use Rattle.std.specs.Prelude.{◌≡◌, ◌<◌, length, IfOk};
ghost use Rattle.lt_io.specs.Counts.{MayFail};
ghost use Rattle.lt_answer.specs.Answered.{Settles};
ghost use Rattle.lt_c_node.specs.NodeOf.{IsEmitted};
ghost use Rattle.lt_emit.specs.Loading.{IsCoded};
ghost use Rattle.lt_emit.specs.Emitted.{EmitsAt, EmitsNode, IsNoNodeFault, emitted_node_verdict};

use crate::EmitFault;
use crate::loading::load_site;
use crate::naming::number_of;
use lt_base::{List, Memory, Name, Or};
use lt_c_node::emit_node;
use lt_compile::Site;
use lt_io::Files;
use lt_load::CommandFault;
use std::alloc::Global;

/// The C of the node of this name, or its header alone, for the program of a file where it runs by the setup of another. The program is read before the
/// setup, and all of it is refused that a check of both refuses, before the name is looked for.
pub fn emit<F: Files>(
    alloc: Global,
    files: &mut F,
    header: bool,
    program: &str,
    config: &str,
    node: &str,
) -> Result<List<u8>, Or<EmitFault>>
    requires { MayFail (F.state files.old).faults }
    ensures { EmitsNode header program.now config.now node.now (F.state files.old) (F.state files.new) result }
{
    let site = load_site(alloc, files, program, config);
    emit_at(alloc, site, header, node)
}

// The C of the node of this name, where a program was loaded at its site.
fn emit_at(
    alloc: Global,
    site: Result<Site, Or<CommandFault>>,
    header: bool,
    node: &str,
) -> Result<List<u8>, Or<EmitFault>>
    requires { IfOk site IsCoded }
    ensures { EmitsAt header node.now site result }
{
    match site {
        Ok(site) => {
            let text = emit_named(alloc, &site, header, node);
            drop(site);
            text
        }
        Err(Or::Fault(fault)) => Err(Or::Fault(EmitFault::Command(fault))),
        Err(Or::Memory) => Err(Or::Memory),
    }
}

// The C of the node of this name at a site.
fn emit_named(
    alloc: Global,
    site: &Site,
    header: bool,
    node: &str,
) -> Result<List<u8>, Or<EmitFault>>
    requires { IsCoded site.now }
    ensures { Settles (emitted_node_verdict header node.now site.now) result }
{
    match number_of(&site.layout.names, node) {
        Some(n) => Ok(emit_number(alloc, site, n, header)?),
        None => Err(no_node(alloc, node)),
    }
}

// The C of the node of this number at a site.
fn emit_number(alloc: Global, site: &Site, n: usize, header: bool) -> Result<List<u8>, Memory>
    requires coded { IsCoded site.now }
    requires within { n < length site.now.layout.names }
    ensures { IfOk result (IsEmitted site.now.layout site.now.shape site.now.timing site.now.pace n header) }
{
    emit_node(
        alloc,
        &site.layout,
        &site.shape,
        &site.timing,
        site.pace,
        n,
        header,
    )
}

// That the setup has no node of this name.
fn no_node(alloc: Global, name: &str) -> Or<EmitFault>
    ensures { IsNoNodeFault name.now result }
{
    match Name::from_str(alloc, name) {
        Ok(name) => Or::Fault(EmitFault::NoNode(name)),
        Err(_) => Or::Memory,
    }
}

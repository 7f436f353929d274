// The interface of a node's file, and its header.

ghost use Rattle.std.specs.Prelude.{◌≡◌, ◌++◌, IfOk, OnOk};
ghost use Rattle.lt_c_heads.specs.Interface.{interface_text, header_opening_text, header_guard_text, titled_header_text, node_header_text};

use crate::file::NodeFile;
use crate::heads::prototypes;
use crate::types::declared_types;
use crate::words::{three, title};
use lt_base::{List, Memory};
use lt_c::node_name;
use std::alloc::Global;

/// Appends types and prototypes.
pub fn interface(out: &mut List<u8>, t: &[u8], file: &NodeFile) -> Result<(), Memory>
    ensures { OnOk result (out.new ≡ out.old ++ interface_text t.now file.now) }
{
    declared_types(out, t, file)?;
    prototypes(out, t, file)
}

fn opening(out: &mut List<u8>, file: &NodeFile) -> Result<(), Memory>
    ensures { OnOk result (out.new ≡ out.old ++ header_opening_text file.now) }
{
    three(
        out,
        b"/* The interface of the node ",
        node_name(&file.names, file.node),
        b". This file was emitted: change the program, and not the file. */\n",
    )
}

// Appends that it is read once, and what it includes.
fn guard(out: &mut List<u8>, file: &NodeFile) -> Result<(), Memory>
    ensures { OnOk result (out.new ≡ out.old ++ header_guard_text file.now) }
{
    let name = node_name(&file.names, file.node);
    three(out, b"#ifndef LTTA_", name, b"_H\n")?;
    three(out, b"#define LTTA_", name, b"_H\n")?;
    out.extend(b"#include <stdbool.h>\n#include <stdint.h>\n")
}

fn titled(out: &mut List<u8>, t: &[u8], file: &NodeFile) -> Result<(), Memory>
    ensures { OnOk result (out.new ≡ out.old ++ titled_header_text t.now file.now) }
{
    opening(out, file)?;
    guard(out, file)?;
    interface(out, t, file)?;
    out.extend(b"\n#endif\n")
}

/// The header of a node's file.
///
/// # Errors
///
/// When memory is short.
pub fn write_header(alloc: Global, file: &NodeFile) -> Result<List<u8>, Memory>
    ensures { IfOk result (λ text. text ≡ node_header_text file.now) }
{
    let t = title(alloc, file)?;
    let mut out = List::new(alloc);
    titled(&mut out, &t, file)?;
    Ok(out)
}

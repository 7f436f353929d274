// The C file of a node.

ghost use Rattle.std.specs.Prelude.{◌≡◌, ◌++◌, IfOk, OnOk};
ghost use Rattle.lt_c.specs.Tree.{Statement};
ghost use Rattle.lt_c.specs.Views.{statement_of};
ghost use Rattle.lt_c_bodies.specs.Acts.{activation};
ghost use Rattle.lt_c_node.specs.NodeText.{opening_text, declarations_text, functions_text, titled_text, node_text};

use lt_base::{List, Memory};
use lt_c::{Action, head, node_name};
use lt_c_bodies::{
    activate, activation, execute, file_calls, init, transport_functions, variables,
};
use lt_c_heads::NodeFile;
use lt_c_heads::interface::interface;
use lt_c_heads::words::{three, title};
use std::alloc::Global;

fn opening(out: &mut List<u8>, file: &NodeFile) -> Result<(), Memory>
    ensures { OnOk result (out.new ≡ out.old ++ opening_text file.now) }
{
    three(
        out,
        b"/* The node ",
        node_name(&file.names, file.node),
        b". This file was emitted: change the program, and not the file. */\n",
    )
}

fn declarations(out: &mut List<u8>, t: &[u8], file: &NodeFile) -> Result<(), Memory>
    ensures { OnOk result (out.new ≡ out.old ++ declarations_text t.now file.now) }
{
    interface(out, t, file)?;
    variables(out, t, file)
}

fn functions(
    alloc: Global,
    out: &mut List<u8>,
    t: &[u8],
    file: &NodeFile,
    acts: &Action,
) -> Result<(), Memory>
    requires { (run : Statement) → statement_of run acts.now ≡ activation file.now run }
    ensures { OnOk result (out.new ≡ out.old ++ functions_text t.now file.now) }
{
    init(alloc, out, t, file)?;
    execute(alloc, out, file)?;
    activate(alloc, out, t, file, acts)?;
    transport_functions(alloc, out, t, file)
}

// Appends the whole file, whose activation is given.
fn pieces(
    alloc: Global,
    out: &mut List<u8>,
    t: &[u8],
    file: &NodeFile,
    acts: &Action,
) -> Result<(), Memory>
    requires { (run : Statement) → statement_of run acts.now ≡ activation file.now run }
    ensures { OnOk result (out.new ≡ out.old ++ titled_text t.now file.now) }
{
    opening(out, file)?;
    head(alloc, out, &file_calls(file, acts))?;
    declarations(out, t, file)?;
    functions(alloc, out, t, file, acts)
}

fn titled(alloc: Global, out: &mut List<u8>, t: &[u8], file: &NodeFile) -> Result<(), Memory>
    ensures { OnOk result (out.new ≡ out.old ++ titled_text t.now file.now) }
{
    let acts = activation(alloc, file)?;
    pieces(alloc, out, t, file, &acts)
}

/// The C file of a node.
///
/// # Errors
///
/// When memory is short.
pub fn write_node(alloc: Global, file: &NodeFile) -> Result<List<u8>, Memory>
    ensures { IfOk result (λ text. text ≡ node_text file.now) }
{
    let t = title(alloc, file)?;
    let mut out = List::new(alloc);
    titled(alloc, &mut out, &t, file)?;
    Ok(out)
}

// Names of functions and variables, from a tree.
ghost use Rattle.std.specs.Prelude.{◌≡◌, ◌++◌, ◌+◌, OnOk, IfOk, slice_get, slice_index_or, MatchOption, None, Some};
ghost use Rattle.lt_text_values.specs.Names.{function_name, variable_name, tree_variable_name};

use lt_base::{List, Memory, Name};
use lt_syntax::{DeclText, NodeText, Tree};

/// Appends the name of the function of this number.
pub fn append_function(line: &mut List<u8>, tree: &Tree, func: u32) -> Result<(), Memory>
    ensures { OnOk result (line.new ≡ line.old ++ function_name tree.now func) }
{
    match tree.nodes.get(func as usize) {
        Some(node) => append_name(line, &node.name),
        None => Ok(()),
    }
}

/// Appends the name of the function's variable of this number.
pub fn append_variable(
    line: &mut List<u8>,
    tree: &Tree,
    func: u32,
    variable: u32,
) -> Result<(), Memory>
    ensures { OnOk result (line.new ≡ line.old ++ variable_name tree.now func variable) }
{
    match tree.nodes.get(func as usize) {
        Some(node) => append_declared(line, node, variable as usize),
        None => Ok(()),
    }
}

/// Appends a name.
pub fn append_name(line: &mut List<u8>, name: &Name) -> Result<(), Memory>
    ensures { OnOk result (line.new ≡ line.old ++ name.now) }
{
    line.extend(name.as_str().as_bytes())
}

// Appends the name of a declared variable: inputs have the first numbers, then outputs, then locals.
fn append_declared(line: &mut List<u8>, node: &NodeText, number: usize) -> Result<(), Memory>
    ensures { OnOk result (line.new ≡ line.old ++ tree_variable_name node.now number) }
{
    let inputs = node.ins.len();
    let outputs = node.outs.len();
    if number < inputs {
        append_name(line, &node.ins[number].name)
    } else if number - inputs < outputs {
        append_name(line, &node.outs[number - inputs].name)
    } else if number - inputs - outputs < node.locals.len() {
        append_name(line, &node.locals[number - inputs - outputs].name)
    } else {
        Ok(())
    }
}

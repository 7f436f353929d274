// The nodes of a setup, where it has no fault.
ghost use Rattle.std.specs.Prelude.{◌≡◌, IfOk, None};
ghost use Rattle.std.specs.List.Sorted.{IsStrictlySortedBy};
ghost use Rattle.toml.specs.View.{view, items_view, table_view};
ghost use Rattle.lt_arch.specs.NodeNames.{names_of, byte_order};
ghost use Rattle.lt_config.specs.Faults.{first_fault};
ghost use Rattle.lt_config.specs.Setup.{texts_of, vars_of, nodes_in, setup_nodes};

use crate::keys::{Key, table_at};
use lt_arch::{NamedNode, NamedNodes};
use lt_base::{List, Memory, Name};
use std::alloc::Global;
use toml::{Table, Value};

fn texts_of(alloc: Global, items: &[Value]) -> Result<List<Name>, Memory>
    ensures { IfOk result (λ texts. texts ≡ texts_of (items_view items.now)) }
{
    let mut texts = List::new(alloc);
    for value in items {
        let text = value.as_str().unwrap_or("");
        texts.push(Name::from_str(alloc, text)?)?;
    }
    Ok(texts)
}

fn vars_of(alloc: Global, value: &Value) -> Result<List<Name>, Memory>
    ensures { IfOk result (λ vars. vars ≡ vars_of (view value.now)) }
{
    match value.as_array() {
        Some(items) => texts_of(alloc, items),
        None => Ok(List::new(alloc)),
    }
}

fn nodes_in(alloc: Global, entries: &Table) -> Result<List<NamedNode>, Memory>
    ensures { IfOk result (λ nodes. nodes ≡ nodes_in (table_view entries.now)) }
{
    let mut nodes = List::new(alloc);
    for (name, value) in entries {
        let name = Name::from_str(alloc, name.as_str())?;
        let vars = vars_of(alloc, value)?;
        nodes.push(NamedNode { name, vars })?;
    }
    Ok(nodes)
}

// A table has its names in byte order.
fn ascends(entries: &Table)
    ensures { IsStrictlySortedBy byte_order (names_of (nodes_in (table_view entries.now))) }
{
    let _count = entries.len();
}

/// The nodes of a setup without a fault.
pub fn named_nodes(alloc: Global, table: &Table) -> Result<NamedNodes, Memory>
    requires { first_fault (table_view table.now) ≡ None }
    ensures { IfOk result (λ named. named.nodes ≡ setup_nodes (table_view table.now)) }
{
    match table_at(table, Key::Nodes) {
        Some(entries) => {
            ascends(entries);
            Ok(NamedNodes {
                nodes: nodes_in(alloc, entries)?,
            })
        }
        None => unreachable!(),
    }
}

// The functions of a tree with the tables of their names.
ghost use Rattle.std.specs.Prelude.{◌≡◌, ◌++◌, ◌∷◌, [], ◌<◌, ◌^◌, IfOk, OnOk, length};
ghost use Rattle.std.specs.Option.{option_or};
ghost use Rattle.lt_resolve.specs.Names.{if_among, repeated_name};
ghost use Rattle.lt_resolve.specs.Scopes as names;
ghost use Rattle.lt_resolve.specs.Scopes.{variables, functions};
ghost use Rattle.lt_resolve.specs.Faults.{First};
ghost use Rattle.lt_resolve.specs.Told.{TellsName, ShowsFault};
ghost use Rattle.lt_resolve.specs.Checks.{Locates};

use crate::fault::{NameFault, NameKind};
use crate::names::Names;
use crate::scope::Scope;
use lt_base::{Name, Or};
use lt_syntax::{NodeText, Tree};
use std::alloc::Global;
use std::marker::Model;

/// The functions of a tree, with the tables of their names.
#[derive(Drop)]
pub struct Tables<'a> {
    functions: Names<'a>,
    scopes: Vec<Scope<'a>>,
}

impl<'a> Model for Tables<'a> {
    ghost use Rattle.std.specs.Prelude.{◌≡◌, List};
    ghost use Rattle.std.specs.Coded.{coded_list};
    ghost use Rattle.lt_syntax.specs.declared.tree.NodeText.{NodeText};
    ghost use Rattle.lt_syntax.specs.contracts.tree.NodeText.{the_row};
    ghost use Rattle.lt_resolve.specs.Scopes as declared;

    ghost Value = { List NodeText };

    ghost coded = { coded_list the_row.coded };

    ghost view = { λ t. t.scopes.items };

    ghost invariant = { λ t. t.functions ≡ declared.functions t.scopes.items };
}

/// The fault of this kind at a name that stands in the function of this number.
pub fn locate_fault(
    alloc: Global,
    kind: NameKind,
    function: usize,
    error: Or<&str>,
) -> Or<NameFault>
    requires { function < 2 ^ 32 }
    ensures { Locates kind function error.entry result }
{
    match error {
        Or::Fault(name) => match Name::from_str(alloc, name) {
            Ok(name) => Or::Fault(NameFault {
                kind,
                func: function as u32,
                name,
            }),
            Err(_) => Or::Memory,
        },
        Or::Memory => Or::Memory,
    }
}

/// The function with its variables, behind those of these names; refuses a name that is one of them, and a second
/// variable of a name.
fn next<'a>(
    alloc: Global,
    functions: &mut Names<'a>,
    node: &'a NodeText,
) -> Result<Scope<'a>, Or<&'a str>>
    ensures told { TellsName (option_or (if_among functions.old node.now.name) (repeated_name [] (variables node.now))) result }
    ensures scope { IfOk result (λ s. s ≡ node.now) }
    ensures names { OnOk result (functions.new ≡ functions.old ++ node.now.name ∷ []) }
{
    let name = node.name.as_str();
    if !functions.insert(name)? {
        return Err(Or::Fault(name));
    }
    Scope::of(alloc, node)
}

/// The functions with their variables; their names are put into a table without any. Refuses a second function, or a
/// second variable of a function, of one name.
fn scopes_of<'a>(
    alloc: Global,
    functions: &mut Names<'a>,
    nodes: &'a [NodeText],
) -> Result<Vec<Scope<'a>>, Or<NameFault>>
    requires room { length nodes.now < 2 ^ 32 }
    requires none { functions.old ≡ [] }
    ensures shown { ShowsFault NameKind.Twice (First nodes.now NameKind.Twice) result }
    ensures scopes { IfOk result (λ scopes. scopes.items ≡ nodes.now) }
    ensures names { OnOk result (functions.new ≡ names.functions nodes.now) }
{
    let mut scopes = Vec::with_capacity(alloc, nodes.len())?;
    'nodes: for (i, node) in nodes.iter().enumerate() {
        match next(alloc, functions, node) {
            Ok(scope) => scopes.push(scope)?,
            Err(error) => return Err(locate_fault(alloc, NameKind::Twice, i, error)),
        }
    }
    Ok(scopes)
}

impl<'a> Tables<'a> {
    /// The tables of a tree; refuses a second function, or a second variable of a function, of one name.
    pub fn of(alloc: Global, t: &'a Tree) -> Result<Tables<'a>, Or<NameFault>>
        requires { length t.now < 2 ^ 32 }
        ensures shown { ShowsFault NameKind.Twice (First t.now NameKind.Twice) result }
        ensures tree { IfOk result (λ tables. tables ≡ t.now) }
    {
        let mut functions = Names::with_capacity(alloc, t.nodes.len())?;
        match scopes_of(alloc, &mut functions, &t.nodes) {
            Ok(scopes) => Ok(Tables { functions, scopes }),
            Err(error) => {
                drop(functions);
                Err(error)
            }
        }
    }

    pub fn functions(&self) -> &Names<'a>
        ensures { result.now ≡ functions self.now }
    {
        &self.functions
    }

    pub fn scopes(&self) -> &[Scope<'a>]
        ensures { result.now ≡ self.now }
    {
        &self.scopes
    }
}

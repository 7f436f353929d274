// From a tree to its program, where the tree is taken apart: an equation is dropped once it is one of the program, so that tree and
// program are never whole together.
ghost use Rattle.std.specs.Prelude.{◌≡◌, ◌<◌, ◌^◌, [], None, Ok, Err, IfOk, OnOk, MatchResult, length};
ghost use Rattle.std.specs.List.{All};
ghost use Rattle.lt_base.specs.Or.{ForFault};
ghost use Rattle.lt_syntax.specs.Program.{IsSpelled};
ghost use Rattle.lt_resolve.specs.Names.{repeated_name, first_some};
ghost use Rattle.lt_resolve.specs.Scopes as scopes;
ghost use Rattle.lt_resolve.specs.Scopes.{variables, functions};
ghost use Rattle.lt_resolve.specs.Named.{Along, IsFunction};
ghost use Rattle.lt_resolve.specs.Drafts.{IsDraft, IsDraftEquation};
ghost use Rattle.lt_resolve.specs.Right.{NodeIsRight};
ghost use Rattle.lt_resolve.specs.Faults.{NoOtherFault, first_in, unknown_equation, unknown_in};
ghost use Rattle.lt_resolve.specs.Told.{ShowsFault, ShowsUnknown};
ghost use Rattle.lt_resolve.specs.Resolves.{Resolves};

use crate::fault::{NameFault, NameKind};
use crate::function::{Draft, draft_of, equation};
use crate::names::Names;
use crate::program::main_of;
use crate::scope::Scope;
use crate::tables::locate_fault;
use lt_base::{Equation, Func, List, Memory, Name, Or, Program};
use lt_syntax::{EqText, NodeText, Tree};
use std::alloc::Global;

/// Appends copies of the names of functions.
fn push_names(nodes: &[NodeText], names: &mut Vec<Name>) -> Result<(), Memory>
    requires { names.old.items ≡ [] }
    ensures { OnOk result (names.new.items ≡ functions nodes.now) }
{
    'nodes: for node in nodes {
        names.push(node.name.copy()?)?;
    }
    Ok(())
}

/// Copies of the names of the functions.
fn function_names(alloc: Global, t: &Tree) -> Result<List<Name>, Memory>
    ensures { IfOk result (λ names. names ≡ functions t.now) }
{
    let mut names = Vec::with_capacity(alloc, t.nodes.len())?;
    push_names(&t.nodes, &mut names)?;
    Ok(List::of(names))
}

/// Puts names of which none comes twice into a table without any.
fn insert_all<'a>(table: &mut Names<'a>, names: &'a List<Name>) -> Result<(), Memory>
    requires none { table.old ≡ [] }
    requires apart { repeated_name [] names.now ≡ None }
    ensures { OnOk result (table.new ≡ names.now) }
{
    'names: for name in names.iter() {
        table.insert(name.as_str())?;
    }
    Ok(())
}

/// The table of names of which none comes twice.
fn table_of<'a>(alloc: Global, names: &'a List<Name>) -> Result<Names<'a>, Memory>
    requires { repeated_name [] names.now ≡ None }
    ensures { IfOk result (λ table. table ≡ names.now) }
{
    let mut table = Names::with_capacity(alloc, names.len())?;
    match insert_all(&mut table, names) {
        Ok(()) => Ok(table),
        Err(error) => {
            drop(table);
            Err(error)
        }
    }
}

/// The equation with its names replaced by numbers; refuses the first name that has no number.
fn located_equation(
    alloc: Global,
    variables: &Names,
    functions: &Names,
    place: usize,
    eq: &EqText,
) -> Result<Equation, Or<NameFault>>
    requires { place < 2 ^ 32 }
    ensures shown { ShowsUnknown place (unknown_equation variables.now functions.now eq.now) result }
    ensures named { IfOk result (λ e. IsDraftEquation variables.now functions.now eq.now e) }
{
    match equation(alloc, variables, functions, eq) {
        Ok(named) => Ok(named),
        Err(error) => Err(locate_fault(alloc, NameKind::Unknown, place, error)),
    }
}

/// The same of an equation that is dropped.
fn taken_equation(
    alloc: Global,
    variables: &Names,
    functions: &Names,
    place: usize,
    eq: EqText,
) -> Result<Equation, Or<NameFault>>
    requires { place < 2 ^ 32 }
    ensures shown { ShowsUnknown place (unknown_equation variables.now functions.now eq) result }
    ensures named { IfOk result (λ e. IsDraftEquation variables.now functions.now eq e) }
{
    let named = located_equation(alloc, variables, functions, place, &eq);
    drop(eq);
    named
}

/// The equations, each dropped once its names are replaced by numbers; refuses the first name that has no number.
fn taken_equations(
    alloc: Global,
    variables: &Names,
    functions: &Names,
    place: usize,
    eqs: Vec<EqText>,
) -> Result<Vec<Equation>, Or<NameFault>>
    requires { place < 2 ^ 32 }
    ensures shown { ShowsUnknown place (first_some (unknown_equation variables.now functions.now) eqs.items) result }
    ensures named { IfOk result (λ list. Along (IsDraftEquation variables.now functions.now) eqs.items list.items) }
{
    let mut list = Vec::with_capacity(alloc, eqs.len())?;
    'eqs: for eq in eqs {
        list.push(taken_equation(alloc, variables, functions, place, eq)?)?;
    }
    Ok(list)
}

/// A function, of which no variable is declared twice, with the table of its variables.
fn scope_of<'a>(alloc: Global, head: &'a NodeText) -> Result<Scope<'a>, Memory>
    requires { repeated_name [] (variables head.now) ≡ None }
    ensures { IfOk result (λ s. s ≡ head.now) }
{
    match Scope::of(alloc, head) {
        Ok(scope) => Ok(scope),
        Err(Or::Memory) => Err(Memory),
        Err(Or::Fault(_)) => unreachable!(),
    }
}

/// The draft of a function; refuses the first name that has no number.
fn located_draft<'a>(
    alloc: Global,
    functions: &Names,
    place: usize,
    scope: &Scope<'a>,
) -> Result<Draft<'a>, Or<NameFault>>
    requires { place < 2 ^ 32 }
    ensures shown { ShowsUnknown place (unknown_in functions.now scope.now) result }
    ensures node { IfOk result (λ d. d.node.now ≡ scope.now) }
    ensures draft { IfOk result (IsDraft functions.now) }
{
    match draft_of(alloc, functions, scope) {
        Ok(draft) => Ok(draft),
        Err(error) => Err(locate_fault(alloc, NameKind::Unknown, place, error)),
    }
}

/// The function of a node that is without its equations, and of these, from the draft of that node.
fn drafted_function<'a>(
    alloc: Global,
    functions: &Names,
    place: usize,
    scope: &Scope<'a>,
    draft: Draft<'a>,
    eqs: Vec<EqText>,
) -> Result<Func, Or<NameFault>>
    requires place { place < 2 ^ 32 }
    requires none { scope.now.eqs ≡ [] }
    requires known { unknown_in functions.now scope.now ≡ None }
    requires node { draft.node.now ≡ scope.now }
    requires draft { IsDraft functions.now draft }
    requires right { let node = record scope.now { eqs = eqs.items } in unknown_in functions.now node ≡ None → NodeIsRight functions.now node }
    ensures shown { ShowsUnknown place (unknown_in functions.now (record scope.now { eqs = eqs.items })) result }
    ensures function { IfOk result (IsFunction functions.now (record scope.now { eqs = eqs.items })) }
{
    let taken = taken_equations(alloc, scope.variables(), functions, place, eqs)?;
    Ok(draft.with_equations(taken).function(alloc)?)
}

/// The function of a node that is without its equations, and of these, with the table of its variables.
fn scoped_function(
    alloc: Global,
    functions: &Names,
    place: usize,
    scope: &Scope,
    eqs: Vec<EqText>,
) -> Result<Func, Or<NameFault>>
    requires place { place < 2 ^ 32 }
    requires none { scope.now.eqs ≡ [] }
    requires right { let node = record scope.now { eqs = eqs.items } in unknown_in functions.now node ≡ None → NodeIsRight functions.now node }
    ensures shown { ShowsUnknown place (unknown_in functions.now (record scope.now { eqs = eqs.items })) result }
    ensures function { IfOk result (IsFunction functions.now (record scope.now { eqs = eqs.items })) }
{
    let draft = located_draft(alloc, functions, place, scope)?;
    drafted_function(alloc, functions, place, scope, draft, eqs)
}

/// The function of a node that is without its equations, and of these.
fn function_with(
    alloc: Global,
    functions: &Names,
    place: usize,
    head: &NodeText,
    eqs: Vec<EqText>,
) -> Result<Func, Or<NameFault>>
    requires place { place < 2 ^ 32 }
    requires none { head.now.eqs ≡ [] }
    requires apart { repeated_name [] (variables head.now) ≡ None }
    requires right { let node = record head.now { eqs = eqs.items } in unknown_in functions.now node ≡ None → NodeIsRight functions.now node }
    ensures shown { ShowsUnknown place (unknown_in functions.now (record head.now { eqs = eqs.items })) result }
    ensures function { IfOk result (IsFunction functions.now (record head.now { eqs = eqs.items })) }
{
    let scope = scope_of(alloc, head)?;
    let func = scoped_function(alloc, functions, place, &scope, eqs);
    drop(scope);
    func
}

/// The function of a node whose variables are declared once; refuses the first name that has no number.
fn taken_function(
    alloc: Global,
    functions: &Names,
    place: usize,
    node: NodeText,
) -> Result<Func, Or<NameFault>>
    requires place { place < 2 ^ 32 }
    requires apart { repeated_name [] (variables node) ≡ None }
    requires right { unknown_in functions.now node ≡ None → NodeIsRight functions.now node }
    ensures shown { ShowsUnknown place (unknown_in functions.now node) result }
    ensures function { IfOk result (IsFunction functions.now node) }
{
    let head = NodeText {
        name: node.name,
        ins: node.ins,
        outs: node.outs,
        locals: node.locals,
        eqs: List::new(alloc),
    };
    let func = function_with(alloc, functions, place, &head, node.eqs.into_vec());
    drop(head);
    func
}

/// The functions of a tree's nodes; refuses the first name that has no number.
fn taken_functions(
    alloc: Global,
    functions: &Names,
    nodes: Vec<NodeText>,
) -> Result<Vec<Func>, Or<NameFault>>
    requires room { length nodes.items < 2 ^ 32 }
    requires apart { All (λ n. repeated_name [] (variables n) ≡ None) nodes.items }
    requires right { All (λ n. unknown_in functions.now n ≡ None → NodeIsRight functions.now n) nodes.items }
    ensures shown { ShowsFault NameKind.Unknown (λ o. o ≡ first_in (λ _. unknown_in functions.now) 0 nodes.items) result }
    ensures functions { IfOk result (λ fs. Along (IsFunction functions.now) nodes.items fs.items) }
{
    let mut funcs = Vec::with_capacity(alloc, nodes.len())?;
    'nodes: for node in nodes {
        let place = funcs.len();
        funcs.push(taken_function(alloc, functions, place, node)?)?;
    }
    Ok(funcs)
}

/// The program of the tree that these nodes are, in which at most names that are not declared are at fault, or the first
/// of these.
fn program_of_nodes(
    alloc: Global,
    functions: &Names,
    nodes: Vec<NodeText>,
) -> Result<Program, Or<NameFault>>
    requires room { length nodes.items < 2 ^ 32 }
    requires spelled { IsSpelled nodes.items }
    requires names { functions.now ≡ scopes.functions nodes.items }
    requires others { NoOtherFault nodes.items }
    ensures { MatchResult result (λ p. Resolves nodes.items (Ok p)) (λ e. ForFault e (λ f. Resolves nodes.items (Err f))) }
{
    let funcs = taken_functions(alloc, functions, nodes)?;
    Ok(Program::new(List::of(funcs), main_of(functions)))
}

/// The same with copies of the names of the tree's functions.
fn named_program(
    alloc: Global,
    names: &List<Name>,
    nodes: Vec<NodeText>,
) -> Result<Program, Or<NameFault>>
    requires room { length nodes.items < 2 ^ 32 }
    requires spelled { IsSpelled nodes.items }
    requires names { names.now ≡ functions nodes.items }
    requires others { NoOtherFault nodes.items }
    ensures { MatchResult result (λ p. Resolves nodes.items (Ok p)) (λ e. ForFault e (λ f. Resolves nodes.items (Err f))) }
{
    let functions = table_of(alloc, names)?;
    let program = program_of_nodes(alloc, &functions, nodes);
    drop(functions);
    program
}

/// The program of a tree in which at most names that are not declared are at fault, or the first of these.
pub fn taken_program(alloc: Global, t: Tree) -> Result<Program, Or<NameFault>>
    requires room { length t < 2 ^ 32 }
    requires others { NoOtherFault t }
    ensures { MatchResult result (λ p. Resolves t (Ok p)) (λ e. ForFault e (λ f. Resolves t (Err f))) }
{
    t.invariant_holds();
    let names = function_names(alloc, &t)?;
    let program = named_program(alloc, &names, t.nodes.into_vec());
    drop(names);
    program
}

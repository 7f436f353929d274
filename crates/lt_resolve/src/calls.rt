// The calls of a tree, and their faults.
ghost use Rattle.std.specs.Prelude.{◌≡◌, ◌++◌, ◌<◌, ◌^◌, None, IsOk, IfOk, OnOk, length, map};
ghost use Rattle.lt_syntax.specs.Tree as tree;
ghost use Rattle.lt_syntax.specs.Tree.{tms};
ghost use Rattle.lt_syntax.specs.Views.{tm_of};
ghost use Rattle.lt_graph.specs.Edges.{AreWithin};
ghost use Rattle.lt_resolve.specs.Scopes.{functions};
ghost use Rattle.lt_resolve.specs.Uses.{sites_in, argument_sites, edges};
ghost use Rattle.lt_resolve.specs.Faults.{First, sites, wanted, answered};
ghost use Rattle.lt_resolve.specs.Told.{ShowsFault, Cleared, ChecksPass};
ghost use Rattle.lt_resolve.specs.Checks.{ShowsSite};

use crate::fault::{NameFault, NameKind};
use crate::names::Names;
use crate::tables::{Tables, locate_fault};
use lt_base::{Memory, Name, Or};
use lt_graph::first_circular;
use lt_syntax::Term;
use std::alloc::Global;
use std::marker::Model;

/// A call: the function in which it stands, the called name with the function's number, and how many arguments it has.
#[derive(Drop)]
pub struct Call<'a> {
    caller: u32,
    name: &'a str,
    callee: Option<u32>,
    arguments: usize,
}

impl<'a> Model for Call<'a> {
    ghost use Rattle.lt_resolve.specs.Uses.{Site};

    ghost Value = { Site };

    ghost view = { λ c. record { caller = c.caller; name = c.name.now; callee = c.callee; arguments = c.arguments } };
}

impl<'a> Call<'a> {
    /// The call's fault of this kind.
    fn fault(&self, alloc: Global, kind: NameKind) -> Or<NameFault>
        ensures { ShowsSite kind self.now result }
    {
        locate_fault(alloc, kind, self.caller as usize, Or::Fault(self.name))
    }
}

/// Appends the calls in a term, in text order.
#[cycle(collect)]
pub fn collect<'a>(
    functions: &Names,
    caller: u32,
    term: &'a Term,
    calls: &mut Vec<Call<'a>>,
) -> Result<(), Memory>
    ensures { OnOk result (calls.new.items ≡ calls.old.items ++ sites_in functions.now caller (tm_of term.now)) }
{
    match term {
        Term::Lit(_) | Term::Var(_) => Ok(()),
        Term::Un(_, a) | Term::When(a, _, _) | Term::Fby(_, a) => {
            collect(functions, caller, a, calls)
        }
        Term::Bin(_, a, b) | Term::Merge(_, a, b) | Term::Follow(a, b) | Term::Arrow(a, b) =>
            collect_pair(functions, caller, a, b, calls),
        Term::If(c, a, b) => collect_choice(functions, caller, c, a, b, calls),
        Term::Call(f, args) => collect_call(functions, caller, f, args, calls),
    }
}

/// Appends the calls in two terms.
#[cycle(collect)]
fn collect_pair<'a>(
    functions: &Names,
    caller: u32,
    a: &'a Term,
    b: &'a Term,
    calls: &mut Vec<Call<'a>>,
) -> Result<(), Memory>
    ensures { OnOk result (calls.new.items ≡ calls.old.items ++ (sites_in functions.now caller (tm_of a.now) ++ sites_in functions.now caller (tm_of b.now))) }
{
    collect(functions, caller, a, calls)?;
    collect(functions, caller, b, calls)
}

/// Appends the calls in a choice.
#[cycle(collect)]
fn collect_choice<'a>(
    functions: &Names,
    caller: u32,
    c: &'a Term,
    a: &'a Term,
    b: &'a Term,
    calls: &mut Vec<Call<'a>>,
) -> Result<(), Memory>
    ensures { OnOk result (calls.new.items ≡ calls.old.items ++ (sites_in functions.now caller (tm_of c.now)
        ++ (sites_in functions.now caller (tm_of a.now) ++ sites_in functions.now caller (tm_of b.now)))) }
{
    collect(functions, caller, c, calls)?;
    collect_pair(functions, caller, a, b, calls)
}

/// Appends a call, and the calls in its arguments.
#[cycle(collect)]
fn collect_call<'a>(
    functions: &Names,
    caller: u32,
    f: &'a Name,
    args: &'a [Term],
    calls: &mut Vec<Call<'a>>,
) -> Result<(), Memory>
    ensures { OnOk result (calls.new.items ≡ calls.old.items ++ sites_in functions.now caller (tree.Call f.now (tms (map tm_of args.now)))) }
{
    let name = f.as_str();
    calls.push(Call {
        caller,
        name,
        callee: functions.number(name),
        arguments: args.len(),
    })?;
    collect_arguments(functions, caller, args, calls)
}

#[cycle(collect)]
fn collect_arguments<'a>(
    functions: &Names,
    caller: u32,
    args: &'a [Term],
    calls: &mut Vec<Call<'a>>,
) -> Result<(), Memory>
    ensures { OnOk result (calls.new.items ≡ calls.old.items ++ argument_sites functions.now caller (tms (map tm_of args.now))) }
{
    'arguments: for a in args {
        collect(functions, caller, a, calls)?;
    }
    Ok(())
}

/// How many arguments a call has to have.
fn argument_count(tables: &Tables, callee: Option<u32>) -> usize
    ensures { result ≡ wanted tables.now callee }
{
    match callee {
        Some(g) => match tables.scopes().get(g as usize) {
            Some(scope) => scope.node().ins.len(),
            None => 0,
        },
        None => 2,
    }
}

/// How many outputs what is called has.
fn output_count(tables: &Tables, callee: Option<u32>) -> usize
    ensures { result ≡ answered tables.now callee }
{
    match callee {
        Some(g) => match tables.scopes().get(g as usize) {
            Some(scope) => scope.node().outs.len(),
            None => 0,
        },
        None => 1,
    }
}

/// Refuses the first call with a wrong number of arguments.
fn right_counts(alloc: Global, tables: &Tables, calls: &[Call]) -> Result<(), Or<NameFault>>
    requires { calls.now ≡ sites tables.now }
    ensures shown { ShowsFault NameKind.WrongCount (First tables.now NameKind.WrongCount) result }
    ensures fine { First tables.now NameKind.WrongCount None → IsOk result }
{
    'calls: for call in calls {
        if call.arguments != argument_count(tables, call.callee) {
            return Err(call.fault(alloc, NameKind::WrongCount));
        }
    }
    Ok(())
}

/// Refuses the first call of a function with other than one output.
fn one_output(alloc: Global, tables: &Tables, calls: &[Call]) -> Result<(), Or<NameFault>>
    requires { calls.now ≡ sites tables.now }
    ensures shown { ShowsFault NameKind.NotOneOutput (First tables.now NameKind.NotOneOutput) result }
    ensures fine { First tables.now NameKind.NotOneOutput None → IsOk result }
{
    'calls: for call in calls {
        if output_count(tables, call.callee) != 1 {
            return Err(call.fault(alloc, NameKind::NotOneOutput));
        }
    }
    Ok(())
}

/// The calls of functions, each from the calling to the called one.
fn edges_of(alloc: Global, calls: &[Call]) -> Result<Vec<(u32, u32)>, Memory>
    ensures { IfOk result (λ list. list.items ≡ edges calls.now) }
{
    let mut list = Vec::with_capacity(alloc, calls.len())?;
    'calls: for call in calls {
        if let Some(callee) = call.callee {
            list.push((call.caller, callee))?;
        }
    }
    Ok(list)
}

/// Refuses the first call that lies on a closed walk of calls.
fn no_recursion(alloc: Global, tables: &Tables, calls: &[Call]) -> Result<(), Or<NameFault>>
    requires calls { calls.now ≡ sites tables.now }
    requires within { AreWithin (length tables.now) (edges calls.now) }
    ensures { ShowsFault NameKind.Recursive (First tables.now NameKind.Recursive) result }
{
    let edges = edges_of(alloc, calls)?;
    let scopes = tables.scopes();
    match first_circular(alloc, scopes.len(), &edges)? {
        None => Ok(()),
        Some(place) => {
            let (caller, callee) = edges[place];
            let name = scopes[callee as usize].node().name.as_str();
            Err(locate_fault(alloc, NameKind::Recursive, caller as usize, Or::Fault(name)))
        }
    }
}

/// Refuses the first fault of calls.
pub fn check_calls(alloc: Global, tables: &Tables, calls: &[Call]) -> Result<(), Or<NameFault>>
    requires room { length tables.now < 2 ^ 32 }
    requires calls { calls.now ≡ sites tables.now }
    requires cleared { Cleared tables.now 2 6 }
    ensures { ChecksPass tables.now 2 9 result }
{
    right_counts(alloc, tables, calls)?;
    one_output(alloc, tables, calls)?;
    no_recursion(alloc, tables, calls)
}

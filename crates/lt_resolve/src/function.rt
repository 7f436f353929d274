// Names to numbers in declarations, equations and functions.
ghost use Rattle.std.specs.Prelude.{◌≡◌, ◌++◌, ◌+◌, ◌<◌, ◌^◌, IfOk, OnOk, List, length, reverse};
ghost use Rattle.lt_syntax.specs.declared.tree.DeclText.{DeclText as OneDecl};
ghost use Rattle.lt_resolve.specs.Names.{first_some};
ghost use Rattle.lt_resolve.specs.Faults.{unknown_clock, unknown_declared, unknown_equation, unknown_in};
ghost use Rattle.lt_resolve.specs.Told.{TellsName};
ghost use Rattle.lt_base.specs.Program.{GoodFunction};
ghost use Rattle.lt_resolve.specs.Named.{IsPair, IsDeclared, Along, numbers_from};
ghost use Rattle.lt_resolve.specs.Drafts.{IsDraftEquation, IsDraft, completed};

use crate::expression::expression;
use crate::names::Names;
use crate::scope::Scope;
use lt_base::{Clock, Decl, Equation, Func, List, Memory, Name, Or};
use lt_syntax::{DeclText, EqText, NodeText};
use std::alloc::Global;

fn clock<'t>(
    alloc: Global,
    variables: &Names,
    pairs: &'t List<(Name, bool)>,
) -> Result<Clock, Or<&'t str>>
    ensures told { TellsName (unknown_clock variables.now pairs.now) result }
    ensures named { IfOk result (λ clock. Along (IsPair variables.now) pairs.now (reverse clock)) }
{
    let mut clock = Clock::base(alloc);
    'pairs: for pair in pairs.iter() {
        clock = clock.deeper(variables.find(pair.0.as_str())?, pair.1)?;
    }
    Ok(clock)
}

fn declaration<'t>(
    alloc: Global,
    variables: &Names,
    decl: &'t DeclText,
) -> Result<Decl, Or<&'t str>>
    ensures told { TellsName (unknown_clock variables.now decl.now.clock) result }
    ensures named { IfOk result (λ d. IsDeclared variables.now decl.now d) }
{
    Ok(Decl {
        name: decl.name.copy()?,
        ty: decl.ty,
        clock: clock(alloc, variables, &decl.clock)?,
    })
}

/// Appends declarations.
fn declare<'t>(
    alloc: Global,
    variables: &Names,
    decls: &'t List<DeclText>,
    out: &mut Vec<Decl>,
) -> Result<(), Or<&'t str>>
    ensures told { TellsName (unknown_declared variables.now decls.now) result }
    ensures named { OnOk result ((before : List OneDecl) → Along (IsDeclared variables.now) before out.old.items
        → Along (IsDeclared variables.now) (before ++ decls.now) out.new.items) }
{
    'decls: for decl in decls.iter() {
        out.push(declaration(alloc, variables, decl)?)?;
    }
    Ok(())
}

pub fn equation<'t>(
    alloc: Global,
    variables: &Names,
    functions: &Names,
    eq: &'t EqText,
) -> Result<Equation, Or<&'t str>>
    ensures told { TellsName (unknown_equation variables.now functions.now eq.now) result }
    ensures named { IfOk result (λ e. IsDraftEquation variables.now functions.now eq.now e) }
{
    let left = variables.find(eq.left().as_str())?;
    let right = expression(alloc, variables, functions, eq.right())?;
    Ok(Equation::new(left, right))
}

fn equations<'t>(
    alloc: Global,
    variables: &Names,
    functions: &Names,
    eqs: &'t List<EqText>,
) -> Result<Vec<Equation>, Or<&'t str>>
    ensures told { TellsName (first_some (unknown_equation variables.now functions.now) eqs.now) result }
    ensures named { IfOk result (λ list. Along (IsDraftEquation variables.now functions.now) eqs.now list.items) }
{
    let mut list = Vec::with_capacity(alloc, eqs.len())?;
    'eqs: for eq in eqs.iter() {
        list.push(equation(alloc, variables, functions, eq)?)?;
    }
    Ok(list)
}

/// A function with the numbers of its names, before its other faults are looked for.
#[derive(Drop)]
pub struct Draft<'a> {
    node: &'a NodeText,
    decls: List<Decl>,
    eqs: List<Equation>,
}

/// The function with its names replaced by numbers; refuses the first name that has no number.
pub fn draft_of<'a>(
    alloc: Global,
    functions: &Names,
    scope: &Scope<'a>,
) -> Result<Draft<'a>, Or<&'a str>>
    ensures told { TellsName (unknown_in functions.now scope.now) result }
    ensures node { IfOk result (λ d. d.node.now ≡ scope.now) }
    ensures draft { IfOk result (IsDraft functions.now) }
{
    let node = scope.node();
    let variables = scope.variables();
    let mut decls = Vec::new(alloc);
    declare(alloc, variables, &node.ins, &mut decls)?;
    declare(alloc, variables, &node.outs, &mut decls)?;
    declare(alloc, variables, &node.locals, &mut decls)?;
    let eqs = equations(alloc, variables, functions, &node.eqs)?;
    Ok(Draft {
        node,
        decls: List::of(decls),
        eqs: List::of(eqs),
    })
}

/// As many numbers, from the first on.
fn count(alloc: Global, first: u32, n: u32) -> Result<Vec<u32>, Memory>
    requires { first + n < 2 ^ 32 }
    ensures { IfOk result (λ list. list.items ≡ numbers_from first n) }
{
    let mut list = Vec::with_capacity(alloc, n as usize)?;
    'numbers: for i in 0..n {
        list.push(first + i)?;
    }
    Ok(list)
}

impl<'a> Draft<'a> {
    /// The draft with these equations.
    pub fn with_equations(self, eqs: Vec<Equation>) -> Draft<'a>
        ensures { result ≡ record self.entry { eqs = eqs.items } }
    {
        Draft {
            node: self.node,
            decls: self.decls,
            eqs: List::of(eqs),
        }
    }

    /// The function of a draft that turned out to be without a fault.
    pub fn function(self, alloc: Global) -> Result<Func, Memory>
        requires room { length self.node.now.ins + length self.node.now.outs < 2 ^ 32 }
        requires good { GoodFunction (completed self) }
        ensures { IfOk result (λ f. f ≡ completed self.entry) }
    {
        let node = self.node;
        let inputs = node.ins.len() as u32;
        let outs = count(alloc, inputs, node.outs.len() as u32)?;
        Ok(Func::new(
            node.name.copy()?,
            self.decls,
            inputs,
            List::of(outs),
            self.eqs,
        ))
    }
}

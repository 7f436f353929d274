// A function of the tree with the table of its variables.
ghost use Rattle.std.specs.Prelude.{◌≡◌, ◌++◌, [], ◌^◌, ◌-◌, min, ℕ, List, IfOk, OnOk, map};
ghost use Rattle.lt_resolve.specs.Names.{among, if_missing, repeated_name, first_some};
ghost use Rattle.lt_resolve.specs.Scopes.{declared_names, variables};
ghost use Rattle.lt_resolve.specs.Faults.{no_equation_in, two_equations_in, input_equation_in, size};
ghost use Rattle.lt_resolve.specs.Uses.{all_delays};
ghost use Rattle.lt_resolve.specs.Told.{TellsName};
ghost use Rattle.lt_base.specs.Memory.{NeedsNoMemory};

use crate::names::Names;
use lt_base::{List, Memory, Or};
use lt_syntax::{DeclText, EqText, NodeText};
use std::alloc::Global;
use std::marker::Model;

/// A function of the tree, with the table of its variables.
#[derive(Drop)]
pub struct Scope<'a> {
    node: &'a NodeText,
    variables: Names<'a>,
}

impl<'a> Model for Scope<'a> {
    ghost use Rattle.std.specs.Prelude.{◌≡◌};
    ghost use Rattle.lt_syntax.specs.declared.tree.NodeText.{NodeText};
    ghost use Rattle.lt_syntax.specs.contracts.tree.NodeText.{the_row};
    ghost use Rattle.lt_resolve.specs.Scopes as scopes;

    ghost Value = { NodeText };

    ghost coded = { the_row.coded };

    ghost view = { λ s. s.node.now };

    ghost invariant = { λ s. s.variables ≡ scopes.variables s.node.now };
}

/// Appends declared names; refuses one that is there.
fn declare<'a>(names: &mut Names<'a>, decls: &'a List<DeclText>) -> Result<(), Or<&'a str>>
    ensures told { TellsName (repeated_name names.old (declared_names decls.now)) result }
    ensures ok { OnOk result (names.new ≡ names.old ++ declared_names decls.now) }
{
    'decls: for decl in decls.iter() {
        let name = decl.name.as_str();
        if !names.insert(name)? {
            return Err(Or::Fault(name));
        }
    }
    Ok(())
}

/// Puts the variables of a function into a table without any names; refuses one that is there.
fn declare_all<'a>(names: &mut Names<'a>, node: &'a NodeText) -> Result<(), Or<&'a str>>
    requires { names.old ≡ [] }
    ensures told { TellsName (repeated_name [] (variables node.now)) result }
    ensures ok { OnOk result (names.new ≡ variables node.now) }
{
    declare(names, &node.ins)?;
    declare(names, &node.outs)?;
    declare(names, &node.locals)?;
    Ok(())
}

/// Appends the left sides of equations; refuses one that is there.
fn insert_lefts<'a>(names: &mut Names<'a>, eqs: &'a List<EqText>) -> Result<(), Or<&'a str>>
    ensures { TellsName (repeated_name names.old (map (λ q. q.0) eqs.now)) result }
{
    'eqs: for eq in eqs.iter() {
        let name = eq.left().as_str();
        if !names.insert(name)? {
            return Err(Or::Fault(name));
        }
    }
    Ok(())
}

/// The left sides of equations, each once.
fn table_of_lefts<'a>(alloc: Global, eqs: &'a List<EqText>) -> Result<Names<'a>, Memory>
    ensures { IfOk result (λ names. (x : List ℕ) → among names x ≡ among (map (λ q. q.0) eqs.now) x) }
{
    let mut names = Names::with_capacity(alloc, eqs.len())?;
    'eqs: for eq in eqs.iter() {
        names.insert(eq.left().as_str())?;
    }
    Ok(names)
}

/// Refuses the first declared name that is not in the table.
fn all_among<'t>(names: &Names, decls: &'t List<DeclText>) -> Result<(), Or<&'t str>>
    ensures told { TellsName (first_some (if_missing names.now) (declared_names decls.now)) result }
    ensures memory { NeedsNoMemory result }
{
    'decls: for decl in decls.iter() {
        names.check(decl.name.as_str())?;
    }
    Ok(())
}

/// Refuses the first output or local of a function that is not in the table.
fn others_among<'t>(names: &Names, node: &'t NodeText) -> Result<(), Or<&'t str>>
    ensures { TellsName (first_some (if_missing names.now) (declared_names (node.now.outs ++ node.now.locals))) result }
{
    all_among(names, &node.outs)?;
    all_among(names, &node.locals)
}

impl<'a> Scope<'a> {
    /// The function with its variables; refuses a variable that was declared before.
    pub fn of(alloc: Global, node: &'a NodeText) -> Result<Scope<'a>, Or<&'a str>>
        ensures told { TellsName (repeated_name [] (variables node.now)) result }
        ensures ok { IfOk result (λ s. s ≡ node.now) }
    {
        let many = node.ins.len().saturating_add(node.outs.len());
        let many = many.saturating_add(node.locals.len());
        let mut variables = Names::with_capacity(alloc, many)?;
        match declare_all(&mut variables, node) {
            Ok(()) => Ok(Scope { node, variables }),
            Err(error) => {
                drop(variables);
                Err(error)
            }
        }
    }

    pub fn node(&self) -> &'a NodeText
        ensures { result.now ≡ self.now }
    {
        self.node
    }

    pub fn variables(&self) -> &Names<'a>
        ensures { result.now ≡ variables self.now }
    {
        &self.variables
    }

    /// Refuses the first output or local without an equation.
    pub fn no_equation(&self, alloc: Global) -> Result<(), Or<&'a str>>
        ensures { TellsName (no_equation_in self.now) result }
    {
        let lefts = table_of_lefts(alloc, &self.node.eqs)?;
        let told = others_among(&lefts, self.node);
        drop(lefts);
        told
    }

    /// Refuses the first second equation of a variable.
    pub fn two_equations(&self, alloc: Global) -> Result<(), Or<&'a str>>
        ensures { TellsName (two_equations_in self.now) result }
    {
        let mut names = Names::with_capacity(alloc, self.node.eqs.len())?;
        let told = insert_lefts(&mut names, &self.node.eqs);
        drop(names);
        told
    }

    fn is_input(&self, name: &str) -> bool
        ensures { result ≡ among (declared_names self.now.ins) name.now }
    {
        match self.variables.number(name) {
            Some(i) => (i as usize) < self.node.ins.len(),
            None => false,
        }
    }

    /// Refuses the first equation of an input.
    pub fn input_equation(&self) -> Result<(), Or<&'a str>>
        ensures told { TellsName (input_equation_in self.now) result }
        ensures memory { NeedsNoMemory result }
    {
        'eqs: for eq in self.node.eqs.iter() {
            let name = eq.left().as_str();
            if self.is_input(name) {
                return Err(Or::Fault(name));
            }
        }
        Ok(())
    }

    /// The number of its variables and of these, its delays, cut at the greatest number.
    pub fn size(&self, delays: u64) -> u64
        requires { delays ≡ all_delays self.now.eqs }
        ensures { result ≡ min (size self.now) (2 ^ 64 - 1) }
    {
        let ins = self.node.ins.len() as u64;
        let outs = self.node.outs.len() as u64;
        let locals = self.node.locals.len() as u64;
        ins.saturating_add(outs)
            .saturating_add(locals)
            .saturating_add(delays)
    }
}

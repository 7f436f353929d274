// Monitors.
ghost use Rattle.std.specs.Prelude.{◌≡◌, ◌↔◌, ◌++◌, ◌∷◌, [], IfOk, OnOk, IsTrue, List as Items, Bool as Truth, length};
ghost use Rattle.lt_past.specs.Formula.{Formula, unary, binary};
ghost use Rattle.lt_past.specs.Views.{formula_of};
ghost use Rattle.lt_past.specs.Satisfaction.{Sat, signals_of};
ghost use Rattle.lt_past.specs.Parts.{Fit, parts_of};
ghost use Rattle.lt_past.specs.Turn.{Turned, infix_value, past, prior};
ghost use Rattle.lt_past.specs.Monitoring.{MonitorStands, MonitorGoesOn, TellsNext};

use crate::words::{Infix, Prefix};
use crate::{Obs, Observer};
use lt_base::Memory;
use std::alloc::Global;
use std::marker::Model;

/// A part of a formula, behind the parts that are its operands. Its last operand is the part before it, and the first of two has
/// this number.
#[derive(Clone, Copy, Debug, PartialEq, Eq)]
pub enum Part {
    Lit(bool),
    Out(u32),
    Before(Prefix),
    Between(Infix, usize),
}

/// Follows the outputs that an observer names from instant to instant, with a truth value for each part of the observer's formula.
#[derive(Drop)]
pub struct Monitor {
    width: usize,
    parts: Vec<Part>,
    values: Vec<bool>,
    began: bool,
}

impl Model for Monitor {
    ghost use Rattle.lt_past.specs.Monitoring.{Watching, coded_watching, IsMonitor};

    ghost Value = { Watching };

    ghost coded = { coded_watching };

    ghost view = { λ m. record { width = m.width; parts = m.parts.items; values = m.values.items; began = m.began } };

    ghost invariant = { λ m. IsMonitor (record { width = m.width; parts = m.parts.items; values = m.values.items; began = m.began }) };
}

fn push(parts: &mut Vec<Part>, part: Part) -> Result<(), Memory>
    ensures { OnOk result (parts.new.items ≡ parts.old.items ++ part ∷ []) }
{
    parts.push(part)?;
    Ok(())
}

/// Appends the parts of a formula.
#[cycle(adding)]
fn add_parts(formula: &Obs, parts: &mut Vec<Part>) -> Result<(), Memory>
    ensures { OnOk result (parts.new.items ≡ parts.old.items ++ parts_of (length parts.old.items) (formula_of formula.now)) }
{
    match formula {
        Obs::Lit(b) => push(parts, Part::Lit(*b)),
        Obs::Out(k) => push(parts, Part::Out(*k)),
        Obs::Not(a) => add_before(Prefix::Not, a, parts),
        Obs::Previous(a) => add_before(Prefix::Previous, a, parts),
        Obs::Once(a) => add_before(Prefix::Once, a, parts),
        Obs::Historically(a) => add_before(Prefix::Historically, a, parts),
        Obs::And(a, b) => add_between(Infix::And, a, b, parts),
        Obs::Or(a, b) => add_between(Infix::Or, a, b, parts),
        Obs::Since(a, b) => add_between(Infix::Since, a, b, parts),
        Obs::Implies(a, b) => add_between(Infix::Implies, a, b, parts),
    }
}

/// Appends the parts of a word and of the operand behind it.
#[cycle(adding)]
fn add_before(word: Prefix, a: &Obs, parts: &mut Vec<Part>) -> Result<(), Memory>
    ensures { OnOk result (parts.new.items ≡ parts.old.items ++ parts_of (length parts.old.items) (unary word (formula_of a.now))) }
{
    add_parts(a, parts)?;
    push(parts, Part::Before(word))
}

/// Appends the parts of a word and of the operands beside it.
#[cycle(adding)]
fn add_between(word: Infix, a: &Obs, b: &Obs, parts: &mut Vec<Part>) -> Result<(), Memory>
    ensures { OnOk result (parts.new.items ≡ parts.old.items ++ parts_of (length parts.old.items) (binary word (formula_of a.now) (formula_of b.now))) }
{
    add_parts(a, parts)?;
    let first = parts.len() - 1;
    add_parts(b, parts)?;
    push(parts, Part::Between(word, first))
}

/// The value of a word before its operand, by its own value at the instant before, where there was one, the operand's there, and the
/// operand's now.
fn past(word: Prefix, began: bool, last: bool, before: bool, newest: bool) -> bool
    ensures { result ≡ past word began last before newest }
{
    match word {
        Prefix::Not => !newest,
        Prefix::Previous => before,
        Prefix::Once => last || newest,
        Prefix::Historically => (!began || last) && newest,
    }
}

/// The value of a word between its operands, by its own value at the instant before, and theirs now.
fn both(word: Infix, last: bool, first: bool, second: bool) -> bool
    ensures { result ≡ infix_value word last first second }
{
    match word {
        Infix::And => first && second,
        Infix::Or => first || second,
        Infix::Since => second || (last && first),
        Infix::Implies => !first || second,
    }
}

/// Gives each part its value at the next instant: the value of the last one.
fn turn(parts: &[Part], values: &mut [bool], began: bool, now: &[bool]) -> bool
    requires fit { Fit (length now.now) parts.now }
    requires each { length values.old ≡ length parts.now }
    ensures turned { Turned parts.now began now.now values.old values.new (length parts.now) }
    ensures value { result ≡ prior values.new (length parts.now) }
{
    let mut before = false;
    let mut newest = false;
    'parts: for k in 0..parts.len() {
        let last = values[k];
        newest = match parts[k] {
            Part::Lit(b) => b,
            Part::Out(i) => now[i as usize],
            Part::Before(word) => past(word, began, last, before, newest),
            Part::Between(word, first) => both(word, last, values[first], newest),
        };
        values[k] = newest;
        before = last;
    }
    newest
}

impl Monitor {
    /// Before the first instant.
    pub fn start(alloc: Global, observer: &Observer) -> Result<Monitor, Memory>
        ensures stands { IfOk result (λ monitor. MonitorStands monitor observer.now.formula []) }
        ensures width { IfOk result (λ monitor. monitor.width ≡ length observer.now.outs) }
    {
        let mut parts = Vec::new(alloc);
        add_parts(&observer.formula, &mut parts)?;
        let values = vec![in alloc; false; parts.len()]?;
        Ok(Monitor {
            width: observer.outs.len(),
            parts,
            values,
            began: false,
        })
    }

    /// Whether the formula holds at the next instant, at which the outputs that the observer names have these values. It takes no
    /// memory.
    pub fn step(&mut self, now: &[bool]) -> bool
        requires { length now.now ≡ self.old.width }
        ensures stands { MonitorGoesOn self.old self.new now.now }
        ensures value { (f : Formula) (instants : Items (Items Truth)) → MonitorStands self.old f instants → TellsNext f instants now.now result }
        ensures width { self.new.width ≡ self.old.width }
    {
        let holds = turn(&self.parts, &mut self.values, self.began, now);
        self.began = true;
        holds
    }
}

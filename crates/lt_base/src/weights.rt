// How large a program is.

ghost use Rattle.std.specs.Prelude.{◌≡◌, ◌≤◌, ℕ, IfOk, length, map};
ghost use Rattle.lt_base.specs.Expression.{shape};
ghost use Rattle.lt_base.specs.Calls.{NotRecursive};
ghost use Rattle.lt_base.specs.Sizes.{cost, cut, in_table, weight_with, parts_with, nested, program_weight, program_parts};
ghost use Rattle.lt_base.specs.Measured.{measured};

use crate::{Expr, Func, Memory, Program, Sizes};
use std::alloc::Global;

// What is added up.
#[derive(Clone, Copy)]
pub(crate) enum Measure {
    Weight,
    Parts,
}

/// The weight and the expression parts of `main`, each cut at the greatest number.
pub fn sizes(alloc: Global, p: &Program) -> Result<Sizes, Memory>
    requires { NotRecursive p.now.funcs }
    ensures weight { IfOk result (λ s. s.weight ≡ cut (program_weight p.now)) }
    ensures parts { IfOk result (λ s. s.parts ≡ cut (program_parts p.now)) }
{
    let weights = totals(alloc, &p.funcs, Measure::Weight)?;
    let parts = totals(alloc, &p.funcs, Measure::Parts)?;
    Ok(Sizes {
        weight: entry_of(&weights, p.main),
        parts: entry_of(&parts, p.main),
    })
}

// The measure of each function. Each round allows for one more nested call, and the first one that changes nothing is the last.
pub(crate) fn totals(
    alloc: Global,
    functions: &[Func],
    measure: Measure,
) -> Result<Vec<u64>, Memory>
    ensures { IfOk result (λ table. (g : ℕ) → in_table table.items g ≡ cut (nested (measured measure) functions.now (length functions.now) g)) }
{
    let mut table: Vec<u64> = Vec::new(alloc);
    for _round in 0..functions.len() {
        let next = next_table(alloc, functions, measure, table.as_slice())?;
        if next.as_slice() == table.as_slice() {
            return Ok(table);
        }
        table = next;
    }
    Ok(table)
}

// The measures of all functions over those of the called ones.
fn next_table(
    alloc: Global,
    functions: &[Func],
    measure: Measure,
    table: &[u64],
) -> Result<Vec<u64>, Memory>
    ensures { IfOk result (λ next. next.items ≡ map (λ f. cut (measured measure (in_table table.now) f)) functions.now) }
{
    let mut next = Vec::with_capacity(alloc, functions.len())?;
    for f in functions {
        next.push(measure_of(f, measure, table))?;
    }
    Ok(next)
}

// The measure of a function over a table of those that it calls.
fn measure_of(f: &Func, measure: Measure, table: &[u64]) -> u64
    ensures { result ≡ cut (measured measure (in_table table.now) f.now) }
{
    match measure {
        Measure::Weight => weight_of(f, table),
        Measure::Parts => parts_of(f, table),
    }
}

// The weight of a function over a table of those that it calls.
fn weight_of(f: &Func, table: &[u64]) -> u64
    ensures { result ≡ cut (weight_with (in_table table.now) f.now) }
{
    let mut sum = f.decls.len() as u64;
    for equation in f.eqs.iter() {
        sum = sum.saturating_add(cost(equation.right(), 1, table));
    }
    sum
}

// The parts of a function over a table of those that it calls.
fn parts_of(f: &Func, table: &[u64]) -> u64
    ensures { result ≡ cut (parts_with (in_table table.now) f.now) }
{
    let mut sum = 0u64;
    for equation in f.eqs.iter() {
        let right = equation.right();
        sum = sum
            .saturating_add(right.parts())
            .saturating_add(cost(right, 0, table));
    }
    sum
}

// A number for each delay, and the table's for each call.
fn cost(e: &Expr, delay: u64, table: &[u64]) -> u64
    requires { delay ≤ 1 }
    ensures { result ≡ cut (cost delay (in_table table.now) (shape e.now)) }
{
    match e {
        Expr::Lit(_) => 0,
        Expr::Var(_) => 0,
        Expr::Un(_, a) => cost(a, delay, table),
        Expr::Bin(_, a, b) => cost(a, delay, table).saturating_add(cost(b, delay, table)),
        Expr::Imported(_, a, b) => cost(a, delay, table).saturating_add(cost(b, delay, table)),
        Expr::If(c, a, b) => cost(c, delay, table)
            .saturating_add(cost(a, delay, table))
            .saturating_add(cost(b, delay, table)),
        Expr::When(a, _, _) => cost(a, delay, table),
        Expr::Merge(_, a, b) => cost(a, delay, table).saturating_add(cost(b, delay, table)),
        Expr::Fby(_, a) => cost(a, delay, table).saturating_add(delay),
        Expr::Follow(a, b) => cost(a, delay, table)
            .saturating_add(cost(b, delay, table))
            .saturating_add(2 * delay),
        Expr::Arrow(a, b) => cost(a, delay, table)
            .saturating_add(cost(b, delay, table))
            .saturating_add(delay),
        Expr::Call(g, args) => {
            let mut sum = 0u64;
            for a in args {
                sum = sum.saturating_add(cost(a, delay, table));
            }
            entry_of(table, *g).saturating_add(sum)
        }
    }
}

// The number of a function in a table.
fn entry_of(table: &[u64], g: u32) -> u64
    ensures { result ≡ in_table table.now g }
{
    match table.get(g as usize) {
        Some(n) => *n,
        None => 0,
    }
}

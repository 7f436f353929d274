// How large a program is.
ghost use Rattle.std.specs.Prelude.{◌≡◌, ◌+◌, ◌++◌, ℕ, IfOk, OnOk, length, map};
ghost use Rattle.std.specs.List.{All, sum_by};
ghost use Rattle.lt_base.specs.Expression.{shape, arguments_of, parts};
ghost use Rattle.lt_base.specs.Calls.{called, arguments_called, equations_called};
ghost use Rattle.lt_base.specs.Sizes.{cost, arguments_cost, cut, in_table, nested, program_weight, program_parts};
ghost use Rattle.lt_check.specs.Shares.{nothing, share_measure, own, IsShare};

use lt_base::{Expr, Func, List, Memory, Program, Sizes};
use std::alloc::Global;

/// What is added up.
#[derive(Clone, Copy)]
enum Measure {
    Weight,
    Parts,
}

/// What a function has itself, and whom it calls, once for each call.
#[derive(Drop)]
struct Share<'a> {
    function: &'a Func,
    weight: u64,
    parts: u64,
    calls: List<u32>,
}

/// The delays in an expression.
#[cycle(delays)]
fn delays(e: &Expr) -> u64
    ensures { result ≡ cut (cost 1 nothing (shape e.now)) }
{
    match e {
        Expr::Lit(_) => 0,
        Expr::Var(_) => 0,
        Expr::Un(_, a) => delays(a),
        Expr::Bin(_, a, b) => delays(a).saturating_add(delays(b)),
        Expr::Imported(_, a, b) => delays(a).saturating_add(delays(b)),
        Expr::If(c, a, b) => delays(c)
            .saturating_add(delays(a))
            .saturating_add(delays(b)),
        Expr::When(a, _, _) => delays(a),
        Expr::Merge(_, a, b) => delays(a).saturating_add(delays(b)),
        Expr::Fby(_, a) => delays(a).saturating_add(1),
        Expr::Follow(a, b) => delays(a).saturating_add(delays(b)).saturating_add(2),
        Expr::Arrow(a, b) => delays(a).saturating_add(delays(b)).saturating_add(1),
        Expr::Call(_, args) => all_delays(args),
    }
}

#[cycle(delays)]
fn all_delays(args: &[Expr]) -> u64
    ensures { result ≡ cut (arguments_cost 1 nothing (arguments_of (map shape args.now))) }
{
    let mut sum = 0u64;
    'arguments: for a in args {
        sum = sum.saturating_add(delays(a));
    }
    sum
}

/// Appends the functions that an expression calls.
#[cycle(push_calls)]
fn push_calls(e: &Expr, to: &mut List<u32>) -> Result<(), Memory>
    ensures { OnOk result (to.new ≡ to.old ++ called (shape e.now)) }
{
    match e {
        Expr::Lit(_) => Ok(()),
        Expr::Var(_) => Ok(()),
        Expr::Un(_, a) => push_calls(a, to),
        Expr::Bin(_, a, b) => {
            push_calls(a, to)?;
            push_calls(b, to)
        }
        Expr::Imported(_, a, b) => {
            push_calls(a, to)?;
            push_calls(b, to)
        }
        Expr::If(c, a, b) => {
            push_calls(c, to)?;
            push_calls(a, to)?;
            push_calls(b, to)
        }
        Expr::When(a, _, _) => push_calls(a, to),
        Expr::Merge(_, a, b) => {
            push_calls(a, to)?;
            push_calls(b, to)
        }
        Expr::Fby(_, a) => push_calls(a, to),
        Expr::Follow(a, b) => {
            push_calls(a, to)?;
            push_calls(b, to)
        }
        Expr::Arrow(a, b) => {
            push_calls(a, to)?;
            push_calls(b, to)
        }
        Expr::Call(g, args) => {
            to.push(*g)?;
            push_all(args, to)
        }
    }
}

#[cycle(push_calls)]
fn push_all(args: &[Expr], to: &mut List<u32>) -> Result<(), Memory>
    ensures { OnOk result (to.new ≡ to.old ++ arguments_called (arguments_of (map shape args.now))) }
{
    'arguments: for a in args {
        push_calls(a, to)?;
    }
    Ok(())
}

/// The functions that a function calls, in text order; one that is called twice stands there twice.
pub fn calls_of(alloc: Global, f: &Func) -> Result<List<u32>, Memory>
    ensures { IfOk result (λ list. list ≡ equations_called f.now.eqs) }
{
    let mut list = List::new(alloc);
    'equations: for equation in f.eqs.iter() {
        push_calls(equation.right(), &mut list)?;
    }
    Ok(list)
}

/// The share of a function. The three walks over an equation come one after another, while it is in the cache.
fn share_of<'a>(alloc: Global, function: &'a Func) -> Result<Share<'a>, Memory>
    ensures function { IfOk result (λ s. s.function.now ≡ function.now) }
    ensures share { IfOk result IsShare }
{
    let mut weight = function.decls.len() as u64;
    let mut parts = 0u64;
    let mut calls = List::new(alloc);
    'equations: for equation in function.eqs.iter() {
        let right = equation.right();
        weight = weight.saturating_add(delays(right));
        parts = parts.saturating_add(right.parts());
        push_calls(right, &mut calls)?;
    }
    Ok(Share {
        function,
        weight,
        parts,
        calls,
    })
}

/// The shares of functions.
fn shares<'a>(alloc: Global, functions: &'a [Func]) -> Result<Vec<Share<'a>>, Memory>
    ensures functions { IfOk result (λ shares. map (λ s. s.function.now) shares.items ≡ functions.now) }
    ensures shares { IfOk result (λ shares. All IsShare shares.items) }
{
    let mut shares = Vec::with_capacity(alloc, functions.len())?;
    'functions: for function in functions {
        shares.push(share_of(alloc, function)?)?;
    }
    Ok(shares)
}

fn own(measure: Measure, share: &Share) -> u64
    ensures { result ≡ own measure share.now }
{
    match measure {
        Measure::Weight => share.weight,
        Measure::Parts => share.parts,
    }
}

/// The number of a function in a table.
fn entry_of(table: &[u64], g: u32) -> u64
    ensures { result ≡ in_table table.now g }
{
    match table.get(g as usize) {
        Some(n) => *n,
        None => 0,
    }
}

/// What a function has itself, with the table's numbers of the functions that it calls.
fn total(own: u64, calls: &List<u32>, table: &[u64]) -> u64
    ensures { result ≡ cut (own + sum_by (in_table table.now) calls.now) }
{
    let mut sum = own;
    'calls: for g in calls.iter() {
        sum = sum.saturating_add(entry_of(table, *g));
    }
    sum
}

/// The measure of a function over a table of those that it calls.
fn measure_of(share: &Share, measure: Measure, table: &[u64]) -> u64
    requires { IsShare share.now }
    ensures { result ≡ cut (share_measure measure (in_table table.now) share.now.function.now) }
{
    total(own(measure, share), &share.calls, table)
}

/// The measures of all functions over those of the called ones.
fn next_table(
    alloc: Global,
    shares: &[Share],
    measure: Measure,
    table: &[u64],
) -> Result<Vec<u64>, Memory>
    requires { All IsShare shares.now }
    ensures { IfOk result (λ next. next.items ≡ map (λ s. cut (share_measure measure (in_table table.now) s.function.now)) shares.now) }
{
    let mut next = Vec::with_capacity(alloc, shares.len())?;
    'shares: for share in shares {
        next.push(measure_of(share, measure, table))?;
    }
    Ok(next)
}

/// The measure of each function. Each round allows for one more nested call, and the first one that changes nothing is
/// the last.
fn totals(alloc: Global, shares: &[Share], measure: Measure) -> Result<Vec<u64>, Memory>
    requires { All IsShare shares.now }
    ensures { IfOk result (λ table. (g : ℕ)
        → in_table table.items g ≡ cut (nested (share_measure measure) (map (λ s. s.function.now) shares.now) (length shares.now) g)) }
{
    let mut table: Vec<u64> = Vec::new(alloc);
    'rounds: for _round in 0..shares.len() {
        let next = next_table(alloc, shares, measure, &table)?;
        if next == table {
            return Ok(table);
        }
        table = next;
    }
    Ok(table)
}

/// The weight and the expression parts of `main`, each cut at the greatest number. Each expression is gone over three
/// times, however deep the calls are nested.
pub fn sizes(alloc: Global, p: &Program) -> Result<Sizes, Memory>
    ensures weight { IfOk result (λ s. s.weight ≡ cut (program_weight p.now)) }
    ensures parts { IfOk result (λ s. s.parts ≡ cut (program_parts p.now)) }
{
    let shares = shares(alloc, &p.funcs)?;
    let weights = totals(alloc, &shares, Measure::Weight)?;
    let parts = totals(alloc, &shares, Measure::Parts)?;
    Ok(Sizes {
        weight: entry_of(&weights, p.main),
        parts: entry_of(&parts, p.main),
    })
}

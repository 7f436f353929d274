// The streams of a program.

ghost use Rattle.std.specs.Prelude.{◌≡◌, ◌<◌, ◌≤◌, ◌^◌, ℕ, [], Some, MatchResult, IfOk, true, false, length, slice_get, slice_index_or};
ghost use Rattle.lt_base.specs.Or.{ForFault};
ghost use Rattle.lt_base.specs.Inputs.{entry_at};
ghost use Rattle.lt_base.specs.Checked.{CheckedProgram};
ghost use Rattle.lt_meaning.specs.Ready.{ArePlans, AreOfMain};
ghost use Rattle.lt_base.specs.Limits.{most_cells};
ghost use Rattle.lt_base.specs.Main.{main_of, HasOutputStreams, cell_count, InputsFitMain};
ghost use Rattle.lt_meaning.specs.Streams.{HasMainStreams, HasMainTypes, HasStreamsOf, ProgramNumbersFit};

use crate::Table;
use crate::plan::Plan;
use crate::planning::plan_of;
use crate::showing::show;
use crate::starting::start;
use crate::state::run;
use lt_base::limits::GREATEST_CELLS;
use lt_base::{Cell, Func, Inputs, List, Memory, Or, Program, Slot, sizes};
use std::alloc::Global;

/// Why the streams of a program are refused.
#[derive(Clone, Copy, Debug, PartialEq, Eq, Drop)]
pub enum StreamsFault {
    /// The weight of `main` times the number of rows is above the limit.
    TooMany,
}

/// The streams of all variables of `main`, for as many instants as there are rows of inputs.
pub fn streams(alloc: Global, p: &Program, inputs: &Inputs) -> Result<Table, Or<StreamsFault>>
    requires checked { CheckedProgram p.now }
    requires fit { InputsFitMain p.now inputs.now }
    requires room { ProgramNumbersFit p.now }
    ensures value { IfOk result (λ table. HasMainStreams p.now inputs.now.rows table) }
    ensures types { IfOk result (λ table. HasMainTypes p.now table) }
    ensures limit { MatchResult result
        (λ _. cell_count p.now inputs.now.rows ≤ most_cells)
        (λ e. ForFault e (λ _. most_cells < cell_count p.now inputs.now.rows)) }
{
    p.invariant_holds();
    let variables = variables_of(alloc, main_function(p))?;
    match chosen_streams(alloc, p, inputs, &variables) {
        Ok(columns) => Ok(Table::of(columns)),
        Err(fault) => Err(fault),
    }
}

/// The streams of the outputs of `main` alone, in the order of the outputs. It keeps no other cells than theirs.
pub fn output_streams(
    alloc: Global,
    p: &Program,
    inputs: &Inputs,
) -> Result<List<List<Cell>>, Or<StreamsFault>>
    requires checked { CheckedProgram p.now }
    requires fit { InputsFitMain p.now inputs.now }
    requires room { ProgramNumbersFit p.now }
    ensures value { IfOk result (λ streams. HasOutputStreams p.now inputs.now.rows streams) }
    ensures limit { MatchResult result
        (λ _. cell_count p.now inputs.now.rows ≤ most_cells)
        (λ e. ForFault e (λ _. most_cells < cell_count p.now inputs.now.rows)) }
{
    let main = main_function(p);
    main.invariant_holds();
    chosen_streams(alloc, p, inputs, &main.outs)
}

// The streams of these variables of main.
fn chosen_streams(
    alloc: Global,
    p: &Program,
    inputs: &Inputs,
    variables: &[u32],
) -> Result<List<List<Cell>>, Or<StreamsFault>>
    requires checked { CheckedProgram p.now }
    requires fit { InputsFitMain p.now inputs.now }
    requires room { ProgramNumbersFit p.now }
    requires variables { AreOfMain p.now variables.now }
    ensures value { IfOk result (λ streams. HasStreamsOf p.now inputs.now.rows variables.now streams) }
    ensures limit { MatchResult result
        (λ _. cell_count p.now inputs.now.rows ≤ most_cells)
        (λ e. ForFault e (λ _. most_cells < cell_count p.now inputs.now.rows)) }
{
    let too_many = is_too_many(alloc, p, inputs)?;
    if too_many {
        return Err(Or::Fault(StreamsFault::TooMany));
    }
    let plans = plans_of(alloc, p)?;
    let columns = columns_of(alloc, p, &plans, inputs, variables)?;
    Ok(List::of(columns))
}

// The function that is run.
fn main_function(p: &Program) -> &Func
    ensures { main_of p.now ≡ Some result.now }
{
    p.invariant_holds();
    let number = p.main as usize;
    &p.funcs[number]
}

// The numbers of a function's variables.
fn variables_of(alloc: Global, f: &Func) -> Result<Vec<u32>, Memory>
    requires { length f.now.decls < 2 ^ 32 }
    ensures number { IfOk result (λ r. length r.items ≡ length f.now.decls) }
    ensures each { IfOk result (λ r. (x : ℕ) → x < length f.now.decls → slice_index_or r.items x 0 ≡ x) }
{
    let number = f.variables();
    let mut variables = Vec::with_capacity(alloc, number)?;
    for x in 0..number as u32 {
        variables.push(x)?;
    }
    Ok(variables)
}

// Whether the weight of `main` times the number of rows is above the limit.
fn is_too_many(alloc: Global, p: &Program, inputs: &Inputs) -> Result<bool, Memory>
    requires { CheckedProgram p.now }
    ensures more { IfOk result (λ b. b ≡ true → most_cells < cell_count p.now inputs.now.rows) }
    ensures most { IfOk result (λ b. b ≡ false → cell_count p.now inputs.now.rows ≤ most_cells) }
{
    let weight = sizes(alloc, p)?.weight;
    Ok(weight.saturating_mul(u64::from(inputs.rows())) > GREATEST_CELLS)
}

// A plan for each function.
fn plans_of(alloc: Global, p: &Program) -> Result<Vec<Plan>, Memory>
    requires checked { CheckedProgram p.now }
    requires room { ProgramNumbersFit p.now }
    ensures { IfOk result (λ plans. ArePlans p.now plans.items) }
{
    p.invariant_holds();
    let mut plans = Vec::with_capacity(alloc, p.funcs.len())?;
    for f in p.funcs.iter() {
        plans.push(plan_of(alloc, f)?)?;
    }
    Ok(plans)
}

// The streams of these variables of main, which may be fewer than all.
fn columns_of(
    alloc: Global,
    p: &Program,
    plans: &[Plan],
    inputs: &Inputs,
    variables: &[u32],
) -> Result<Vec<List<Cell>>, Memory>
    requires plans { ArePlans p.now plans.now }
    requires fit { InputsFitMain p.now inputs.now }
    requires variables { AreOfMain p.now variables.now }
    ensures { IfOk result (λ columns. HasStreamsOf p.now inputs.now.rows variables.now columns.items) }
{
    let number = p.main as usize;
    let main = main_function(p);
    let decls = main.decls.as_slice();
    let mut columns = empty_columns(alloc, variables.len(), inputs.rows() as usize)?;
    let mut state = start(alloc, plans, number, plans.len())?;
    for k in 0..inputs.rows() {
        load(inputs, main.n_in, k, &mut state.cells);
        run(plans, number, &mut state);
        show(&mut columns, variables, decls, &state.cells)?;
    }
    drop(state);
    Ok(columns)
}

// So many empty columns, each with room for the rows.
fn empty_columns(alloc: Global, number: usize, rows: usize) -> Result<Vec<List<Cell>>, Memory>
    ensures number { IfOk result (λ r. length r.items ≡ number) }
    ensures empty { IfOk result (λ r. (x : ℕ) → slice_index_or r.items x [] ≡ []) }
{
    let mut columns = Vec::with_capacity(alloc, number)?;
    for _column in 0..number {
        columns.push(List::of(Vec::with_capacity(alloc, rows)?))?;
    }
    Ok(columns)
}

// Puts a row of inputs into the first cells.
fn load(inputs: &Inputs, width: u32, k: u32, cells: &mut Vec<Slot>)
    requires row { k < length inputs.now.rows }
    requires width { inputs.now.width ≡ width }
    requires room { width ≤ length cells.old.items }
    ensures size { length cells.new.items ≡ length cells.old.items }
    ensures row { (x : ℕ) → x < width → slice_get cells.new.items x ≡ Some (entry_at inputs.now.rows k x) }
{
    for x in 0..width {
        cells[x as usize] = Slot::full(inputs.value(k, x));
    }
}

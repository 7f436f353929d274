// From the bytes of a program to a machine on each node: every pass, one after another. What each gives, and
// `laws::chain_holds` says of the whole:
//
// - syntax, names, types, clocks, causality, sizes: the bytes spell a tree (`Spells`), which names a program (`Resolves`) that is typed,
//   clocked, causal and within its sizes; or the first fault, exactly (`examine_verdict`).
// - expansion and normal form: one function without calls in which each delay stands alone (`flat_of`), and in which every variable of
//   `main` keeps its stream (`KeepsMain`).
// - placement, timing, channels: a part for each node (`IsLayoutOf`), bounds of time that are accepted (`Accepts`) and the channels of the
//   protocol (`IsShapeBy`); or the first fault (`site_verdict`).
// - order, step code, machine: equations in an order (`IsOrder`), the code of the part (`CodeOf`), and a machine whose steps show the
//   part's streams (`Follows`).
ghost use Rattle.std.specs.Prelude.{◌≡◌, ◌<◌, ◌^◌, [], length, IfOk};
ghost use Rattle.lt_norm.specs.Flat.{Originated};
ghost use Rattle.lt_arch.specs.Placement.{node_names};
ghost use Rattle.lt_place.specs.Layout.{IsPlaced};
ghost use Rattle.lt_place.specs.Sizes.{HasCodeRoom, IsCompilable};
ghost use Rattle.lt_net_bench.specs.Starts.{AreReady};
ghost use Rattle.lt_answer.specs.Answered.{Settles};
ghost use Rattle.lt_front.specs.Front.{examine_verdict};
ghost use Rattle.lt_front.specs.Checked.{examined_part, front_verdict};
ghost use Rattle.lt_front.specs.Flattened.{KeepsMain, flat_of};
ghost use Rattle.lt_compile.specs.Sites.{IsSiteOf, IsSited, layout_verdict, site_verdict};

use crate::Site;
use crate::machines::each_machine;
use lt_base::{Memory, Or};
use lt_cause::order_of;
use lt_config::Config;
use lt_expand::expand_within;
use lt_front::{
    Checked, Examined, ProgramFault, check_causality, check_clocks, check_sizes, check_types,
    parse_text, resolve_names,
};
use lt_lead::shape_by;
use lt_load_fit::{CommandFault, accept_setup, as_place, main_of};
use lt_machine::{Machine, Operators, StepMachine};
use lt_norm::{Flat, into_normal};
use lt_place::{Layout, place};
use lt_step::compile;
use std::alloc::Global;

/// From bytes to a program that passes all checks.
pub fn check_program(alloc: Global, bytes: &[u8]) -> Result<Examined, Or<ProgramFault>>
    requires { length bytes.now < 2 ^ 32 }
    ensures { Settles (examine_verdict bytes.now) result }
{
    let tree = parse_text(alloc, bytes)?;
    let named = resolve_names(alloc, tree)?;
    let typed = check_types(named)?;
    let clocked = check_clocks(alloc, typed)?;
    let causal = check_causality(alloc, clocked)?;
    check_sizes(alloc, causal)
}

/// The front end: from bytes to a program that passes all checks, with its flat form.
pub fn front(alloc: Global, bytes: &[u8]) -> Result<Checked, Or<ProgramFault>>
    requires { length bytes.now < 2 ^ 32 }
    ensures { Settles (front_verdict bytes.now) result }
{
    let examined = check_program(alloc, bytes)?;
    Ok(flatten(alloc, examined)?)
}

/// The same program and tree, with the flat form: the main function with copies of the called functions in place of calls, in
/// which each delay stands alone. The variables of `main` keep their numbers and their streams.
pub fn flatten(alloc: Global, examined: Examined) -> Result<Checked, Memory>
    ensures { IfOk result (λ c. examined_part c ≡ examined) }
{
    let flat = flat_form(alloc, &examined)?;
    examined.invariant_holds();
    Ok(Checked {
        tree: examined.tree,
        program: examined.program,
        flat,
    })
}

// From a program that passes all checks to its flat form.
fn flat_form(alloc: Global, checked: &Examined) -> Result<Flat, Memory>
    ensures form { IfOk result (λ flat. flat ≡ flat_of checked.now.program) }
    ensures keeps { IfOk result (λ flat. KeepsMain checked.now.program flat) }
{
    checked.invariant_holds();
    let program = &checked.program;
    program.invariant_holds();
    let whole = expand_within(alloc, program)?;
    into_normal(alloc, whole)
}

/// From a flat form to its parts on the nodes of a setup, with the channels between them: the placement is legal, the timing is accepted,
/// and the setup has its window, in this order.
pub fn place_program(
    alloc: Global,
    checked: &Checked,
    setup: Config,
) -> Result<Site, Or<CommandFault>>
    ensures answered { Settles (site_verdict (examined_part checked.now) setup) result }
    ensures sited { IfOk result (IsSited checked.now.flat) }
{
    let layout = layout_of(alloc, checked, &setup)?;
    let timed = accept_setup(alloc, setup)?;
    Ok(site_of(alloc, layout, timed)?)
}

/// The layout of a program, if its placement is legal.
#[tactic(auto, unfolding(crate::specs::Sites::layout_verdict))]
pub fn layout_of(
    alloc: Global,
    checked: &Checked,
    setup: &Config,
) -> Result<Layout, Or<CommandFault>>
    ensures answered { Settles (layout_verdict (examined_part checked.now) setup.now) result }
    ensures placed { IfOk result (IsPlaced checked.now.flat) }
{
    checked.invariant_holds();
    match place(alloc, &checked.flat, &setup.placement) {
        Ok(layout) => Ok(layout),
        Err(fault) => Err(as_place(main_of(&checked.program), fault)),
    }
}

// The site of a layout by an accepted setup.
fn site_of(alloc: Global, layout: Layout, setup: Config) -> Result<Site, Memory>
    requires placed { (f : Originated) × IsPlaced f layout }
    requires names { layout.names ≡ node_names setup.placement }
    ensures { IfOk result (IsSiteOf layout setup) }
{
    let shape = shape_by(alloc, &layout, &setup.timing, setup.pace)?;
    Ok(Site {
        layout,
        shape,
        timing: setup.timing,
        pace: setup.pace,
    })
}

/// From the parts to a machine of step code for each node, with these imported operators, a step for each row and none made.
pub fn compile_nodes<G: Operators + Copy>(
    alloc: Global,
    layout: &Layout,
    operators: G,
    rows: u32,
) -> Result<Vec<StepMachine<G>>, Memory>
    requires placed { (f : Originated) × IsPlaced f layout.now × HasCodeRoom f.func }
    ensures { IfOk result (λ machines. AreReady ⟦<StepMachine<G> as Machine>⟧ layout.now rows machines.items) }
{
    let machines = each_machine(alloc, layout, operators, rows)?;
    Ok(machines)
}

/// From a flat function to a machine of step code, with these imported operators, a step for each row and none made.
pub fn compile_part<G: Operators>(
    alloc: Global,
    flat: &Flat,
    operators: G,
    rows: u32,
) -> Result<StepMachine<G>, Memory>
    requires { IsCompilable flat.now.func }
    ensures stands { IfOk result (λ m. ⟦<StepMachine<G> as Machine>⟧.stands m flat.now.func []) }
    ensures made { IfOk result (λ m. ⟦<StepMachine<G> as Machine>⟧.made m ≡ 0) }
    ensures left { IfOk result (λ m. ⟦<StepMachine<G> as Machine>⟧.left m ≡ rows) }
{
    let order = order_of(alloc, &flat.func)?;
    let code = compile(alloc, flat, &order)?;
    StepMachine::start(alloc, code, operators, rows)
}

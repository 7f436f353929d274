// What the equations of a tree's functions use.
ghost use Rattle.std.specs.Prelude.{◌≡◌, ◌++◌, ◌∷◌, [], ◌<◌, ◌^◌, IfOk, OnOk, length, map};
ghost use Rattle.lt_resolve.specs.Uses.{equation_sites, all_delays};
ghost use Rattle.lt_resolve.specs.Faults.{sites};

use crate::calls::{Call, collect};
use crate::delays::delays;
use crate::names::Names;
use crate::tables::Tables;
use lt_base::{List, Memory};
use lt_syntax::EqText;
use std::alloc::Global;

/// What the equations of functions use: the calls, in text order, and for each function its delays, cut at the greatest
/// number.
#[derive(Drop)]
pub struct Uses<'a> {
    pub calls: Vec<Call<'a>>,
    pub delays: Vec<u64>,
}

/// Appends what the equations of a function use. Both walks over an equation come together, while it is in the cache.
fn function_uses<'a>(
    functions: &Names,
    caller: u32,
    eqs: &'a List<EqText>,
    uses: &mut Uses<'a>,
) -> Result<(), Memory>
    ensures calls { OnOk result (uses.new.calls.items ≡ uses.old.calls.items ++ equation_sites functions.now caller eqs.now) }
    ensures delays { OnOk result (uses.new.delays.items ≡ uses.old.delays.items ++ all_delays eqs.now ∷ []) }
{
    let mut sum = 0u64;
    'eqs: for eq in eqs.iter() {
        collect(functions, caller, eq.right(), &mut uses.calls)?;
        sum = sum.saturating_add(delays(eq.right()));
    }
    uses.delays.push(sum)?;
    Ok(())
}

/// What the functions of a tree use.
pub fn uses_of<'a>(alloc: Global, tables: &Tables<'a>) -> Result<Uses<'a>, Memory>
    requires { length tables.now < 2 ^ 32 }
    ensures calls { IfOk result (λ uses. uses.calls.items ≡ sites tables.now) }
    ensures delays { IfOk result (λ uses. uses.delays.items ≡ map (λ n. all_delays n.eqs) tables.now) }
{
    let mut uses = Uses {
        calls: Vec::new(alloc),
        delays: Vec::new(alloc),
    };
    let scopes = tables.scopes();
    'scopes: for (i, scope) in scopes.iter().enumerate() {
        function_uses(tables.functions(), i as u32, &scope.node().eqs, &mut uses)?;
    }
    Ok(uses)
}

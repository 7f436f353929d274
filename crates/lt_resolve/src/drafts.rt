// The functions of a tree with the numbers of their names.
ghost use Rattle.std.specs.Prelude.{◌<◌, ◌^◌, IfOk, length};
ghost use Rattle.lt_resolve.specs.Faults.{First};
ghost use Rattle.lt_resolve.specs.Told.{ShowsFault, Cleared, ChecksPass};
ghost use Rattle.lt_resolve.specs.Drafts.{AreDrafts};

use crate::fault::{NameFault, NameKind};
use crate::function::{Draft, draft_of};
use crate::tables::{Tables, locate_fault};
use lt_base::Or;
use std::alloc::Global;

/// The drafts of the functions; refuses the first name that is not declared.
fn all_drafts<'a>(alloc: Global, tables: &Tables<'a>) -> Result<Vec<Draft<'a>>, Or<NameFault>>
    requires { length tables.now < 2 ^ 32 }
    ensures shown { ShowsFault NameKind.Unknown (First tables.now NameKind.Unknown) result }
    ensures drafts { IfOk result (λ ds. AreDrafts tables.now ds.items) }
{
    let scopes = tables.scopes();
    let mut drafts = Vec::with_capacity(alloc, scopes.len())?;
    'scopes: for (i, scope) in scopes.iter().enumerate() {
        match draft_of(alloc, tables.functions(), scope) {
            Ok(draft) => drafts.push(draft)?,
            Err(error) => return Err(locate_fault(alloc, NameKind::Unknown, i, error)),
        }
    }
    Ok(drafts)
}

/// The drafts of the functions of a tree in which no name is declared twice.
pub fn drafts<'a>(alloc: Global, tables: &Tables<'a>) -> Result<Vec<Draft<'a>>, Or<NameFault>>
    requires room { length tables.now < 2 ^ 32 }
    requires cleared { Cleared tables.now 0 1 }
    ensures passes { ChecksPass tables.now 0 2 result }
    ensures drafts { IfOk result (λ ds. AreDrafts tables.now ds.items) }
{
    all_drafts(alloc, tables)
}

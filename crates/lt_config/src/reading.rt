// What the bytes of a setup file read as.
ghost use Rattle.std.specs.Prelude.{◌≡◌, IfOk, None};
ghost use Rattle.toml.specs.View.{table_view};
ghost use Rattle.lt_config.specs.Faults.{first_fault};
ghost use Rattle.lt_config.specs.Setup.{is_mixed, setup_of};
ghost use Rattle.lt_config.specs.Told.{ToldTable};
ghost use Rattle.lt_config.specs.Reading.{config_of, setup_in, ReadsSetup};

use crate::judge::{fault, judge};
use crate::keys::{TABLES, value_at};
use crate::leading::pace_of;
use crate::nodes::named_nodes;
use crate::timing::timing_of;
use crate::{Config, ConfigFault, ConfigKind};
use lt_arch::Placement;
use lt_arch::laws::names_differ;
use lt_base::{Memory, Or};
use std::alloc::Global;
use toml::Table;

/// Whether a setup has a table by which nodes or pairs of nodes differ.
fn is_mixed(table: &Table) -> bool
    ensures { result ≡ is_mixed (table_view table.now) }
{
    for key in TABLES {
        if value_at(table, key).is_some() {
            return true;
        }
    }
    false
}

/// The setup of a table without a fault.
fn setup_of(alloc: Global, table: &Table) -> Result<Config, Memory>
    requires { first_fault (table_view table.now) ≡ None }
    ensures { IfOk result (λ config. setup_in config ≡ setup_of (table_view table.now)) }
{
    let named = named_nodes(alloc, table)?;
    names_differ();
    let timing = timing_of(alloc, table, &named.nodes)?;
    let pace = pace_of(table, &named.nodes);
    Ok(Config {
        timing,
        placement: Placement::Named(named),
        mixed: is_mixed(table),
        pace,
    })
}

/// The table of some bytes, where it has no fault.
fn read_table(alloc: Global, bytes: &[u8]) -> Result<Table, Or<ConfigFault>>
    ensures { ToldTable bytes.now result }
{
    match toml::table_from_slice(alloc, bytes) {
        Ok(table) => match judge(alloc, &table) {
            Ok(()) => Ok(table),
            Err(e) => Err(e),
        },
        Err(e) => {
            if e.is_memory() {
                Err(Or::Memory)
            } else {
                Err(fault(alloc, ConfigKind::NotToml, ""))
            }
        }
    }
}

/// The setup that the bytes of a file are: TOML with the keys of docs/formats.md. A fault is the first in the order of
/// the kinds and, within a kind, of the keys; of unknown keys and of entries in byte order.
pub fn read_config(alloc: Global, bytes: &[u8]) -> Result<Config, Or<ConfigFault>>
    ensures { ReadsSetup (config_of bytes.now) result }
{
    let table = read_table(alloc, bytes)?;
    Ok(setup_of(alloc, &table)?)
}

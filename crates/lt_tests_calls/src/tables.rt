// What two nodes show whose machines run their parts by the parts' meaning.
ghost use Rattle.std.specs.Prelude.{◌≡◌, ◌<◌, ◌-◌, ◌^◌, []};
ghost use Rattle.lt_io.specs.Counts.{MayFail};

use crate::calls::{ACROSS, NOTHING, Texts, files};
use lt_base::{Cell, List, Memory, Or};
use lt_compile::table_nodes;
use lt_io::{Fabric, Files, MemFabric};
use lt_load::{Loaded, load};
use lt_machine::TableMachine;
use lt_run::{Printed, RunFault, replay};
use std::alloc::Global;
use std::process::Abort;

// Both nodes have executed an instant and sent, and the first one executes another one.
const ACKNOWLEDGED: Texts = Texts {
    schedule: "time,event,place/0,act,a/0,act,b/3,ack,a>b/3,ack,b>a/10,act,a/10,act,b/12,data,a>b/12,data,b>a/20,act,a/20,end,/",
    ..ACROSS
};

// The same, at the end of the countdowns.
const COUNTED: Texts = Texts {
    setup: "protocol = 'timebased'/period = [9, 11]/delay = [1, 4]/send = 3/execute = 3/[nodes]/a = ['x', 'u']/b = ['v']/",
    schedule: "time,event,place/0,act,a/0,act,b/10,act,a/10,act,b/20,act,a/20,act,b/30,act,a/30,act,b/33,data,a>b/33,data,b>a/40,act,a/40,act,b/50,act,a/50,act,b/60,act,a/60,end,/",
    ..ACROSS
};

// The cells of all outputs, one output behind the other, each with an absence at its end.
fn cells_of(alloc: Global, printed: &Printed<TableMachine>) -> Result<Vec<Cell>, Memory> {
    let mut cells = Vec::new(alloc);
    for column in printed.cells.as_slice() {
        add_column(column.as_slice(), &mut cells)?;
    }
    Ok(cells)
}

fn add_column(column: &[Cell], cells: &mut Vec<Cell>) -> Result<(), Memory> {
    cells.extend_from_slice(column)?;
    cells.push(Cell::Absent)?;
    Ok(())
}

// The cells of all outputs, and the horizon.
fn text_of(alloc: Global, printed: &Printed<TableMachine>) -> Result<String, Memory> {
    let cells = cells_of(alloc, printed)?;
    let mut text = String::new(alloc);
    let horizon = printed.horizon;
    write!(text, "{:?} {horizon}", cells.as_slice())?;
    Ok(text)
}

// What a loaded program comes to along the schedule, by tables.
fn replay_tables<F: Files, W: Fabric>(
    alloc: Global,
    loaded: &Loaded,
    files: &mut F,
    fabric: &mut W,
) -> Result<Printed<TableMachine>, Or<RunFault>>
    requires count { MayFail (F.state files.old).faults }
    requires link_count { MayFail (W.state fabric.old).faults }
    requires empty { (W.state fabric.old).kinds ≡ [] }
{
    loaded.invariant_holds();
    let machines = table_nodes(alloc, &loaded.layout, loaded.inputs.rows())?;
    replay(alloc, loaded, files, "s", fabric, machines)
}

// What a loaded program shows at the end of the schedule.
fn shown_of(alloc: Global, loaded: &Loaded, texts: Texts) -> Result<String, Memory> {
    let mut files = files(alloc, texts, NOTHING)?;
    let mut fabric = MemFabric::new(alloc, List::new(alloc));
    match replay_tables(alloc, loaded, &mut files, &mut fabric) {
        Ok(printed) => text_of(alloc, &printed),
        Err(_) => Err(Memory),
    }
}

// What the program shows with this setup at the end of this schedule.
fn show_tables(alloc: Global, texts: Texts) -> Result<String, Memory> {
    let mut files = files(alloc, texts, NOTHING)?;
    match load(alloc, &mut files, "p", "i", Some("c")) {
        Ok(loaded) => shown_of(alloc, &loaded, texts),
        Err(_) => Err(Memory),
    }
}

// Stops where something else is shown.
fn is_shown<R: Abort>(rt: &R, shown: Result<String, Memory>, wanted: &str) {
    match shown {
        Ok(text) => assert!(rt;
            text.as_str() == wanted,
            "{} and not {wanted}",
            text.as_str()
        ),
        Err(_) => assert!(rt; false, "no answer and not {wanted}"),
    }
}

#[test]
fn tables_show_what_step_code_shows(rt: HostRuntime) {
    is_shown(
        &rt,
        show_tables(rt.alloc(), ACKNOWLEDGED),
        "[Here(Int(1)), Here(Int(11)), Absent, Here(Int(10)), Absent] 20",
    );
    is_shown(
        &rt,
        show_tables(rt.alloc(), COUNTED),
        "[Here(Int(1)), Here(Int(11)), Absent, Here(Int(10)), Absent] 60",
    );
}

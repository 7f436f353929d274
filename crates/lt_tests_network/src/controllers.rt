// Both controllers, through their trait.

use crate::shown::show_value;
use lt_arch::{Controller, Deed};
use lt_base::Memory;
use lt_bp::BackPressure;
use lt_tb::TimeBased;
use std::alloc::Global;

// What a node does at each activation, of which the messages, the acknowledgements and a row that is left are given.
fn deeds<C: Controller>(
    alloc: Global,
    controller: &mut C,
    rows: &[(bool, bool, bool)],
) -> Result<Vec<Deed>, Memory> {
    let mut deeds = Vec::new(alloc);
    for (fresh, all_ack, more) in rows {
        deeds.push(controller.wake(*fresh, *fresh, *all_ack, *more))?;
    }
    Ok(deeds)
}

/// What a node does that waits for messages.
pub fn waiting(alloc: Global) -> Result<String, Memory> {
    let mut controller = BackPressure::new();
    let rows = [
        (false, true, true),
        (true, false, true),
        (true, false, true),
        (false, true, false),
        (true, true, false),
        (true, true, true),
    ];
    let deeds = deeds(alloc, &mut controller, rows.as_slice())?;
    show_value(alloc, deeds.as_slice())
}

/// What a node does that counts its activations.
pub fn counting(alloc: Global) -> Result<String, Memory> {
    let mut controller = TimeBased::new(3, 2);
    let rows = [
        (true, true, false),
        (true, true, true),
        (false, true, true),
        (false, true, true),
        (false, true, true),
        (true, true, false),
        (true, true, false),
        (true, true, true),
        (true, true, true),
    ];
    let deeds = deeds(alloc, &mut controller, rows.as_slice())?;
    show_value(alloc, deeds.as_slice())
}

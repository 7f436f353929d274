// The row of inputs that an event needs.
ghost use Rattle.std.specs.Prelude.{◌≡◌, ◌<◌, length, Some, None, IfOk, slice_get, if◌then◌else◌};
ghost use Rattle.lt_arch.specs.Schedule.{IsPlacedIn};
ghost use Rattle.lt_step.specs.Run.{HasRowValues};
ghost use Rattle.lt_net.specs.Event.{given_row};
ghost use Rattle.lt_net.specs.Loop.{row_for};

use lt_arch::{Controller, Event};
use lt_base::{Inputs, Memory, Value};
use lt_machine::Machine;
use lt_net::Net;
use std::alloc::Global;

/// Room for a row of so many values.
pub fn room_for(alloc: Global, width: u32) -> Result<Vec<Value>, Memory>
    ensures { IfOk result (λ row. length row.items ≡ width) }
{
    Ok(vec![in alloc; Value::Bool(false); width as usize]?)
}

/// Puts the row of an instant in place of another.
pub fn read_row(inputs: &Inputs, instant: u32, width: u32, row: &mut Vec<Value>)
    requires instant { instant < length inputs.now.rows }
    requires width { inputs.now.width ≡ width }
    requires room { length row.old.items ≡ width }
    requires wide { HasRowValues width inputs.now.rows }
    ensures room { length row.new.items ≡ width }
    ensures row { slice_get inputs.now.rows instant ≡ Some row.new.items }
{
    for input in 0..width {
        row[input as usize] = inputs.value(instant, input);
    }
}

/// Puts the row of inputs that an event needs in place of another, and says whether there is one: at an activation that of the
/// node's next instant.
pub fn read_next<C: Controller, M: Machine>(
    net: &Net<C, M>,
    inputs: &Inputs,
    width: u32,
    e: Event,
    row: &mut Vec<Value>,
) -> bool
    requires place { IsPlacedIn net.now.bench.shape e }
    requires counts { length net.now.bench.executed ≡ length net.now.bench.shape.nodes }
    requires width { inputs.now.width ≡ width }
    requires room { length row.old.items ≡ width }
    requires wide { HasRowValues width inputs.now.rows }
    ensures room { length row.new.items ≡ width }
    ensures row { (if result then Some row.new.items else None) ≡ row_for net.now.bench inputs.now.rows e }
{
    match e {
        Event::Act(node, _) => {
            let instant = net.executed(node);
            if instant < inputs.rows() {
                read_row(inputs, instant, width, row);
                true
            } else {
                false
            }
        }
        _ => false,
    }
}

/// The row, if there is one.
pub fn row_if(has: bool, row: &[Value]) -> Option<&[Value]>
    ensures { given_row result ≡ (if has then Some row.now else None) }
{
    if has { Some(row) } else { None }
}

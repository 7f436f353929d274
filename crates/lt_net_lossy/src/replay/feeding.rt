// The row of inputs that an event needs.
ghost use Rattle.std.specs.Prelude.{◌≡◌, length, Some, None, if◌then◌else◌};
ghost use Rattle.lt_lossy.specs.Events.{IsLossyPlacedIn};
ghost use Rattle.lt_step.specs.Run.{HasRowValues};
ghost use Rattle.lt_net_lossy.specs.LossyPlays.{lossy_row_for};

use crate::LossyNet;
use lt_arch::Event;
use lt_base::{Inputs, Value};
use lt_lossy::LossyEvent;
use lt_machine::Machine;
use lt_net_start::read_row;

/// Puts the row of inputs that an event needs in place of another, and says whether there is one: at an activation that of the
/// node's next instant.
pub(crate) fn read_next<M: Machine>(
    net: &LossyNet<M>,
    inputs: &Inputs,
    width: u32,
    e: LossyEvent,
    row: &mut Vec<Value>,
) -> bool
    requires place { IsLossyPlacedIn net.now.bench.shape e }
    requires counts { length net.now.bench.executed ≡ length net.now.bench.shape.nodes }
    requires width { inputs.now.width ≡ width }
    requires room { length row.old.items ≡ width }
    requires wide { HasRowValues width inputs.now.rows }
    ensures room { length row.new.items ≡ width }
    ensures row { (if result then Some row.new.items else None) ≡ lossy_row_for net.now.bench inputs.now.rows e }
{
    match e {
        LossyEvent::Plain(Event::Act(node, _)) => {
            let instant = net.executed(node);
            if instant < inputs.rows() {
                read_row(inputs, instant, width, row);
                true
            } else {
                false
            }
        }
        _ => false,
    }
}

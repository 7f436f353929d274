// The files of the large input.
ghost use Rattle.std.specs.Prelude.{◌≡◌, ◌≤◌, ◌++◌, IfOk, OnOk};
ghost use Rattle.lt_arch.specs.declared.limits.TheConstants.{GREATEST_TIME};
ghost use Rattle.lt_big_texts.specs.Texts.{program_text, setup_text, inputs_text, row_text, horizon_of};

use itoa::Buffer;
use lt_base::{List, Memory};
use std::alloc::Global;

const PROGRAM: &[u8] = b"node main(x: int) returns (y0, y1, y2, y3, y4, y5, y6, y7: int)
let
  y0 = x + (0 fby y7);
  y1 = 1 + (0 fby y0);
  y2 = 1 + (0 fby y1);
  y3 = 1 + (0 fby y2);
  y4 = 1 + (0 fby y3);
  y5 = 1 + (0 fby y4);
  y6 = 1 + (0 fby y5);
  y7 = 1 + (0 fby y6);
tel
";

const SETUP: &[u8] = b"protocol = 'backpressure'
period = [9, 11]
delay = [1, 4]
[nodes]
n0 = ['x', 'y0']
n1 = ['y1']
n2 = ['y2']
n3 = ['y3']
n4 = ['y4']
n5 = ['y5']
n6 = ['y6']
n7 = ['y7']
";

/// The program.
pub fn program(alloc: Global) -> Result<List<u8>, Memory>
    ensures { IfOk result (λ text. text ≡ program_text) }
{
    List::from_slice(alloc, PROGRAM)
}

/// The setup.
pub fn setup(alloc: Global) -> Result<List<u8>, Memory>
    ensures { IfOk result (λ text. text ≡ setup_text) }
{
    List::from_slice(alloc, SETUP)
}

/// The inputs of so many instants.
pub fn inputs(alloc: Global, instants: u32) -> Result<List<u8>, Memory>
    ensures { IfOk result (λ text. text ≡ inputs_text instants) }
{
    let mut text = List::from_slice(alloc, b"instant,x\n")?;
    for instant in 0..instants {
        row(&mut text, instant)?;
    }
    Ok(text)
}

fn row(text: &mut List<u8>, instant: u32) -> Result<(), Memory>
    ensures { OnOk result (text.new ≡ text.old ++ row_text instant) }
{
    let mut buffer = Buffer::new();
    text.extend(buffer.format(instant).as_bytes())?;
    text.extend(b",")?;
    text.extend(buffer.format(instant).as_bytes())?;
    text.extend(b"\n")
}

/// The horizon of the drawn schedule, in ticks.
pub fn horizon(instants: u32) -> u64
    ensures value { result ≡ horizon_of instants }
    ensures range { result ≤ GREATEST_TIME }
{
    30 * instants as u64 + 11
}

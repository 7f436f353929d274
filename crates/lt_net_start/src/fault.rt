// A fabric's fault as the end of a schedule's replay.
ghost use Rattle.std.specs.Prelude.{◌≡◌};
ghost use Rattle.lt_net_start.specs.Blamed.{link_fault};

use lt_base::Or;
use lt_io::LinkErr;
use lt_schedule::Halt;

/// A fabric's fault as why a schedule is not replayed to its end.
pub fn link_fault<O>(e: LinkErr) -> Or<Halt<O>>
    ensures { result ≡ link_fault e }
{
    match e {
        LinkErr::Failed => Or::Fault(Halt::Link),
        LinkErr::Memory => Or::Memory,
    }
}

// What an accepted timing means for a schedule.
ghost use Rattle.lt_inspect.specs.Clean.{AcceptedIsClean, PacedIsClean};

use lt_lead::laws::lead_shapes_fit;
use lt_net_bench::laws::shapes_fit;

/// Where the timing is accepted, at no event of a schedule so far without an offence a node executes with a message too few or too
/// many.
pub fn accepted_is_clean()
    ensures { AcceptedIsClean }
{
    shapes_fit();
    lt_bp::laws::one_place();
    lt_tb::laws::exact_messages();
}

/// So it is at every pace: where a node leads, and where links may lose messages but lose none.
pub fn paced_is_clean()
    ensures { PacedIsClean }
{
    accepted_is_clean();
    lead_shapes_fit();
    lt_lead::laws::exact_messages();
}

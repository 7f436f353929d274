// What follows for a network whose layout is placed and whose timing is accepted.
ghost use Rattle.lt_net_replay.specs.Sound.{PlansAreSound};

use lt_lead::laws::lead_shapes_fit;
use lt_net_bench::laws::shapes_fit;

/// A network with the shape of its placed layout, by the pace of its protocol, and an accepted timing of its nodes keeps at most one message
/// in each channel, and its nodes execute as many instants as the bound of that pace. Under the time-based protocol, with a leader or
/// without, they execute each instant on exactly the messages before it.
pub fn networks_are_sound()
    ensures { PlansAreSound }
{
    shapes_fit();
    lead_shapes_fit();
    lt_bp::laws::one_place();
    lt_bp::laws::least_length();
    lt_tb::laws::one_place();
    lt_tb::laws::least_length();
    lt_lead::laws::one_place();
    lt_lead::laws::least_length();
    lt_tb::laws::exact_messages();
    lt_lead::laws::exact_messages();
}

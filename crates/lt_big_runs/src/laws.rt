// That a run of the large input is never refused.
ghost use Rattle.lt_big_runs.specs.Runs.{NeverRefused};

use lt_big_accepted::laws::{program_accepted, setup_fits};
use lt_big_texts::laws::{inputs_read, setup_read};
use lt_net_replay::laws::networks_are_sound;
use lt_spaced::laws::events_are_few;

/// No refusal of a run of the large input is right, whatever its number of instants up to a hundred thousand and whatever the fabric
/// holds: its program, its setup and its inputs are taken, and its list of events is not too long.
pub fn never_refused()
    ensures { NeverRefused }
{
    networks_are_sound();
    events_are_few();
    program_accepted();
    setup_fits();
    setup_read();
    inputs_read();
}

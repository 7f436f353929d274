// How a call of `big` ends.
ghost use Rattle.lt_big_ends.specs.Ends.{BigEndsWell};

use lt_big_runs::laws::never_refused;

/// A call that asks for a run of the large input, of as many instants as the command takes, ends well where no count of faults rises and
/// memory is found.
pub fn big_ends_well()
    ensures { BigEndsWell }
{
    never_refused();
}

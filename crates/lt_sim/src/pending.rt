// When each place happens next, kept in order. The steps that it takes are counted in ledgers of their own.
ghost use Rattle.std.specs.Prelude.{◌≡◌, ◌<◌, length, slice_set};
ghost use Rattle.lt_arch.specs.Queue.{least_deadline};

use lt_arch::Deadlines;
use lt_base::Steps;
use std::marker::Brand;
use std::sync::ledger::{Blank, Ledger};

/// Sets when a place happens next, or that nothing of it is pending.
pub fn set_pending(pending: &mut Deadlines, place: u32, at: Option<u64>)
    requires { place < length pending.old }
    ensures { pending.new ≡ slice_set pending.old place at }
{
    set_counted::<Brand>(pending, place, at, Blank::new(1));
}

fn set_counted<L: Ledger>(pending: &mut Deadlines, place: u32, at: Option<u64>, blank: Blank)
    requires name { blank.name ≡ L.name }
    requires parts { blank.parts ≡ L.parts }
    requires some { 0 < blank.parts }
    requires place { place < length pending.old }
    ensures { pending.new ≡ slice_set pending.old place at }
{
    let mut steps = Steps::<L>::new(blank);
    pending.set(place, at, &mut steps);
}

/// The least pending time, and the lowest place that has it.
pub fn first_pending(pending: &Deadlines) -> Option<(u64, u32)>
    ensures { result ≡ least_deadline pending.now }
{
    first_counted::<Brand>(pending, Blank::new(1))
}

fn first_counted<L: Ledger>(pending: &Deadlines, blank: Blank) -> Option<(u64, u32)>
    requires name { blank.name ≡ L.name }
    requires parts { blank.parts ≡ L.parts }
    requires some { 0 < blank.parts }
    ensures { result ≡ least_deadline pending.now }
{
    let mut steps = Steps::<L>::new(blank);
    pending.first(&mut steps)
}

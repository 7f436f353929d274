// Whether things have room, and so which distance ticks have.
ghost use Rattle.std.specs.Prelude.{◌≡◌};
ghost use Rattle.lt_scale.specs.Room.{dots_fit, values_fit, step_fits, first_fitting, tick_step};

use crate::{Band, Chart, cell_width, digits, scale_width, share};

// The distances that two ticks may have.
const STEPS: [u32; 18] = [
    1, 2, 5, 10, 20, 50, 100, 200, 500, 1000, 2000, 5000, 10000, 20000, 50000, 100000, 200000,
    500000,
];

/// Whether dots have room in an instant.
#[tactic(auto, unfolding(crate::specs::Room::dots_fit))]
pub fn dots_fit(chart: &Chart) -> bool
    ensures { result ≡ dots_fit chart.now }
{
    6 <= cell_width(chart)
}

/// Whether the widest value of a scale has room in an instant.
#[tactic(auto, unfolding(crate::specs::Room::values_fit))]
pub fn values_fit(chart: &Chart, band: &Band) -> bool
    ensures { result ≡ values_fit chart.now band.now }
{
    6 * scale_width(band.scale) + 4 <= cell_width(chart) as usize
}

// Whether two ticks at this distance leave so much room.
#[tactic(auto, unfolding(crate::specs::Room::step_fits))]
fn step_fits(chart: &Chart, room: u64, step: u32) -> bool
    ensures { result ≡ step_fits chart.now room step }
{
    room <= u64::from(share(u64::from(step), u64::from(chart.count), chart.breadth))
}

// The first of some distances that leaves so much room.
fn first_fit(chart: &Chart, room: u64, steps: &[u32]) -> u32
    ensures { result ≡ first_fitting chart.now room steps.now }
{
    'steps: for step in steps {
        if step_fits(chart, room, *step) {
            return *step;
        }
    }
    1_000_000
}

/// The least distance at which the numbers of ticks have room.
#[tactic(auto, unfolding(crate::specs::Room::tick_step))]
pub fn tick_step(chart: &Chart) -> u32
    ensures { result ≡ tick_step chart.now }
{
    let room = 7 * (digits(u64::from(chart.first) + u64::from(chart.count)) as u64 + 2);
    first_fit(chart, room, &STEPS)
}

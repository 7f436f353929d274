// Lengths in proportion, and steps.
ghost use Rattle.std.specs.Prelude.{◌≡◌, ◌≤◌, ◌*◌, ◌/◌, min, max, nat_le};
ghost use Rattle.lt_diagram.specs.Chart.{part_way, fitting_step, nice_step};

// So much of a length as a part is of the whole.
#[tactic(auto, using(crate::proofs::Shares::share_within, crate::proofs::Shares::share_fits, crate::proofs::Shares::product_fits))]
fn share(length: u64, part: u64, whole: u64) -> u64
    ensures value { result ≡ length * min part whole / max whole 1 }
    ensures within { result ≤ length }
{
    let product = u128::from(length) * u128::from(part.min(whole));
    (product / u128::from(whole.max(1))) as u64
}

/// A place between two others, by which part of the way it lies at.
pub(crate) fn part_way(a: u64, b: u64, part: u64, whole: u64) -> u64
    ensures { result ≡ part_way a b part whole }
{
    if a <= b {
        return a + share(b - a, part, whole);
    }
    a - share(a - b, part, whole)
}

// Whether a step takes so much room.
#[tactic(auto, using(crate::proofs::Shares::plain_product_fits))]
fn has_room(step: u64, room: u64, breadth: u64, units: u64) -> bool
    ensures { result ≡ nat_le room (step * breadth / max units 1) }
{
    let product = u128::from(step) * u128::from(breadth);
    u128::from(room) <= product / u128::from(units.max(1))
}

/// The steps that an axis may have, and those at which instants are numbered.
const STEPS: [u64; 45] = [
    1,
    2,
    5,
    10,
    20,
    50,
    100,
    200,
    500,
    1_000,
    2_000,
    5_000,
    10_000,
    20_000,
    50_000,
    100_000,
    200_000,
    500_000,
    1_000_000,
    2_000_000,
    5_000_000,
    10_000_000,
    20_000_000,
    50_000_000,
    100_000_000,
    200_000_000,
    500_000_000,
    1_000_000_000,
    2_000_000_000,
    5_000_000_000,
    10_000_000_000,
    20_000_000_000,
    50_000_000_000,
    100_000_000_000,
    200_000_000_000,
    500_000_000_000,
    1_000_000_000_000,
    2_000_000_000_000,
    5_000_000_000_000,
    10_000_000_000_000,
    20_000_000_000_000,
    50_000_000_000_000,
    100_000_000_000_000,
    200_000_000_000_000,
    500_000_000_000_000,
];

// The first of some steps that takes so much room.
fn fitting_step(steps: &[u64], room: u64, breadth: u64, units: u64) -> u64
    ensures { result ≡ fitting_step room breadth units steps.now }
{
    'steps: for step in steps {
        if has_room(*step, room, breadth, units) {
            return *step;
        }
    }
    1_000_000_000_000_000
}

/// The least step that takes so much room, where so many units take so much breadth.
#[tactic(auto, unfolding(crate::specs::Chart::nice_step))]
pub(crate) fn nice_step(room: u64, breadth: u64, units: u64) -> u64
    ensures { result ≡ nice_step room breadth units }
{
    fitting_step(&STEPS, room, breadth, units)
}

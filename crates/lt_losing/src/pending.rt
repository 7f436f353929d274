// What happens next.
ghost use Rattle.std.specs.Prelude.{◌≡◌, ◌<◌, ◌+◌, ◌^◌, ℕ, [], Option, Some, length, slice_index_or};
ghost use Rattle.lt_arch.specs.Deadline.{least_below, sooner};
ghost use Rattle.lt_lossy.specs.Times.{oldest_in};

use crate::queue::Queue;

// The lesser of the best so far and a place's own, if it has one.
fn sooner(best: Option<(u64, u32)>, place: u32, at: Option<u64>) -> Option<(u64, u32)>
    ensures { result ≡ sooner best place at }
{
    let Some(at) = at else {
        return best;
    };
    match best {
        Some((least, _)) if least <= at => best,
        _ => Some((at, place)),
    }
}

/// The least of the nodes' times, and the first node that has it.
pub fn first_activation(activations: &[u64]) -> Option<(u64, u32)>
    requires { length activations.now < 2 ^ 32 }
    ensures { result ≡ least_below (λ n. Some (slice_index_or activations.now n 0)) (length activations.now) }
{
    let mut best = None;
    for (n, at) in activations.iter().enumerate() {
        best = sooner(best, n as u32, Some(*at));
    }
    best
}

/// The lesser of the best of so many places and of the oldest arrivals, which belong to the places behind them.
pub fn first_arrival(
    best: Option<(u64, u32)>,
    arrivals: &Vec<Queue>,
    places: u32,
) -> Option<(u64, u32)>
    requires { places + length arrivals.now.items < 2 ^ 32 }
    ensures { (f : ℕ → Option ℕ) → best ≡ least_below f places
        → ((c : ℕ) → c < length arrivals.now.items → f (places + c) ≡ oldest_in (slice_index_or arrivals.now.items c []))
        → result ≡ least_below f (places + length arrivals.now.items) }
{
    let mut first = best;
    for (c, queue) in arrivals.iter().enumerate() {
        first = sooner(first, places + c as u32, queue.oldest());
    }
    first
}

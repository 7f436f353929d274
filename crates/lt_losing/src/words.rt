// What the words of the generator say of losses.
ghost use Rattle.std.specs.Prelude.{◌≡◌, ◌%◌, nat_lt};
ghost use Rattle.rand_core.specs.Stream.{next_u64};
ghost use Rattle.rand_core.specs.Steps.{stream_of};
ghost use Rattle.rand_xoshiro.specs.SplitMix64.{splitmix_steps};

use rand_core::Rng;
use rand_xoshiro::SplitMix64;

/// Whether the next word, in thousandths, is below a rate.
pub fn is_below(generator: &mut SplitMix64, rate: u64) -> bool
    ensures below { result ≡ nat_lt ((next_u64 (stream_of splitmix_steps generator.old)).0 % 1000) rate }
    ensures left { stream_of splitmix_steps generator.new ≡ (next_u64 (stream_of splitmix_steps generator.old)).1 }
{
    generator.next_u64() % 1000 < rate
}

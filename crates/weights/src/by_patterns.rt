// The weight by patterns. The seats are summed out one after another, so that each halves the patterns that are left.
ghost use Rattle.std.specs.Prelude.{◌≡◌, ℕ, ◌+◌, ◌*◌, ◌^◌, ◌<◌, ◌≤◌, length, slice_index};
ghost use Rattle.patterns.specs.Patterns.{number};
ghost use Rattle.weights.specs.Exposures.{D};
ghost use Rattle.weights.specs.Patterns.{by_patterns, pair};

use crate::exposure::Exposure;
use crate::exposures::Exposures;
use crate::weight::Weight;
use patterns::Shares;

// Sums out the last of the seats that are left: each sum of the other seats takes the two patterns that differ in it alone.
fn sum_out(sums: &mut [u64], others: usize, seat: Exposure)
    requires room { others * 2 ≤ length sums.old }
    requires sound { seat.count ≤ seat.present }
    requires small { (p : ℕ) → p < others * 2 → slice_index sums.old p * seat.present ≤ 2 * 10 ^ 17 }
    ensures { (p : ℕ) → p < others → slice_index sums.new p ≡ pair seat others sums.old p }
{
    // A seat that is failed or not named leaves the sums without it as they are.
    if seat.count == 0 && seat.present == 1 {
        return;
    }
    let deaths = seat.present - seat.count;
    for p in 0..others {
        sums[p] = deaths * sums[p] + seat.count * sums[p + others];
    }
}

// The sum over all patterns of the share, times the count of each seat in the pattern, times the deaths of each other.
pub fn by_patterns(exposures: &Exposures, shares: &Shares) -> Weight
    ensures weight { result.weight ≡ by_patterns exposures.now.seats (λ P. slice_index shares.now.twentieths (number P)) }
    ensures full { result.full ≡ 20 * D exposures.now.seats }
{
    let mut sums = shares.twentieths;
    let mut full = 20;
    let mut left = &exposures.seats[..];
    while let Some((seat, others)) = left.split_last() {
        sum_out(&mut sums, 1 << others.len(), *seat);
        full *= seat.present;
        left = others;
    }
    Weight {
        weight: sums[0],
        full,
    }
}

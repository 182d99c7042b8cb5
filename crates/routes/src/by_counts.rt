// The weight by counts.
ghost use Rattle.std.specs.Prelude.{◌≡◌, ◌*◌, pos, slice_index};
ghost use Rattle.patterns.specs.Patterns.{size};
ghost use Rattle.weights.specs.Exposures.{D};
ghost use Rattle.weights.specs.Patterns.{by_patterns};
ghost use Rattle.weights.specs.AllSeats.{by_counts, S};

use crate::by_number::{NUMBERS, NumberShares};
use crate::differences::difference_at;
use crate::products::{set_product, weight_of};
use patterns::PATTERNS;
use weights::exposures::Exposures;
use weights::weight::Weight;

// The sum over the sets of so many seats of the count of each seat in the set, times the present count of each other.
pub fn symmetric_sum(exposures: &Exposures, members: usize) -> u64
    ensures { result ≡ S exposures.now.seats members }
{
    let mut sum = 0;
    for set in 0..PATTERNS {
        if set.count_ones() as usize == members {
            sum += set_product(exposures, set);
        }
    }
    sum
}

// The sum over the orders of the shares' difference at 0 alive, times the symmetric sum.
pub fn by_counts(exposures: &Exposures, shares: &NumberShares) -> Weight
    ensures route { pos result.weight ≡ by_counts exposures.now.seats (λ k. slice_index shares.now.twentieths k) }
    ensures sum { result.weight ≡ by_patterns exposures.now.seats (λ P. slice_index shares.now.twentieths (size P)) }
    ensures full { result.full ≡ 20 * D exposures.now.seats }
{
    let mut sum: i64 = 0;
    for j in 0..NUMBERS {
        sum += difference_at(shares, j, 0) * symmetric_sum(exposures, j) as i64;
    }
    weight_of(exposures, sum)
}

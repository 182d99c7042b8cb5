// The weight by subsets.
ghost use Rattle.std.specs.Prelude.{◌≡◌, ◌*◌, ◌<◌, ◌≤◌, pos, slice_index, unsigned_abs};
ghost use Rattle.patterns.specs.Seats.{seats, patterns};
ghost use Rattle.patterns.specs.Patterns.{number};
ghost use Rattle.weights.specs.Exposures.{D};
ghost use Rattle.weights.specs.Routes.{set_difference};
ghost use Rattle.weights.specs.Patterns.{by_patterns};
ghost use Rattle.weights.specs.AllSeats.{by_subsets};

use crate::products::{set_product, weight_of};
use crate::signs::sign_of;
use patterns::{PATTERNS, Shares};
use weights::exposures::Exposures;
use weights::weight::Weight;

// The difference of a set: the shares of the patterns within it, each with its sign.
fn set_difference(shares: &Shares, set: usize) -> i64
    requires { set < patterns }
    ensures value { result ≡ set_difference seats (λ p. slice_index shares.now.twentieths p) set }
    ensures bound { unsigned_abs result ≤ 20 * patterns }
{
    let mut sum: i64 = 0;
    for (p, share) in shares.twentieths.iter().enumerate() {
        sum += i64::from(sign_of(set, p)) * *share as i64;
    }
    sum
}

// The sum over all sets of the set's difference, times the count of each seat in the set, times the present count of each other.
pub fn by_subsets(exposures: &Exposures, shares: &Shares) -> Weight
    ensures route { pos result.weight ≡ by_subsets exposures.now.seats (λ P. slice_index shares.now.twentieths (number P)) }
    ensures sum { result.weight ≡ by_patterns exposures.now.seats (λ P. slice_index shares.now.twentieths (number P)) }
    ensures full { result.full ≡ 20 * D exposures.now.seats }
{
    let mut sum: i64 = 0;
    for set in 0..PATTERNS {
        sum += set_difference(shares, set) * set_product(exposures, set) as i64;
    }
    weight_of(exposures, sum)
}

// The product of a set of seats, and the weight that a sum of such products is.
ghost use Rattle.std.specs.Prelude.{◌≡◌, ◌*◌, ◌≤◌, pos, unsigned_abs};
ghost use Rattle.patterns.specs.Seats.{seats};
ghost use Rattle.patterns.specs.Patterns.{flags};
ghost use Rattle.weights.specs.Exposures.{counted, standing, D};
ghost use Rattle.weights.specs.Patterns.{times};

use patterns::sets::is_member;
use weights::exposures::Exposures;
use weights::weight::Weight;

// The counts of the seats in the set, times the present counts of the others.
pub(crate) fn set_product(exposures: &Exposures, set: usize) -> u64
    ensures value { result ≡ times counted standing exposures.now.seats (flags seats set) }
    ensures bound { result ≤ D exposures.now.seats }
{
    let mut product = 1;
    for (i, seat) in exposures.seats.iter().enumerate() {
        if is_member(set, i) {
            product *= seat.count;
        } else {
            product *= seat.present;
        }
    }
    product
}

// The weight that a route's sum is, beside the full weight.
pub(crate) fn weight_of(exposures: &Exposures, sum: i64) -> Weight
    requires whole { sum ≡ pos (unsigned_abs sum) }
    requires part { unsigned_abs sum ≤ 20 * D exposures.now.seats }
    ensures weight { pos result.weight ≡ sum }
    ensures full { result.full ≡ 20 * D exposures.now.seats }
{
    Weight {
        weight: sum as u64,
        full: 20 * set_product(exposures, 0),
    }
}

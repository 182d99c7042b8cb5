// The two quotients of a yearly factor, each cut to a whole number.
ghost use Rattle.std.specs.Prelude.{◌≡◌, ◌+◌, ◌*◌, ◌^◌, ◌<◌, ◌≤◌};
ghost use Rattle.annuities.specs.Values.{probability, yearly, Cut};

use crate::discounts::{DiscountFactor, UNIT};
use weights::weight::Weight;

// A weight that can be multiplied by the unit at once.
const FEW: u64 = u64::MAX / UNIT;

// The part that a weight is of the full weight, in hundred-millionths, one decimal after another unless the weight is small.
fn probability(weight: &Weight) -> u64
    ensures value { result ≡ probability weight.now.weight weight.now.full }
    ensures bound { result ≤ 10 ^ 8 }
{
    let full = weight.full;
    if weight.weight <= FEW {
        return weight.weight * UNIT / full;
    }
    if weight.weight == full {
        return UNIT;
    }
    let mut part = 0;
    let mut rest = weight.weight;
    for _place in 0..8usize {
        part = part * 10 + rest * 10 / full;
        rest = rest * 10 % full;
    }
    part
}

// The yearly factor of a weight under a discount.
pub(crate) fn yearly(weight: &Weight, discount: DiscountFactor) -> u64
    ensures value { result ≡ yearly weight.now.weight weight.now.full discount.worth }
    ensures bound { result ≤ 10 ^ 8 }
    ensures cut { Cut weight.now.weight weight.now.full discount.worth result }
{
    probability(weight) * discount.worth / UNIT
}

// The differences at 0 of the shares by number alive.
ghost use Rattle.std.specs.Prelude.{◌≡◌, ℕ, ◌+◌, ◌≤◌, pos, if◌then◌else◌, nat_lt, slice_index};
ghost use Rattle.patterns.specs.Seats.{seats};
ghost use Rattle.weights.specs.Differences.{Δ};

use crate::by_number::NumberShares;
use patterns::SEATS;

// A higher difference is the difference of two of the next lower order.
pub(crate) fn difference_at(shares: &NumberShares, order: usize, k: usize) -> i64
    requires { order + k ≤ seats }
    ensures { result ≡ Δ order (λ i. slice_index shares.now.twentieths i) k }
{
    if order == 0 {
        shares.twentieths[k] as i64
    } else {
        difference_at(shares, order - 1, k + 1) - difference_at(shares, order - 1, k)
    }
}

// The difference of an order at 0 alive; there is none above the number of seats.
pub fn difference(shares: &NumberShares, order: usize) -> i64
    ensures { result ≡ (if nat_lt seats order then pos 0 else Δ order (λ i. slice_index shares.now.twentieths i) 0) }
{
    if order > SEATS {
        return 0;
    }
    difference_at(shares, order, 0)
}

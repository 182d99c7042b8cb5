// The choice of a route.
ghost use Rattle.std.specs.Prelude.{◌≡◌, ◌*◌, Some, pos, slice_index};
ghost use Rattle.weights.specs.Exposures.{D};
ghost use Rattle.routes.specs.Routes.{route_over, answer_over};
ghost use Rattle.routes.specs.Words.{words};

use crate::by_counts::by_counts;
use crate::by_number::shares_by_number;
use crate::by_subsets::by_subsets;
use patterns::Shares;
use std::fmt;
use weights::by_patterns::by_patterns;
use weights::exposures::Exposures;
use weights::weight::Weight;

// How a weight is worked.
#[derive(Clone, Copy, PartialEq, Eq, Debug)]
pub enum Route {
    // Over the patterns of the named lives.
    Patterns,
    // Over the sets of the named lives.
    Subsets,
    // Over the number of the named lives in a set, where only the number alive matters.
    Counts,
}

// In words.
impl fmt::Display for Route {
    ghost output = { λ route. Some (words route) };

    fn fmt<W: fmt::Write>(&self, f: &mut fmt::Formatter<W>) -> fmt::Result {
        f.write_str(match self {
            Route::Patterns => "by patterns",
            Route::Subsets => "by subsets",
            Route::Counts => "by counts",
        })
    }
}

// The weight by a route, where the seats that are not named stand as failed.
pub fn weigh(exposures: &Exposures, shares: &Shares, named: usize, route: Route) -> Weight
    ensures route { pos result.weight ≡ route_over route exposures.now.seats named (λ p. slice_index shares.now.twentieths p) }
    ensures sum { result.weight ≡ answer_over route exposures.now.seats named (λ p. slice_index shares.now.twentieths p) }
    ensures full { result.full ≡ 20 * D exposures.now.seats }
{
    match route {
        Route::Patterns => by_patterns(exposures, shares),
        Route::Subsets => by_subsets(exposures, shares),
        Route::Counts => by_counts(exposures, &shares_by_number(shares, named)),
    }
}

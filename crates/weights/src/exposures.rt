// The exposures of all seats.
ghost use Rattle.std.specs.Prelude.{◌≡◌, ℕ, ◌^◌, ◌<◌, ◌≤◌, length, get_or};
ghost use Rattle.patterns.specs.Seats.{seats as seats_of};
ghost use Rattle.weights.specs.Exposures.{Sound, Present, D};

use crate::exposure::Exposure;
use patterns::SEATS;

// No count is above the present count, each present count is 1 or more, and together they multiply to at most 10^16.
#[derive(Clone, Copy)]
pub struct Exposures {
    pub seats: [Exposure; SEATS],
    ghost long: { length seats ≡ seats_of },
    ghost sound: { Sound seats },
    ghost present: { Present seats },
    ghost small: { D seats ≤ 10 ^ 16 },
}

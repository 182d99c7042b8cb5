// Whether no seat is counted any more.
ghost use Rattle.std.specs.Prelude.{◌≡◌};
ghost use Rattle.weights.specs.Exposures.{none_counted};

use crate::exposures::Exposures;

impl Exposures {
    // Whether no seat is counted.
    pub fn is_over(&self) -> bool
        ensures { result ≡ none_counted self.now.seats }
    {
        self.seats.iter().all(|seat| seat.count == 0)
    }
}

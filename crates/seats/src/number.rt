// The number of a seat.
ghost use Rattle.seats.specs.Seats.{Seated};

use patterns::SEATS;
use refusals::Refusal;

// A is 0, B is 1, ..
#[derive(Clone, Copy)]
pub struct SeatNumber {
    pub(crate) index: usize,
    ghost seated: { Seated index },
}

impl TryFrom<usize> for SeatNumber {
    ghost use Rattle.seats.specs.Taken.{Taken};

    type Error = Refusal;

    ghost try_from_gives = { Taken };

    fn try_from(index: usize) -> Result<SeatNumber, Refusal> {
        if index < SEATS {
            Ok(SeatNumber { index })
        } else {
            Err(Refusal::NoSeat)
        }
    }
}

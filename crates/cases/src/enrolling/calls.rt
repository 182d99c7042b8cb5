// The calls on a case that is enrolling: open, enrol, withdraw.
ghost use Rattle.std.specs.Prelude.{◌≡◌};
ghost use Rattle.lives.specs.Column.{column};
ghost use Rattle.cases.specs.Book.{beginning, judged, step, enrol, withdraw};
ghost use Rattle.cases.specs.Views.{enrolling_book};

use crate::enrolling::Enrolling;
use lives::life::Life;
use refusals::Refusal;
use seats::number::SeatNumber;
use seats::seat::Mark;
use seats::table::SeatTable;

// What the counts of year 0 may multiply to.
const GREATEST: u128 = 10_000_000_000_000_000;

impl Enrolling {
    // A new case: every seat is empty, its counts 0.
    pub fn open() -> Enrolling
        ensures { enrolling_book result ≡ beginning }
    {
        Enrolling {
            table: SeatTable::new(),
        }
    }

    // An empty seat becomes living with the life's counts.
    pub fn enrol<L: Life>(&mut self, seat: usize, life: &L) -> Result<(), Refusal>
        ensures answer { result ≡ judged (enrol seat (column (L.count life.now))) (enrolling_book self.old) }
        ensures after { enrolling_book self.new ≡ step (enrol seat (column (L.count life.now))) (enrolling_book self.old) }
    {
        let seat = SeatNumber::try_from(seat)?;
        match self.table.mark(seat) {
            Mark::Empty => {}
            Mark::Living | Mark::Failed => return Err(Refusal::Occupied),
        }
        let counts = life.column();
        let first = counts[0];
        if first == 0 {
            return Err(Refusal::NoCount);
        }
        if u128::from(first) * u128::from(self.table.product()) > GREATEST {
            return Err(Refusal::ProductTooLarge);
        }
        self.table.seat(seat, counts);
        Ok(())
    }

    // The seat is empty again, its counts 0.
    pub fn withdraw(&mut self, seat: usize) -> Result<(), Refusal>
        ensures answer { result ≡ judged (withdraw seat) (enrolling_book self.old) }
        ensures after { enrolling_book self.new ≡ step (withdraw seat) (enrolling_book self.old) }
    {
        let seat = SeatNumber::try_from(seat)?;
        match self.table.mark(seat) {
            Mark::Empty => return Err(Refusal::Vacant),
            Mark::Living | Mark::Failed => {}
        }
        self.table.clear(seat);
        Ok(())
    }
}

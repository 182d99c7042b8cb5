// The calls that put a case in force, move it on and close it.
ghost use Rattle.std.specs.Prelude.{◌≡◌, None, Ok, Err, MatchResult};
ghost use Rattle.cases.specs.Book.{judged, judge_fail, step, start, fail, year_end};
ghost use Rattle.cases.specs.Views.{enrolling_book, in_force_book, closed};

use crate::enrolling::Enrolling;
use crate::inforce::{Closed, InForce};
use refusals::Refusal;
use seats::number::SeatNumber;
use seats::seat::Mark;

impl Enrolling {
    // The case goes in force; no year has elapsed.
    pub fn start(self) -> InForce
        ensures after { in_force_book result ≡ step start (enrolling_book self) }
        ensures supposed { result.supposed ≡ None }
    {
        let Enrolling { table } = self;
        InForce {
            table,
            elapsed: 0,
            supposed: None,
        }
    }
}

impl InForce {
    // The number of a living seat, or why the seat may not fail.
    pub(super) fn living(&self, seat: usize) -> Result<SeatNumber, Refusal>
        ensures { MatchResult result (λ s. (judge_fail self.now.table.seats seat ≡ Ok tt) × (s.index ≡ seat)) (λ e. judge_fail self.now.table.seats seat ≡ Err e) }
    {
        let seat = SeatNumber::try_from(seat)?;
        match self.table.mark(seat) {
            Mark::Empty => Err(Refusal::Vacant),
            Mark::Failed => Err(Refusal::AlreadyFailed),
            Mark::Living => Ok(seat),
        }
    }

    // A living seat fails.
    pub fn fail(&mut self, seat: usize) -> Result<(), Refusal>
        ensures answer { result ≡ judged (fail seat) (in_force_book self.old) }
        ensures after { in_force_book self.new ≡ step (fail seat) (in_force_book self.old) }
        ensures supposed { self.new.supposed ≡ self.old.supposed }
    {
        let seat = self.living(seat)?;
        self.table.fail(seat);
        Ok(())
    }

    // A year ends: one more has elapsed if any seat is living.
    pub fn year_end(&mut self) -> Result<(), Refusal>
        ensures answer { result ≡ judged year_end (in_force_book self.old) }
        ensures after { in_force_book self.new ≡ step year_end (in_force_book self.old) }
        ensures supposed { self.new.supposed ≡ self.old.supposed }
    {
        if self.table.any_ending(self.elapsed + 1) {
            return Err(Refusal::Ending);
        }
        if !self.table.any_living() {
            return Ok(());
        }
        self.elapsed += 1;
        Ok(())
    }

    // The case ends.
    pub fn close(self) -> Closed
        ensures { result ≡ closed (in_force_book self) }
    {
        Closed {
            elapsed: self.elapsed,
            failed: self.table.failures(),
        }
    }
}

// The seats of a case in a plain table. A change of one seat leaves every other seat's record as it is.
ghost use Rattle.std.specs.Prelude.{◌≡◌, slice_set};
ghost use Rattle.seats.specs.Seats.{vacant, vacancies, living, failed, seat_at, first, product, lives, ending, any_of, failures, Columns, Within};

use crate::number::SeatNumber;
use crate::seat::{Mark, Seat};
use lives::life::YEARS;
use patterns::SEATS;

#[derive(Drop)]
pub struct SeatTable {
    seats: [Seat; SEATS],
}

const VACANT: Seat = Seat {
    counts: [0; YEARS],
    mark: Mark::Empty,
};

impl SeatTable {
    pub fn new() -> SeatTable
        ensures { result.seats ≡ vacancies }
    {
        SeatTable {
            seats: [VACANT; SEATS],
        }
    }

    // The record of each seat.
    pub fn records(&self) -> &[Seat]
        ensures { result.now ≡ self.now.seats }
    {
        &self.seats
    }

    pub fn mark(&self, seat: SeatNumber) -> Mark
        ensures { result ≡ (seat_at self.now.seats seat.index).mark }
    {
        self.seats[seat.index].mark
    }

    // Whether any seat is living.
    pub fn any_living(&self) -> bool
        ensures { result ≡ any_of lives self.now.seats }
    {
        self.seats.iter().any(|seat| seat.lives())
    }

    // Whether any living seat's count of a year is 0.
    pub fn any_ending(&self, year: u32) -> bool
        ensures { result ≡ any_of (ending year) self.now.seats }
    {
        self.seats.iter().any(|seat| seat.ends_by(year))
    }

    // The counts of year 0 of the occupied seats, multiplied.
    pub fn product(&self) -> u64
        requires columns { Columns self.now.seats }
        requires within { Within first self.now.seats }
        ensures { result ≡ product first self.now.seats }
    {
        let mut all = 1;
        for seat in &self.seats {
            all *= u64::from(seat.first());
        }
        all
    }

    // How many seats have failed.
    pub fn failures(&self) -> usize
        ensures { result ≡ failures self.now.seats }
    {
        self.seats.iter().filter(|seat| seat.has_failed()).count()
    }

    // A life of these counts takes the seat.
    pub fn seat(&mut self, seat: SeatNumber, counts: [u32; YEARS])
        ensures { self.new.seats ≡ slice_set self.old.seats seat.index (living counts) }
    {
        self.seats[seat.index] = Seat {
            counts,
            mark: Mark::Living,
        };
    }

    // The seat is empty again, its counts 0.
    pub fn clear(&mut self, seat: SeatNumber)
        ensures { self.new.seats ≡ slice_set self.old.seats seat.index vacant }
    {
        self.seats[seat.index] = VACANT;
    }

    // The seat is marked failed, and keeps its counts.
    pub fn fail(&mut self, seat: SeatNumber)
        ensures { self.new.seats ≡ slice_set self.old.seats seat.index (failed (seat_at self.old.seats seat.index).counts) }
    {
        let record = &mut self.seats[seat.index];
        record.mark = Mark::Failed;
    }
}

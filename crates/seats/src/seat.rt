// A seat's record: its mark beside its column of counts.
ghost use Rattle.std.specs.Prelude.{◌≡◌, slice_index};
ghost use Rattle.seats.specs.Seats.{first, is_failed, lives, ending};

use lives::life::YEARS;

// Whether a seat holds no life, a life that lives, or one that has failed.
#[derive(Clone, Copy, PartialEq, Eq, Debug)]
pub enum Mark {
    Empty,
    Living,
    Failed,
}

// The counts of years 0 to 120 from the start, and the mark.
#[derive(Clone, Copy)]
pub struct Seat {
    pub counts: [u32; YEARS],
    pub mark: Mark,
}

impl Seat {
    // The count of year 0 of an occupied seat, and 1 of an empty one.
    pub(crate) fn first(&self) -> u32
        ensures { result ≡ first self.now }
    {
        match self.mark {
            Mark::Empty => 1,
            Mark::Living | Mark::Failed => self.counts[0],
        }
    }

    // The count of a year, 0 past the last.
    pub fn count(&self, year: usize) -> u32
        ensures { result ≡ slice_index self.now.counts year }
    {
        self.counts.get(year).copied().unwrap_or(0)
    }

    // Whether its life lives.
    pub(crate) fn lives(&self) -> bool
        ensures { result ≡ lives self.now }
    {
        self.mark == Mark::Living
    }

    // Whether it lives and its count of a year is 0.
    pub(crate) fn ends_by(&self, year: u32) -> bool
        ensures { result ≡ ending year self.now }
    {
        self.lives() && self.count(year as usize) == 0
    }

    pub(crate) fn has_failed(&self) -> bool
        ensures { result ≡ is_failed self.now.mark }
    {
        self.mark == Mark::Failed
    }
}

// The weight of a benefit for a year by a route, over the seats of a case in force.
ghost use Rattle.std.specs.Prelude.{◌≡◌, ◌+◌, false, if◌then◌else◌, Ok, Err, slice_index};
ghost use Rattle.refusals.specs.declared.Refusal.TheVariants.{Vacant};
ghost use Rattle.patterns.specs.Seats.{seats};
ghost use Rattle.patterns.specs.Patterns.{flags};
ghost use Rattle.patterns.specs.Anys.{is_member};
ghost use Rattle.weights.specs.Patterns.{kept};
ghost use Rattle.seats.specs.Seats.{is_empty};
ghost use Rattle.cases.specs.Book.{seen_mark};
ghost use Rattle.cases.specs.Views.{book_of, shown_book};
ghost use Rattle.cases.specs.Weighing.{exposure_by, exposures_for, vacancy};
ghost use Rattle.cases.specs.Routing.{judge_number, judge_routed, Answered};

use super::InForce;
use super::view::View;
use benefits::benefit::Benefit;
use lives::life::YEARS;
use patterns::sets::is_member;
use refusals::Refusal;
use routes::by_number::is_even;
use routes::route::{Route, weigh};
use seats::seat::{Mark, Seat};
use std::array;
use weights::exposure::Exposure;
use weights::exposures::Exposures;
use weights::weight::Weight;

// The last year that a weight is asked for.
pub const LAST_YEAR: u32 = YEARS as u32 - 1;

// What a weight takes of a seat that is failed or not named.
const LOST: Exposure = Exposure {
    count: 0,
    present: 1,
};

impl View<'_> {
    // A seat's mark, as it is seen.
    fn mark(&self, index: usize, seat: &Seat) -> Mark
        ensures { result ≡ seen_mark self.now.supposed index seat.now.mark }
    {
        match self.supposed {
            Some(supposed) if supposed == index => Mark::Failed,
            _ => seat.mark,
        }
    }

    // A seat that is seen with a mark, as the weight for a year sees it.
    fn exposure(&self, mark: Mark, seat: &Seat, year: u32) -> Exposure
        ensures { result ≡ exposure_by mark (slice_index seat.now.counts (self.now.case.now.elapsed + year)) (slice_index seat.now.counts self.now.case.now.elapsed) }
    {
        let elapsed = self.case.elapsed as usize;
        match mark {
            Mark::Living => Exposure {
                count: u64::from(seat.count(elapsed + year as usize)),
                present: u64::from(seat.count(elapsed)),
            },
            Mark::Empty | Mark::Failed => LOST,
        }
    }

    // All seats as the weight for a year sees them, each that is not named as a failed one.
    pub fn exposures(&self, benefit: &Benefit, year: u32) -> Exposures
        ensures { result.seats ≡ kept (flags seats benefit.now.named) (exposures_for (book_of self.now) year) }
    {
        let named = benefit.named();
        let records = self.case.table.records();
        let seats = array::from_fn(|i| {
            let seat = &records[i];
            if is_member(named, i) {
                self.exposure(self.mark(i, seat), seat, year)
            } else {
                LOST
            }
        });
        Exposures { seats }
    }

    // Whether a seat is named and empty.
    fn is_vacant(&self, named: usize, index: usize, seat: &Seat) -> bool
        ensures { result ≡ (if is_member named index then is_empty (seen_mark self.now.supposed index seat.now.mark) else false) }
    {
        is_member(named, index) && self.mark(index, seat) == Mark::Empty
    }

    // Why a benefit may not be priced: a named seat is empty.
    pub(super) fn test_seats(&self, benefit: &Benefit) -> Result<(), Refusal>
        ensures { result ≡ (if vacancy (book_of self.now) benefit.now then Err Vacant else Ok tt) }
    {
        let named = benefit.named();
        for (i, seat) in self.case.table.records().iter().enumerate() {
            if self.is_vacant(named, i, seat) {
                return Err(Refusal::Vacant);
            }
        }
        Ok(())
    }

    // Why a benefit may not be weighed for a year by a route.
    pub fn test(&self, benefit: &Benefit, year: u32, route: Route) -> Result<(), Refusal>
        ensures { result ≡ judge_routed (book_of self.now) benefit.now year route }
    {
        if year > LAST_YEAR {
            return Err(Refusal::Year);
        }
        self.test_seats(benefit)?;
        match route {
            Route::Patterns | Route::Subsets => Ok(()),
            Route::Counts => test_number(benefit),
        }
    }

    // The weight for a year by a route.
    pub fn weigh(&self, benefit: &Benefit, year: u32, route: Route) -> Result<Weight, Refusal>
        ensures { Answered result route (book_of self.now) benefit.now year }
    {
        self.test(benefit, year, route)?;
        Ok(weigh(
            &self.exposures(benefit, year),
            benefit.shares(),
            benefit.named(),
            route,
        ))
    }
}

impl InForce {
    // The weight for a year by a route, under the supposition that stands, if one does.
    pub fn weigh(&self, benefit: &Benefit, year: u32, route: Route) -> Result<Weight, Refusal>
        ensures { Answered result route (shown_book self.now) benefit.now year }
    {
        self.as_supposed().weigh(benefit, year, route)
    }
}

// Why the shares of a benefit may not be taken by the number of the named alive.
pub(super) fn test_number(benefit: &Benefit) -> Result<(), Refusal>
    ensures { result ≡ judge_number benefit.now }
{
    if is_even(benefit.shares(), benefit.named()) {
        Ok(())
    } else {
        Err(Refusal::Uneven)
    }
}

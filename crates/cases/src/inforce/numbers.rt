// What the route by counts is made of: differences of the shares by number alive, and symmetric sums.
ghost use Rattle.std.specs.Prelude.{◌≡◌, ◌<◌, IfOk};
ghost use Rattle.patterns.specs.Seats.{seats};
ghost use Rattle.patterns.specs.Patterns.{size, flags};
ghost use Rattle.cases.specs.Views.{shown_book};
ghost use Rattle.cases.specs.Routing.{differenced, symmetric};

use super::InForce;
use super::weigh::test_number;
use benefits::benefit::Benefit;
use refusals::Refusal;
use routes::by_counts::symmetric_sum;
use routes::by_number::shares_by_number;
use routes::differences::difference;
use routes::route::Route;

impl InForce {
    // The difference of an order at none alive of a benefit's shares by number alive; 0 above the number of the named.
    pub fn difference(&self, benefit: &Benefit, order: usize) -> Result<i64, Refusal>
        ensures { result ≡ differenced (shown_book self.now) benefit.now order }
    {
        self.as_supposed().test_seats(benefit)?;
        test_number(benefit)?;
        if order > benefit.named().count_ones() as usize {
            return Ok(0);
        }
        Ok(difference(&shares_by_number(benefit.shares(), benefit.named()), order))
    }

    // The sum for a year over the sets of so many named lives; 0 above the number of the named.
    pub fn symmetric_sum(
        &self,
        benefit: &Benefit,
        year: u32,
        members: usize,
    ) -> Result<u64, Refusal>
        ensures value { result ≡ symmetric (shown_book self.now) benefit.now year members }
        ensures past { IfOk result (λ s. (size (flags seats benefit.now.named) < members → s ≡ 0)) }
    {
        let view = self.as_supposed();
        view.test(benefit, year, Route::Patterns)?;
        Ok(symmetric_sum(&view.exposures(benefit, year), members))
    }
}

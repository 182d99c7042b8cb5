// Yearly factors, their sum, and the value of a benefit, on a case in force.
ghost use Rattle.std.specs.Prelude.{◌≡◌, ◌*◌, ◌^◌, ◌≤◌, IfOk, Ok};
ghost use Rattle.cases.specs.Views.{book_of};
ghost use Rattle.cases.specs.Routing.{judge_route};
ghost use Rattle.annuities.specs.Values.{factor_of, factored, summed, valued, CutOf};

use crate::cuts::yearly;
use crate::discounts::{DiscountFactor, UNIT};
use crate::rates::Rate;
use crate::valuation::Valuation;
use benefits::benefit::Benefit;
use cases::inforce::view::View;
use cases::inforce::weigh::LAST_YEAR;
use refusals::Refusal;
use routes::route::{Route, weigh};

// A benefit, what is seen of the case, the rate in hundredths of a percent, and how the weights are worked.
#[derive(Clone, Copy)]
pub struct Pricing<'c, 'b> {
    pub view: View<'c>,
    pub benefit: &'b Benefit,
    pub rate: u32,
    pub route: Route,
}

impl Pricing<'_, '_> {
    // The yearly factor of a year, in hundred-millionths.
    pub fn yearly_factor(&self, year: u32) -> Result<u64, Refusal>
        ensures value { result ≡ factored (book_of self.now.view) self.now.benefit.now self.now.rate year self.now.route }
        ensures cut { CutOf result (book_of self.now.view) self.now.benefit.now self.now.rate year }
    {
        let rate = Rate::try_from(self.rate)?;
        let weight = self.view.weigh(self.benefit, year, self.route)?;
        Ok(yearly(&weight, DiscountFactor::after(rate, year)))
    }

    // The sum of the yearly factors of years 0 to 120, also where a named seat is empty.
    fn sum_years(&self, rate: Rate) -> u64
        requires { judge_route self.now.route self.now.benefit.now ≡ Ok tt }
        ensures value { result ≡ factor_of (book_of self.now.view) self.now.benefit.now rate.hundredths }
        ensures bound { result ≤ 121 * 10 ^ 8 }
    {
        let mut factor = 0;
        let mut discount = DiscountFactor::now();
        for year in 0..=LAST_YEAR {
            let exposures = self.view.exposures(self.benefit, year);
            let weight = weigh(
                &exposures,
                self.benefit.shares(),
                self.benefit.named(),
                self.route,
            );
            // Nobody named is counted from here on, and nothing is paid for nobody.
            if weight.weight == 0 && exposures.is_over() {
                return factor;
            }
            factor += yearly(&weight, discount);
            discount = discount.next(rate);
        }
        factor
    }

    // The sum of the yearly factors of years 0 to 120.
    pub fn factor(&self) -> Result<u64, Refusal>
        ensures value { result ≡ summed (book_of self.now.view) self.now.benefit.now self.now.rate self.now.route }
        ensures bound { IfOk result (λ f. f ≤ 121 * 10 ^ 8) }
    {
        let rate = Rate::try_from(self.rate)?;
        self.view.test(self.benefit, 0, self.route)?;
        Ok(self.sum_years(rate))
    }

    // The factor, and the value of the benefit's amount.
    pub fn value(&self) -> Result<Valuation, Refusal>
        ensures { result ≡ valued (book_of self.now.view) self.now.benefit.now self.now.rate self.now.route }
    {
        let factor = self.factor()?;
        Ok(Valuation {
            factor,
            value: u64::from(self.benefit.amount()) * factor / UNIT,
        })
    }
}

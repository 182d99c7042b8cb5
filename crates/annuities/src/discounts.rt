// The discounts at a flat rate: what 1 due in a year from now is worth, in hundred-millionths.
ghost use Rattle.std.specs.Prelude.{◌≡◌, ◌+◌, ◌*◌, ◌/◌, ◌^◌, ◌≤◌};
ghost use Rattle.annuities.specs.Discounts.{discount, discounted};

use crate::rates::Rate;
use cases::inforce::weigh::LAST_YEAR;
use refusals::Refusal;

// What 1 is worth now.
pub(crate) const UNIT: u64 = 100_000_000;

// The discount of a year.
#[derive(Clone, Copy)]
pub(crate) struct DiscountFactor {
    pub(crate) worth: u64,
    ghost most: { worth ≤ 10 ^ 8 },
}

impl DiscountFactor {
    // The discount of year 0.
    pub(crate) fn now() -> DiscountFactor
        ensures { result.worth ≡ 100000000 }
    {
        DiscountFactor { worth: UNIT }
    }

    // The discount of one year more, cut.
    pub(crate) fn next(self, rate: Rate) -> DiscountFactor
        ensures value { result.worth ≡ self.worth * 10000 / (10000 + rate.hundredths) }
        ensures bound { result.worth ≤ self.worth }
    {
        let worth = self.worth * 10_000 / (10_000 + u64::from(rate.hundredths));
        DiscountFactor { worth }
    }

    // The discount after some years.
    pub(crate) fn after(rate: Rate, years: u32) -> DiscountFactor
        ensures { result.worth ≡ discount rate.hundredths years }
    {
        let mut discount = DiscountFactor::now();
        for _year in 0..years {
            discount = discount.next(rate);
        }
        discount
    }
}

// The discount of a year: refused where the rate is above 10,000, then where the year is above 120.
pub fn discount(rate: u32, year: u32) -> Result<u64, Refusal>
    ensures { result ≡ discounted rate year }
{
    let rate = Rate::try_from(rate)?;
    if year > LAST_YEAR {
        return Err(Refusal::Year);
    }
    Ok(DiscountFactor::after(rate, year).worth)
}

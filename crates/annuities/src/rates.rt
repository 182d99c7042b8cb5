// Rates of interest.
ghost use Rattle.std.specs.Prelude.{◌≤◌};

use refusals::Refusal;

// 100% a year.
const HIGHEST: u32 = 10_000;

// A rate in hundredths of a percent, of at most 100% a year.
#[derive(Clone, Copy)]
pub(crate) struct Rate {
    pub(crate) hundredths: u32,
    ghost limited: { hundredths ≤ 10000 },
}

impl TryFrom<u32> for Rate {
    ghost use Rattle.annuities.specs.Rates.{Limited};

    type Error = Refusal;

    ghost try_from_gives = { Limited };

    fn try_from(hundredths: u32) -> Result<Rate, Refusal> {
        if hundredths > HIGHEST {
            return Err(Refusal::Number);
        }
        Ok(Rate { hundredths })
    }
}

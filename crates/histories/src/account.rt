// The account of a history, and the law that it obeys.
ghost use Rattle.std.specs.Prelude.{◌≡◌, None};
ghost use Rattle.cases.specs.Views.{in_force_book, shown_book, book_of};
ghost use Rattle.annuities.specs.Values.{CutOf};
ghost use Rattle.histories.specs.History.{book, supposed_now};
ghost use Rattle.histories.specs.Law.{WorkedBy, Answered, Law};

use crate::calls::{Account, History, Worked};
use crate::replay::{carry_all, enrolled};
use annuities::pricing::Pricing;
use benefits::benefit::Benefit;
use cases::inforce::InForce;
use lives::life::Life;
use routes::route::Route;

// What one route answers.
fn work(pricing: &Pricing, year: u32) -> Worked
    ensures worked { WorkedBy pricing.now.route (book_of pricing.now.view) pricing.now.benefit.now year pricing.now.rate result }
    ensures cut { CutOf result.factor (book_of pricing.now.view) pricing.now.benefit.now pricing.now.rate year }
{
    let weight = pricing
        .view
        .weigh(pricing.benefit, year, pricing.route)
        .map(|weight| weight.weight);
    Worked {
        weight,
        factor: pricing.yearly_factor(year),
        valuation: pricing.value(),
    }
}

// What the three routes answer on a case in force as it is now.
pub fn answers(case: &InForce, benefit: &Benefit, year: u32, rate: u32) -> Account
    ensures answered { Answered (shown_book case.now) benefit.now year rate result }
    ensures law { Law (shown_book case.now) benefit.now year rate result }
{
    let view = case.as_supposed();
    let patterns = Pricing {
        view,
        benefit,
        rate,
        route: Route::Patterns,
    };
    let subsets = Pricing {
        route: Route::Subsets,
        ..patterns
    };
    let counts = Pricing {
        route: Route::Counts,
        ..patterns
    };
    Account {
        patterns: work(&patterns, year),
        subsets: work(&subsets, year),
        counts: work(&counts, year),
    }
}

impl<L: Life> History<'_, L> {
    // The case after all calls, each made whatever it answers, and before the supposition that stands now.
    pub fn replay(&self) -> InForce
        ensures book { in_force_book result ≡ book L.count self.now.enrolments.now self.now.events.now }
        ensures supposed { result.supposed ≡ None }
    {
        let mut case = enrolled(self.enrolments).start();
        carry_all(&mut case, self.events);
        case
    }

    // Replays the history. Then, under the supposition that stands now, weighs and values a benefit by the three routes.
    pub fn account(&self, benefit: &Benefit, year: u32, rate: u32) -> Account
        ensures answered { Answered (supposed_now self.now.supposed (book L.count self.now.enrolments.now self.now.events.now)) benefit.now year rate result }
        ensures law { Law (supposed_now self.now.supposed (book L.count self.now.enrolments.now self.now.events.now)) benefit.now year rate result }
    {
        let mut case = self.replay();
        match self.supposed {
            None => answers(&case, benefit, year, rate),
            Some(seat) => {
                let guard = case.suppose(seat);
                answers(guard.case(), benefit, year, rate)
            }
        }
    }
}

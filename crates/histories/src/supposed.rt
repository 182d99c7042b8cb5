// What a benefit is worth if a seat failed now.
ghost use Rattle.std.specs.Prelude.{◌≡◌, Some};
ghost use Rattle.cases.specs.Views.{in_force_book};
ghost use Rattle.annuities.specs.Values.{valued};
ghost use Rattle.histories.specs.History.{supposed_now};

use annuities::pricing::Pricing;
use annuities::valuation::Valuation;
use benefits::benefit::Benefit;
use cases::inforce::InForce;
use refusals::Refusal;
use routes::route::Route;

// Values a benefit with a seat supposed failed; the case is then what it was, also where the valuing is refused.
pub fn value_supposing(
    case: &mut InForce,
    seat: usize,
    benefit: &Benefit,
    rate: u32,
    route: Route,
) -> Result<Valuation, Refusal>
    ensures same { case.new ≡ case.old }
    ensures value { result ≡ valued (supposed_now (Some seat) (in_force_book case.old)) benefit.now rate route }
{
    let guard = case.suppose(seat);
    let view = guard.case().as_supposed();
    let pricing = Pricing {
        view,
        benefit,
        rate,
        route,
    };
    let valuation = pricing.value()?;
    Ok(valuation)
}

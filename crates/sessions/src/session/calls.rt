// The lines that call the case.
ghost use Rattle.std.specs.Prelude.{◌≡◌};
ghost use Rattle.cases.specs.Views.{enrolling_book, in_force_book};
ghost use Rattle.schemes.specs.Enrolment.{Leaves};
ghost use Rattle.schemes.specs.Syntax.{amount};
ghost use Rattle.sessions.specs.Machine.{withdrawn, failed, aged, Values};

use annuities::pricing::Pricing;
use annuities::valuation::Valuation;
use benefits::benefit::Benefit;
use cases::enrolling::Enrolling;
use cases::inforce::InForce;
use lines::kind::Kind;
use routes::route::Route;
use schemes::fault::Fault;
use schemes::reading::{amount_and_clauses, no_number, only_number};
use tokens::faults::with_number;

// W seat
pub(super) fn withdraw(case: &mut Enrolling, rest: &[u8]) -> Result<(), Fault>
    ensures { Leaves (withdrawn rest.now (enrolling_book case.old)) result (enrolling_book case.new) (enrolling_book case.old) }
{
    let seat = only_number(Kind::Withdraw, rest)?;
    case.withdraw(seat as usize)?;
    Ok(())
}

// X seat
pub(super) fn fail(case: &mut InForce, rest: &[u8]) -> Result<(), Fault>
    ensures book { Leaves (failed rest.now (in_force_book case.old)) result (in_force_book case.new) (in_force_book case.old) }
    ensures supposed { case.new.supposed ≡ case.old.supposed }
{
    let seat = only_number(Kind::Fail, rest)?;
    case.fail(seat as usize)?;
    Ok(())
}

// Y
pub(super) fn year_end(case: &mut InForce, rest: &[u8]) -> Result<(), Fault>
    ensures book { Leaves (aged rest.now (in_force_book case.old)) result (in_force_book case.new) (in_force_book case.old) }
    ensures supposed { case.new.supposed ≡ case.old.supposed }
{
    no_number(Kind::YearEnd, rest)?;
    case.year_end()?;
    Ok(())
}

// B amount clauses
pub(super) fn price(case: &InForce, rest: &[u8], rate: u32) -> Result<Valuation, Fault>
    ensures { Values (amount rest.now) rest.now (in_force_book case.now) rate result }
{
    let line = amount_and_clauses(rest)?;
    let benefit = with_number(Benefit::parse(line.amount, line.clauses), line.place)?;
    let pricing = Pricing {
        view: case.itself(),
        benefit: &benefit,
        rate,
        route: Route::Patterns,
    };
    Ok(pricing.value()?)
}

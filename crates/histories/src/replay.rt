// The calls of a history, made through the real methods whatever each answers.
ghost use Rattle.std.specs.Prelude.{◌≡◌, map};
ghost use Rattle.cases.specs.Book.{beginning, step, run};
ghost use Rattle.cases.specs.Views.{enrolling_book, in_force_book};
ghost use Rattle.histories.specs.History.{called, calls, calls_of};

use crate::calls::{Enrolment, Event, Look};
use annuities::pricing::Pricing;
use cases::enrolling::Enrolling;
use cases::inforce::InForce;
use lives::life::Life;

// Looks at a case, whatever the answer is.
fn look(case: &InForce, next: Look) {
    match next {
        Look::Weigh(benefit, year, route) => {
            let _ = case.weigh(benefit, year, route);
        }
        Look::Value(benefit, rate, route) => {
            let view = case.as_supposed();
            let _ = Pricing {
                view,
                benefit,
                rate,
                route,
            }
            .value();
        }
    }
}

// Supposes a seat failed, looks at the case, and ends the supposition.
#[tactic(auto, using(cases::proofs::SameCase::same_case))]
fn suppose(case: &mut InForce, seat: usize, looks: &[Look])
    ensures { case.new ≡ case.old }
{
    let guard = case.suppose(seat);
    for next in looks {
        look(guard.case(), *next);
    }
}

// One call on a case in force, whatever it answers.
fn carry(case: &mut InForce, event: &Event)
    ensures book { in_force_book case.new ≡ run (calls_of event.now) (in_force_book case.old) }
    ensures supposed { case.new.supposed ≡ case.old.supposed }
{
    match event {
        Event::Fail(seat) => {
            let _ = case.fail(*seat);
        }
        Event::YearEnd => {
            let _ = case.year_end();
        }
        Event::Suppose(seat, looks) => suppose(case, *seat, looks),
        Event::Look(next) => look(case, *next),
    }
}

// The calls on a case in force, one after another.
pub fn carry_all(case: &mut InForce, events: &[Event])
    ensures book { in_force_book case.new ≡ run (calls events.now) (in_force_book case.old) }
    ensures supposed { case.new.supposed ≡ case.old.supposed }
{
    for event in events {
        carry(case, event);
    }
}

// One call on a case that is enrolling, whatever it answers.
fn enter<L: Life>(case: &mut Enrolling, enrolment: &Enrolment<L>)
    ensures { enrolling_book case.new ≡ step (called L.count enrolment.now) (enrolling_book case.old) }
{
    match enrolment {
        Enrolment::Enrol(seat, life) => {
            let _ = case.enrol(*seat, life);
        }
        Enrolment::Withdraw(seat) => {
            let _ = case.withdraw(*seat);
        }
    }
}

// A case that is opened, with all its enrolments.
pub fn enrolled<L: Life>(enrolments: &[Enrolment<L>]) -> Enrolling
    ensures { enrolling_book result ≡ run (map (called L.count) enrolments.now) beginning }
{
    let mut case = Enrolling::open();
    for enrolment in enrolments {
        enter(&mut case, enrolment);
    }
    case
}

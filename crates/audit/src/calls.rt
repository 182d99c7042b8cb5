// The calls of a history, each with its answer.
use crate::answers::{show_answer, show_number, show_seat};
use annuities::pricing::Pricing;
use cases::enrolling::Enrolling;
use cases::inforce::InForce;
use histories::calls::{Enrolment, Event, History, Look};
use lives::life::Life;
use std::io;

// The calls while enrolling.
fn show_enrolments<L: Life>(
    rt: &HostRuntime,
    case: &mut Enrolling,
    enrolments: &[Enrolment<L>],
) -> io::Result<()> {
    for enrolment in enrolments {
        match enrolment {
            Enrolment::Enrol(seat, life) => {
                show_seat(rt, "enrol", *seat, case.enrol(*seat, life))?;
            }
            Enrolment::Withdraw(seat) => {
                show_seat(rt, "withdraw", *seat, case.withdraw(*seat))?;
            }
        }
    }
    Ok(())
}

// A weighing or a valuing of a benefit.
fn show_look(rt: &HostRuntime, case: &InForce, look: Look) -> io::Result<()> {
    match look {
        Look::Weigh(benefit, year, route) => {
            println!(rt; "  weigh for year {year}")?;
            let weight = case.weigh(benefit, year, route);
            show_number(rt, "weight", weight.map(|weight| weight.weight))
        }
        Look::Value(benefit, rate, route) => {
            println!(rt; "  value at {rate}")?;
            let view = case.as_supposed();
            let pricing = Pricing {
                view,
                benefit,
                rate,
                route,
            };
            let valuation = pricing.value();
            show_number(rt, "value", valuation.map(|valuation| valuation.value))
        }
    }
}

// A supposition, with its looks, until it ends.
fn show_supposition(
    rt: &HostRuntime,
    case: &mut InForce,
    seat: usize,
    looks: &[Look],
) -> io::Result<()> {
    show_seat(rt, "suppose failed", seat, case.test_suppose(seat))?;
    let guard = case.suppose(seat);
    for look in looks {
        show_look(rt, guard.case(), *look)?;
    }
    println!(rt; "  the supposition ends")
}

// One call in force.
fn show_event(rt: &HostRuntime, case: &mut InForce, event: &Event) -> io::Result<()> {
    match event {
        Event::Fail(seat) => show_seat(rt, "fail", *seat, case.fail(*seat)),
        Event::YearEnd => {
            print!(rt; "  end the year")?;
            show_answer(rt, case.year_end())
        }
        Event::Suppose(seat, looks) => show_supposition(rt, case, *seat, looks),
        Event::Look(look) => show_look(rt, case, *look),
    }
}

// All calls, and the supposition that stands at the end.
pub fn show_calls<L: Life>(rt: &HostRuntime, history: &History<L>) -> io::Result<()> {
    println!(rt; "the calls")?;
    let mut enrolling = Enrolling::open();
    show_enrolments(rt, &mut enrolling, history.enrolments)?;
    println!(rt; "  start: accepted")?;
    let mut case = enrolling.start();
    for event in history.events {
        show_event(rt, &mut case, event)?;
    }
    match history.supposed {
        None => Ok(()),
        Some(seat) => show_seat(
            rt,
            "suppose failed from here on",
            seat,
            case.test_suppose(seat),
        ),
    }
}

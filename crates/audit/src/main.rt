// Replays two families' histories and prints, in words, each call and its answer, the account by the three routes, the sum over the survivors of a year,
// and the value if a seat failed now.
#![tactic(auto)]

mod answers;
mod calls;
mod survivors;
mod whatif;

use answers::show_account;
use benefits::benefit::Benefit;
use calls::show_calls;
use either::Either;
use histories::calls::{Enrolment, Event, History, Look};
use lives::aged::Aged;
use lives::demoivre::DeMoivre;
use lives::life::Life;
use routes::route::Route;
use std::io;
use survivors::show_survivors;
use whatif::show_what_if;

// The rate of the factors: 5.00% a year.
const RATE: u32 = 500;

// The whole of a family: the calls, the account of year 1, and the sum over who survives this year.
fn show_family<L: Life>(
    rt: &HostRuntime,
    history: &History<L>,
    benefit: &Benefit,
) -> io::Result<()> {
    show_calls(rt, history)?;
    show_account(rt, &history.account(benefit, 1, RATE))?;
    show_survivors(rt, history, benefit)?;
    show_what_if(rt, history, benefit, RATE)
}

// A life that falls by a step in each of some years.
fn falling(years: u32, step: u32) -> DeMoivre {
    let mut life = DeMoivre::new();
    let _ = life.load(years, step);
    life
}

// A couple, one of them by a life that has aged a year, with nothing recorded.
fn show_couple(rt: &HostRuntime, benefit: &Benefit) -> io::Result<()> {
    println!(rt;
        "A couple: A falls by 25 in each of four years, B by 50 in each of three and has aged one"
    )?;
    let enrolments = [
        Enrolment::Enrol(0, Either::Left(falling(4, 25))),
        Enrolment::Enrol(1, Either::Right(Aged::new(falling(3, 50), 1))),
    ];
    let history = History {
        enrolments: &enrolments,
        events: &[],
        supposed: None,
    };
    show_family(rt, &history, benefit)
}

// A family with refused calls, a failure, a year's end, a supposition that has ended and one that stands.
fn show_larger(rt: &HostRuntime, benefit: Benefit) -> io::Result<()> {
    println!(rt; "A family of three, a year on: B has failed, and C is supposed failed")?;
    let enrolments = [
        Enrolment::Enrol(0, Either::Left(falling(4, 25))),
        Enrolment::Enrol(0, Either::Left(falling(9, 10))),
        Enrolment::Enrol(1, Either::Right(Aged::new(falling(3, 50), 1))),
        Enrolment::Enrol(2, Either::Left(falling(10, 10))),
        Enrolment::Enrol(3, Either::Left(falling(0, 10))),
        Enrolment::Withdraw(3),
    ];
    let looks = [
        Look::Weigh(&benefit, 1, Route::Counts),
        Look::Value(&benefit, RATE, Route::Patterns),
    ];
    let events = [
        Event::Fail(3),
        Event::Suppose(0, &looks),
        Event::Fail(1),
        Event::Fail(1),
        Event::YearEnd,
        Event::Look(Look::Weigh(&benefit, 121, Route::Subsets)),
    ];
    let history = History {
        enrolments: &enrolments,
        events: &events,
        supposed: Some(2),
    };
    show_family(rt, &history, &benefit)
}

fn main(rt: HostRuntime) -> io::Result<()> {
    if let Ok(benefit) = Benefit::parse(100_000, b"20 last[AB]") {
        show_couple(&rt, &benefit)?;
    }
    if let Ok(benefit) = Benefit::parse(100_000, b"20 last[ABC]") {
        show_larger(&rt, benefit)?;
    }
    Ok(())
}

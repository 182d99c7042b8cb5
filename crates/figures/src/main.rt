// Prints worked figures, each by all three routes.
#![tactic(auto)]

use annuities::pricing::Pricing;
use benefits::benefit::Benefit;
use cases::enrolling::Enrolling;
use cases::inforce::InForce;
use lives::demoivre::DeMoivre;
use refusals::Refusal;
use routes::route::Route;
use std::io;

// The rate of the factors: 5.00% a year.
const RATE: u32 = 500;

// What a route answers, or why there is nothing.
fn show(rt: &HostRuntime, route: Route, answer: Result<u64, Refusal>) -> io::Result<()> {
    match answer {
        Ok(number) => println!(rt; "    {route}: {number}"),
        Err(refusal) => {
            let code = refusal.code();
            println!(rt; "    {route}: refused with {code}, {refusal}")
        }
    }
}

const ROUTES: [Route; 3] = [Route::Patterns, Route::Subsets, Route::Counts];

// The weights for the first years, and the factor.
fn show_routes(rt: &HostRuntime, case: &InForce, benefit: &Benefit) -> io::Result<()> {
    for year in 0..5 {
        println!(rt; "  year {year}")?;
        for route in ROUTES {
            let weight = case.weigh(benefit, year, route);
            show(rt, route, weight.map(|weight| weight.weight))?;
        }
    }
    println!(rt; "  factor at {RATE}")?;
    for route in ROUTES {
        let pricing = Pricing {
            view: case.as_supposed(),
            benefit,
            rate: RATE,
            route,
        };
        show(rt, route, pricing.factor())?;
    }
    Ok(())
}

// The differences at none alive, and the symmetric sums for year 1.
fn show_counts(rt: &HostRuntime, case: &InForce, benefit: &Benefit) -> io::Result<()> {
    for order in 0..5 {
        match case.difference(benefit, order) {
            Ok(difference) => println!(rt; "  difference {order}: {difference}")?,
            Err(refusal) => println!(rt; "  difference {order}: {refusal}")?,
        }
    }
    for members in 0..5 {
        match case.symmetric_sum(benefit, 1, members) {
            Ok(sum) => println!(rt; "  sets of {members}, year 1: {sum}")?,
            Err(refusal) => println!(rt; "  sets of {members}, year 1: {refusal}")?,
        }
    }
    Ok(())
}

// All figures of one benefit.
fn show_benefit(rt: &HostRuntime, case: &InForce, text: &str) -> io::Result<()> {
    println!(rt; "{text}")?;
    match Benefit::parse(1, text.as_bytes()) {
        Ok(benefit) => {
            show_routes(rt, case, &benefit)?;
            show_counts(rt, case, &benefit)
        }
        Err(_) => println!(rt; "  not read"),
    }
}

// Enrols a life that falls by a step in each of some years.
fn enrol(case: &mut Enrolling, seat: usize, years: u32, step: u32) -> Result<(), Refusal> {
    let mut life = DeMoivre::new();
    life.load(years, step)?;
    case.enrol(seat, &life)
}

// Two couples: A and C fall by 25 in each of four years, B and D by 50 in each of two.
fn couples() -> Result<InForce, Refusal> {
    let mut case = Enrolling::open();
    enrol(&mut case, 0, 4, 25)?;
    enrol(&mut case, 1, 2, 50)?;
    enrol(&mut case, 2, 4, 25)?;
    enrol(&mut case, 3, 2, 50)?;
    Ok(case.start())
}

fn main(rt: HostRuntime) -> io::Result<()> {
    match couples() {
        Ok(case) => {
            show_benefit(&rt, &case, "20 last[AB]")?;
            show_benefit(&rt, &case, "20 A and not B")?;
            show_benefit(&rt, &case, "20 exactly 2[ABC]")?;
            show_benefit(&rt, &case, "20 atleast 2[ABCD]")
        }
        Err(refusal) => println!(rt; "{refusal}"),
    }
}

// The sum over who survives this year, worked by real calls.
use crate::answers::letter;
use benefits::benefit::Benefit;
use cases::inforce::InForce;
use histories::calls::History;
use lives::life::Life;
use patterns::sets::is_member;
use patterns::{PATTERNS, SEATS};
use routes::route::Route;
use std::io;
use weights::exposures::Exposures;

// The case of a history, the supposed seat failed for good.
pub fn replayed<L: Life>(history: &History<L>) -> InForce {
    let mut case = history.replay();
    if let Some(seat) = history.supposed {
        let _ = case.fail(seat);
    }
    case
}

// The deaths of the others this year, multiplied together; none where a member of the set cannot survive. A seat that is failed or empty has neither.
fn others_deaths(exposures: &Exposures, set: usize) -> Option<u64> {
    let mut deaths = 1u64;
    for (seat, exposure) in exposures.seats.iter().enumerate() {
        if is_member(set, seat) {
            if exposure.count == 0 {
                return None;
            }
        } else {
            deaths = deaths.saturating_mul(exposure.present - exposure.count);
        }
    }
    Some(deaths)
}

// The weight one year nearer, after the others' failures and the year's end.
fn later_weight(mut case: InForce, benefit: &Benefit, set: usize) -> u64 {
    for seat in 0..SEATS {
        if !is_member(set, seat) {
            let _ = case.fail(seat);
        }
    }
    let _ = case.year_end();
    case.weigh(benefit, 0, Route::Patterns)
        .map_or(0, |weight| weight.weight)
}

// The survivors' letters.
fn show_set(rt: &HostRuntime, set: usize) -> io::Result<()> {
    print!(rt; "  ")?;
    if set == 0 {
        print!(rt; "nobody")?;
    }
    for seat in 0..SEATS {
        if is_member(set, seat) {
            let letter = letter(seat);
            print!(rt; "{letter}")?;
        }
    }
    Ok(())
}

// What each set of survivors adds to the weight for year 1, and their sum.
pub fn show_survivors<L: Life>(
    rt: &HostRuntime,
    history: &History<L>,
    benefit: &Benefit,
) -> io::Result<()> {
    println!(rt; "the weight for year 1, by who survives this year")?;
    let exposures = replayed(history).as_supposed().exposures(benefit, 1);
    let mut sum = 0u64;
    for set in 0..PATTERNS {
        if let Some(deaths) = others_deaths(&exposures, set) {
            let weight = later_weight(replayed(history), benefit, set);
            let part = deaths.saturating_mul(weight);
            sum = sum.saturating_add(part);
            show_set(rt, set)?;
            println!(rt;
                ": the others' deaths {deaths}, times the weight one year nearer {weight}: {part}"
            )?;
        }
    }
    println!(rt; "  together {sum}")
}

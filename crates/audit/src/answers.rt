// Answers in words.
use histories::calls::{Account, Worked};
use refusals::Refusal;
use routes::route::Route;
use std::io;

// The letter of a seat.
pub fn letter(seat: usize) -> &'static str {
    match seat {
        0 => "A",
        1 => "B",
        2 => "C",
        3 => "D",
        _ => "another seat",
    }
}

// The answer of a call, on the line of the call.
pub fn show_answer(rt: &HostRuntime, answer: Result<(), Refusal>) -> io::Result<()> {
    match answer {
        Ok(()) => println!(rt; ": accepted"),
        Err(refusal) => {
            let code = refusal.code();
            println!(rt; ": refused with {code}, {refusal}")
        }
    }
}

// A call on a seat with its answer.
pub fn show_seat(
    rt: &HostRuntime,
    call: &str,
    seat: usize,
    answer: Result<(), Refusal>,
) -> io::Result<()> {
    let letter = letter(seat);
    print!(rt; "  {call} {letter}")?;
    show_answer(rt, answer)
}

// A number with what it is of, or why there is none.
pub fn show_number(rt: &HostRuntime, what: &str, answer: Result<u64, Refusal>) -> io::Result<()> {
    match answer {
        Ok(number) => println!(rt; "    {what} {number}"),
        Err(refusal) => {
            let code = refusal.code();
            println!(rt; "    {what} refused with {code}, {refusal}")
        }
    }
}

// What one route answers.
fn show_worked(rt: &HostRuntime, route: Route, worked: &Worked) -> io::Result<()> {
    println!(rt; "  {route}")?;
    show_number(rt, "weight", worked.weight)?;
    show_number(rt, "yearly factor", worked.factor)?;
    match worked.valuation {
        Ok(valuation) => {
            show_number(rt, "factor", Ok(valuation.factor))?;
            show_number(rt, "value", Ok(valuation.value))
        }
        Err(refusal) => show_number(rt, "value", Err(refusal)),
    }
}

// What the three routes answer.
pub fn show_account(rt: &HostRuntime, account: &Account) -> io::Result<()> {
    println!(rt; "the account, for year 1")?;
    show_worked(rt, Route::Patterns, &account.patterns)?;
    show_worked(rt, Route::Subsets, &account.subsets)?;
    show_worked(rt, Route::Counts, &account.counts)
}

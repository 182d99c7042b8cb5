// What the benefit is worth if one seat more failed now.
use crate::answers::letter;
use crate::survivors::replayed;
use benefits::benefit::Benefit;
use histories::calls::History;
use histories::supposed::value_supposing;
use lives::life::Life;
use patterns::SEATS;
use routes::route::Route;
use std::io;

// A supposition for each seat, one after another on the same case.
pub fn show_what_if<L: Life>(
    rt: &HostRuntime,
    history: &History<L>,
    benefit: &Benefit,
    rate: u32,
) -> io::Result<()> {
    println!(rt; "the value if a seat failed now")?;
    let mut case = replayed(history);
    for seat in 0..SEATS {
        let letter = letter(seat);
        let answer = case.test_suppose(seat).and_then(|()| value_supposing(
            &mut case,
            seat,
            benefit,
            rate,
            Route::Patterns,
        ));
        match answer {
            Ok(valuation) => {
                let value = valuation.value;
                println!(rt; "  {letter}: {value}")?;
            }
            Err(refusal) => println!(rt; "  {letter}: {refusal}")?,
        }
    }
    Ok(())
}

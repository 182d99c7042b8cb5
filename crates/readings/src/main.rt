// Reads each line of standard input as an expression, and prints what it says or where it is at fault.
#![tactic(auto)]

use expressions::{MOST_TOKENS, Pending, ReadFault, Reading, read};
use std::io;
use std::io::Read;
use tokens::faults::TokenFault;

// The bytes of the input that are read, at most.
const INPUT: usize = 65_536;

// Prints what one expression says.
fn show(rt: &HostRuntime, text: &[u8]) -> io::Result<()> {
    let mut pending = [Pending::default(); MOST_TOKENS];
    match read(text, &mut pending, &mut [0; MOST_TOKENS]) {
        Ok(Reading { answers, named }) => println!(rt; "ok {answers} {named}"),
        Err(ReadFault::Short) => println!(rt; "short"),
        Err(ReadFault::Token(TokenFault { refusal, place })) => {
            let code = refusal.code();
            println!(rt; "fault {code} {place}")
        }
    }
}

fn main(rt: HostRuntime) -> io::Result<()> {
    // All of it comes before the first answer, so that a caller may write it whole before it reads one.
    let mut input = [0; INPUT];
    let len = io::copy(&mut rt.stdin().take(INPUT as u64), &mut &mut input[..])? as usize;
    for line in input[..len.min(INPUT)].split_inclusive(|b| *b == b'\n') {
        show(&rt, line.strip_suffix(b"\n").unwrap_or(line))?;
    }
    Ok(())
}

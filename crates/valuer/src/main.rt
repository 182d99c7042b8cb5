// Reads a scheme file from standard input, writes what it prints, and says a refusal in words.
#![tactic(auto)]

use anyhow::anyhow;
use runs::outcome::Stop;
use runs::{LONGEST, run};
use schemes::fault::{Fault, LineFault};
use std::io;
use std::io::{Read, Write};

// One byte more than a file may have, so that a longer one is seen to be longer.
const INPUT: usize = LONGEST + 1;

const OUTPUT: usize = 65_536;

// Says in words why a line, or the whole file, is refused.
fn explain(rt: &HostRuntime, at: LineFault) -> io::Result<()> {
    let line = at.line;
    let place = at.fault.place();
    let refusal = at.fault.refusal();
    if line == 0 {
        return eprintln!(rt; "{refusal}");
    }
    match at.fault {
        Fault::At(_, _) => eprintln!(rt; "line {line}, place {place}: {refusal}"),
        Fault::Clause(_, fault) => {
            let clause = fault.clause;
            eprintln!(rt; "line {line}, clause {clause}, place {place}: {refusal}")
        }
    }
}

// Runs the file. A refusal that is printed is no error; output that is not complete is.
fn value(rt: &HostRuntime) -> anyhow::Result<()> {
    // Filled before anything is written, and without memory from outside.
    let mut file = [0; INPUT];
    let mut out = [0; OUTPUT];
    let len = io::copy(&mut rt.stdin().take(INPUT as u64), &mut &mut file[..])? as usize;
    let outcome = run(&file[..len.min(INPUT)], &mut out);
    rt.stdout().write_all(&out[..outcome.len])?;
    match outcome.ending {
        Ok(()) => Ok(()),
        Err(Stop::Refused(at)) => {
            let _ = explain(rt, at);
            Ok(())
        }
        Err(Stop::Full) => Err(anyhow!("there is too little memory for what is printed next")),
    }
}

fn main(rt: HostRuntime) -> anyhow::Result<()> {
    value(&rt)
}

// Runs scheme files, and compares what each prints with what it should.
#![tactic(auto)]

use runs::run;
use std::{env, fs};

// How many bytes there are for what a file prints.
const ROOM: usize = 65_536;

// Whether the file NAME.scheme prints what NAME.out has.
fn is_as_expected(rt: &HostRuntime, name: &str) -> anyhow::Result<bool> {
    let scheme = fs::read(rt, format!(in rt.alloc(); "{name}.scheme")?.as_str())?;
    let expected = fs::read(rt, format!(in rt.alloc(); "{name}.out")?.as_str())?;
    let mut out = vec![in rt.alloc(); 0u8; ROOM]?;
    let written = run(scheme.as_slice(), out.as_mut_slice()).len;
    Ok(&out.as_slice()[..written] == expected.as_slice())
}

fn main(rt: HostRuntime) -> anyhow::Result<()> {
    let mut passed = 0usize;
    let mut failed = 0usize;
    for name in env::args(&rt)?.skip(1) {
        if is_as_expected(&rt, name.as_str())? {
            passed = passed.saturating_add(1);
        } else {
            failed = failed.saturating_add(1);
            println!(rt; "{name} prints something else")?;
        }
    }
    println!(rt; "{passed} schemes as expected, {failed} not")?;
    Ok(())
}

// The run over a whole scheme file: what it prints, and how it ends.
#![tactic(auto)]

ghost use Rattle.std.specs.Prelude.{◌≡◌, ◌≤◌, length, take, drop};
ghost use Rattle.runs.specs.Run.{FileRuns, ran, code};

use outcome::{Outcome, Stop};
use writing::output::Output;

pub mod outcome;
mod printing;
mod told;

// How many bytes a file may have.
pub const LONGEST: usize = 32_256;

// Runs a file, and writes what it prints.
pub fn run(file: &[u8], out: &mut [u8]) -> Outcome
    ensures within { result.len ≤ length out.old }
    ensures runs { FileRuns file.now (length out.old) (ran (take result.len out.new) result.ending) }
    ensures rest { drop result.len out.new ≡ drop result.len out.old }
    ensures code { result.code ≡ code result.ending }
{
    let mut output = Output { area: out, len: 0 };
    let ending = told::tell(file, &mut output);
    Outcome {
        len: output.len,
        code: ending.err().map_or(0, Stop::code),
        ending,
    }
}

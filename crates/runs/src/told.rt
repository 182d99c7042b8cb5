// The lines of a file, one after another.
ghost use Rattle.std.specs.Prelude.{ℕ, List};
ghost use Rattle.writing.specs.Outputs.{room, Adds};
ghost use Rattle.lines.specs.Pieces.{pieces};
ghost use Rattle.sessions.specs.State.{beginning};
ghost use Rattle.runs.specs.Run.{Runs, FileRuns, ran, so_far};

use crate::LONGEST;
use crate::outcome::Stop;
use crate::printing::{blame, speak};
use refusals::Refusal;
use schemes::fault::LineFault;
use sessions::session::Session;
use tokens::faults::with_number;
use writing::output::Output;

// Runs the lines of a file from its first, and answers how they end. A refusal that ends them is not printed yet.
fn run_lines(file: &[u8], output: &mut Output) -> Result<(), Stop>
    ensures { (w : List ℕ) × Adds output.old output.new w × Runs beginning 1 (room output.old) (pieces 10 file.now) (so_far w (room output.new) result) }
{
    let mut session = Session::new();
    for (before, text) in file.split_inclusive(|b| *b == b'\n').enumerate() {
        let line = before + 1;
        let [text @ .., b'\n'] = text else {
            let fault = Refusal::Line.into();
            return Err(Stop::Refused(LineFault { line, fault }));
        };
        let said = with_number(session.step(text), line)?;
        speak(output, line, said)?;
    }
    Ok(())
}

// Runs a file, unless it is too long.
fn run_file(file: &[u8], output: &mut Output) -> Result<(), Stop>
    ensures { (w : List ℕ) × Adds output.old output.new w × FileRuns file.now (room output.old) (so_far w (room output.new) result) }
{
    if file.len() > LONGEST {
        let fault = Refusal::FileTooLong.into();
        return Err(Stop::Refused(LineFault { line: 0, fault }));
    }
    run_lines(file, output)
}

// Runs a file, and prints the refusal that ends it, if one does.
pub(crate) fn tell(file: &[u8], output: &mut Output) -> Result<(), Stop>
    ensures { (w : List ℕ) × Adds output.old output.new w × FileRuns file.now (room output.old) (ran w result) }
{
    match run_file(file, output) {
        Err(Stop::Refused(at)) => {
            blame(output, at)?;
            Err(Stop::Refused(at))
        }
        ending => ending,
    }
}

// What a run answers.
ghost use Rattle.std.specs.Prelude.{◌≡◌, Err};
ghost use Rattle.schemes.specs.Faults.{in_line};
ghost use Rattle.runs.specs.declared.outcome.Stop.TheVariants as stop;
ghost use Rattle.runs.specs.Run.{code};

use refusals::Refusal;
use schemes::fault::{Fault, LineFault};
use tokens::faults::Numbered;
use writing::output;

// What ends a run before its last line: a line that is refused, or no room for what is printed next.
#[derive(Clone, Copy)]
pub enum Stop {
    Refused(LineFault),
    Full,
}

// How many bytes a run has written, the code of its end, and its end.
#[derive(Clone, Copy)]
pub struct Outcome {
    pub len: usize,
    pub code: u8,
    pub ending: Result<(), Stop>,
}

impl From<Numbered<Fault>> for Stop {
    ghost from_gives = { λ n s. s ≡ stop.Refused (in_line n.number n.fault) };

    fn from(at: Numbered<Fault>) -> Stop {
        Stop::Refused(at.into())
    }
}

impl From<output::Full> for Stop {
    ghost from_gives = { λ _ s. s ≡ stop.Full };

    fn from(_: output::Full) -> Stop {
        Stop::Full
    }
}

impl Stop {
    // The code of the refusal that ends the run.
    pub(crate) fn code(self) -> u8
        ensures { result ≡ code (Err self) }
    {
        match self {
            Stop::Refused(at) => at.fault.refusal().code(),
            Stop::Full => Refusal::Memory.code(),
        }
    }
}

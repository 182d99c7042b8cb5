// Why a line is refused.
ghost use Rattle.std.specs.Prelude.{◌≡◌};
ghost use Rattle.schemes.specs.Faults.{place, refusal, in_line, of_refusal, of_benefit};

use benefits::faults::{BenefitFault, ClauseFault};
use refusals::Refusal;
use tokens::faults::Numbered;

// At a place of the line, or within a clause of its benefit, whose clauses begin at a place of the line.
#[derive(Clone, Copy)]
pub enum Fault {
    At(usize, Refusal),
    Clause(usize, ClauseFault),
}

// A fault with the number of its line.
#[derive(Clone, Copy)]
pub struct LineFault {
    pub line: usize,
    pub fault: Fault,
}

impl Fault {
    // The place of the line that is to blame.
    pub fn place(self) -> usize
        ensures { result ≡ place self }
    {
        match self {
            Fault::At(place, _) => place,
            Fault::Clause(at, clause) => {
                let start = at.saturating_add(clause.start);
                start.saturating_add(clause.fault.place)
            }
        }
    }

    pub fn refusal(self) -> Refusal
        ensures { result ≡ refusal self }
    {
        match self {
            Fault::At(_, refusal) => refusal,
            Fault::Clause(_, clause) => clause.fault.refusal,
        }
    }
}

// A refused call refuses its line, at the line's begin.
impl From<Refusal> for Fault {
    ghost from_gives = { λ e f. f ≡ of_refusal e };

    fn from(refusal: Refusal) -> Fault {
        Fault::At(0, refusal)
    }
}

// A refused benefit refuses its line: a clause's fault goes in whole, with the place where the clauses begin.
impl From<Numbered<BenefitFault>> for Fault {
    ghost from_gives = { λ n f. f ≡ of_benefit n.number n.fault };

    fn from(n: Numbered<BenefitFault>) -> Fault {
        match n.fault {
            BenefitFault::Refused(refusal) => Fault::At(0, refusal),
            BenefitFault::Clause(clause) => Fault::Clause(n.number, clause),
        }
    }
}

impl From<Numbered<Fault>> for LineFault {
    ghost from_gives = { λ n f. f ≡ in_line n.number n.fault };

    fn from(n: Numbered<Fault>) -> LineFault {
        LineFault {
            line: n.number,
            fault: n.fault,
        }
    }
}

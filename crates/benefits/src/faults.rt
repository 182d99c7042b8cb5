// The fault of a token, carried whole into the fault of its clause and of its benefit.
ghost use Rattle.std.specs.Prelude.{◌≡◌};
ghost use Rattle.benefits.specs.Carried.{carried, in_part, in_clause, in_whole, in_benefit};

use expressions::ReadFault;
use refusals::Refusal;
use tokens::faults::{Numbered, TokenFault};

// A fault, and where the faulty text begins in the clauses' text.
#[derive(Clone, Copy)]
pub struct PartFault {
    pub start: usize,
    pub fault: TokenFault,
}

// The fault of a clause, whose number counts from 1.
#[derive(Clone, Copy)]
pub struct ClauseFault {
    pub clause: usize,
    pub start: usize,
    pub fault: TokenFault,
}

// Why a benefit cannot be read.
#[derive(Clone, Copy)]
pub enum BenefitFault {
    Refused(Refusal),
    Clause(ClauseFault),
}

// The number is the place at which the text begins.
impl From<Numbered<TokenFault>> for PartFault {
    ghost from_gives = { λ n p. p ≡ in_part n.number n.fault };

    fn from(n: Numbered<TokenFault>) -> PartFault {
        PartFault {
            start: n.number,
            fault: n.fault,
        }
    }
}

// The token's fault for which an expression cannot be read.
fn token_fault(e: ReadFault) -> TokenFault
    ensures { result ≡ carried e }
{
    match e {
        ReadFault::Token(fault) => fault,
        ReadFault::Short => TokenFault {
            refusal: Refusal::Memory,
            place: 0,
        },
    }
}

// The same for a caller that reads an expression with lists of any length.
impl From<Numbered<ReadFault>> for PartFault {
    ghost from_gives = { λ n p. p ≡ in_part n.number (carried n.fault) };

    fn from(n: Numbered<ReadFault>) -> PartFault {
        PartFault {
            start: n.number,
            fault: token_fault(n.fault),
        }
    }
}

impl From<Numbered<PartFault>> for ClauseFault {
    ghost from_gives = { λ n c. c ≡ in_clause n.number n.fault };

    fn from(n: Numbered<PartFault>) -> ClauseFault {
        ClauseFault {
            clause: n.number,
            start: n.fault.start,
            fault: n.fault.fault,
        }
    }
}

impl From<Refusal> for BenefitFault {
    ghost from_gives = { λ e f. f ≡ in_whole e };

    fn from(e: Refusal) -> BenefitFault {
        BenefitFault::Refused(e)
    }
}

impl From<ClauseFault> for BenefitFault {
    ghost from_gives = { λ e f. f ≡ in_benefit e };

    fn from(e: ClauseFault) -> BenefitFault {
        BenefitFault::Clause(e)
    }
}

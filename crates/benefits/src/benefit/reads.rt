// A benefit from its amount and the text of its clauses.
ghost use Rattle.std.specs.Prelude.{length};
ghost use Rattle.benefits.specs.Reads.{BenefitRead};

use super::Benefit;
use crate::MOST_AMOUNT;
use crate::faults::BenefitFault;
use crate::sums::{count_clauses, read_clauses};
use expressions::lists::Lists;
use expressions::{MOST_TOKENS, Pending};
use patterns::Shares;
use refusals::Refusal;

// The most clauses of a benefit.
const MOST_CLAUSES: usize = 8;

impl Benefit {
    // Reads a benefit, with two lists of at least 64 places to work in.
    #[tactic(auto, using(crate::proofs::Owning::few_named, crate::proofs::Owning::added_own))]
    pub fn read(
        amount: u32,
        clauses: &[u8],
        pending: &mut [Pending],
        answers: &mut [u16],
    ) -> Result<Benefit, BenefitFault>
        ensures { BenefitRead result amount clauses.now (length pending.old) (length answers.old) }
    {
        let mut lists = Lists::new(pending, answers).ok_or(Refusal::Memory)?;
        if amount == 0 || amount > MOST_AMOUNT {
            return Err(Refusal::Number.into());
        }
        if count_clauses(clauses) > MOST_CLAUSES {
            return Err(Refusal::TooManyClauses.into());
        }
        let sums = read_clauses(clauses, &mut lists)?;
        if !sums.is_within_full() {
            return Err(Refusal::AboveFull.into());
        }
        Ok(Benefit {
            amount,
            named: sums.named,
            shares: Shares {
                twentieths: sums.twentieths,
            },
        })
    }

    // Reads a benefit, with lists of its own.
    pub fn parse(amount: u32, clauses: &[u8]) -> Result<Benefit, BenefitFault>
        ensures { BenefitRead result amount clauses.now 64 64 }
    {
        let mut pending = [Pending::default(); MOST_TOKENS];
        let mut answers = [0; MOST_TOKENS];
        Benefit::read(amount, clauses, &mut pending, &mut answers)
    }
}

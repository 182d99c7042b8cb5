// The clauses of a text, read one after another, and their shares added up in each pattern.
ghost use Rattle.std.specs.Prelude.{◌≡◌, ℕ, ◌+◌, ◌<◌, ◌≤◌, true, false, length, slice_index, bit_or};
ghost use Rattle.patterns.specs.Seats.{patterns};
ghost use Rattle.expressions.specs.Verdict.{pending_room, answers_room};
ghost use Rattle.benefits.specs.Clauses.{clauses_of, paid};
ghost use Rattle.benefits.specs.Reads.{ClausesRead};

use crate::FULL;
use crate::clauses::Clause;
use crate::faults::ClauseFault;
use expressions::lists::Lists;
use patterns::PATTERNS;
use tokens::faults::with_number;

// The byte between two clauses.
const STOP: u8 = b';';

// The named seats of clauses, and the share of each pattern.
#[derive(Clone, Copy)]
pub(crate) struct Sums {
    pub named: usize,
    pub twentieths: [u64; PATTERNS],
}

impl Sums {
    // Adds the seats that a clause names, and what it pays in each pattern.
    fn add(&mut self, clause: Clause)
        requires { (p : ℕ) → slice_index self.old.twentieths p ≤ 160 }
        ensures named { self.new.named ≡ bit_or self.old.named clause.reading.named }
        ensures long { length self.new.twentieths ≡ patterns }
        ensures pays { (p : ℕ) → p < patterns → slice_index self.new.twentieths p ≡ slice_index self.old.twentieths p + paid clause p }
    {
        self.named |= usize::from(clause.reading.named);
        for (p, share) in self.twentieths.iter_mut().enumerate() {
            *share += clause.pays(p);
        }
    }

    // Whether no pattern has more than the full share.
    pub(crate) fn is_within_full(&self) -> bool
        ensures yes { result ≡ true → (p : ℕ) → slice_index self.now.twentieths p ≤ 20 }
        ensures no { result ≡ false → (p : ℕ) × (p < patterns) × (20 < slice_index self.now.twentieths p) }
    {
        self.twentieths
            .iter()
            .all(|share| *share <= u64::from(FULL))
    }
}

// How many clauses there are.
pub(crate) fn count_clauses(text: &[u8]) -> usize
    ensures { result ≡ length (clauses_of text.now) }
{
    text.split(|b| *b == STOP).count()
}

// Reads the clauses of a text, one after another.
pub(crate) fn read_clauses(text: &[u8], lists: &mut Lists<'_>) -> Result<Sums, ClauseFault>
    requires few { length (clauses_of text.now) ≤ 8 }
    ensures { ClausesRead result (clauses_of text.now) (pending_room lists.old) (answers_room lists.old) }
{
    let mut sums = Sums {
        named: 0,
        twentieths: [0; PATTERNS],
    };
    let mut at = 0;
    for (i, clause) in text.split(|b| *b == STOP).enumerate() {
        sums.add(with_number(Clause::read(clause, at, lists), i + 1)?);
        at += clause.len() + 1;
    }
    Ok(sums)
}

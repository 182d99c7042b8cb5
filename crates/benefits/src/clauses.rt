// One clause: its share and what its expression says.
ghost use Rattle.std.specs.Prelude.{◌≡◌, ◌+◌, ◌^◌, ◌<◌, ◌≤◌, length};
ghost use Rattle.expressions.specs.Verdict.{SameRoom, pending_room, answers_room};
ghost use Rattle.benefits.specs.Clauses.{share_in, share_of, no_share, paid, ClauseVerdict};

use crate::FULL;
use crate::faults::PartFault;
use expressions::Reading;
use expressions::lists::Lists;
use refusals::Refusal;
use tokens::classes::{Class, run_end};
use tokens::faults::{TokenFault, with_number};
use writing::number::number;

// The share, in twentieths, where the expression holds.
#[derive(Clone, Copy)]
pub(crate) struct Clause {
    pub share: u32,
    pub reading: Reading,
}

// A share as it is written: 1 to 20.
fn share(field: &[u8]) -> Option<u32>
    ensures { result ≡ share_in field.now }
{
    number(field, FULL).filter(|n| *n > 0)
}

// The fault of a share that is missing, ill-written or beyond its limit.
fn no_share(start: usize) -> PartFault
    ensures { result ≡ record { start = start; fault = no_share } }
{
    let fault = TokenFault {
        refusal: Refusal::Number,
        place: 0,
    };
    PartFault { start, fault }
}

impl Clause {
    // Reads a clause that begins at the place `at` of the clauses' text.
    pub(crate) fn read(text: &[u8], at: usize, lists: &mut Lists<'_>) -> Result<Clause, PartFault>
        requires { at + length text.now < 2 ^ 64 }
        ensures room { SameRoom lists.old lists.new }
        ensures verdict { ClauseVerdict (share_of text.now) result at text.now (pending_room lists.old) (answers_room lists.old) }
    {
        let from = run_end(text, 0, Class::Space);
        let end = run_end(text, from, Class::Digit);
        let share = share(&text[from..end]).ok_or(no_share(at + from))?;
        let reading = with_number(lists.read(&text[end..]), at + end)?;
        Ok(Clause { share, reading })
    }

    // What the clause pays in a pattern.
    pub(crate) fn pays(self, pattern: usize) -> u64
        ensures paid { result ≡ paid self pattern }
        ensures most { result ≤ self.share }
    {
        if self.reading.holds(pattern) {
            u64::from(self.share)
        } else {
            0
        }
    }
}

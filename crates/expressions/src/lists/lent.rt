// Lists that a caller lends, and the reading of an expression in them.
ghost use Rattle.std.specs.Prelude.{◌≡◌, ◌≤◌, ◌&&◌, false, length, nat_le, MatchOption};
ghost use Rattle.expressions.specs.Verdict.{Verdict, Said, SameRoom, pending_room, answers_room};

use super::Lists;
use crate::cut::cut;
use crate::{Expect, MOST_TOKENS, Pending, Reader, Reading};
use stacks::Stack;
use tokens::Token;
use tokens::faults::TokenFault;

impl<'a> Lists<'a> {
    // The lists that a caller lends, or none where one of them is too short.
    pub fn new(pending: &'a mut [Pending], answers: &'a mut [u16]) -> Option<Lists<'a>>
        ensures { MatchOption result (nat_le 64 (length pending.old) && nat_le 64 (length answers.old) ≡ false) (λ l. (pending_room l ≡ length pending.old) × (answers_room l ≡ length answers.old)) }
    {
        if pending.len() < MOST_TOKENS || answers.len() < MOST_TOKENS {
            return None;
        }
        Some(Lists { pending, answers })
    }

    // Reads an expression.
    pub fn read(&mut self, text: &[u8]) -> Result<Reading, TokenFault>
        ensures room { SameRoom self.old self.new }
        ensures said { Said result text.now }
    {
        let mut tokens = [Token::default(); MOST_TOKENS];
        let count = cut(text, &mut tokens)?;
        self.read_tokens(&tokens[..count], text.len())
    }

    // Reads the tokens of a text that ends at the place `end`.
    fn read_tokens(&mut self, tokens: &[Token], end: usize) -> Result<Reading, TokenFault>
        requires few { length tokens.now ≤ 64 }
        ensures room { SameRoom self.old self.new }
        ensures verdict { Verdict result tokens.now end }
    {
        let mut reader = Reader {
            pending: Stack::new(self.pending),
            answers: Stack::new(self.answers),
            expect: Expect::Operand,
            named: 0,
        };
        for token in tokens {
            reader.step(*token)?;
        }
        reader.finish(end)
    }
}

// What each token does, by what is expected.
ghost use Rattle.std.specs.Prelude.{◌≡◌, ◌<◌, length, bit_or};
ghost use Rattle.stacks.specs.Items.{room, rest};
ghost use Rattle.expressions.specs.Grammar.{Tree, factor, term};
ghost use Rattle.expressions.specs.Layout.{words_in, masks_in, Kept, Fits, complete_words, complete_masks, top};
ghost use Rattle.expressions.specs.Moves.{Took, Same};
ghost use Rattle.tokens.specs.Letters.{seats_of};
ghost use Rattle.expressions.specs.Open.{Open as OpenPart};
ghost use Rattle.expressions.specs.States.{operand as operand_state, operator as operator_state, State};

use crate::wrong::wrong_at;
use crate::{Count, Expect, Group, Reader, Word};
use tokens::faults::TokenFault;
use tokens::{Code, Token};

impl Reader<'_> {
    // A token where an operand is expected.
    fn operand(&mut self, token: Token) -> Result<(), TokenFault>
        requires words { length (words_in self.old) < room self.old.pending }
        requires masks { length (masks_in self.old) < room self.old.answers }
        ensures kept { Kept self.old self.new }
        ensures took { (k : OpenPart factor) → Fits (operand_state k) self.old → Took result (operand_state k) token self.new }
    {
        match token.code {
            Code::Not => self.wait(Word::Not, token.place),
            Code::Open => self.wait(Word::Open, token.place),
            Code::Letters(set) if set.count_ones() == 1 => self.complete(Group::Last.mask(set)),
            Code::Joint => self.expect = Expect::Square(Group::Joint),
            Code::Last => self.expect = Expect::Square(Group::Last),
            Code::Exactly => self.expect = Expect::Digit(Count::Exact),
            Code::AtLeast => self.expect = Expect::Digit(Count::Least),
            _ => return Err(wrong_at(token.place)),
        }
        Ok(())
    }

    // The expression so far is in parentheses.
    fn close(&mut self)
        ensures kept { Kept self.old self.new }
        ensures words { words_in self.new ≡ complete_words (rest (words_in self.old)) }
        ensures masks { masks_in self.new ≡ complete_masks (rest (words_in self.old)) (rest (masks_in self.old)) (top (masks_in self.old)) }
        ensures expect { self.new.expect ≡ Expect.Operator }
    {
        let _ = self.pending.pop();
        let mask = self.answers.pop().unwrap_or(0);
        self.complete(mask);
    }

    // A token where an operator is expected.
    fn operator(&mut self, token: Token) -> Result<(), TokenFault>
        requires words { length (words_in self.old) < room self.old.pending }
        requires masks { length (masks_in self.old) < room self.old.answers }
        ensures kept { Kept self.old self.new }
        ensures took { (k : OpenPart term) (a : Tree) → Fits (operator_state k a) self.old → Took result (operator_state k a) token self.new }
    {
        match token.code {
            Code::And => self.wait(Word::And, token.place),
            Code::Or => {
                self.join();
                self.wait(Word::Or, token.place);
            }
            Code::Close => {
                self.join();
                if !self.is_top(Word::Open) {
                    return Err(wrong_at(token.place));
                }
                self.close();
            }
            _ => return Err(wrong_at(token.place)),
        }
        Ok(())
    }

    // Notes the seats that a token names.
    fn name(&mut self, code: Code)
        ensures same { Same self.old self.new }
        ensures named { self.new.named ≡ bit_or self.old.named (seats_of code) }
    {
        if let Code::Letters(set) = code {
            self.named |= set;
        }
    }

    // The next token.
    pub(crate) fn step(&mut self, token: Token) -> Result<(), TokenFault>
        requires words { length (words_in self.old) < room self.old.pending }
        requires masks { length (masks_in self.old) < room self.old.answers }
        ensures pending { room self.new.pending ≡ room self.old.pending }
        ensures answers { room self.new.answers ≡ room self.old.answers }
        ensures named { self.new.named ≡ bit_or self.old.named (seats_of token.code) }
        ensures took { (s : State) → Fits s self.old → Took result s token self.new }
    {
        self.name(token.code);
        match (self.expect, token.code) {
            (Expect::Operand, _) => return self.operand(token),
            (Expect::Operator, _) => return self.operator(token),
            (Expect::Digit(count), Code::Digit(n)) => self.expect = Expect::Square(count.group(n)),
            (Expect::Square(group), Code::OpenSquare) => self.expect = Expect::Letters(group),
            (Expect::Letters(group), Code::Letters(set)) => {
                self.expect = Expect::Closing(group, set);
            }
            (Expect::Closing(group, set), Code::CloseSquare) => self.complete(group.mask(set)),
            _ => return Err(wrong_at(token.place)),
        }
        Ok(())
    }
}

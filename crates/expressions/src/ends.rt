// The end of the text.
ghost use Rattle.std.specs.Prelude.{◌≡◌};
ghost use Rattle.expressions.specs.Layout.{words_in, Fits, is_nil};
ghost use Rattle.expressions.specs.Moves.{Finished};
ghost use Rattle.expressions.specs.States.{State};

use crate::wrong::wrong_at;
use crate::{Expect, Reader, Reading};
use tokens::faults::TokenFault;

impl Reader<'_> {
    // Whether no word waits.
    fn is_spent(&self) -> bool
        ensures { result ≡ is_nil (words_in self.now) }
    {
        self.pending.top().is_none()
    }

    // The end of the text, at the place `end`.
    pub(crate) fn finish(&mut self, end: usize) -> Result<Reading, TokenFault>
        ensures { (s : State) → Fits s self.old → Finished result s end self.old.named }
    {
        let Expect::Operator = self.expect else {
            return Err(wrong_at(end));
        };
        self.join();
        if self.is_spent() {
            let answers = self.answers.top().unwrap_or(0);
            let named = self.named;
            Ok(Reading { answers, named })
        } else {
            Err(wrong_at(end))
        }
    }
}

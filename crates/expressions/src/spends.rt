// How waiting words are spent on what is complete.
ghost use Rattle.std.specs.Prelude.{◌≡◌, ◌<◌, ◌∷◌, length};
ghost use Rattle.stacks.specs.Items.{items, room};
ghost use Rattle.expressions.specs.Layout.{words_in, masks_in, Kept, is_top, complete_words, complete_masks, join_words, join_masks};

use crate::{Expect, Pending, Reader, Word};

impl Reader<'_> {
    // Whether this word waits on top.
    pub(crate) fn is_top(&self, word: Word) -> bool
        ensures { result ≡ is_top word (words_in self.now) }
    {
        self.pending.top().is_some_and(|p| p.word == word)
    }

    // A word waits for its operand.
    pub(crate) fn wait(&mut self, word: Word, place: usize)
        requires { length (words_in self.old) < room self.old.pending }
        ensures kept { Kept self.old self.new }
        ensures pending { items self.new.pending ≡ record { word = word; place = place } ∷ items self.old.pending }
        ensures words { words_in self.new ≡ word ∷ words_in self.old }
        ensures masks { masks_in self.new ≡ masks_in self.old }
        ensures expect { self.new.expect ≡ Expect.Operand }
    {
        self.pending.push(Pending { word, place }).unwrap();
        self.expect = Expect::Operand;
    }

    // The term so far has these answers.
    fn settle(&mut self, mask: u16)
        requires { length (masks_in self.old) < room self.old.answers }
        ensures kept { Kept self.old self.new }
        ensures words { words_in self.new ≡ words_in self.old }
        ensures masks { masks_in self.new ≡ mask ∷ masks_in self.old }
        ensures expect { self.new.expect ≡ Expect.Operator }
    {
        self.answers.push(mask).unwrap();
        self.expect = Expect::Operator;
    }

    // A factor is complete: spends the words that wait for it.
    pub(crate) fn complete(&mut self, mask: u16)
        requires { length (masks_in self.old) < room self.old.answers }
        ensures kept { Kept self.old self.new }
        ensures words { words_in self.new ≡ complete_words (words_in self.old) }
        ensures masks { masks_in self.new ≡ complete_masks (words_in self.old) (masks_in self.old) mask }
        ensures expect { self.new.expect ≡ Expect.Operator }
    {
        let mut m = mask;
        while self.is_top(Word::Not) {
            let _ = self.pending.pop();
            m = !m;
        }
        if self.is_top(Word::And) {
            let _ = self.pending.pop();
            let left = self.answers.pop().unwrap_or(0);
            self.settle(left & m);
        } else {
            self.settle(m);
        }
    }

    // A term is complete: joins it to the terms before it.
    pub(crate) fn join(&mut self)
        ensures kept { Kept self.old self.new }
        ensures words { words_in self.new ≡ join_words (words_in self.old) }
        ensures masks { masks_in self.new ≡ join_masks (words_in self.old) (masks_in self.old) }
        ensures expect { self.new.expect ≡ self.old.expect }
    {
        if self.is_top(Word::Or) {
            let _ = self.pending.pop();
            let b = self.answers.pop().unwrap_or(0);
            let a = self.answers.pop().unwrap_or(0);
            self.answers.push(a | b).unwrap();
        }
    }
}

// What a stack does: push, pop, and a look at the top.
ghost use Rattle.std.specs.Prelude.{◌≡◌, [], ◌∷◌, length, MatchResult};
ghost use Rattle.stacks.specs.Items.{items, room, rest, head};

use crate::{Full, Stack};

impl<'a, T: Copy> Stack<'a, T> {
    // An empty stack in the lent memory.
    pub fn new(slots: &'a mut [T]) -> Stack<'a, T>
        ensures empty { items result ≡ [] }
        ensures room { room result ≡ length slots.old }
    {
        Stack { slots, len: 0 }
    }

    // Puts an item on top, where there is room.
    pub fn push(&mut self, x: T) -> Result<(), Full>
        ensures room { room self.new ≡ room self.old }
        ensures cases { MatchResult result (λ _. items self.new ≡ x ∷ items self.old) (λ _. (items self.new ≡ items self.old) × (length (items self.old) ≡ room self.old)) }
    {
        if self.len == self.slots.len() {
            return Err(Full);
        }
        self.slots[self.len] = x;
        self.len += 1;
        Ok(())
    }

    // Takes the top off.
    pub fn pop(&mut self) -> Option<T>
        ensures room { room self.new ≡ room self.old }
        ensures value { result ≡ head (items self.old) }
        ensures after { items self.new ≡ rest (items self.old) }
    {
        let below = self.len.checked_sub(1)?;
        self.len = below;
        Some(self.slots[below])
    }

    // The item on top.
    pub fn top(&self) -> Option<T>
        ensures { result ≡ head (items self.now) }
    {
        self.slots[..self.len].last().copied()
    }
}

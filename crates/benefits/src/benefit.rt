// An amount, the set of named seats, and the share of each pattern.
ghost use Rattle.std.specs.Prelude.{◌≡◌, ℕ, ◌<◌, ◌≤◌, bit_and, slice_index};
ghost use Rattle.patterns.specs.Seats.{patterns};

use patterns::Shares;

mod reads;

#[derive(Clone, Copy)]
pub struct Benefit {
    amount: u32,
    // The set of named seats, as a pattern's number.
    named: usize,
    shares: Shares,
    ghost priced: { (1 ≤ amount) × (amount ≤ 500000000) },
    ghost seats: { named < patterns },
    // Only the named seats matter to a share.
    ghost own: { (p : ℕ) → p < patterns → slice_index shares.twentieths p ≡ slice_index shares.twentieths (bit_and p named) },
}

impl Benefit {
    pub fn amount(&self) -> u32
        ensures { result ≡ self.now.amount }
    {
        self.amount
    }

    // The set of named seats, as a pattern's number.
    pub fn named(&self) -> usize
        ensures { result ≡ self.now.named }
    {
        self.named
    }

    pub fn shares(&self) -> &Shares
        ensures { result.now ≡ self.now.shares }
    {
        &self.shares
    }
}

// The shares of a benefit by the number of the named alive.
ghost use Rattle.std.specs.Prelude.{◌≡◌, ℕ, ◌+◌, ◌≤◌, true, false, not, length, slice_index};
ghost use Rattle.patterns.specs.Seats.{seats};
ghost use Rattle.weights.specs.Numbers.{OnlyNumber, uneven, share_with};

use patterns::{SEATS, Shares};

// How many numbers of lives alive there are: none to all.
pub(crate) const NUMBERS: usize = SEATS + 1;

// The share with each number of the named alive, in twentieths.
#[derive(Clone, Copy)]
pub struct NumberShares {
    pub(crate) twentieths: [u64; NUMBERS],
    ghost long: { length twentieths ≡ seats + 1 },
    ghost most: { (k : ℕ) → slice_index twentieths k ≤ 20 },
}

// The share with each number of the named alive, 0 where they are fewer: that of the last pattern which has it.
pub fn shares_by_number(shares: &Shares, named: usize) -> NumberShares
    ensures { (k : ℕ) → slice_index result.twentieths k ≡ share_with seats (λ p. slice_index shares.now.twentieths p) named k }
{
    let mut twentieths = [0; NUMBERS];
    for (p, share) in shares.twentieths.iter().enumerate() {
        if p & named == p {
            twentieths[p.count_ones() as usize] = *share;
        }
    }
    NumberShares { twentieths }
}

// Whether only the number of the named alive matters.
pub fn is_even(shares: &Shares, named: usize) -> bool
    ensures answer { result ≡ not (uneven seats (λ p. slice_index shares.now.twentieths p) named) }
    ensures yes { result ≡ true → OnlyNumber seats (λ p. slice_index shares.now.twentieths p) named }
    ensures no { result ≡ false → OnlyNumber seats (λ p. slice_index shares.now.twentieths p) named → ⊥ }
{
    let by_number = shares_by_number(shares, named);
    for (p, share) in shares.twentieths.iter().enumerate() {
        if p & named == p {
            if *share != by_number.twentieths[p.count_ones() as usize] {
                return false;
            }
        }
    }
    true
}

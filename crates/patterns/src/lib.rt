// Seats and patterns: how many there are, and the share of a benefit in each pattern.
#![tactic(auto)]

ghost use Rattle.std.specs.Prelude.{◌≡◌, ℕ, ◌≤◌, length, get_or};
ghost use Rattle.patterns.specs.Seats.{patterns};

pub mod sets;

// Seats A, B, C, .. have the numbers 0, 1, 2, ..
pub const SEATS: usize = 4;

// A pattern is a set of seats as a number: A adds 1, B adds 2, C adds 4, ..
pub const PATTERNS: usize = 1 << SEATS;

// The share that is paid in each pattern of the lives alive, by the pattern's number, in twentieths.
#[derive(Clone, Copy)]
pub struct Shares {
    pub twentieths: [u64; PATTERNS],
    ghost long: { length twentieths ≡ patterns },
    ghost most: { (p : ℕ) → get_or twentieths p 0 ≤ 20 },
}

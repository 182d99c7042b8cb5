// A benefit: what is paid, and which part of it in each pattern of the lives alive.
#![tactic(auto)]

pub mod benefit;
mod clauses;
pub mod faults;
mod sums;

// The full share, in twentieths.
const FULL: u32 = 20;

// The most that a benefit pays.
pub const MOST_AMOUNT: u32 = 500_000_000;

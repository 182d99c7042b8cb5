// The three routes to a weight: by patterns, by subsets and by counts.
#![tactic(auto)]

pub mod by_counts;
pub mod by_number;
pub mod by_subsets;
pub mod differences;
mod products;
pub mod route;
mod signs;

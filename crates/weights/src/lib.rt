// Exposures and weights: what a weight is, and that the routes to it agree.
#![tactic(auto)]

pub mod by_patterns;
mod counted;
pub mod exposure;
pub mod exposures;
pub mod weight;

// The case: seats that are first enrolling, then in force.
#![tactic(auto)]

pub mod enrolling;
pub mod inforce;

// The seats of a case: their numbers, a record for each, and the plain table that holds them.
#![tactic(auto)]

pub mod number;
pub mod seat;
pub mod table;

// Histories of a case, and the law of what is weighed and valued at their end.
#![tactic(auto)]

pub mod account;
pub mod calls;
pub mod replay;
pub mod supposed;

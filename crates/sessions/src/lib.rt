// A session: what each line of a scheme file does.
#![tactic(auto)]

pub mod session;

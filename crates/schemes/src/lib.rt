// The lines of a scheme file: their faults, their fields, the tables, and the lives that they enrol.
#![tactic(auto)]

pub mod basis;
pub mod enrolment;
pub mod fault;
mod fields;
pub mod reader;
pub mod reading;
pub mod shape;
pub mod tables;

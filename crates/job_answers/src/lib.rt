// The lines that a job writes: answers to calls, courses of nets, and faults.
#![tactic(auto)]

pub mod courses;
pub mod texts;

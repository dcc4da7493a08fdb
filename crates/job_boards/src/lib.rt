// The board that the first lines of a job describe.
#![tactic(auto)]

pub mod closing;
pub mod entering;
pub mod header;
pub mod headers;
pub mod plan;
pub mod reading;

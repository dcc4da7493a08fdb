// Paths, linkages and fences of a board under bars. Each theorem is the contract of a small function.
#![tactic(auto)]

pub mod examples;
pub mod fences;
pub mod nets;
pub mod paths;

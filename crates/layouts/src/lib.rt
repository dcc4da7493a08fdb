// Layouts: the wires of the two-layer pin redistribution problem, and how a field's drawing reads as such a layout.
#![tactic(auto)]

pub mod examples;
pub mod reading;
#[cfg(test)]
mod tests;
pub mod theorems;
pub mod wires;

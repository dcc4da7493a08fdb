// Drawings tried on a small board where much is allowed that fields forbid.
#![tactic(auto)]

pub mod ring;
#[cfg(test)]
mod tests;

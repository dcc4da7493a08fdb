// Rewiring a drawing along a trail that a search found.
//
// The trail is taken back from its landing to its pad, moving wires as need be. That can leave rings, cut off from every pad,
// and a sweep frees them.
#![tactic(auto)]

mod moves;
pub mod rewire;
mod sweep;
#[cfg(test)]
mod tests;

// Drawings: which cells are free, barred or on a net, when that is lawful, and the calls that change it.
//
// A drawing is a slice of records that the caller lends, one for each cell of a board. So board and drawing are parameters of their own
// everywhere, and what ties them together is said where it is asked for.
#![tactic(auto)]

pub mod calls;
pub mod checks;
pub mod lawful;
pub mod nets;

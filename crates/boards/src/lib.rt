// Boards: the substrate as a graph of numbered cells, some of them pads, some landings.
//
// `Board` is what the router sees, `PlacedBoard` adds where each cell lies. `Field` and `Escape` are made from maps,
// and a `KeepOut` closes cells of any board.
#![tactic(auto)]

pub mod board;
pub mod count;
pub mod escape;
pub mod field;
mod grid;
pub mod keep_out;
mod map;
mod map_board;
pub mod maps;
mod one_cell;
pub mod place;
pub mod refusal;
pub mod small;
#[cfg(test)]
mod tests;

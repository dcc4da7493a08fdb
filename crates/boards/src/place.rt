// Where the cells of a board lie.
ghost use Rattle.std.specs.Prelude.{◌≡◌, List};
ghost use Rattle.boards.specs.Places.{Placed, place_at, Finds};
ghost use Rattle.boards.specs.declared.place.Place.{Place};

use crate::board::Board;

// Layers count from 1 at the top, rows and columns from 0.
#[derive(Clone, Copy, PartialEq, Eq, Debug)]
pub struct Place {
    pub layer: u16,
    pub row: u16,
    pub column: u16,
}

// A step from a place to one beside it: a row less, a column more, a row more, a column less, a layer more or a layer less.
#[derive(Clone, Copy, PartialEq, Eq, Debug)]
pub enum Step {
    North,
    East,
    South,
    West,
    Down,
    Up,
}

// A board whose cells have places, each its own, so that every outlet lies one step away.
pub trait PlacedBoard: Board {
    ghost places: { Self → List Place };

    // The place of a cell; none for a number that is no cell.
    fn place(&self, cell: u16) -> Option<Place>
        ensures { result ≡ place_at (places self.now) cell };

    // The cell that lies at a place, if there is one.
    fn cell_at(&self, place: Place) -> Option<u16>
        ensures { Finds (places self.now) place result };

    ghost placed: { (b : Self) → Placed (Self.Board.meaning b) (places b) };
}

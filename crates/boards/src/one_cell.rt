// The places of the board that a refused map makes: one cell, on layer 1 in row 0 and column 0.
ghost use Rattle.std.specs.Prelude.{◌≡◌, [], ◌∷◌};
ghost use Rattle.boards.specs.Places.{place_at, Finds};
ghost use Rattle.boards.specs.Maps.{origin};

use crate::place::Place;

const ONLY: Place = Place {
    layer: 1,
    row: 0,
    column: 0,
};

pub(crate) fn one_place(cell: u16) -> Option<Place>
    ensures { result ≡ place_at (origin ∷ []) cell }
{
    (cell == 0).then_some(ONLY)
}

pub(crate) fn one_cell_at(place: Place) -> Option<u16>
    ensures { Finds (origin ∷ []) place result }
{
    (place == ONLY).then_some(0)
}

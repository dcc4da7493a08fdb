// The first line of a job: the kind of board, and its sides.
ghost use Rattle.boards.specs.Maps.{SidesAllowed};

use crate::entering::layer_count;
use boards::maps::MapKind;
use boards::place::Place;

#[derive(Clone, Copy, PartialEq, Eq, Debug)]
pub struct Header {
    pub kind: MapKind,
    pub rows: u16,
    pub columns: u16,
    ghost allowed: { SidesAllowed rows columns },
}

impl Header {
    ghost use Rattle.std.specs.Prelude.{◌≡◌, ◌+◌, ◌*◌, ◌<◌, ◌↔◌, IsTrue};
    ghost use Rattle.boards.specs.Grids.{OnGrid, cell_of};
    ghost use Rattle.job_boards.specs.Plans.{layers};

    // Whether the board has a cell at the place.
    pub(crate) fn has(self, place: Place) -> bool
        ensures { IsTrue result ↔ OnGrid (layers self.kind) self.rows self.columns place }
    {
        (1..=layer_count(self.kind)).contains(&place.layer)
            && place.row < self.rows
            && place.column < self.columns
    }

    // The number of the cell at a place.
    pub(crate) fn cell_of(self, place: Place) -> u16
        requires { OnGrid (layers self.kind) self.rows self.columns place }
        ensures { result ≡ cell_of self.rows self.columns place }
    {
        (place.layer - 1) * (self.rows * self.columns) + (place.row * self.columns + place.column)
    }

    // Where the byte of the point at a place stands in the map.
    pub(crate) fn index_of(self, place: Place) -> usize
        requires { OnGrid (layers self.kind) self.rows self.columns place }
        ensures value { result ≡ place.row * self.columns + place.column }
        ensures within { result < self.rows * self.columns }
    {
        place.row as usize * self.columns as usize + place.column as usize
    }
}

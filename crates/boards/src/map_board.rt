// Boards over maps. They differ in their layers, their steps and where their landings lie; all else is written once.
ghost use Rattle.std.specs.Prelude.{◌≡◌, ℕ, Bool, List, Option, MatchOption};
ghost use Rattle.std.specs.Option.{option_map};
ghost use Rattle.boards.specs.declared.map.Map.{Map};
ghost use Rattle.boards.specs.declared.place.Place.{Place};
ghost use Rattle.boards.specs.MapMade.{map_meaning, map_places, Lies, LiesNowhere};
ghost use Rattle.boards.specs.Accepted.{held_bounded, held_placed};

use crate::board::Board;
use crate::grid::{Grid, Spot};
use crate::map::Map;
use crate::one_cell::{one_cell_at, one_place};
use crate::place::{Place, PlacedBoard};

pub(crate) trait MapBoard: Grid {
    ghost held: { Self → Option Map };

    ghost landing: { (R C : ℕ) → List ℕ → Place → Bool };

    // The map, or none where the map check refused it: then the board has one cell and no way.
    fn map(&self) -> Option<&Map>
        ensures { option_map (λ m. m.now) result ≡ held self.now };

    // Whether a landing lies there.
    fn has_landing(spot: &Spot<'_, Self>) -> bool
        ensures { result ≡ landing spot.now.map.now.rows spot.now.map.now.columns spot.now.map.now.bytes.items spot.now.place };
}

// Where a cell of the board lies on the grid of its map.
fn spot<M: MapBoard>(board: &M, cell: u16) -> Option<Spot<'_, M>>
    ensures { MatchOption result (LiesNowhere M.LAYERS (M.held board.now) cell) (λ s. Lies M.LAYERS (M.held board.now) cell s.map.now s.place) }
{
    Spot::of_cell(board.map()?, cell)
}

impl<M: MapBoard> Board for M {
    ghost meaning = { λ b. map_meaning M.LAYERS M.steps M.landing (M.held b) };

    ghost bounded = { λ b. held_bounded M.LAYERS M.steps M.landing M.few (M.held b) };

    fn cells(&self) -> u16 {
        self.map().map_or(1, |map| Spot::<M>::cells(map))
    }

    fn outlet(&self, cell: u16, j: u8) -> Option<u16> {
        spot(self, cell)?.outlet(j)
    }

    fn is_pad(&self, cell: u16) -> bool {
        spot(self, cell).is_some_and(|spot| spot.has_pad())
    }

    fn is_landing(&self, cell: u16) -> bool {
        spot(self, cell).is_some_and(|spot| M::has_landing(&spot))
    }
}

impl<M: MapBoard> PlacedBoard for M {
    ghost places = { λ b. map_places M.LAYERS (M.held b) };

    ghost placed = { λ b. held_placed M.LAYERS M.steps M.landing M.few (M.held b) };

    // A `match` here and below: where there is no map the board of one cell answers, and no Option is wrapped again.
    fn place(&self, cell: u16) -> Option<Place> {
        match self.map() {
            Some(map) => Spot::<M>::of_cell(map, cell).map(|spot| spot.place),
            None => one_place(cell),
        }
    }

    fn cell_at(&self, place: Place) -> Option<u16> {
        match self.map() {
            Some(map) => Spot::<M>::at(map, place).map(|spot| spot.cell()),
            None => one_cell_at(place),
        }
    }
}

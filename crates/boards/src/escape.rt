// The escape board: one layer, with the landings on the rim.
ghost use Rattle.std.specs.Prelude.{◌≡◌};
ghost use Rattle.boards.specs.declared.maps.MapKind.TheVariants.{EscapeMap};
ghost use Rattle.boards.specs.Meaning.{NoWayIn};
ghost use Rattle.boards.specs.Grids.{grid_places};
ghost use Rattle.boards.specs.MapMade.{Made};
ghost use Rattle.boards.specs.Escapes.{escape, escape_landing, escape_meaning, escape_places, on_rim, escape_steps};
ghost use Rattle.boards.specs.Accepted.{escape_few};

use crate::grid::{Grid, Spot};
use crate::map::Map;
use crate::map_board::MapBoard;
use crate::maps::MapKind;
use crate::place::Step;

#[derive(Drop)]
pub struct Escape {
    // None where the map check refused the map: then the board has one cell and no way.
    map: Option<Map>,
}

impl Escape {
    // The escape board of a map, given row after row: 0 plain, 1 pad point.
    pub fn new(rows: u16, columns: u16, bytes: Vec<u8>) -> Escape
        ensures made { Made EscapeMap rows columns bytes.items (escape rows columns bytes.items) (grid_places 1 rows columns) (escape_meaning result.map) (escape_places result.map) }
        ensures no_way_in { NoWayIn (escape_meaning result.map) }
    {
        Escape {
            map: Map::checked(MapKind::EscapeMap, rows, columns, bytes).ok(),
        }
    }
}

impl Grid for Escape {
    ghost LAYERS = { 1 };

    ghost steps = { escape_steps };

    const LAYERS: u16 = 1;

    fn steps() -> &'static [Step] {
        &[Step::North, Step::East, Step::South, Step::West]
    }

    ghost few = { escape_few };
}

impl MapBoard for Escape {
    ghost held = { λ b. b.map };

    ghost landing = { escape_landing };

    fn map(&self) -> Option<&Map> {
        self.map.as_ref()
    }

    fn has_landing(spot: &Spot<'_, Escape>) -> bool {
        on_rim(spot) && !spot.has_pad()
    }
}

// Whether it lies in the first or last row or column.
fn on_rim(spot: &Spot<'_, Escape>) -> bool
    ensures { result ≡ on_rim spot.now.map.now.rows spot.now.map.now.columns spot.now.place }
{
    spot.place.row == 0
        || spot.place.row + 1 == spot.map.rows
        || spot.place.column == 0
        || spot.place.column + 1 == spot.map.columns
}

// The two-layer field: pads on the top layer, landings on the bottom one, and vias at pad points and landing points.
ghost use Rattle.boards.specs.declared.maps.MapKind.TheVariants.{FieldMap};
ghost use Rattle.boards.specs.Meaning.{NoWayIn};
ghost use Rattle.boards.specs.Grids.{grid_places};
ghost use Rattle.boards.specs.MapMade.{Made};
ghost use Rattle.boards.specs.Fields.{field, field_landing, field_meaning, field_places, field_steps};
ghost use Rattle.boards.specs.Accepted.{field_few};

use crate::grid::{Grid, Spot};
use crate::map::Map;
use crate::map_board::MapBoard;
use crate::maps::MapKind;
use crate::place::Step;

#[derive(Drop)]
pub struct Field {
    // None where the map check refused the map: then the board has one cell and no way.
    map: Option<Map>,
}

impl Field {
    // The field of a map, given row after row: 0 plain, 1 pad point, 2 landing point, 3 both.
    pub fn new(rows: u16, columns: u16, bytes: Vec<u8>) -> Field
        ensures made { Made FieldMap rows columns bytes.items (field rows columns bytes.items) (grid_places 2 rows columns) (field_meaning result.map) (field_places result.map) }
        ensures no_way_in { NoWayIn (field_meaning result.map) }
    {
        Field {
            map: Map::checked(MapKind::FieldMap, rows, columns, bytes).ok(),
        }
    }
}

impl Grid for Field {
    ghost LAYERS = { 2 };

    ghost steps = { field_steps };

    const LAYERS: u16 = 2;

    fn steps() -> &'static [Step] {
        &[Step::North, Step::East, Step::South, Step::West, Step::Down]
    }

    ghost few = { field_few };
}

impl MapBoard for Field {
    ghost held = { λ b. b.map };

    ghost landing = { λ R C bytes. field_landing C bytes };

    fn map(&self) -> Option<&Map> {
        self.map.as_ref()
    }

    fn has_landing(spot: &Spot<'_, Field>) -> bool {
        spot.place.layer == 2 && spot.point().landing
    }
}

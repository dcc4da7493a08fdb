// What a wire is made of.
ghost use Rattle.std.specs.Prelude.{◌≡◌};
ghost use Rattle.layouts.specs.Layouts.{layer_number};
ghost use Rattle.layouts.specs.Readings.{point_of};

use boards::place::Place;

// A point of a map; rows and columns count from 0.
#[derive(Clone, Copy, PartialEq, Eq, Debug)]
pub struct Point {
    pub row: u16,
    pub column: u16,
}

// The point at which a place lies.
impl From<Place> for Point {
    ghost from_gives = { λ place point. point ≡ point_of place };

    fn from(place: Place) -> Point {
        Point {
            row: place.row,
            column: place.column,
        }
    }
}

// The layer of a wire: layer 1 is the top, layer 2 the bottom.
#[derive(Clone, Copy, PartialEq, Eq, Debug)]
pub enum Layer {
    Top = 1,
    Bottom = 2,
}

impl Layer {
    // 1 for the top, 2 for the bottom.
    pub fn number(&self) -> u16
        ensures { result ≡ layer_number self.now }
    {
        *self as u16
    }
}

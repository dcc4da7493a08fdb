// What the lines about the board say.
ghost use Rattle.std.specs.Prelude.{◌≡◌, ◌*◌, ◌<◌, ◌≤◌, ◌↔◌, vec_len, IsTrue, All};
ghost use Rattle.boards.specs.Maps.{last_named};
ghost use Rattle.job_boards.specs.Plans.{layers};

use crate::header::Header;
use boards::place::Place;

// A pad, by its name and its point.
#[derive(Clone, Copy, PartialEq, Eq, Debug)]
pub struct Pad<'a> {
    pub name: &'a [u8],
    pub row: u16,
    pub column: u16,
}

impl Pad<'_> {
    ghost use Rattle.job_boards.specs.Plans.{at_place};
    ghost use Rattle.job_boards.specs.Reading.{named, Takes};

    // Where the pad lies: on the top layer, above its point.
    pub fn place(self) -> Place
        ensures { result ≡ at_place 1 self.entry.row self.entry.column }
    {
        Place {
            layer: 1,
            row: self.row,
            column: self.column,
        }
    }

    // Whether the two have one name, or lie at one point.
    pub(crate) fn takes(self, other: Pad) -> bool
        ensures { IsTrue result ↔ Takes (named self.entry) other.entry.name.now other.entry.row other.entry.column }
    {
        // By row and column, since `==` of two pads compares their names too.
        self.name == other.name || self.row == other.row && self.column == other.column
    }
}

// The kind of board and its sides, the map so far, the pads in the order of their lines, and the cells kept out.
#[derive(Drop)]
pub struct Plan<'a> {
    pub header: Header,
    pub map: Vec<u8>,
    pub pads: Vec<Pad<'a>>,
    pub kept: Vec<u16>,
    ghost full: { vec_len map ≡ header.rows * header.columns },
    ghost known: { All (λ byte. byte ≤ last_named header.kind) map.items },
    ghost few: { vec_len pads ≤ 128 },
    ghost on_board: { All (λ pad. (pad.row < header.rows) × (pad.column < header.columns)) pads.items },
    ghost cells: { All (λ cell. cell < layers header.kind * (header.rows * header.columns)) kept.items },
}

// Boards drawn in characters, a layer below the other.
ghost use Rattle.std.specs.Prelude.{◌≡◌, ℕ, Some, Decides, ◌≢◌};
ghost use Rattle.boards.specs.Places.{place_at};
ghost use Rattle.picture.specs.Glyphs.{letter, LeavesLayer, GlyphOf};

use crate::sheet::Shape;
use boards::board::Board;
use boards::place::{Place, PlacedBoard};
use std::fmt;

// What the characters mean.
pub const LEGEND: &str =
    "P pad, L landing, B both, v way to another layer, . plain; A and a: a wired pad and its net; # bar";

// A board of a shape, with a label for each cell that has one.
#[derive(Drop)]
pub struct Canvas<'a, B> {
    pub board: &'a B,
    pub labels: &'a [Option<char>],
    pub shape: Shape,
}

// Each layer under its number, with a character for each place.
impl<B: PlacedBoard> fmt::Display for Canvas<'_, B> {
    fn fmt<W: fmt::Write>(&self, f: &mut fmt::Formatter<W>) -> fmt::Result {
        for layer in 1..=self.shape.layers() {
            write!(f, "\nlayer {layer}\n")?;
            for row in 0..self.shape.rows {
                for column in 0..self.shape.columns {
                    let mark = self.mark(Place { layer, row, column });
                    write!(f, " {mark}")?;
                }
                writeln!(f)?;
            }
        }
        Ok(())
    }
}

impl<B: PlacedBoard> Canvas<'_, B> {
    // The label of the cell at a place, or else what the board has there.
    fn mark(&self, place: Place) -> char {
        self.board
            .cell_at(place)
            .and_then(|cell| self.labels.get(cell as usize).copied().flatten())
            .unwrap_or_else(|| glyph(self.board, place))
    }
}

// The character for a place.
fn glyph<B: PlacedBoard>(board: &B, place: Place) -> char
    ensures { GlyphOf (B.Board.meaning board.now) (B.PlacedBoard.places board.now) place result }
{
    board.cell_at(place).map_or(' ', |cell| {
        letter(
            board.is_pad(cell),
            board.is_landing(cell),
            leaves_layer(board, cell, place.layer),
        )
    })
}

fn letter(pad: bool, landing: bool, via: bool) -> char
    ensures { result ≡ letter pad landing via }
{
    match (pad, landing, via) {
        (true, true, _) => 'B',
        (true, false, _) => 'P',
        (false, true, _) => 'L',
        (false, false, true) => 'v',
        (false, false, false) => '.',
    }
}

// Whether an outlet of the cell lies on another layer.
fn leaves_layer<B: PlacedBoard>(board: &B, cell: u16, layer: u16) -> bool
    ensures { Decides result (LeavesLayer (B.Board.meaning board.now) (B.PlacedBoard.places board.now) cell layer) }
{
    (0..8).any(|j| is_elsewhere(board, board.outlet(cell, j), layer))
}

// Whether there is a next cell and it lies on another layer.
fn is_elsewhere<B: PlacedBoard>(board: &B, next: Option<u16>, layer: u16) -> bool
    ensures { Decides result ((d : ℕ) × (q : Place) × (next ≡ Some d) × (place_at (B.PlacedBoard.places board.now) d ≡ Some q) × (q.layer ≢ layer)) }
{
    next.and_then(|cell| board.place(cell))
        .is_some_and(|place| place.layer != layer)
}

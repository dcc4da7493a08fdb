// How many pads and landings a board has, by its questions alone.
ghost use Rattle.std.specs.Prelude.{◌≡◌};
ghost use Rattle.boards.specs.Counts.{mark_count, mark_at};

use crate::board::Board;

// What a cell may be marked as.
#[derive(Clone, Copy, PartialEq, Eq, Debug)]
pub enum Mark {
    Pad,
    Landing,
}

// How many cells of the board have the mark.
pub fn count_marked<B: Board>(board: &B, mark: Mark) -> u16
    ensures { result ≡ mark_count (B.meaning board.now) mark }
{
    (0..board.cells())
        .filter(|cell| is_marked(board, *cell, mark))
        .count() as u16
}

fn is_marked<B: Board>(board: &B, cell: u16, mark: Mark) -> bool
    ensures { result ≡ mark_at (B.meaning board.now) mark cell }
{
    // A `match`, since callers name a mark; a closure for the question would be written out at every call.
    match mark {
        Mark::Pad => board.is_pad(cell),
        Mark::Landing => board.is_landing(cell),
    }
}

// Whether a drawing is lawful.
//
// The rules about a cell and the cells that it names are looked at cell by cell. Then the net cells are counted, and once
// more by following every net from its first cell: the counts are equal exactly if every net cell is reached.
ghost use Rattle.std.specs.Prelude.{◌≡◌, ℕ, ◌<◌, true, length, Decides};
ghost use Rattle.std.specs.List.{flat_map};
ghost use Rattle.boards.specs.Meaning.{outlets_of};
ghost use Rattle.linkages.specs.Lists.{Mem};
ghost use Rattle.drawings.specs.Nets.{net_at, cells_where, wired, net};
ghost use Rattle.drawings.specs.Lawful.{Local, Begins, GoesOn, Lawful};
ghost use Rattle.drawings.specs.Links.{Linked};

use crate::nets::follow;
use boards::board::Board;
use records::record::{Record, record_at};

// Whether a cell is an outlet of another.
fn leads<B: Board>(board: &B, from: u16, to: u16) -> bool
    ensures { Decides result (Mem to (outlets_of (B.meaning board.now) from)) }
{
    (0..8u8).any(|j| board.outlet(from, j) == Some(to))
}

// Whether a net cell begins rightly: at a pad, or after a cell that leads on to it.
fn begins<B: Board>(board: &B, drawing: &[Record], cell: u16, before: Option<u16>) -> bool
    ensures { Decides result (Begins (B.meaning board.now) drawing.now cell before) }
{
    match before {
        Some(from) => record_at(drawing, from).after() == Some(cell),
        None => board.is_pad(cell),
    }
}

// Whether a net cell goes on rightly: at a landing not at all, else to an outlet that comes from it.
fn goes_on<B: Board>(board: &B, drawing: &[Record], cell: u16, after: Option<u16>) -> bool
    ensures { Decides result (GoesOn (B.meaning board.now) drawing.now cell after) }
{
    match after {
        Some(to) => !board.is_landing(cell)
            && leads(board, cell, to)
            && record_at(drawing, to).before() == Some(cell),
        None => board.is_landing(cell),
    }
}

// Whether a cell keeps the rules about itself and the cells that it names.
fn fits<B: Board>(board: &B, drawing: &[Record], cell: u16) -> bool
    ensures { Decides result (Local (B.meaning board.now) drawing.now cell) }
{
    match record_at(drawing, cell) {
        Record::Net { before, after } => begins(board, drawing, cell, before)
            && goes_on(board, drawing, cell, after),
        Record::Free | Record::Barred => true,
    }
}

// Whether every cell does.
fn is_local<B: Board>(board: &B, drawing: &[Record]) -> bool
    ensures { Decides result ((c : ℕ) → c < (B.meaning board.now).cells → Local (B.meaning board.now) drawing.now c) }
{
    (0..board.cells()).all(|cell| fits(board, drawing, cell))
}

// The number of cells on nets.
fn net_cells(drawing: &[Record]) -> usize
    ensures { result ≡ length (cells_where drawing.now (net_at drawing.now)) }
{
    // A sum of ones: `filter(..).count()` makes the whole check a fourteenth slower.
    drawing
        .iter()
        .map(|record| usize::from(record.is_net()))
        .sum()
}

// The number of cells met by following a net from its first cell.
fn reached_from(drawing: &[Record], first: u16) -> usize
    ensures { result ≡ length (net drawing.now first) }
{
    follow(drawing, first).count()
}

// The number of cells met by following every net from its first cell.
fn reached_cells<B: Board>(board: &B, drawing: &[Record]) -> usize
    requires { length drawing.now ≡ (B.meaning board.now).cells }
    ensures { result ≡ length (flat_map (net drawing.now) (wired drawing.now)) }
{
    (0..board.cells())
        .filter(|cell| record_at(drawing, *cell).is_first())
        .map(|first| reached_from(drawing, first))
        .sum()
}

// Whether a drawing is lawful for a board, for any records whatever. The nets of a lawful drawing link its wired pads to landings.
pub fn is_lawful<B: Board>(board: &B, drawing: &[Record]) -> bool
    ensures decides { Decides result (Lawful (B.meaning board.now) drawing.now) }
    ensures links { result ≡ true → Linked (B.meaning board.now) drawing.now }
{
    drawing.len() == board.cells() as usize
        && is_local(board, drawing)
        && net_cells(drawing) == reached_cells(board, drawing)
}

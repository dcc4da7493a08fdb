// Freeing the net cells that no net reaches from its first cell.
ghost use Rattle.std.specs.Prelude.{◌≡◌, ℕ, ◌≤◌, length, ◌==◌, slice_index, slice_set};
ghost use Rattle.drawings.specs.Nets.{net};
ghost use Rattle.drawings.specs.Lawful.{Local};
ghost use Rattle.drawings.specs.Outcomes.{Frees};
ghost use Rattle.rewiring.specs.Marks.{marked, MarksReached, is_stray, strays, Swept};

use boards::board::Board;
use drawings::nets::follow;
use records::record::{Record, record_at};

// Marks a cell; past the last mark nothing is written. The marks are numbers, 1 for a mark and 0 for none, since they lie in the
// work memory that the caller lends.
fn mark(marks: &mut [u16], cell: u16)
    ensures { marks.new ≡ slice_set marks.old cell 1 }
{
    // By index, since after a write through `get_mut` nothing is known of the slice but its length.
    if (cell as usize) < marks.len() {
        marks[cell as usize] = 1;
    }
}

// Whether a cell has a mark.
fn is_marked(marks: &[u16], cell: usize) -> bool
    ensures { result ≡ (slice_index marks.now cell == 1) }
{
    marks.get(cell) == Some(&1)
}

// Marks the cells met by going on from a cell.
fn mark_net(drawing: &[Record], first: u16, marks: &mut [u16])
    ensures { marks.new ≡ marked (net drawing.now first) marks.old }
{
    for cell in follow(drawing, first) {
        mark(marks, cell);
    }
}

// Marks the cells that are reached by following a net from its first cell, where none was marked.
fn mark_nets<B: Board>(board: &B, drawing: &[Record], marks: &mut [u16])
    requires long { length drawing.now ≡ (B.meaning board.now).cells }
    requires local { (c : ℕ) → Local (B.meaning board.now) drawing.now c }
    requires room { length drawing.now ≤ length marks.old }
    requires clean { (k : ℕ) → slice_index marks.old k ≡ 0 }
    ensures { MarksReached drawing.now marks.new }
{
    for cell in 0..board.cells() {
        if record_at(drawing, cell).is_first() {
            mark_net(drawing, cell, marks);
        }
    }
}

// Frees the net cells without a mark.
fn free_strays(drawing: &mut [Record], marks: &[u16])
    ensures { Frees (strays drawing.old marks.now) drawing.old drawing.new }
{
    for (cell, record) in drawing.iter_mut().enumerate() {
        if record.is_net() && !is_marked(marks, cell) {
            *record = Record::Free;
        }
    }
}

// Frees the rings of a drawing in which every rule that looks at one cell holds. Drawing and marks are the caller's memory, each a
// parameter of its own.
pub fn sweep<B: Board>(board: &B, drawing: &mut [Record], marks: &mut [u16])
    requires long { length drawing.old ≡ (B.meaning board.now).cells }
    requires local { (c : ℕ) → Local (B.meaning board.now) drawing.old c }
    requires room { length drawing.old ≤ length marks.old }
    ensures { Swept (B.meaning board.now) drawing.old drawing.new }
{
    marks.fill(0);
    mark_nets(board, drawing, marks);
    free_strays(drawing, marks);
}

// One pad more.
ghost use Rattle.std.specs.Prelude.{ℕ, ◌≤◌, length};
ghost use Rattle.drawings.specs.Lawful.{Lawful};
ghost use Rattle.rewiring.specs.Trails.{Trail, Rewired};

use crate::moves::follow_back;
use crate::sweep::sweep;
use boards::board::Board;
use records::record::Record;

// Wires one more pad of a lawful drawing along a trail, moving wires as need be. This is a step of other calls, which prove
// that there is such a trail; the marks are memory to work in, one number for each cell.
pub fn rewire<B: Board>(board: &B, drawing: &mut [Record], trail: &[u16], marks: &mut [u16])
    requires lawful { Lawful (B.meaning board.now) drawing.old }
    requires trail { (p : ℕ) × ((z : ℕ) × Trail (B.meaning board.now) drawing.old p z trail.now) }
    requires room { (B.meaning board.now).cells ≤ length marks.old }
    ensures { (p z : ℕ) → Trail (B.meaning board.now) drawing.old p z trail.now →
        Rewired (B.meaning board.now) drawing.old drawing.new p z }
{
    follow_back(drawing, trail);
    sweep(board, drawing, marks);
}

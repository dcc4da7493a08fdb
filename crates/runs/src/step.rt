// One call on a drawing.
ghost use Rattle.std.specs.Prelude.{◌≡◌, ◌∷◌};
ghost use Rattle.runs.specs.Histories.{History, stands};
ghost use Rattle.runs.specs.Claim.{Upholds, Claim};
ghost use Rattle.runs.specs.Steps.{event, Performs};

use crate::calls::Kind;
use boards::board::Board;
use drawings::calls::{clear, lift};
use records::record::Record;
use records::refusal::Refusal;
use routing::bar::bar;
use routing::place::place;

// Makes the call. Whatever history upholds the claim and ends in this drawing upholds it with this call as well.
//
// The caller lends each memory by itself, and in a job the kind of a call and its cell come from different places, so that each is a
// parameter of its own.
pub fn step<B: Board>(
    board: &B,
    drawing: &mut [Record],
    kind: Kind,
    cell: u16,
    work: &mut [u16],
    report: &mut [u16],
) -> Result<u16, Refusal>
    ensures performs { Performs (B.meaning board.now) kind cell drawing.old drawing.new
        work.old work.new report.old report.new result }
    ensures claim { (h : History) → Upholds (B.meaning board.now) h → drawing.old ≡ stands (B.meaning board.now) h →
        Claim (B.meaning board.now) (event kind cell drawing.old drawing.new
        work.old work.new report.old report.new result ∷ h) }
{
    // The calls take different memory, so a match and no table of closures, which would have to be boxed.
    match kind {
        Kind::Place => place(board, drawing, work, report, cell),
        Kind::Lift => lift(board, drawing, cell),
        Kind::Bar => bar(board, drawing, work, report, cell),
        Kind::Clear => clear(board, drawing, cell),
    }
}

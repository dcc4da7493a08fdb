// What place and bar look at alike before they search.
ghost use Rattle.boards.specs.Refusals.{Answer};
ghost use Rattle.records.specs.Numbers.{number_of};
ghost use Rattle.routing.specs.Conditions.{SearchStopped, Searchable};

use boards::board::Board;
use drawings::checks::{check_cell, check_size};
use records::record::Record;
use records::refusal::Refusal;

// Whether the drawing is a lawful one of the board, there is memory enough for a search over it, and the cell is on the board.
pub(crate) fn check_search<B: Board>(
    board: &B,
    drawing: &[Record],
    work: &[u16],
    report: &[u16],
    cell: u16,
) -> Result<(), Refusal>
    ensures { Answer number_of (SearchStopped (B.meaning board.now) drawing.now work.now report.now cell)
        (λ _. Searchable (B.meaning board.now) drawing.now work.now report.now cell) result }
{
    check_size(board, drawing)?;
    if work.len() < 4 * board.cells() as usize {
        return Err(Refusal::ShortWork);
    }
    if report.len() < 2 * board.cells() as usize {
        return Err(Refusal::ShortReport);
    }
    check_cell(board, drawing, cell)
}

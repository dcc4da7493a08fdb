// What calls look at before they change anything, in the order of the refusals' numbers.
ghost use Rattle.std.specs.Prelude.{◌≡◌, ◌<◌, length};
ghost use Rattle.boards.specs.Refusals.{Answer};
ghost use Rattle.records.specs.Numbers.{number_of};
ghost use Rattle.drawings.specs.Lawful.{Lawful};
ghost use Rattle.drawings.specs.Conditions.{NewRefused, CellRefused, PadRefused, IsWiredPad};

use crate::lawful::is_lawful;
use boards::board::Board;
use records::record::{Record, record_at};
use records::refusal::Refusal;

// The drawing memory is to have one record for each cell.
pub fn check_size<B: Board>(board: &B, drawing: &[Record]) -> Result<(), Refusal>
    ensures { Answer number_of (NewRefused (B.meaning board.now) drawing.now) (λ _. length drawing.now ≡ (B.meaning board.now).cells) result }
{
    if drawing.len() != board.cells() as usize {
        return Err(Refusal::WrongDrawing);
    }
    Ok(())
}

// The drawing is to be lawful, and the number a cell.
pub fn check_cell<B: Board>(board: &B, drawing: &[Record], cell: u16) -> Result<(), Refusal>
    ensures { Answer number_of (CellRefused (B.meaning board.now) drawing.now cell)
        (λ _. Lawful (B.meaning board.now) drawing.now × (cell < (B.meaning board.now).cells)) result }
{
    if !is_lawful(board, drawing) {
        return Err(Refusal::NotLawful);
    }
    if cell >= board.cells() {
        return Err(Refusal::NoSuchCell);
    }
    Ok(())
}

// The drawing is to be lawful, and the cell a wired pad of it.
pub fn check_wired_pad<B: Board>(board: &B, drawing: &[Record], cell: u16) -> Result<(), Refusal>
    ensures { Answer number_of (PadRefused (B.meaning board.now) drawing.now cell) (λ _. IsWiredPad (B.meaning board.now) drawing.now cell) result }
{
    check_cell(board, drawing, cell)?;
    if !board.is_pad(cell) {
        return Err(Refusal::NotPad);
    }
    if !record_at(drawing, cell).is_first() {
        return Err(Refusal::NotWired);
    }
    Ok(())
}

// The calls on a drawing that need no search: new, lift, clear and show.
//
// A call that is refused changes nothing, and gives the first number whose condition holds.
ghost use Rattle.std.specs.Prelude.{◌≡◌, length, OnErr};
ghost use Rattle.boards.specs.Refusals.{Answer};
ghost use Rattle.drawings.specs.Nets.{bars};
ghost use Rattle.records.specs.Numbers.{number_of};
ghost use Rattle.drawings.specs.Conditions.{NewRefused, LiftRefused, ClearRefused, ShowRefused};
ghost use Rattle.drawings.specs.Outcomes.{Made, Lifted, Cleared, Shown};

use crate::checks::{check_cell, check_size, check_wired_pad};
use crate::nets::{list_net, take_up};
use boards::board::Board;
use records::record::{Record, put, record_at};
use records::refusal::Refusal;

// Makes every cell free and answers 0.
pub fn new<B: Board>(board: &B, drawing: &mut [Record]) -> Result<u16, Refusal>
    ensures answer { Answer number_of (NewRefused (B.meaning board.now) drawing.old) (Made (B.meaning board.now) drawing.new) result }
    ensures kept { OnErr result (drawing.new ≡ drawing.old) }
{
    check_size(board, drawing)?;
    drawing.fill(Record::Free);
    Ok(0)
}

// Frees the net of a wired pad, changes no other cell, and answers the landing set free.
pub fn lift<B: Board>(board: &B, drawing: &mut [Record], cell: u16) -> Result<u16, Refusal>
    ensures answer { Answer number_of (LiftRefused (B.meaning board.now) drawing.old cell)
        (Lifted (B.meaning board.now) drawing.old drawing.new cell) result }
    ensures kept { OnErr result (drawing.new ≡ drawing.old) }
{
    check_size(board, drawing)?;
    check_wired_pad(board, drawing, cell)?;
    let landing = take_up(drawing, cell).ok_or(Refusal::NotWired)?;
    Ok(landing)
}

// The number of bars.
fn count_bars(drawing: &[Record]) -> usize
    ensures { result ≡ length (bars drawing.now) }
{
    drawing.iter().filter(|record| record.is_barred()).count()
}

// Makes a barred cell free and answers how many bars remain.
pub fn clear<B: Board>(board: &B, drawing: &mut [Record], cell: u16) -> Result<u16, Refusal>
    ensures answer { Answer number_of (ClearRefused (B.meaning board.now) drawing.old cell)
        (Cleared (B.meaning board.now) drawing.old drawing.new cell) result }
    ensures kept { OnErr result (drawing.new ≡ drawing.old) }
{
    check_size(board, drawing)?;
    check_cell(board, drawing, cell)?;
    if !record_at(drawing, cell).is_barred() {
        return Err(Refusal::NotBarred);
    }
    put(drawing, cell, Record::Free);
    Ok(count_bars(drawing) as u16)
}

// Writes the cells of a wired pad's net, from the pad to the landing, to the front of report memory and answers how many they are.
pub fn show<B: Board>(
    board: &B,
    drawing: &[Record],
    report: &mut [u16],
    cell: u16,
) -> Result<u16, Refusal>
    ensures answer { Answer number_of (ShowRefused (B.meaning board.now) drawing.now report.old cell)
        (Shown (B.meaning board.now) drawing.now report.old report.new cell) result }
    ensures kept { OnErr result (report.new ≡ report.old) }
{
    check_size(board, drawing)?;
    if report.len() < 2 * board.cells() as usize {
        return Err(Refusal::ShortReport);
    }
    check_wired_pad(board, drawing, cell)?;
    let count = list_net(drawing, cell, report).ok_or(Refusal::NotWired)?;
    Ok(count as u16)
}

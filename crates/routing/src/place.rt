// The call place.
//
// It gives the first number whose condition holds, and then nothing is changed but where there is no way: there the fence is
// written to report memory. Once it searches it leaves zeros in work memory.
ghost use Rattle.std.specs.Prelude.{◌∷◌, IfErr};
ghost use Rattle.boards.specs.Refusals.{Answer};
ghost use Rattle.drawings.specs.Nets.{wired, bars};
ghost use Rattle.records.specs.Numbers.{number_of};
ghost use Rattle.routing.specs.Conditions.{PlaceStopped, Placeable, PlaceRefused};
ghost use Rattle.routing.specs.Outcomes.{PadPlaced, Fenced, Untouched, Leaves};

use crate::checks::check_search;
use crate::route::{route_within, zero};
use boards::board::Board;
use records::record::{Record, record_at};
use records::refusal::Refusal;

// Whether a pad can be placed, as far as can be told without a search.
fn check_place<B: Board>(
    board: &B,
    drawing: &[Record],
    work: &[u16],
    report: &[u16],
    cell: u16,
) -> Result<(), Refusal>
    ensures { Answer number_of (PlaceStopped (B.meaning board.now) drawing.now work.now report.now cell)
        (λ _. Placeable (B.meaning board.now) drawing.now work.now report.now cell) result }
{
    check_search(board, drawing, work, report, cell)?;
    if !board.is_pad(cell) {
        return Err(Refusal::NotPad);
    }
    if record_at(drawing, cell).is_first() {
        return Err(Refusal::WiredAlready);
    }
    if record_at(drawing, cell).is_barred() {
        return Err(Refusal::BarredAlready);
    }
    Ok(())
}

// Wires a pad, moving other wires as need be, and answers the landing that is used then. If the wired pads and this one cannot
// all be met, it shows the fence.
pub fn place<B: Board>(
    board: &B,
    drawing: &mut [Record],
    work: &mut [u16],
    report: &mut [u16],
    cell: u16,
) -> Result<u16, Refusal>
    ensures answer { Answer number_of (PlaceRefused (B.meaning board.now) drawing.old work.old report.old cell)
        (PadPlaced (B.meaning board.now) drawing.old drawing.new work.old work.new report.old report.new cell) result }
    ensures left { IfErr result (Leaves
        (Untouched drawing.old drawing.new work.old work.new report.old report.new)
        (Fenced (B.meaning board.now) drawing.old drawing.new (bars drawing.old) (cell ∷ wired drawing.old)
        work.old work.new report.old report.new)) }
{
    check_place(board, drawing, work, report, cell)?;
    let work = &mut work[..4 * board.cells() as usize];
    let found = route_within(board, drawing, work, report, cell);
    zero(work);
    found.map_err(|(pads, cells)| Refusal::NoWay { pads, cells })
}

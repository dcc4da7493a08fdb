// The call bar.
//
// It gives the first number whose condition holds, and then nothing is changed but where there is no way: there the fence is
// written to report memory. Once it searches it leaves zeros in work memory.
ghost use Rattle.std.specs.Prelude.{◌∷◌, IfErr};
ghost use Rattle.boards.specs.Refusals.{Answer};
ghost use Rattle.drawings.specs.Nets.{wired, bars};
ghost use Rattle.records.specs.Numbers.{number_of};
ghost use Rattle.routing.specs.Conditions.{BarStopped, Barrable, BarRefused};
ghost use Rattle.routing.specs.Outcomes.{CellBarred, Fenced, Untouched, Leaves};

use crate::checks::check_search;
use crate::reroute::reroute_within;
use crate::route::zero;
use boards::board::Board;
use records::record::{Record, put, record_at};
use records::refusal::Refusal;

// Whether a cell can be barred, as far as can be told without a search.
fn check_bar<B: Board>(
    board: &B,
    drawing: &[Record],
    work: &[u16],
    report: &[u16],
    cell: u16,
) -> Result<(), Refusal>
    ensures { Answer number_of (BarStopped (B.meaning board.now) drawing.now work.now report.now cell)
        (λ _. Barrable (B.meaning board.now) drawing.now work.now report.now cell) result }
{
    check_search(board, drawing, work, report, cell)?;
    if record_at(drawing, cell).is_barred() {
        return Err(Refusal::BarredAlready);
    }
    if record_at(drawing, cell).is_first() {
        return Err(Refusal::WiredPad);
    }
    Ok(())
}

// Bars a cell and keeps the wired pads. A free cell is barred at once, and the answer is 0. A cell on a net is barred if the
// wired pads can be met without it, other wires moved as need be, and the answer is 1; else it shows the fence.
pub fn bar<B: Board>(
    board: &B,
    drawing: &mut [Record],
    work: &mut [u16],
    report: &mut [u16],
    cell: u16,
) -> Result<u16, Refusal>
    ensures answer { Answer number_of (BarRefused (B.meaning board.now) drawing.old work.old report.old cell)
        (CellBarred (B.meaning board.now) drawing.old drawing.new work.old work.new report.old report.new cell) result }
    ensures left { IfErr result (Leaves
        (Untouched drawing.old drawing.new work.old work.new report.old report.new)
        (Fenced (B.meaning board.now) drawing.old drawing.new (cell ∷ bars drawing.old) (wired drawing.old)
        work.old work.new report.old report.new)) }
{
    check_bar(board, drawing, work, report, cell)?;
    if !record_at(drawing, cell).is_net() {
        put(drawing, cell, Record::Barred);
        return Ok(0);
    }
    let work = &mut work[..4 * board.cells() as usize];
    let found = reroute_within(board, drawing, work, report, cell);
    zero(work);
    found
        .map(|_| 1)
        .map_err(|(pads, cells)| Refusal::NoWay { pads, cells })
}

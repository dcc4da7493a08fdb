// A way for one pad more.
ghost use Rattle.std.specs.Prelude.{◌≡◌, ◌*◌, ◌≤◌, true, false, length, replicate, OnErr};
ghost use Rattle.boards.specs.Meaning.{pad_at};
ghost use Rattle.drawings.specs.Nets.{first_at, barred_at};
ghost use Rattle.drawings.specs.Lawful.{Lawful};
ghost use Rattle.routing.specs.Outcomes.{Routed};

use crate::fence::write_fence;
use crate::search::Visits;
use crate::trace::trace;
use boards::board::Board;
use records::record::Record;
use rewiring::rewire::rewire;

// Makes every number zero.
pub fn zero(numbers: &mut [u16])
    ensures { numbers.new ≡ replicate (length numbers.old) 0 }
{
    numbers.fill(0);
}

impl Visits<'_> {
    ghost use Rattle.routing.specs.Memories.{SameMemory};

    // Wires an unwired and unbarred pad of a lawful drawing, moving wires as need be, and gives back the landing that is used then.
    // Where there is no way it writes the fence to report memory and gives back its pads and cells by number, as a pair, which is the
    // form that every refused search has; the drawing and the spare numbers are as before.
    //
    // Drawing, spare numbers and report are the caller's memory, each lent by itself, so what ties them to the board is said at each
    // step.
    pub fn route<B: Board>(
        &mut self,
        board: &B,
        drawing: &mut [Record],
        spare: &mut [u16],
        report: &mut [u16],
        pad: u16,
    ) -> Result<u16, (u16, u16)>
        requires lawful { Lawful (B.meaning board.now) drawing.old }
        requires visits_long { length self.old.entered.now ≡ (B.meaning board.now).cells }
        requires spare_long { length spare.old ≡ (B.meaning board.now).cells }
        requires report_long { 2 * (B.meaning board.now).cells ≤ length report.old }
        requires is_pad { pad_at (B.meaning board.now) pad ≡ true }
        requires unwired { first_at drawing.old pad ≡ false }
        requires unbarred { barred_at drawing.old pad ≡ false }
        ensures routed { Routed (B.meaning board.now) drawing.old drawing.new pad report.old report.new result }
        ensures spared { OnErr result (spare.new ≡ spare.old) }
        ensures long { length self.new.entered.now ≡ length self.old.entered.now }
        ensures same { SameMemory self.old self.new }
    {
        // A `match`: both cases go on to do something of their own.
        match self.search(board, drawing, pad) {
            Some(landing) => {
                let last = self.count - 1;
                let first = trace(self.queue, self.from, last, spare);
                rewire(board, drawing, &spare[first..], self.entered);
                Ok(landing)
            }
            None => Err(write_fence(drawing, self.entered, pad, report)),
        }
    }
}

// The same with what the search remembers in memory of its own: each of the three parts has one number for each cell.
pub fn route<B: Board>(
    board: &B,
    drawing: &mut [Record],
    entered: &mut [u16],
    queue: &mut [u16],
    from: &mut [u16],
    spare: &mut [u16],
    report: &mut [u16],
    pad: u16,
) -> Result<u16, (u16, u16)>
    requires lawful { Lawful (B.meaning board.now) drawing.old }
    requires entered_long { length entered.old ≡ (B.meaning board.now).cells }
    requires queue_long { length queue.old ≡ (B.meaning board.now).cells }
    requires from_long { length from.old ≡ (B.meaning board.now).cells }
    requires spare_long { length spare.old ≡ (B.meaning board.now).cells }
    requires report_long { 2 * (B.meaning board.now).cells ≤ length report.old }
    requires is_pad { pad_at (B.meaning board.now) pad ≡ true }
    requires unwired { first_at drawing.old pad ≡ false }
    requires unbarred { barred_at drawing.old pad ≡ false }
    ensures routed { Routed (B.meaning board.now) drawing.old drawing.new pad report.old report.new result }
    ensures spared { OnErr result (spare.new ≡ spare.old) }
{
    let mut visits = Visits::new(entered, queue, from);
    visits.route(board, drawing, spare, report, pad)
}

// The same with work memory in one piece, four numbers for each cell.
pub fn route_within<B: Board>(
    board: &B,
    drawing: &mut [Record],
    work: &mut [u16],
    report: &mut [u16],
    pad: u16,
) -> Result<u16, (u16, u16)>
    requires lawful { Lawful (B.meaning board.now) drawing.old }
    requires work_long { length work.old ≡ 4 * (B.meaning board.now).cells }
    requires report_long { 2 * (B.meaning board.now).cells ≤ length report.old }
    requires is_pad { pad_at (B.meaning board.now) pad ≡ true }
    requires unwired { first_at drawing.old pad ≡ false }
    requires unbarred { barred_at drawing.old pad ≡ false }
    ensures { Routed (B.meaning board.now) drawing.old drawing.new pad report.old report.new result }
{
    let (mut visits, spare) = Visits::cut(work, board.cells() as usize);
    visits.route(board, drawing, spare, report, pad)
}

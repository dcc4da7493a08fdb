// Another way for a pad, so that a cell of its net can be barred.
ghost use Rattle.std.specs.Prelude.{◌≡◌, ◌*◌, ◌≤◌, true, false, length, slice_set};
ghost use Rattle.boards.specs.Meaning.{Meaning};
ghost use Rattle.linkages.specs.Lists.{Mem};
ghost use Rattle.drawings.specs.Nets.{net_at, first_at, net, Runs};
ghost use Rattle.drawings.specs.Changes.{freed, written};
ghost use Rattle.drawings.specs.Lawful.{Lawful};
ghost use Rattle.routing.specs.Outcomes.{Rerouted};

use crate::search::Visits;
use boards::board::Board;
use drawings::nets::{lay, list_net, take_up};
use records::record::{Record, put, record_at};

// The first cell of the net that a cell is on. The links are followed by a loop, whose end is proved; of an iterator of successors
// no end is known.
pub fn first_of(drawing: &[Record], cell: u16) -> u16
    requires lawful { (m : Meaning) × Lawful m drawing.now }
    requires on_net { net_at drawing.now cell ≡ true }
    ensures first { first_at drawing.now result ≡ true }
    ensures along { Mem cell (net drawing.now result) }
{
    let mut first = cell;
    while let Some(before) = record_at(drawing, first).before() {
        first = before;
    }
    first
}

// Lists the net of a wired pad in memory that has room for it, takes it up and bars a cell. Gives back how long the net was.
fn shut(drawing: &mut [Record], pad: u16, cell: u16, saved: &mut [u16]) -> usize
    requires runs { Runs drawing.old pad (net drawing.old pad) }
    requires room { length drawing.old ≤ length saved.old }
    ensures count { result ≡ length (net drawing.old pad) }
    ensures short { result ≤ length saved.old }
    ensures saves { saved.new ≡ written (net drawing.old pad) saved.old }
    ensures bars { drawing.new ≡ slice_set (freed (net drawing.old pad) drawing.old) cell Record.Barred }
{
    let count = list_net(drawing, pad, saved).unwrap_or(0);
    let _ = take_up(drawing, pad);
    put(drawing, cell, Record::Barred);
    count
}

impl Visits<'_> {
    ghost use Rattle.routing.specs.Memories.{SameMemory};

    // Bars a cell on the net of a wired pad, other than the pad, and finds another way for the pad, moving wires as need be.
    // Where there is no way it writes the fence to report memory and gives back its pads and cells by number; the drawing is as
    // before.
    pub fn reroute<B: Board>(
        &mut self,
        board: &B,
        drawing: &mut [Record],
        spare: &mut [u16],
        report: &mut [u16],
        pad: u16,
        cell: u16,
    ) -> Result<u16, (u16, u16)>
        requires lawful { Lawful (B.meaning board.now) drawing.old }
        requires visits_long { length self.old.entered.now ≡ (B.meaning board.now).cells }
        requires spare_long { length spare.old ≡ (B.meaning board.now).cells }
        requires report_long { 2 * (B.meaning board.now).cells ≤ length report.old }
        requires wired { first_at drawing.old pad ≡ true }
        requires along { Mem cell (net drawing.old pad) }
        requires unwired { first_at drawing.old cell ≡ false }
        ensures rerouted { Rerouted (B.meaning board.now) drawing.old drawing.new cell report.old report.new result }
        ensures long { length self.new.entered.now ≡ length self.old.entered.now }
        ensures same { SameMemory self.old self.new }
    {
        let count = shut(drawing, pad, cell, spare);
        let found = self.route(board, drawing, spare, report, pad);
        if found.is_err() {
            lay(drawing, &spare[..count]);
        }
        found
    }
}

// The same with what the search remembers in memory of its own: each of the three parts has one number for each cell.
pub fn reroute<B: Board>(
    board: &B,
    drawing: &mut [Record],
    entered: &mut [u16],
    queue: &mut [u16],
    from: &mut [u16],
    spare: &mut [u16],
    report: &mut [u16],
    pad: u16,
    cell: u16,
) -> Result<u16, (u16, u16)>
    requires lawful { Lawful (B.meaning board.now) drawing.old }
    requires entered_long { length entered.old ≡ (B.meaning board.now).cells }
    requires queue_long { length queue.old ≡ (B.meaning board.now).cells }
    requires from_long { length from.old ≡ (B.meaning board.now).cells }
    requires spare_long { length spare.old ≡ (B.meaning board.now).cells }
    requires report_long { 2 * (B.meaning board.now).cells ≤ length report.old }
    requires wired { first_at drawing.old pad ≡ true }
    requires along { Mem cell (net drawing.old pad) }
    requires unwired { first_at drawing.old cell ≡ false }
    ensures { Rerouted (B.meaning board.now) drawing.old drawing.new cell report.old report.new result }
{
    let mut visits = Visits::new(entered, queue, from);
    visits.reroute(board, drawing, spare, report, pad, cell)
}

// The same with work memory in one piece, four numbers for each cell, for a cell on any net.
pub fn reroute_within<B: Board>(
    board: &B,
    drawing: &mut [Record],
    work: &mut [u16],
    report: &mut [u16],
    cell: u16,
) -> Result<u16, (u16, u16)>
    requires lawful { Lawful (B.meaning board.now) drawing.old }
    requires work_long { length work.old ≡ 4 * (B.meaning board.now).cells }
    requires report_long { 2 * (B.meaning board.now).cells ≤ length report.old }
    requires on_net { net_at drawing.old cell ≡ true }
    requires unwired { first_at drawing.old cell ≡ false }
    ensures { Rerouted (B.meaning board.now) drawing.old drawing.new cell report.old report.new result }
{
    let pad = first_of(drawing, cell);
    let (mut visits, spare) = Visits::cut(work, board.cells() as usize);
    visits.reroute(board, drawing, spare, report, pad, cell)
}

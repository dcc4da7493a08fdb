// The search for a way from a pad to a landing on no net.
//
// A search enters cells. From a cell on no net it goes on to the cell's outlets. To enter a cell on a net is to take over the
// net from there to its landing, so the search goes on from the cell before it, to which it may also go back; from the first
// cell of a net it goes nowhere. It ends as soon as it enters a landing that is neither barred nor on a net.
ghost use Rattle.std.specs.Prelude.{◌≡◌, ℕ, ◌+◌, ◌*◌, ◌<◌, ◌≤◌, false, length, replicate, slice_index};
ghost use Rattle.records.specs.Records.{record_at};
ghost use Rattle.drawings.specs.Nets.{barred_at};
ghost use Rattle.drawings.specs.Lawful.{Lawful};
ghost use Rattle.rewiring.specs.Trails.{exit_of};
ghost use Rattle.routing.specs.Searches.{notes, was_entered, open_at, entered_also, visited, Alike, Ended};

use crate::route::zero;
use boards::board::Board;
use records::record::{Record, record_at};

// What a search remembers, in memory that is lent to it: a mark for each cell that it entered, the queue of these cells, for each
// place of the queue the place of the cell that it was entered from, and how many cells there are.
#[derive(Drop)]
pub struct Visits<'a> {
    pub(crate) entered: &'a mut [u16],
    pub(crate) queue: &'a mut [u16],
    pub(crate) from: &'a mut [u16],
    pub(crate) count: u16,
    ghost alike: { Alike (length entered.now) (length queue.now) (length from.now) },
}

// What a search leaves in the caller's memory is known only while it is known that the same memory is held, so whatever takes a
// `&mut` of this says so.
impl<'a> Visits<'a> {
    ghost use Rattle.routing.specs.Memories.{notes_of, SameMemory};

    // Memory in three pieces of the same length, with no cell in the queue.
    pub fn new(entered: &'a mut [u16], queue: &'a mut [u16], from: &'a mut [u16]) -> Visits<'a>
        requires { Alike (length entered.old) (length queue.old) (length from.old) }
        ensures { notes_of result ≡ notes entered.old queue.old from.old 0 }
    {
        Visits {
            entered,
            queue,
            from,
            count: 0,
        }
    }

    // Cuts work memory of four numbers for each cell: three are for the search, and the last part is to spare.
    pub(crate) fn cut(work: &'a mut [u16], cells: usize) -> (Visits<'a>, &'a mut [u16])
        requires few { cells ≤ 4096 }
        requires work_long { length work.old ≡ 4 * cells }
        ensures visits_long { length result.0.entered.now ≡ cells }
        ensures spare_long { length result.1.now ≡ cells }
    {
        let (entered, rest) = work.split_at_mut(cells);
        let (queue, rest) = rest.split_at_mut(cells);
        let (from, spare) = rest.split_at_mut(cells);
        (Visits::new(entered, queue, from), spare)
    }

    // The marks of the cells that were entered.
    pub fn marks(&self) -> &[u16]
        ensures { result.now ≡ (notes_of self.now).entered }
    {
        &self.entered[..]
    }

    // The cells that were entered, in their order, at the front of the queue.
    pub fn queued(&self) -> &[u16]
        ensures { result.now ≡ (notes_of self.now).queue }
    {
        &self.queue[..]
    }

    // The places of the cells that they were entered from.
    pub fn origins(&self) -> &[u16]
        ensures { result.now ≡ (notes_of self.now).from }
    {
        &self.from[..]
    }

    // How many cells were entered.
    pub fn entered_count(&self) -> usize
        ensures { result ≡ (notes_of self.now).count }
    {
        usize::from(self.count)
    }

    // Forgets every cell.
    fn clear(&mut self)
        ensures empty { notes_of self.new ≡ notes (replicate (length self.old.entered.now) 0) self.old.queue.now self.old.from.now 0 }
        ensures same { SameMemory self.old self.new }
    {
        zero(self.entered);
        self.count = 0;
    }

    // Notes a cell as entered from the cell at place `at`: it comes to the end of the queue.
    fn enter(&mut self, at: u16, cell: u16)
        requires inside { cell < length self.old.entered.now }
        requires room { self.old.count < length self.old.entered.now }
        ensures enters { notes_of self.new ≡ entered_also (notes_of self.old) at cell }
        ensures same { SameMemory self.old self.new }
    {
        self.entered[cell as usize] = 1;
        self.queue[self.count as usize] = cell;
        self.from[self.count as usize] = at;
        self.count += 1;
    }

    // Enters a cell from the cell at place `at` of the queue, unless it is barred or was entered before.
    fn visit(&mut self, drawing: &[Record], at: u16, cell: u16)
        requires inside { cell < length self.old.entered.now }
        requires room { was_entered self.old.entered.now cell ≡ false → self.old.count < length self.old.entered.now }
        ensures visits { notes_of self.new ≡ visited drawing.now (notes_of self.old) at cell }
        ensures same { SameMemory self.old self.new }
    {
        if !record_at(drawing, cell).is_barred() && self.entered[cell as usize] != 1 {
            self.enter(at, cell);
        }
    }

    // Searches from a cell that is not barred, in memory that has no cell yet: enters all that can be entered, until it enters a
    // landing that is neither barred nor on a net. Gives back that landing, or none.
    //
    // The queue grows while the search goes along it, so its places are counted by hand; and the loops are left at once, by a
    // label, where a landing was entered, so the outlets are no chain of iterators.
    fn search_on<B: Board>(&mut self, board: &B, drawing: &[Record], start: u16) -> Option<u16>
        requires lawful { Lawful (B.meaning board.now) drawing.now }
        requires none_entered { (c : ℕ) → slice_index self.old.entered.now c ≡ 0 }
        requires none_queued { self.old.count ≡ 0 }
        requires long { length self.old.entered.now ≡ (B.meaning board.now).cells }
        requires inside { start < (B.meaning board.now).cells }
        requires unbarred { barred_at drawing.now start ≡ false }
        ensures ended { Ended (B.meaning board.now) drawing.now start (notes_of self.new) result }
        ensures long { length self.new.entered.now ≡ length self.old.entered.now }
        ensures same { SameMemory self.old self.new }
    {
        self.enter(0, start);
        if is_open(board, drawing, start) {
            return Some(start);
        }
        let mut at = 0;
        'search: loop {
            if at >= self.count {
                break 'search None;
            }
            if let Some(exit) = exit_of(drawing, self.queue[at as usize]) {
                self.visit(drawing, at, exit);
                for j in 0..8u8 {
                    if let Some(cell) = board.outlet(exit, j) {
                        self.visit(drawing, at, cell);
                        if is_open(board, drawing, cell) {
                            break 'search Some(cell);
                        }
                    }
                }
            }
            at += 1;
        }
    }

    // The same in memory that holds anything.
    pub fn search<B: Board>(&mut self, board: &B, drawing: &[Record], start: u16) -> Option<u16>
        requires lawful { Lawful (B.meaning board.now) drawing.now }
        requires long { length self.old.entered.now ≡ (B.meaning board.now).cells }
        requires inside { start < (B.meaning board.now).cells }
        requires unbarred { barred_at drawing.now start ≡ false }
        ensures ended { Ended (B.meaning board.now) drawing.now start (notes_of self.new) result }
        ensures long { length self.new.entered.now ≡ length self.old.entered.now }
        ensures same { SameMemory self.old self.new }
    {
        self.clear();
        self.search_on(board, drawing, start)
    }
}

// Where a search that has entered a cell goes on from.
fn exit_of(drawing: &[Record], cell: u16) -> Option<u16>
    ensures { result ≡ exit_of (record_at drawing.now cell) cell }
{
    match record_at(drawing, cell) {
        Record::Free => Some(cell),
        Record::Barred => None,
        Record::Net { before, .. } => before,
    }
}

// Whether a cell is a landing that is neither barred nor on a net.
fn is_open<B: Board>(board: &B, drawing: &[Record], cell: u16) -> bool
    ensures { result ≡ open_at (B.meaning board.now) drawing.now cell }
{
    matches!(record_at(drawing, cell), Record::Free) && board.is_landing(cell)
}

// Searches from a cell that is not barred: enters all that can be entered, until it enters a landing that is neither barred
// nor on a net. Gives back that landing, or none, and how many cells were entered. It takes marks of which none is set, and so
// costs no more than what it enters.
pub fn search<B: Board>(
    board: &B,
    drawing: &[Record],
    entered: &mut [u16],
    queue: &mut [u16],
    from: &mut [u16],
    start: u16,
) -> (Option<u16>, u16)
    requires lawful { Lawful (B.meaning board.now) drawing.now }
    requires none_entered { (c : ℕ) → slice_index entered.old c ≡ 0 }
    requires entered_long { length entered.old ≡ (B.meaning board.now).cells }
    requires queue_long { length queue.old ≡ (B.meaning board.now).cells }
    requires from_long { length from.old ≡ (B.meaning board.now).cells }
    requires inside { start < (B.meaning board.now).cells }
    requires unbarred { barred_at drawing.now start ≡ false }
    ensures { Ended (B.meaning board.now) drawing.now start
        (notes entered.new queue.new from.new result.1) result.0 }
{
    // No `Visits::new`: of what a call makes of several references it is not known which they are.
    let count = 0;
    let mut visits = Visits {
        entered,
        queue,
        from,
        count,
    };
    let found = visits.search_on(board, drawing, start);
    (found, visits.count)
}

// One net: how long it is, its cells, taking it up and laying it.
//
// These work on any records: a net is what begins at a cell and comes to an end by going on to the cell after.
ghost use Rattle.std.specs.Prelude.{◌≡◌, ◌<◌, ◌≤◌, ◌^◌, length};
ghost use Rattle.std.specs.Iterator.{YieldsFirst, item_count};
ghost use Rattle.drawings.specs.Nets.{net, Runs, last_of};
ghost use Rattle.drawings.specs.Following.{cells_left};
ghost use Rattle.drawings.specs.Changes.{freed, laid, written, Measured, TakenUp, Listed, Restores};

use records::record::{Record, put, record_at};

// The cells met by going on from one cell to the cell after it. They are never more than there are records, so a ring ends too. A type
// of its own, since its contract tells the cells that are left in the words of the specifications.
#[derive(Debug, Drop)]
pub struct Following<'a> {
    drawing: &'a [Record],
    next: Option<u16>,
    left: usize,
}

impl<'a> Iterator for Following<'a> {
    type Item = u16;

    ghost next_gives = { YieldsFirst cells_left };

    ghost remaining = { item_count cells_left };

    fn next(&mut self) -> Option<u16> {
        let cell = self.next?;
        self.left = self.left.checked_sub(1)?;
        self.next = record_at(self.drawing, cell).after();
        Some(cell)
    }
}

// Follows a net from a cell on.
pub fn follow(drawing: &[Record], first: u16) -> Following<'_>
    ensures cells { cells_left result ≡ net drawing.now first }
    ensures bound { length (net drawing.now first) < 2 ^ 64 }
{
    Following {
        drawing,
        next: Some(first),
        left: drawing.len(),
    }
}

// How many cells there are from a cell to the end of its net; none if going on from it comes to no end of a net.
pub fn net_length(drawing: &[Record], first: u16) -> Option<usize>
    ensures { Measured drawing.now first result }
{
    let (place, last) = follow(drawing, first).enumerate().last()?;
    record_at(drawing, last).is_last().then_some(place + 1)
}

// Frees the cells from a cell to the end of its net and gives back the last of them.
fn free_from(drawing: &mut [Record], first: u16) -> u16
    requires { Runs drawing.old first (net drawing.old first) }
    ensures last { result ≡ last_of first (net drawing.old first) }
    ensures frees { drawing.new ≡ freed (net drawing.old first) drawing.old }
{
    // By hand: `follow` would borrow the records that are written on the way.
    let mut cell = first;
    while let Some(next) = record_at(drawing, cell).after() {
        put(drawing, cell, Record::Free);
        cell = next;
    }
    let last = cell;
    put(drawing, last, Record::Free);
    last
}

// Takes up a net: frees the cells from its first cell on and gives back the last of them.
// None, and nothing is changed, if going on from the cell comes to no end of a net.
// Laying the net of a wired pad again gives the same drawing.
pub fn take_up(drawing: &mut [Record], first: u16) -> Option<u16>
    ensures answer { TakenUp drawing.old drawing.new first result }
    ensures restores { Restores drawing.old drawing.new first }
{
    net_length(drawing, first)?;
    Some(free_from(drawing, first))
}

// Lays a list of cells as a net: the first has none before it, the last none after it. A number past the last record is passed over.
pub fn lay(drawing: &mut [Record], cells: &[u16])
    ensures { drawing.new ≡ laid cells.now drawing.old }
{
    // The list is taken apart from the front, since each cell is written with both of its neighbours.
    let mut before = None;
    let mut rest = cells;
    while let [cell, others @ ..] = rest {
        let after = others.first().copied();
        put(drawing, *cell, Record::Net { before, after });
        before = Some(*cell);
        rest = others;
    }
}

// Writes the cells from a cell to the end of its net to the front of a list that has room for them.
fn list_from(drawing: &[Record], first: u16, into: &mut [u16])
    requires { length (net drawing.now first) ≤ length into.old }
    ensures { into.new ≡ written (net drawing.now first) into.old }
{
    // By place: after an adapter of `iter_mut` nothing is known of the numbers that were written.
    for (place, cell) in follow(drawing, first).enumerate() {
        into[place] = cell;
    }
}

// Writes the cells of a net, from its first cell on, to the front of a list and gives back how many they are.
// None, and nothing is written, if going on from the cell comes to no end of a net or the list has not room for it.
pub fn list_net(drawing: &[Record], first: u16, into: &mut [u16]) -> Option<usize>
    ensures { Listed drawing.now first into.old into.new result }
{
    let count = net_length(drawing, first)?;
    if count > into.len() {
        return None;
    }
    list_from(drawing, first, into);
    Some(count)
}

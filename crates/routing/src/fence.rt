// The fence of a search that found no way.
//
// It shows the pads to be met that were entered, and of each net that was entered the last cell that was.
ghost use Rattle.std.specs.Prelude.{◌≡◌, ℕ, ◌*◌, ◌≤◌, Bool, ◌++◌, length};
ghost use Rattle.drawings.specs.Changes.{written};
ghost use Rattle.routing.specs.Searches.{was_entered};
ghost use Rattle.routing.specs.Showing.{shows_pad, shows_cell, shown_pads, shown_cells, Tells, WritesPassing};

use records::record::{Record, record_at};

// Whether a search entered a cell.
fn was_entered(entered: &[u16], cell: u16) -> bool
    ensures { result ≡ was_entered entered.now cell }
{
    entered.get(cell as usize) == Some(&1)
}

// Whether a cell is a pad to be met that was entered: the start, or a wired pad.
fn shows_pad(drawing: &[Record], entered: &[u16], start: u16, cell: u16) -> bool
    ensures { result ≡ shows_pad drawing.now entered.now start cell }
{
    was_entered(entered, cell) && (cell == start || record_at(drawing, cell).is_first())
}

// Whether a cell is the last cell of a net that was entered.
fn shows_cell(drawing: &[Record], entered: &[u16], cell: u16) -> bool
    ensures { result ≡ shows_cell drawing.now entered.now cell }
{
    match record_at(drawing, cell) {
        Record::Net { after, .. } => {
            was_entered(entered, cell) && after.is_none_or(|next| !was_entered(entered, next))
        }
        Record::Free | Record::Barred => false,
    }
}

// Writes the numbers below `end` that pass a test, in rising order, to the front of a list, and gives back how many they are.
// The count is kept by hand, since it is the answer as well as the next place to write to.
fn write_passing<F: Fn(u16) -> bool>(end: u16, passes: F, into: &mut [u16]) -> u16
    requires callable { F.IsAlwaysCallable passes }
    requires room { end ≤ length into.old }
    ensures few { result ≤ end }
    ensures passing { (p : ℕ → Bool) → Tells (F.post passes) p end → WritesPassing p end into.old into.new result }
{
    let mut count = 0;
    for cell in 0..end {
        if passes(cell) {
            into[count as usize] = cell;
            count += 1;
        }
    }
    count
}

// Writes the pads that are shown, then the cells, to the front of report memory, and gives back both counts.
pub fn write_fence(
    drawing: &[Record],
    entered: &[u16],
    start: u16,
    report: &mut [u16],
) -> (u16, u16)
    requires few { length drawing.now ≤ 4096 }
    requires room { 2 * length drawing.now ≤ length report.old }
    ensures pads { result.0 ≡ length (shown_pads drawing.now entered.now start) }
    ensures cells { result.1 ≡ length (shown_cells drawing.now entered.now) }
    ensures writes { report.new
        ≡ written (shown_pads drawing.now entered.now start ++ shown_cells drawing.now entered.now) report.old }
{
    let end = drawing.len() as u16;
    let pads = write_passing(end, |cell| shows_pad(drawing, entered, start, cell), report);
    let cells = write_passing(
        end,
        |cell| shows_cell(drawing, entered, cell),
        &mut report[pads as usize..],
    );
    (pads, cells)
}

// Taking a trail back, cell by cell, from its landing to its pad.
//
// All along there is one net that begins at the cell of the trail that was come to, in place of a pad.
ghost use Rattle.std.specs.Prelude.{◌≡◌, ℕ, ◌<◌, length, slice_set};
ghost use Rattle.boards.specs.Meaning.{Meaning};
ghost use Rattle.drawings.specs.Lawful.{Lawful};
ghost use Rattle.rewiring.specs.Trails.{Trail};
ghost use Rattle.rewiring.specs.Moves.{with_before, with_after, alone, linked, moved, Opened};

use records::record::{Record, put, record_at};

// Puts a cell on a net, with these before it and after it.
fn put_net(drawing: &mut [Record], cell: u16, before: Option<u16>, after: Option<u16>)
    ensures { drawing.new ≡ slice_set drawing.old cell (Record.Net before after) }
{
    put(drawing, cell, Record::Net { before, after });
}

// Makes a cell a net by itself.
fn begin(drawing: &mut [Record], cell: u16)
    ensures { drawing.new ≡ alone drawing.old cell }
{
    put_net(drawing, cell, None, None);
}

// Gives one cell another cell after it, or none, and one cell another before it, or none. Both are on nets then, and what they
// name at their other ends stays.
fn relink(drawing: &mut [Record], from: u16, after: Option<u16>, to: u16, before: Option<u16>)
    ensures { drawing.new ≡ with_before (with_after drawing.old from after) to before }
{
    put_net(drawing, from, record_at(drawing, from).before(), after);
    put_net(drawing, to, before, record_at(drawing, to).after());
}

// Puts one cell right after another.
fn link(drawing: &mut [Record], from: u16, to: u16)
    ensures { drawing.new ≡ linked drawing.old from to }
{
    relink(drawing, from, Some(to), to, Some(from));
}

// Takes the net that begins at the cell `to` back to the cell of the trail before it.
fn take_back(drawing: &mut [Record], from: u16, to: u16)
    ensures { drawing.new ≡ moved drawing.old from to }
{
    match record_at(drawing, from).before() {
        Some(exit) => {
            relink(drawing, exit, None, from, None);
            if exit == to {
                put(drawing, to, Record::Free);
            } else {
                link(drawing, exit, to);
            }
        },
        None => {
            begin(drawing, from);
            link(drawing, from, to);
        },
    }
}

// Takes a whole trail back: a net begins at its landing and is taken back to its pad.
pub fn follow_back(drawing: &mut [Record], trail: &[u16])
    requires { 0 < length trail.now }
    ensures { (m : Meaning) (p z : ℕ) → Lawful m drawing.old → Trail m drawing.old p z trail.now →
        Opened m drawing.old drawing.new p z }
{
    begin(drawing, trail[trail.len() - 1]);
    for pair in trail.windows(2).rev() {
        take_back(drawing, pair[0], pair[1]);
    }
}

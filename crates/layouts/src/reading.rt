// Reading the net of a pad as a wire: its layer and its points.
//
// A net lies on layer 2 if its second cell is the one below its pad, else on layer 1. The wire runs through the points of the
// net's cells on that layer, in the net's order.
ghost use Rattle.std.specs.Prelude.{◌≡◌, ◌+◌, ◌<◌, ◌≤◌, [], ◌∷◌, ◌++◌, length, take, drop, OnErr, slice_index_or};
ghost use Rattle.boards.specs.Places.{nowhere};
ghost use Rattle.boards.specs.Refusals.{Answer};
ghost use Rattle.drawings.specs.Nets.{net};
ghost use Rattle.records.specs.Numbers.{number_of};
ghost use Rattle.layouts.specs.Readings.{right_below, lies_on, points_on, places_of, reading, points_written, WireGiven, ReadRefused};
ghost use Rattle.layouts.specs.Theorems.{FieldLayouts};

use crate::wires::{Layer, Point};
use boards::board::Board;
use boards::place::{Place, PlacedBoard};
use drawings::checks::{check_size, check_wired_pad};
use drawings::nets::follow;
use records::record::Record;
use records::refusal::Refusal;

// The place of no cell, as the definitions have it, which speak of lists of places.
const NOWHERE: Place = Place {
    layer: 0,
    row: 0,
    column: 0,
};

// The place of a cell, and a place on layer 0 for a number that is no cell.
fn place_or_nowhere<B: PlacedBoard>(board: &B, cell: u16) -> Place
    ensures { result ≡ slice_index_or (B.PlacedBoard.places board.now) cell nowhere }
{
    board.place(cell).unwrap_or(NOWHERE)
}

// Whether a cell lies right below another.
fn is_right_below<B: PlacedBoard>(board: &B, upper: u16, lower: u16) -> bool
    ensures { result ≡ right_below (slice_index_or (B.PlacedBoard.places board.now) upper nowhere)
        (slice_index_or (B.PlacedBoard.places board.now) lower nowhere) }
{
    let upper = place_or_nowhere(board, upper);
    let lower = place_or_nowhere(board, lower);
    lower.layer as u32 == upper.layer as u32 + 1 && Point::from(lower) == Point::from(upper)
}

// The layer on which the net of a pad lies.
fn net_layer<B: PlacedBoard>(board: &B, drawing: &[Record], pad: u16) -> Layer
    ensures { result ≡ lies_on (places_of (B.PlacedBoard.places board.now) (net drawing.now pad)) }
{
    if follow(drawing, pad)
        .nth(1)
        .is_some_and(|second| is_right_below(board, pad, second))
    {
        Layer::Bottom
    } else {
        Layer::Top
    }
}

// Writes the points of a net's cells on a layer to the front of a list, and gives back how many they are: the caller lends the
// list, so the count stands beside it.
fn list_points<B: PlacedBoard>(
    board: &B,
    drawing: &[Record],
    pad: u16,
    layer: Layer,
    points: &mut [Point],
) -> usize
    requires { length (net drawing.now pad) ≤ length points.old }
    ensures count { result ≡ length (points_on layer (places_of (B.PlacedBoard.places board.now) (net drawing.now pad))) }
    ensures writes { points.new ≡ points_written (points_on layer (places_of (B.PlacedBoard.places board.now) (net drawing.now pad))) points.old }
{
    let mut count = 0;
    for cell in follow(drawing, pad) {
        let place = place_or_nowhere(board, cell);
        if place.layer == layer.number() {
            points[count] = place.into();
            count += 1;
        }
    }
    count
}

// Reads the net of a wired pad as a wire: gives back its layer and how many points it has, and writes the points, from the
// pad's on, to the front of the list lent, which has room for one for each cell of the board.
//
// On a field this reading is the legal layout that the drawing stands for.
#[tactic(auto, using(crate::proofs::FieldWays::field_layouts))]
pub fn read_wire<B: PlacedBoard>(
    board: &B,
    drawing: &[Record],
    pad: u16,
    points: &mut [Point],
) -> Result<(Layer, u16), Refusal>
    ensures answer { Answer number_of (ReadRefused (B.Board.meaning board.now) drawing.now points.old pad)
        (λ w. WireGiven (reading (B.PlacedBoard.places board.now) drawing.now pad) points.old points.new w.0 w.1) result }
    ensures kept { OnErr result (points.new ≡ points.old) }
    ensures layouts { FieldLayouts }
{
    check_size(board, drawing)?;
    if points.len() < board.cells() as usize {
        return Err(Refusal::ShortReport);
    }
    check_wired_pad(board, drawing, pad)?;
    let layer = net_layer(board, drawing, pad);
    let count = list_points(board, drawing, pad, layer, points);
    Ok((layer, count as u16))
}

// The wires of a drawing, each on its layer.
use boards::board::Board;
use boards::place::{Place, PlacedBoard};
use layouts::reading::read_wire;
use layouts::wires::Point;
use records::record::{Record, record_at};
use std::alloc::{AllocError, Global};

// A label for each cell of a drawing but the free ones: a letter for each wire, capital at its pad, # for a bar.
pub fn labels<B: PlacedBoard>(
    heap: Global,
    board: &B,
    drawing: &[Record],
) -> Result<Vec<Option<char>>, AllocError> {
    let mut labels: Vec<Option<char>> = drawing
        .iter()
        .map(|record| record.is_barred().then_some('#'))
        .collect(heap)?;
    let mut points = vec![in heap; Point { row: 0, column: 0 }; drawing.len()]?;
    let pads = (0..board.cells()).filter(|pad| record_at(drawing, *pad).is_first());
    for (wire, pad) in pads.enumerate() {
        // The letters begin anew after 26 wires, and after 256.
        let letter = (wire % 256 % 26) as u8;
        label_wire(
            board,
            drawing,
            pad,
            &mut points,
            &mut labels,
            (b'a' + letter) as char,
        );
        write(&mut labels, pad, (b'A' + letter) as char);
    }
    Ok(labels)
}

// Writes a letter at the points of a pad's wire on its layer, and at its landing, which on a field lies on layer 2. The points come in
// memory that is lent, as every call has it, and are cut to those of the wire at once.
fn label_wire<B: PlacedBoard>(
    board: &B,
    drawing: &[Record],
    pad: u16,
    points: &mut [Point],
    labels: &mut [Option<char>],
    letter: char,
) {
    let Ok((layer, count)) = read_wire(board, drawing, pad, points) else {
        return;
    };
    let wire = points.get(..count as usize).unwrap_or_default();
    let on_its_layer = wire.iter().map(|point| place_on(layer.number(), *point));
    let landing = wire.last().map(|point| place_on(2, *point));
    for place in on_its_layer.chain(landing) {
        if let Some(cell) = board.cell_at(place) {
            write(labels, cell, letter);
        }
    }
}

fn place_on(layer: u16, point: Point) -> Place {
    let Point { row, column } = point;
    Place { layer, row, column }
}

fn write(labels: &mut [Option<char>], cell: u16, label: char) {
    if let Some(place) = labels.get_mut(cell as usize) {
        *place = Some(label);
    }
}

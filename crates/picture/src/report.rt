// What is shown for a text: its fault, the refusal of its map, or the board.
use crate::canvas::{Canvas, LEGEND};
use crate::orders::{Outcome, courses, perform};
use crate::sheet::{Shape, Sheet, read_sheet};
use crate::wires::labels;
use boards::board::Board;
use boards::count::{Mark, count_marked};
use boards::escape::Escape;
use boards::field::Field;
use boards::maps::{MapKind, check_map};
use boards::place::PlacedBoard;
use runs::calls::Order;
use std::alloc::{AllocError, Global};

pub fn report(heap: Global, text: &str) -> Result<String, AllocError> {
    match read_sheet(heap, text) {
        Ok(sheet) => report_sheet(heap, sheet),
        Err(error) => format!(in heap; "{error}\n"),
    }
}

fn report_sheet(heap: Global, sheet: Sheet) -> Result<String, AllocError> {
    let Sheet {
        shape,
        bytes,
        orders,
    } = sheet;
    let Shape {
        kind,
        rows,
        columns,
    } = shape;
    if let Err(refusal) = check_map(kind, rows, columns, &bytes) {
        let number = refusal.number();
        return format!(in heap; "refused, {number}: {refusal}\n");
    }
    // The two boards differ in type, so each arm makes its own.
    match kind {
        MapKind::FieldMap => {
            report_board(heap, &Field::new(rows, columns, bytes), &orders, shape)
        }
        MapKind::EscapeMap => {
            report_board(heap, &Escape::new(rows, columns, bytes), &orders, shape)
        }
    }
}

// The numbers of a board, the answers to the calls on it, and the picture of what stands then.
fn report_board<B: PlacedBoard>(
    heap: Global,
    board: &B,
    orders: &[Order],
    shape: Shape,
) -> Result<String, AllocError> {
    let cells = board.cells();
    let pads = count_marked(board, Mark::Pad);
    let landings = count_marked(board, Mark::Landing);
    let Outcome { drawing, answers } = perform(heap, board, orders)?;
    let courses = courses(heap, board, &drawing)?;
    let labels = labels(heap, board, &drawing)?;
    let picture = Canvas {
        board,
        labels: &labels,
        shape,
    };
    format!(in heap;
        "{shape}: {cells} cells, {pads} pads, {landings} landings\n{answers}{courses}{picture}\n{LEGEND}\n"
    )
}

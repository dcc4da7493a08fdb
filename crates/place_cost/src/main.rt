// What placing costs: it places pads one after another on a field where every landing is needed.
//
// The field has 32 columns. The pads stand in its middle, in every second of 16 columns and in every second of the middle half of
// the rows: twice as many as there are rows. The landings are the points of the first and the last column: just as many. So
// the wires have to spread, and early ones have to be moved for late ones.
// Arguments: the rows of the field, a multiple of 4 up to 64, and how many pads to place. To know what the last place takes, count
// the instructions of a run with it and of a run without it.
#![tactic(auto)]

ghost use Rattle.std.specs.Prelude.{◌≡◌, ◌<◌, ◌≤◌, true};

use boards::board::Board;
use boards::field::Field;
use drawings::calls::new;
use records::record::Record;
use routing::place::place;
use std::alloc::{AllocError, Global};
use std::{env, io};

// What stands at a point: landings at both ends of a row, and pads between them in the rows that have some.
fn point(padded: bool, column: u16) -> u8
    ensures first { column ≡ 0 → result ≡ 2 }
    ensures last { column ≡ 31 → result ≡ 2 }
    ensures left { 0 < column → column < 8 → result ≡ 0 }
    ensures right { 23 < column → column < 31 → result ≡ 0 }
    ensures pads { result ≡ 1 → padded ≡ true }
{
    match column {
        0 | 31 => 2,
        8..=23 if padded && column % 2 == 0 => 1,
        _ => 0,
    }
}

// Whether pads stand in the row: in every second one of the middle half.
fn has_pads(rows: u16, row: u16) -> bool {
    let start = rows / 4;
    row >= start && (row - start) / 2 < start && (row - start) % 2 == 0
}

// The points of the field, row by row. It is kept out of `main`, so that the code that places is built as it is counted.
#[inline(never)]
fn map(heap: Global, rows: u16) -> Result<Vec<u8>, AllocError> {
    (0..rows)
        .flat_map(|row| (0..32).map(move |column| point(has_pads(rows, row), column)))
        .collect(heap)
}

// The i-th pad to be placed: 37 has no factor in common with the number of pads, so that each comes once, far from the last.
fn pad(rows: u16, i: u16) -> u16
    requires some { 0 < rows }
    requires rows { rows ≤ 64 }
    requires pads { i < 128 }
{
    let k = i * 37 % (2 * rows);
    let row = rows / 4 + 2 * (k / 8);
    row * 32 + 8 + 2 * (k % 8)
}

// Places so many pads, and answers how many of them were accepted. The loop counts them itself, since each place changes the drawing
// for the next, which a closure would have to capture.
fn place_pads<B: Board>(heap: Global, board: &B, rows: u16, count: u16) -> Result<u16, AllocError>
    requires some { 0 < rows }
    requires rows { rows ≤ 64 }
    requires pads { count ≤ 128 }
{
    let cells = board.cells() as usize;
    let mut drawing = vec![in heap; Record::Free; cells]?;
    let mut work = vec![in heap; 0u16; 4 * cells]?;
    let mut report = vec![in heap; 0u16; 2 * cells]?;
    let _ = new(board, drawing.as_mut_slice());
    let mut accepted = 0u16;
    for i in 0..count {
        let answer = place(
            board,
            drawing.as_mut_slice(),
            work.as_mut_slice(),
            report.as_mut_slice(),
            pad(rows, i),
        );
        if answer.is_ok() {
            accepted = accepted.saturating_add(1);
        }
    }
    Ok(accepted)
}

// The next argument as a number, or 0. `lawful_cost` has the same chain, and no crate below both is for arguments.
fn number(args: &mut env::Args) -> u16 {
    args.next()
        .and_then(|text| text.as_str().parse().ok())
        .unwrap_or(0)
}

fn main(rt: HostRuntime) -> io::Result<()> {
    let heap = rt.alloc();
    let mut args = env::args(&rt)?;
    let _name = args.next();
    let rows = number(&mut args).clamp(1, 64);
    let count = number(&mut args).min(128);
    let field = Field::new(rows, 32, map(heap, rows)?);
    let accepted = place_pads(heap, &field, rows, count)?;
    let cells = field.cells();
    println!(rt; "{cells} cells, {accepted} of {count} pads placed")
}

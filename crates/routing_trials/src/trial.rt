// Calls made one after another, and what each answers.
use crate::row::{Kind, Row, RowError, read_row};
use boards::board::Board;
use boards::escape::Escape;
use boards::field::Field;
use boards::keep_out::KeepOut;
use drawings::calls::new;
use drawings::lawful::is_lawful;
use drawings_trials::ring::Ring;
use records::record::{Record, record_at};
use records::refusal::Refusal;
use runs::calls;
use runs::calls::Order;
use runs::step::step;
use std::alloc::{AllocError, Global};
use std::collections::BTreeSet;

// The answers for a line of the table, in the order of its calls.
pub fn answers(heap: Global, line: &str) -> Result<String, AllocError> {
    match read_row(heap, line) {
        Ok(row) => try_row(heap, row),
        Err(RowError::Form) => format!(in heap; "no row"),
        Err(RowError::Memory) => Err(AllocError),
    }
}

fn try_row(heap: Global, row: Row) -> Result<String, AllocError> {
    let Row {
        kind,
        rows,
        columns,
        bytes,
        kept,
        orders,
    } = row;
    // The three boards differ in type, so each arm makes its own.
    match kind {
        Kind::Field => try_board(heap, Field::new(rows, columns, bytes), &kept, &orders),
        Kind::Escape => try_board(heap, Escape::new(rows, columns, bytes), &kept, &orders),
        Kind::Ring => try_board(heap, Ring, &kept, &orders),
    }
}

// The answers to calls on a board with some cells kept out.
fn try_board<B: Board + Drop>(
    heap: Global,
    board: B,
    kept: &[u16],
    orders: &[Order],
) -> Result<String, AllocError> {
    let mut board = KeepOut::new(board);
    for cell in kept {
        let _ = board.close(*cell);
    }
    let mut trial = Trial::new(heap, &board)?;
    let mut answers = Vec::new(heap);
    // A loop, since each call changes the drawing for the next.
    for order in orders {
        let answer = trial.call(heap, *order)?;
        let fault = if trial.stands() { "" } else { " bad" };
        answers.push(format!(in heap; "{answer}{fault}")?)?;
    }
    answers.join(heap, " ")
}

// A drawing on a board, and which cells the accepted calls leave wired, and which barred.
#[derive(Drop)]
struct Trial<'a, B> {
    board: &'a B,
    drawing: Vec<Record>,
    wired: BTreeSet<u16>,
    barred: BTreeSet<u16>,
}

impl<'a, B: Board> Trial<'a, B> {
    fn new(heap: Global, board: &'a B) -> Result<Self, AllocError> {
        let mut drawing = vec![in heap; Record::Barred; board.cells() as usize]?;
        let _ = new(board, &mut drawing);
        Ok(Trial {
            board,
            drawing,
            wired: BTreeSet::new(heap),
            barred: BTreeSet::new(heap),
        })
    }

    // Makes a call with work memory that holds anything, and enters it if it is accepted.
    fn call(&mut self, heap: Global, order: Order) -> Result<String, AllocError> {
        let Order { kind, cell } = order;
        let cells = self.board.cells() as usize;
        let mut work = vec![in heap; 7; 4 * cells]?;
        let mut report = vec![in heap; 7; 2 * cells]?;
        match step(
            self.board,
            &mut self.drawing,
            kind,
            cell,
            &mut work,
            &mut report,
        ) {
            Ok(number) => {
                self.enter(order)?;
                show_answer(heap, kind, number)
            }
            Err(refusal) => show_refusal(heap, refusal, &report),
        }
    }

    fn enter(&mut self, order: Order) -> Result<(), AllocError> {
        let Order { kind, cell } = order;
        // A `match`, since two kinds change each of the sets.
        match kind {
            calls::Kind::Place => self.wired.insert(cell)?,
            calls::Kind::Lift => self.wired.remove(&cell),
            calls::Kind::Bar => self.barred.insert(cell)?,
            calls::Kind::Clear => self.barred.remove(&cell),
        };
        Ok(())
    }

    // Whether the drawing is lawful and its wired pads and bars are those that were entered.
    fn stands(&self) -> bool {
        (0..self.board.cells()).all(|cell| {
            let record = record_at(&self.drawing, cell);
            record.is_first() == self.wired.contains(&cell)
                && record.is_barred() == self.barred.contains(&cell)
        }) && is_lawful(self.board, &self.drawing)
    }
}

// Only the answer to a clear depends on the calls alone.
fn show_answer(heap: Global, kind: calls::Kind, number: u16) -> Result<String, AllocError> {
    if kind == calls::Kind::Clear {
        format!(in heap; "ok{number}")
    } else {
        format!(in heap; "ok")
    }
}

fn show_refusal(heap: Global, refusal: Refusal, report: &[u16]) -> Result<String, AllocError> {
    let number = refusal.number();
    match refusal {
        Refusal::NoWay { pads, cells } => {
            let shown = list_sorted(heap, report, 0, pads)?;
            let fence = list_sorted(heap, report, pads, cells)?;
            format!(in heap; "{number}[{shown}|{fence}]")
        }
        _ => format!(in heap; "{number}"),
    }
}

// So many numbers from a place in report memory on, in rising order: the order in which a fence is written is left open.
fn list_sorted(heap: Global, report: &[u16], from: u16, count: u16) -> Result<String, AllocError> {
    let mut numbers: Vec<u16> = report
        .iter()
        .copied()
        .skip(from as usize)
        .take(count as usize)
        .collect(heap)?;
    numbers.sort_unstable();
    let shown: Vec<String> = numbers
        .iter()
        .map(|number| number.to_string(heap))
        .try_collect(heap)?;
    shown.join(heap, " ")
}

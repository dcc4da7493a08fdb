// Making the calls of a sheet, and what is said of each.
use boards::board::Board;
use drawings::calls::show;
use records::record::{Record, record_at};
use records::refusal::Refusal;
use runs::calls::{Call, Order};
use runs::run::run;
use std::alloc::{AllocError, Global};
use std::fmt;

// The drawing that stands after the calls, and a line for each of them.
#[derive(Debug, Drop)]
pub struct Outcome {
    pub drawing: Vec<Record>,
    pub answers: String,
}

pub fn perform<B: Board>(heap: Global, board: &B, orders: &[Order]) -> Result<Outcome, AllocError> {
    let cells = board.cells() as usize;
    let mut drawing = vec![in heap; Record::Free; cells]?;
    let mut calls: Vec<Call> = orders
        .iter()
        .map(|order| call_for(heap, *order, cells))
        .try_collect(heap)?;
    let _ = run(board, &mut drawing, &mut calls);
    let mut answers = String::new(heap);
    for call in &calls {
        say(&mut answers, call)?;
    }
    Ok(Outcome { drawing, answers })
}

// A call to be made, with memory for a board of so many cells.
fn call_for(heap: Global, order: Order, cells: usize) -> Result<Call, AllocError> {
    Ok(Call {
        order,
        work: vec![in heap; 0; cells.saturating_mul(4)]?,
        report: vec![in heap; 0; cells.saturating_mul(2)]?,
        answer: None,
    })
}

// A line with a call and its answer.
fn say(text: &mut String, call: &Call) -> Result<(), AllocError> {
    let Order { kind, cell } = call.order;
    write!(text, "{kind} {cell}: ")?;
    match call.answer {
        Some(Ok(number)) => writeln!(text, "ok {number}"),
        Some(Err(refusal)) => {
            write!(text, "no {}", refusal.number())?;
            if let Refusal::NoWay { pads, cells } = refusal {
                let shown = part(&call.report, 0, pads);
                let fence = part(&call.report, pads, cells);
                write!(text, ", pads{shown} behind cells{fence}")?;
            }
            writeln!(text)
        }
        None => writeln!(text, "not made"),
    }
}

// Numbers, a blank before each.
#[derive(Clone, Copy, Debug)]
struct Numbers<'a>(&'a [u16]);

impl fmt::Display for Numbers<'_> {
    fn fmt<W: fmt::Write>(&self, f: &mut fmt::Formatter<W>) -> fmt::Result {
        for number in self.0 {
            write!(f, " {number}")?;
        }
        Ok(())
    }
}

// So many of the numbers in report memory, from a place on.
fn part(report: &[u16], from: u16, count: u16) -> Numbers<'_> {
    let from = from as usize;
    Numbers(report.get(from..from + count as usize).unwrap_or_default())
}

// A line for each wired pad: the cells of its net, from the pad to the landing.
pub fn courses<B: Board>(
    heap: Global,
    board: &B,
    drawing: &[Record],
) -> Result<String, AllocError> {
    let mut report = vec![in heap; 0; 2 * board.cells() as usize]?;
    let mut text = String::new(heap);
    for pad in 0..board.cells() {
        if record_at(drawing, pad).is_first()
            && let Ok(count) = show(board, drawing, &mut report, pad)
        {
            let course = part(&report, 0, count);
            writeln!(text, "course of {pad}:{course}")?;
        }
    }
    Ok(text)
}

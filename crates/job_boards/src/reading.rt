// Reading the lines about the board.
ghost use Rattle.std.specs.Prelude.{◌≡◌, IfOk};
ghost use Rattle.job_boards.specs.Plans.{bare};
ghost use Rattle.job_boards.specs.Reading.{plan_of, BoardRead};

use crate::entering::{Stop, enter_line};
use crate::header::Header;
use crate::plan::Plan;
use job_lines::faults::LineFault;
use job_lines::lines::next_line;
use std::alloc::{AllocError, Global};

// A job as far as its calls: the plan of its board, how many lines after the first say it, what is left of the text, and the fault
// of the next line, if it has one.
#[derive(Drop)]
pub struct Reading<'a> {
    pub plan: Plan<'a>,
    pub lines: usize,
    pub rest: &'a [u8],
    pub fault: Option<LineFault>,
}

// Reads the lines after the first, up to a call, a fault or the end.
pub fn read_board<'a>(
    heap: Global,
    header: Header,
    text: &'a [u8],
) -> Result<Reading<'a>, AllocError>
    ensures { IfOk result (BoardRead (bare header.kind header.rows header.columns) text.now) }
{
    let mut plan = bare_plan(heap, header)?;
    let mut lines = 0;
    let mut rest = text;
    let fault = loop {
        let Some((bytes, more)) = next_line(rest) else {
            break None;
        };
        match enter_line(&mut plan, bytes) {
            Ok(()) => {}
            Err(Stop::Call) => break None,
            Err(Stop::Fault(fault)) => break Some(fault),
            Err(Stop::Memory) => return Err(AllocError),
        }
        lines += 1;
        rest = more;
    };
    Ok(Reading {
        plan,
        lines,
        rest,
        fault,
    })
}

// The plan after the first line.
fn bare_plan<'a>(heap: Global, header: Header) -> Result<Plan<'a>, AllocError>
    ensures { IfOk result (λ p. plan_of p ≡ bare header.kind header.rows header.columns) }
{
    let points = header.rows as usize * header.columns as usize;
    Ok(Plan {
        header,
        map: vec![in heap; 0; points]?,
        pads: Vec::new(heap),
        kept: Vec::new(heap),
    })
}

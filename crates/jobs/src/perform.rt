// Performing a job: reading its board, making its calls, and what is said to them.
ghost use Rattle.std.specs.Prelude.{◌≡◌, ℕ, ◌+◌, ◌^◌, ◌<◌, List, [], ◌∷◌, length, IfOk, Some};
ghost use Rattle.job_lines.specs.Lines.{lines_of};
ghost use Rattle.job_boards.specs.Plans.{Plan as PlanOf};
ghost use Rattle.job_boards.specs.Faults.{first_line, Good};
ghost use Rattle.job_boards.specs.Reading.{plan_of, header_form};
ghost use Rattle.job_answers.specs.Texts.{fault_line};
ghost use Rattle.jobs.specs.Calls.{Ends};
ghost use Rattle.jobs.specs.Jobs.{Job};
ghost use Rattle.jobs.specs.Steps.{Describes};

use crate::calls::Setting;
use crate::desk::Desk;
use boards::board::Board;
use boards::escape::Escape;
use boards::field::Field;
use boards::maps::MapKind;
use boards::place::PlacedBoard;
use job_answers::texts::fault_line;
use job_boards::closing::keep_out;
use job_boards::header::Header;
use job_boards::headers::read_header;
use job_boards::plan::{Pad, Plan};
use job_boards::reading::{Reading, read_board};
use job_lines::faults::LineFault;
use job_lines::lines::next_line;
use records::record::Record;
use std::alloc::{AllocError, Global};

// The drawing that stands at the end of a job, what was said, and the fault of the line that ended it. A job whose board has a fault
// has no drawing.
#[derive(Drop)]
pub struct Transcript {
    pub drawing: Vec<Record>,
    pub said: Vec<u8>,
    pub fault: Option<LineFault>,
}

// Performs a job with so much room for what is said. The heap and the room go on as parameters, as callers give them here.
pub fn perform(heap: Global, job: &[u8], room: usize) -> Result<Transcript, AllocError>
    ensures { IfOk result (λ t. Job room (lines_of job.now) t.drawing.items t.said.items t.fault) }
{
    let Some((first, rest)) = next_line(job) else {
        return Ok(Transcript {
            drawing: Vec::new(heap),
            said: Vec::new(heap),
            fault: None,
        });
    };
    match read_header(first) {
        Ok(header) => perform_rest(heap, header, rest, room),
        Err(fault) => end_early(heap, 1, fault),
    }
}

// A job that ends before its calls, at the fault of a line.
fn end_early(heap: Global, line: usize, fault: LineFault) -> Result<Transcript, AllocError>
    ensures { IfOk result (λ t. (t.drawing.items ≡ []) × (t.said.items ≡ fault_line line fault) × (t.fault ≡ Some fault)) }
{
    Ok(Transcript {
        drawing: Vec::new(heap),
        said: fault_line(heap, line, fault)?,
        fault: Some(fault),
    })
}

// The lines after the first.
fn perform_rest(
    heap: Global,
    header: Header,
    text: &[u8],
    room: usize,
) -> Result<Transcript, AllocError>
    requires { length text.now + 1 < 2 ^ 64 }
    ensures { IfOk result (λ t. (bytes : List ℕ) → Good first_line bytes (header_form header.kind header.rows header.columns) →
        Job room (bytes ∷ lines_of text.now) t.drawing.items t.said.items t.fault) }
{
    let Reading {
        plan,
        lines,
        rest,
        fault,
    } = read_board(heap, header, text)?;
    match fault {
        Some(fault) => end_early(heap, lines + 2, fault),
        None => perform_plan(heap, plan, rest, lines + 1, room),
    }
}

// The calls, on the board that was read. That the lines can be counted ties the text that is left to those before it, so it is said at
// each of the functions that take both.
fn perform_plan(
    heap: Global,
    plan: Plan,
    text: &[u8],
    before: usize,
    room: usize,
) -> Result<Transcript, AllocError>
    requires { before + length text.now < 2 ^ 64 }
    ensures { IfOk result (λ t. Ends (plan_of plan.entry) room before (lines_of text.now) t.drawing.items t.said.items t.fault) }
{
    let Plan {
        header,
        map,
        pads,
        kept,
    } = plan;
    let Header { rows, columns, .. } = header;
    // The two boards are of two types, so each arm has a call of its own.
    match header.kind {
        MapKind::FieldMap => {
            let board = Field::new(rows, columns, map);
            perform_calls(heap, board, &kept, &pads, text, before, room)
        }
        MapKind::EscapeMap => {
            let board = Escape::new(rows, columns, map);
            perform_calls(heap, board, &kept, &pads, text, before, room)
        }
    }
}

// The calls on the board of a map with cells kept out, from a fresh drawing on.
fn perform_calls<B: PlacedBoard + Drop>(
    heap: Global,
    base: B,
    kept: &[u16],
    pads: &[Pad],
    text: &[u8],
    before: usize,
    room: usize,
) -> Result<Transcript, AllocError>
    requires { before + length text.now < 2 ^ 64 }
    ensures { IfOk result (λ t. (p : PlanOf) → Describes p (B.Board.meaning base) (B.PlacedBoard.places base) kept.now pads.now →
        Ends p room before (lines_of text.now) t.drawing.items t.said.items t.fault) }
{
    let board = keep_out(base, kept);
    let cells = board.cells() as usize;
    let mut desk = Desk {
        drawing: vec![in heap; Record::Free; cells]?,
        work: vec![in heap; 0; 4 * cells]?,
        report: vec![in heap; 0; 2 * cells]?,
    };
    let setting = Setting {
        heap,
        board: &board,
        pads,
        room,
    };
    let said = setting.make_calls(&mut desk, text, before)?;
    Ok(Transcript {
        drawing: desk.drawing,
        said: said.text,
        fault: said.fault,
    })
}

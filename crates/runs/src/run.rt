// A run of calls on one drawing.
ghost use Rattle.std.specs.Prelude.{◌≡◌, length, OnErr};
ghost use Rattle.boards.specs.Refusals.{Answer};
ghost use Rattle.records.specs.Numbers.{number_of};
ghost use Rattle.drawings.specs.Conditions.{NewRefused};
ghost use Rattle.runs.specs.Told.{Performed, Ran};

use crate::calls::{Call, Order};
use crate::step::step;
use boards::board::Board;
use drawings::calls::new;
use records::record::Record;
use records::refusal::Refusal;

// Makes a drawing and then the calls, one after another; each call then holds its answer, and what its memory holds at the end.
pub fn run<B: Board>(board: &B, drawing: &mut [Record], calls: &mut [Call]) -> Result<(), Refusal>
    ensures answer { Answer number_of (NewRefused (B.meaning board.now) drawing.old)
        (λ _. Ran (B.meaning board.now) drawing.new calls.old calls.new) result }
    ensures kept { OnErr result ((drawing.new ≡ drawing.old) × (calls.new ≡ calls.old)) }
{
    new(board, drawing)?;
    for call in calls.iter_mut() {
        perform(board, drawing, call);
    }
    Ok(())
}

fn perform<B: Board>(board: &B, drawing: &mut [Record], call: &mut Call)
    ensures { Performed (B.meaning board.now) drawing.old drawing.new call.old call.new }
{
    let Order { kind, cell } = call.order;
    let answer = step(board, drawing, kind, cell, &mut call.work, &mut call.report);
    call.answer = Some(answer);
}

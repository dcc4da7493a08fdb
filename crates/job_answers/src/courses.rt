// The course of a net in letters.
ghost use Rattle.std.specs.Prelude.{◌≡◌, IfOk, vec_items};
ghost use Rattle.std.specs.Option.{option_map};
ghost use Rattle.job_answers.specs.Courses.{letter, StepBetween, CellStep, Letters, CoursesAgree};

use boards::place::{Place, PlacedBoard, Step};
use std::alloc::{AllocError, Global};

// The letters of the steps from each of the cells to the next; none if there is no cell, or some cell does not lie one step from
// the one before it.
pub fn course<B: PlacedBoard>(
    heap: Global,
    board: &B,
    cells: &[u16],
) -> Result<Option<Vec<u8>>, AllocError>
    ensures { IfOk result (λ o. Letters (B.PlacedBoard.places board.now) cells.now (option_map vec_items o)) }
{
    let Some((_, later)) = cells.split_first() else {
        return Ok(None);
    };
    // A loop, since it is left at the first cell that lies no step further, and memory can run out on the way.
    let mut letters = Vec::new(heap);
    for (from, to) in cells.iter().zip(later) {
        let Some(step) = step_from(board, *from, *to) else {
            return Ok(None);
        };
        letters.push(letter_of(step))?;
    }
    Ok(Some(letters))
}

// The step from a cell to another; none for a number that is no cell.
fn step_from<B: PlacedBoard>(board: &B, from: u16, to: u16) -> Option<Step>
    ensures { CellStep (B.PlacedBoard.places board.now) from to result }
{
    step_between(board.place(from)?, board.place(to)?)
}

// The step that leads from a place to another.
pub fn step_between(from: Place, to: Place) -> Option<Step>
    ensures { StepBetween from to result }
{
    let layers = i32::from(to.layer) - i32::from(from.layer);
    let rows = i32::from(to.row) - i32::from(from.row);
    let columns = i32::from(to.column) - i32::from(from.column);
    match (layers, rows, columns) {
        (0, -1, 0) => Some(Step::North),
        (0, 0, 1) => Some(Step::East),
        (0, 1, 0) => Some(Step::South),
        (0, 0, -1) => Some(Step::West),
        (1, 0, 0) => Some(Step::Down),
        (-1, 0, 0) => Some(Step::Up),
        _ => None,
    }
}

// The letter of a step. A function, since steps are of another crate.
pub fn letter_of(step: Step) -> u8
    ensures { result ≡ letter step }
{
    match step {
        Step::North => b'N',
        Step::East => b'E',
        Step::South => b'S',
        Step::West => b'W',
        Step::Down => b'D',
        Step::Up => b'U',
    }
}

// The cells and their places leave no choice of letters.
pub fn courses_agree_stands() -> u8
    ensures { CoursesAgree }
{
    0
}

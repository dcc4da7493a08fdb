// Making the calls of a job.
ghost use Rattle.std.specs.Prelude.{◌≡◌, ℕ, ◌+◌, ◌^◌, ◌<◌, ◌≤◌, ◌↔◌, List, length, replicate, IfOk, IsTrue, OnOk};
ghost use Rattle.records.specs.declared.record.Record.TheVariants.{Free};
ghost use Rattle.job_lines.specs.Lines.{lines_of};
ghost use Rattle.job_boards.specs.Plans.{Plan};
ghost use Rattle.job_answers.specs.Courses.{Course};
ghost use Rattle.jobs.specs.declared.calls.Stop.TheVariants.{Fault, Memory};
ghost use Rattle.jobs.specs.Calls.{course_of, Answered, Ends};
ghost use Rattle.jobs.specs.Steps.{Site, wish_of, Ready, Called, SaysCourse, LineDone};

use crate::desk::Desk;
use crate::orders::{Order, Wish, order_of};
use boards::place::{Place, PlacedBoard};
use drawings::calls::show;
use job_answers::courses::course;
use job_answers::texts::{answer_line, fault_line, show_line};
use job_boards::plan::Pad;
use job_lines::faults::LineFault;
use job_lines::lines::next_line;
use job_lines::read::read_line;
use records::refusal::Refusal;
use runs::calls::Kind;
use runs::step::step;
use std::alloc::{AllocError, Global};

// What was said to the calls of a job, and the fault that ended it.
#[derive(Drop)]
pub(crate) struct Said {
    pub(crate) text: Vec<u8>,
    pub(crate) fault: Option<LineFault>,
}

// Why a line is not answered. Reading a board has one end more, so its crate has such an enum of its own.
#[derive(Clone, Copy, PartialEq, Eq, Debug)]
pub(crate) enum Stop {
    Fault(LineFault),
    Memory,
}

impl From<LineFault> for Stop {
    ghost from_gives = { λ fault r. r ≡ Fault fault };

    fn from(fault: LineFault) -> Stop {
        Stop::Fault(fault)
    }
}

impl From<AllocError> for Stop {
    ghost from_gives = { λ _ r. r ≡ Memory };

    fn from(_error: AllocError) -> Stop {
        Stop::Memory
    }
}

// What stays the same over the calls of a job: the board and the pads that its lines describe, and the room for what is said.
#[derive(Clone, Copy)]
pub(crate) struct Setting<'a, B> {
    pub(crate) heap: Global,
    pub(crate) board: &'a B,
    pub(crate) pads: &'a [Pad<'a>],
    pub(crate) room: usize,
}

// That a desk is ready for the calls is a clause of each method: a struct that owns memory has no ghost field that reads the board's
// meaning.
impl<B: PlacedBoard> Setting<'_, B> {
    // Makes the calls of the lines of a text, which come after `before` other lines.
    pub(crate) fn make_calls(
        &self,
        desk: &mut Desk,
        text: &[u8],
        before: usize,
    ) -> Result<Said, AllocError>
        requires ready { Ready (B.Board.meaning self.now.board.now) desk.old }
        requires fresh { desk.old.drawing.items ≡ replicate (B.Board.meaning self.now.board.now).cells Free }
        requires countable { before + length text.now < 2 ^ 64 }
        ensures { IfOk result (λ s. (p : Plan) →
            Site p (B.Board.meaning self.now.board.now) (B.PlacedBoard.places self.now.board.now) self.now.pads.now →
            Ends p self.now.room before (lines_of text.now) desk.new.drawing.items s.text.items s.fault) }
    {
        let mut said = Vec::new(self.heap);
        let mut line = before;
        let mut rest = text;
        while let Some((bytes, more)) = next_line(rest) {
            line += 1;
            match self.answer(desk, bytes, said.len()) {
                Ok(answer) => said.extend_from_slice(answer.as_slice())?,
                Err(Stop::Fault(fault)) => {
                    let last = fault_line(self.heap, line, fault)?;
                    said.extend_from_slice(last.as_slice())?;
                    return Ok(Said {
                        text: said,
                        fault: Some(fault),
                    });
                }
                Err(Stop::Memory) => return Err(AllocError),
            }
            rest = more;
        }
        Ok(Said {
            text: said,
            fault: None,
        })
    }

    // The answer to one line, where so many bytes were said before.
    fn answer(&self, desk: &mut Desk, bytes: &[u8], used: usize) -> Result<Vec<u8>, Stop>
        requires { Ready (B.Board.meaning self.now.board.now) desk.old }
        ensures done { (p : Plan) → Site p (B.Board.meaning self.now.board.now) (B.PlacedBoard.places self.now.board.now) self.now.pads.now →
            LineDone p desk.old.drawing.items desk.new.drawing.items self.now.room used bytes.now result }
        ensures ready { OnOk result (Ready (B.Board.meaning self.now.board.now) desk.new) }
    {
        let line = read_line(bytes).ok_or(LineFault::NoForm)?;
        let order = order_of(self.pads, line)?;
        let answer = self.follow(desk, order)?;
        if !fits(self.room, used, answer.len()) {
            return Err(LineFault::Full.into());
        }
        Ok(answer)
    }

    // Does what is asked for, and gives the answer line.
    fn follow(&self, desk: &mut Desk, order: Order) -> Result<Vec<u8>, AllocError>
        requires { Ready (B.Board.meaning self.now.board.now) desk.old }
        ensures answered { IfOk result (λ v. Answered (B.Board.meaning self.now.board.now) (B.PlacedBoard.places self.now.board.now)
            desk.old.drawing.items (wish_of order.entry.wish) order.entry.place desk.new.drawing.items v.items) }
        ensures ready { OnOk result (Ready (B.Board.meaning self.now.board.now) desk.new) }
    {
        // A `match` over what the line wishes: a table of steps would have to box them.
        match order.wish {
            Wish::Call(kind) => answer_line(self.heap, self.make_call(desk, kind, order.place)),
            Wish::Course(name) => self.tell_course(desk, name, order.place),
        }
    }

    // Makes a call on the cell at a place.
    fn make_call(&self, desk: &mut Desk, kind: Kind, place: Place) -> Result<u16, Refusal>
        requires { Ready (B.Board.meaning self.now.board.now) desk.old }
        ensures called { Called (B.Board.meaning self.now.board.now) (B.PlacedBoard.places self.now.board.now)
            desk.old.drawing.items desk.new.drawing.items kind place result }
        ensures ready { Ready (B.Board.meaning self.now.board.now) desk.new }
    {
        let cell = self.board.cell_at(place).ok_or(Refusal::NoSuchCell)?;
        step(
            self.board,
            desk.drawing.as_mut_slice(),
            kind,
            cell,
            desk.work.as_mut_slice(),
            desk.report.as_mut_slice(),
        )
    }

    // The answer line to a show of the pad at a place.
    fn tell_course(&self, desk: &mut Desk, name: &[u8], place: Place) -> Result<Vec<u8>, AllocError>
        requires { Ready (B.Board.meaning self.now.board.now) desk.old }
        ensures answered { IfOk result (λ v. Answered (B.Board.meaning self.now.board.now) (B.PlacedBoard.places self.now.board.now)
            desk.old.drawing.items (course_of name.now) place desk.new.drawing.items v.items) }
        ensures ready { Ready (B.Board.meaning self.now.board.now) desk.new }
    {
        let Some(cell) = self.board.cell_at(place) else {
            return answer_line(self.heap, Err(Refusal::NoSuchCell));
        };
        match show(
            self.board,
            desk.drawing.as_slice(),
            desk.report.as_mut_slice(),
            cell,
        ) {
            Ok(count) => self.say_course(name, &desk.report.as_slice()[..count as usize]),
            Err(refusal) => answer_line(self.heap, Err(refusal)),
        }
    }

    // The line for a net with these cells.
    fn say_course(&self, name: &[u8], cells: &[u16]) -> Result<Vec<u8>, AllocError>
        requires { (letters : List ℕ) × Course (B.PlacedBoard.places self.now.board.now) cells.now letters }
        ensures { IfOk result (λ v. SaysCourse (B.PlacedBoard.places self.now.board.now) name.now cells.now v.items) }
    {
        let letters = course(self.heap, self.board, cells)?.unwrap();
        show_line(self.heap, name, letters.as_slice())
    }
}

// Whether at least 24 bytes of output remain after so many more.
fn fits(room: usize, used: usize, more: usize) -> bool
    ensures { IsTrue result ↔ (used + more + 24 ≤ room) }
{
    room >= 24 && used <= room - 24 && more <= room - 24 - used
}

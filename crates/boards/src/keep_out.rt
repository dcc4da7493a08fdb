// A keep-out: any board with some of its cells closed.
ghost use Rattle.std.specs.Prelude.{◌≡◌, ℕ, ◌<◌, ◌≤◌, false, length, replicate, sum_by};
ghost use lib.Count.{ones};
ghost use Rattle.boards.specs.Meaning.{outlet_at};
ghost use Rattle.boards.specs.Numbers.{number_of};
ghost use Rattle.boards.specs.Refusals.{Answer};
ghost use Rattle.boards.specs.KeepOuts.{keep_out, is_closed, if_open, closed_count, CloseFault, Closes};
ghost use Rattle.boards.specs.Kept.{kept_bounded, kept_placed};

use crate::board::Board;
use crate::place::{Place, PlacedBoard};
use crate::refusal::BoardRefusal;

#[derive(Drop)]
pub struct KeepOut<B> {
    board: B,
    // A bit for each cell, 64 to a word: set where the cell is closed. That each is a cell of the board is no fact of the
    // struct: such a fact would bind `B` in every type that holds a keep-out.
    mask: [u64; 64],
    ghost full: { length mask ≡ 64 },
}

impl<B: Board> KeepOut<B> {
    // A keep-out over a board, with nothing closed.
    pub fn new(board: B) -> KeepOut<B>
        ensures over { result.board ≡ board }
        ensures nothing { (c : ℕ) → is_closed result.mask c ≡ false }
    {
        KeepOut {
            board,
            mask: [0; 64],
        }
    }

    // Closes a cell; to close it again changes nothing. A number that is no cell is refused.
    pub fn close(&mut self, cell: u16) -> Result<(), BoardRefusal>
        ensures answer { Answer number_of (CloseFault (B.meaning self.old.board) cell) (λ _. Unit {0}) result }
        ensures closes { Closes cell self.old.mask self.new.mask result }
        ensures same_board { self.new.board ≡ self.old.board }
    {
        self.require(cell)?;
        self.mask[(cell / 64) as usize] |= 1 << (cell % 64);
        Ok(())
    }

    // Refuses a number that is no cell.
    fn require(&self, cell: u16) -> Result<(), BoardRefusal>
        ensures { Answer number_of (CloseFault (B.meaning self.now.board) cell) (λ _. cell < (B.meaning self.now.board).cells) result }
    {
        if cell >= self.board.cells() {
            return Err(BoardRefusal::OffBoard);
        }
        Ok(())
    }

    // How many cells are closed.
    pub fn closed_cells(&self) -> u32
        ensures { result ≡ closed_count self.now.mask }
    {
        let words = self.mask.as_slice();
        count_bits(&words[..64])
    }

    // Whether the cell is closed.
    fn is_closed(&self, cell: u16) -> bool
        ensures { result ≡ is_closed self.now.mask cell }
    {
        self.mask
            .get((cell / 64) as usize)
            .is_some_and(|word| (*word >> (cell % 64)) & 1 == 1)
    }

    // The i-th outlet below, if it is open.
    fn open_outlet(&self, cell: u16, i: u8) -> Option<u16>
        ensures { result ≡ if_open (is_closed self.now.mask) (outlet_at (B.meaning self.now.board) cell i) }
    {
        self.board
            .outlet(cell, i)
            .filter(|next| !self.is_closed(*next))
    }
}

// How many bits are set in the words of a mask, or of a part of it.
fn count_bits(words: &[u64]) -> u32
    requires { length words.now ≤ 64 }
    ensures { result ≡ sum_by ones words.now }
{
    words.iter().map(|word| word.count_ones()).sum()
}

impl<B: Board> Board for KeepOut<B> {
    ghost meaning = { λ s. keep_out (is_closed s.mask) (B.Board.meaning s.board) };

    ghost bounded = { λ b. kept_bounded (is_closed b.mask) (B.Board.meaning b.board) (B.Board.bounded b.board) };

    fn cells(&self) -> u16 {
        self.board.cells()
    }

    fn outlet(&self, cell: u16, j: u8) -> Option<u16> {
        if self.is_closed(cell) {
            return None;
        }
        // A loop for its speed, as in `Spot::outlet`, over what this board has: a closure for the difference would cost what it saves.
        let mut left = j;
        for i in 0..8 {
            if let Some(next) = self.open_outlet(cell, i) {
                if left == 0 {
                    return Some(next);
                }
                left -= 1;
            }
        }
        None
    }

    fn is_pad(&self, cell: u16) -> bool {
        !self.is_closed(cell) && self.board.is_pad(cell)
    }

    fn is_landing(&self, cell: u16) -> bool {
        !self.is_closed(cell) && self.board.is_landing(cell)
    }
}

impl<B: PlacedBoard> PlacedBoard for KeepOut<B> {
    ghost places = { λ s. B.PlacedBoard.places s.board };

    ghost placed = { λ b. kept_placed (is_closed b.mask) (B.Board.meaning b.board) (B.PlacedBoard.places b.board) (B.PlacedBoard.placed b.board) };

    fn place(&self, cell: u16) -> Option<Place> {
        self.board.place(cell)
    }

    fn cell_at(&self, place: Place) -> Option<u16> {
        self.board.cell_at(place)
    }
}

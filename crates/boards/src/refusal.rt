// Why a map or a cell to be closed is refused. Users know each refusal by its number.
ghost use Rattle.std.specs.Prelude.{◌≡◌, Some};
ghost use Rattle.boards.specs.Numbers.{number_of, sentence_of};

use std::error::Error;
use std::fmt;

#[derive(Clone, Copy, PartialEq, Eq, Debug)]
pub enum BoardRefusal {
    // The rows or columns are not allowed.
    Sides = 13,
    // The map has not one byte for each point.
    Length = 14,
    // The map has a byte that is not named for its kind of board.
    Byte = 15,
    // A cell or a point is off the board.
    OffBoard = 16,
}

impl BoardRefusal {
    // The number by which the refusal is known to users.
    pub fn number(self) -> u8
        ensures { result ≡ number_of self }
    {
        self as u8
    }

    // What is wrong, in words.
    fn sentence(self) -> &'static str
        ensures { result.now ≡ sentence_of self }
    {
        match self {
            BoardRefusal::Sides =>
                "rows and columns are 1 to 64 each, and at most 2048 points together",
            BoardRefusal::Length => "the map has not one byte for each point",
            BoardRefusal::Byte => "the map has a byte that means nothing on such a board",
            BoardRefusal::OffBoard => "a point or a cell is off the board",
        }
    }
}

impl fmt::Display for BoardRefusal {
    ghost output = { λ refusal. Some (sentence_of refusal) };

    fn fmt<W: fmt::Write>(&self, f: &mut fmt::Formatter<W>) -> fmt::Result {
        f.write_str(self.sentence())
    }
}

impl Error for BoardRefusal {}

// Why a drawing call is refused.
ghost use Rattle.std.specs.Prelude.{◌≡◌, Some};
ghost use Rattle.records.specs.Numbers.{number_of, sentence_of};

use std::fmt;

// Each case has a number; a call gives the first, in rising order, whose condition holds.
#[derive(Clone, Copy, PartialEq, Eq, Debug)]
pub enum Refusal {
    // The drawing memory is not exactly one record for each cell.
    WrongDrawing,
    // Work memory has fewer than four numbers for each cell.
    ShortWork,
    // Report memory has fewer than two numbers for each cell.
    ShortReport,
    // The drawing is not lawful.
    NotLawful,
    // The number is no cell.
    NoSuchCell,
    // The cell is no pad.
    NotPad,
    // The pad is wired already.
    WiredAlready,
    // The pad is not wired.
    NotWired,
    // The cell is barred already.
    BarredAlready,
    // The cell is not barred.
    NotBarred,
    // The cell is a wired pad.
    WiredPad,
    // There is no way: the pads behind the fence, and the cells in it.
    NoWay { pads: u16, cells: u16 },
}

impl Refusal {
    // The number of the refusal, 1 to 12.
    pub fn number(&self) -> u8
        ensures { result ≡ number_of self.now }
    {
        // A `match`, since the cases of an enum have no numbers of their own where one of them holds values.
        match self {
            Refusal::WrongDrawing => 1,
            Refusal::ShortWork => 2,
            Refusal::ShortReport => 3,
            Refusal::NotLawful => 4,
            Refusal::NoSuchCell => 5,
            Refusal::NotPad => 6,
            Refusal::WiredAlready => 7,
            Refusal::NotWired => 8,
            Refusal::BarredAlready => 9,
            Refusal::NotBarred => 10,
            Refusal::WiredPad => 11,
            Refusal::NoWay { .. } => 12,
        }
    }
}

impl fmt::Display for Refusal {
    ghost output = { λ refusal. Some (sentence_of refusal) };

    fn fmt<W: fmt::Write>(&self, f: &mut fmt::Formatter<W>) -> fmt::Result {
        f.write_str(match self {
            Refusal::WrongDrawing => "the drawing memory is not exactly one record for each cell",
            Refusal::ShortWork => "work memory has fewer than four numbers for each cell",
            Refusal::ShortReport => "report memory has fewer than two numbers for each cell",
            Refusal::NotLawful => "the drawing is not lawful",
            Refusal::NoSuchCell => "the number is no cell",
            Refusal::NotPad => "the cell is no pad",
            Refusal::WiredAlready => "the pad is wired already",
            Refusal::NotWired => "the pad is not wired",
            Refusal::BarredAlready => "the cell is barred already",
            Refusal::NotBarred => "the cell is not barred",
            Refusal::WiredPad => "the cell is a wired pad",
            Refusal::NoWay { pads, cells } => {
                return write!(
                    f,
                    "there is no way: pads behind the fence {pads}, cells in it {cells}"
                );
            }
        })
    }
}

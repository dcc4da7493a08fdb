// Calls, as a run takes them.
ghost use Rattle.std.specs.Prelude.{◌≡◌, Some};
ghost use Rattle.std.specs.Result.{result_ok};
ghost use Rattle.runs.specs.Words.{word_of, ReadsKind, unknown_word};

use records::refusal::Refusal;
use std::error::Error;
use std::fmt;
use std::str::FromStr;

// What a call does.
#[derive(Clone, Copy, PartialEq, Eq, Debug)]
pub enum Kind {
    Place,
    Lift,
    Bar,
    Clear,
}

// That no call is written by a word.
#[derive(Clone, Copy, PartialEq, Eq, Debug)]
pub struct UnknownKind;

impl Kind {
    // The word by which users write the call.
    pub fn word(self) -> &'static str
        ensures { result.now ≡ word_of self }
    {
        match self {
            Kind::Place => "place",
            Kind::Lift => "lift",
            Kind::Bar => "bar",
            Kind::Clear => "clear",
        }
    }
}

// The kind of call that a word is for, if there is one.
pub fn read_kind(word: &str) -> Option<Kind>
    ensures { ReadsKind word.now result }
{
    word.parse().ok()
}

// The same with an error of its own.
impl FromStr for Kind {
    type Err = UnknownKind;

    ghost from_str_gives = { λ word r. ReadsKind word (result_ok r) };

    fn from_str(word: &str) -> Result<Kind, UnknownKind> {
        match word {
            "place" => Ok(Kind::Place),
            "lift" => Ok(Kind::Lift),
            "bar" => Ok(Kind::Bar),
            "clear" => Ok(Kind::Clear),
            _ => Err(UnknownKind),
        }
    }
}

impl fmt::Display for Kind {
    ghost output = { λ kind. Some (word_of kind) };

    fn fmt<W: fmt::Write>(&self, f: &mut fmt::Formatter<W>) -> fmt::Result {
        f.write_str(self.word())
    }
}

impl fmt::Display for UnknownKind {
    ghost output = { λ _. Some unknown_word };

    fn fmt<W: fmt::Write>(&self, f: &mut fmt::Formatter<W>) -> fmt::Result {
        f.write_str("no call is written by this word")
    }
}

impl Error for UnknownKind {}

// What to do, and to which cell.
#[derive(Clone, Copy, PartialEq, Eq, Debug)]
pub struct Order {
    pub kind: Kind,
    pub cell: u16,
}

// A call with the memory that it brings, and its answer once it was made.
#[derive(Debug, PartialEq, Eq, Drop)]
pub struct Call {
    pub order: Order,
    pub work: Vec<u16>,
    pub report: Vec<u16>,
    pub answer: Option<Result<u16, Refusal>>,
}

// What can be wrong with a line of a job.
ghost use Rattle.std.specs.Prelude.{◌≡◌};
ghost use Rattle.job_lines.specs.Faults.{fault_number, layer_word};

#[derive(Clone, Copy, PartialEq, Eq, Debug)]
pub enum LineFault {
    // The line has none of the ten forms.
    NoForm = 17,
    // The line is out of its place, or one pad too many.
    OutOfPlace = 19,
    // A name that no pad has, a name given twice, or a second pad on one point.
    Names = 18,
    // The rows or columns are not allowed.
    Sides = 13,
    // A point is off the board.
    OffBoard = 16,
    // Too little output memory would remain after the answer.
    Full = 20,
}

impl LineFault {
    // The number by which the fault is known to users.
    pub fn number(self) -> u8
        ensures { result ≡ fault_number self }
    {
        self as u8
    }

    // The word for the layer that finds the fault: the text of the job, or the board that it describes.
    pub fn layer(self) -> &'static str
        ensures { result.now ≡ layer_word self }
    {
        match self {
            LineFault::Sides | LineFault::OffBoard => "board",
            _ => "text",
        }
    }
}

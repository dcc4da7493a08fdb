// The first word of a line.
ghost use Rattle.std.specs.Result.{result_ok};
ghost use Rattle.job_lines.specs.Words.{Reads};
ghost use Rattle.job_lines.specs.Verbs.{AnyVerb, keyword};

use crate::faults::LineFault;

#[derive(Clone, Copy)]
pub(crate) enum Verb {
    Field,
    Escape,
    Pad,
    Land,
    Keep,
    Place,
    Lift,
    Bar,
    Clear,
    Show,
}

// A line that begins with another word has none of the ten forms.
impl TryFrom<&[u8]> for Verb {
    type Error = LineFault;

    ghost try_from_gives = { λ word r. Reads AnyVerb keyword word.now (result_ok r) };

    fn try_from(word: &[u8]) -> Result<Verb, LineFault> {
        match word {
            b"field" => Ok(Verb::Field),
            b"escape" => Ok(Verb::Escape),
            b"pad" => Ok(Verb::Pad),
            b"land" => Ok(Verb::Land),
            b"keep" => Ok(Verb::Keep),
            b"place" => Ok(Verb::Place),
            b"lift" => Ok(Verb::Lift),
            b"bar" => Ok(Verb::Bar),
            b"clear" => Ok(Verb::Clear),
            b"show" => Ok(Verb::Show),
            _ => Err(LineFault::NoForm),
        }
    }
}

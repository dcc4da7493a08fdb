// Reading a line: its verb, and what follows the verb by the verb's form.
ghost use Rattle.std.specs.Option.{option_map};
ghost use Rattle.job_lines.specs.Words.{Name, Reads};
ghost use Rattle.job_lines.specs.Grammar.{ReadsLine, SpellingsDiffer};
ghost use Rattle.job_lines.specs.Rests.{Point, point_text, Cell, cell_text, PadPoint, pad_text, pad_of, ReadsRest};

use crate::line::Line;
use crate::verb::Verb;
use crate::words::{cut, is_name, read_number};

// The line that the bytes spell, without its LF; none if they spell no well-formed line.
pub fn read_line<'a>(bytes: &'a [u8]) -> Option<Line<'a>>
    ensures { ReadsLine bytes.now result }
{
    let (word, rest) = cut(bytes, b' ')?;
    let verb = Verb::try_from(word).ok()?;
    read_rest(verb, rest)
}

// What a line says follows from its bytes.
pub fn spellings_differ() -> u8
    ensures { SpellingsDiffer }
{
    0
}

// What follows a verb. A `match` over the verb: what is read differs in type, so a table of readers would have to box them.
fn read_rest<'a>(verb: Verb, text: &'a [u8]) -> Option<Line<'a>>
    ensures { ReadsRest verb text.now result }
{
    match verb {
        Verb::Field => read_point(text).map(|(rows, columns)| Line::Field { rows, columns }),
        Verb::Escape => read_point(text).map(|(rows, columns)| Line::Escape { rows, columns }),
        Verb::Pad => read_pad(text).map(|(name, row, column)| Line::Pad { name, row, column }),
        Verb::Land => read_point(text).map(|(row, column)| Line::Land { row, column }),
        Verb::Keep => {
            read_cell(text).map(|(layer, row, column)| Line::Keep { layer, row, column })
        }
        Verb::Place => read_name(text).map(Line::Place),
        Verb::Lift => read_name(text).map(Line::Lift),
        Verb::Bar => read_cell(text).map(|(layer, row, column)| Line::Bar { layer, row, column }),
        Verb::Clear => {
            read_cell(text).map(|(layer, row, column)| Line::Clear { layer, row, column })
        }
        Verb::Show => read_name(text).map(Line::Show),
    }
}

// Two numbers: rows and columns, or a row and a column, as the line that they belong to names them.
fn read_point(text: &[u8]) -> Option<(u16, u16)>
    ensures { Reads Point point_text text.now result }
{
    let (first, rest) = cut(text, b' ')?;
    Some((read_number(first)?, read_number(rest)?))
}

// Three numbers.
fn read_cell(text: &[u8]) -> Option<(u16, u16, u16)>
    ensures { Reads Cell cell_text text.now result }
{
    let (first, rest) = cut(text, b' ')?;
    let layer = read_number(first)?;
    let (row, column) = read_point(rest)?;
    Some((layer, row, column))
}

// A name.
fn read_name<'a>(text: &'a [u8]) -> Option<&'a [u8]>
    ensures { Reads Name (λ name. name) text.now (option_map (λ x. x.now) result) }
{
    is_name(text).then_some(text)
}

// A name and two numbers. This and `read_cell` stay two functions: over a reader of the first word, one function's contract would be
// longer than both.
fn read_pad<'a>(text: &'a [u8]) -> Option<(&'a [u8], u16, u16)>
    ensures { Reads PadPoint pad_text text.now (option_map pad_of result) }
{
    let (first, rest) = cut(text, b' ')?;
    let name = read_name(first)?;
    let (row, column) = read_point(rest)?;
    Some((name, row, column))
}

// What a call line asks for.
ghost use Rattle.std.specs.Prelude.{◌≡◌, map};
ghost use Rattle.job_boards.specs.Plans.{Plan};
ghost use Rattle.job_lines.specs.Grammar.{form_of};
ghost use Rattle.job_boards.specs.Reading.{named};
ghost use Rattle.jobs.specs.Steps.{FindsPad, Ordered};

use boards::place::Place;
use job_boards::plan::Pad;
use job_lines::faults::LineFault;
use job_lines::line::Line;
use runs::calls::Kind;

// A call that changes the drawing, or the course of the pad with a name.
#[derive(Clone, Copy, PartialEq, Eq, Debug)]
pub(crate) enum Wish<'a> {
    Call(Kind),
    Course(&'a [u8]),
}

// What is asked for, and at which place.
#[derive(Clone, Copy, PartialEq, Eq, Debug)]
pub(crate) struct Order<'a> {
    pub(crate) wish: Wish<'a>,
    pub(crate) place: Place,
}

// The order that a line gives, or the fault of a line that is no call or names no pad.
pub(crate) fn order_of<'a>(pads: &[Pad], line: Line<'a>) -> Result<Order<'a>, LineFault>
    ensures { (p : Plan) → map named pads.now ≡ p.pads → Ordered p (form_of line.entry) result }
{
    let order = match line {
        Line::Place(name) => Order {
            wish: Wish::Call(Kind::Place),
            place: find_pad(pads, name)?,
        },
        Line::Lift(name) => Order {
            wish: Wish::Call(Kind::Lift),
            place: find_pad(pads, name)?,
        },
        Line::Show(name) => Order {
            wish: Wish::Course(name),
            place: find_pad(pads, name)?,
        },
        Line::Bar { layer, row, column } => Order {
            wish: Wish::Call(Kind::Bar),
            place: Place { layer, row, column },
        },
        Line::Clear { layer, row, column } => Order {
            wish: Wish::Call(Kind::Clear),
            place: Place { layer, row, column },
        },
        _ => return Err(LineFault::OutOfPlace),
    };
    Ok(order)
}

// The place of the pad with a name.
fn find_pad(pads: &[Pad], name: &[u8]) -> Result<Place, LineFault>
    ensures { FindsPad (map named pads.now) name.now result }
{
    let pad = pads
        .iter()
        .find(|pad| pad.name == name)
        .ok_or(LineFault::Names)?;
    Ok(pad.place())
}

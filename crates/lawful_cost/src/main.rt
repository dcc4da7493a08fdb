// What the check of a drawing costs: it draws two nets that fill a field of 32 columns and checks the drawing as often as asked.
// Arguments: the rows of the field, an even number up to 64, and how often to check. Count its instructions for one check and for two.
#![tactic(auto)]

ghost use Rattle.std.specs.Prelude.{◌<◌, ◌≤◌};

use boards::board::Board;
use boards::field::Field;
use drawings::lawful::is_lawful;
use drawings::nets::lay;
use records::record::Record;
use std::alloc::{AllocError, Global};
use std::{env, io, iter};

// The k-th point of a course that goes through the rows to and fro.
fn point(k: u16) -> u16
    requires { k < 2048 }
    ensures { result < 2048 }
{
    if (k / 32) % 2 == 0 {
        k
    } else {
        k / 32 * 32 + (31 - k % 32)
    }
}

// The map: pads at the first two points of the course, landings at the last two.
// There are at most 2,048 points; a type for one number would be opened at every use, so each function says it.
fn map(heap: Global, points: u16) -> Result<Vec<u8>, AllocError>
    requires { points ≤ 2048 }
{
    (0..points)
        .map(|k| {
            if k < 2 {
                1
            } else if k + 32 == points || k + 31 == points {
                2
            } else {
                0
            }
        })
        .collect(heap)
}

// The net of the first pad: down, and along the lower layer to the last point but one.
fn lower(heap: Global, points: u16) -> Result<Vec<u16>, AllocError>
    requires { points ≤ 2048 }
{
    iter::once(0)
        .chain((0..points.saturating_sub(1)).map(|k| points + point(k)))
        .collect(heap)
}

// The net of the second pad: along the upper layer to the last point, and down.
fn upper(heap: Global, points: u16) -> Result<Vec<u16>, AllocError>
    requires { points ≤ 2048 }
{
    let end = points.checked_sub(1);
    (1..points)
        .map(point)
        .chain(end.map(|k| points + point(k)))
        .collect(heap)
}

// The next argument as a number, or 0. `place_cost` has the same chain, and no crate below both is for arguments.
fn number(args: &mut env::Args) -> u16 {
    args.next()
        .and_then(|text| text.as_str().parse().ok())
        .unwrap_or(0)
}

// Draws the two nets. It is kept out of `main`, so that it takes no registers from the check that is measured there.
#[inline(never)]
fn draw(heap: Global, points: u16, drawing: &mut [Record]) -> Result<(), AllocError>
    requires { points ≤ 2048 }
{
    lay(drawing, lower(heap, points)?.as_slice());
    lay(drawing, upper(heap, points)?.as_slice());
    Ok(())
}

fn main(rt: HostRuntime) -> io::Result<()> {
    let heap = rt.alloc();
    let mut args = env::args(&rt)?;
    let _name = args.next();
    let rows = number(&mut args).min(64);
    let times = number(&mut args);
    let points = rows * 32;
    let field = Field::new(rows, 32, map(heap, points)?);
    let cells = field.cells();
    let mut drawing = vec![in heap; Record::Free; cells as usize]?;
    draw(heap, points, drawing.as_mut_slice())?;
    let mut lawful = true;
    for _ in 0..times {
        lawful = is_lawful(&field, drawing.as_slice());
    }
    println!(rt; "{cells} cells, lawful: {lawful}")
}

// Reading the first line of a job.
ghost use Rattle.job_boards.specs.Reading.{Headed, Sided};

use crate::header::Header;
use boards::maps::{MapKind, check_map};
use boards::refusal::BoardRefusal;
use job_lines::faults::LineFault;
use job_lines::line::Line;
use job_lines::read::read_line;

// The board's kind and sides, or the fault of the line.
pub fn read_header(bytes: &[u8]) -> Result<Header, LineFault>
    ensures { Headed bytes.now result }
{
    match read_line(bytes).ok_or(LineFault::NoForm)? {
        Line::Field { rows, columns } => sided(MapKind::FieldMap, rows, columns),
        Line::Escape { rows, columns } => sided(MapKind::EscapeMap, rows, columns),
        _ => Err(LineFault::OutOfPlace),
    }
}

// The header of these sides, if they are allowed. The map check looks at them first, so where it finds something else they are,
// whatever the map.
fn sided(kind: MapKind, rows: u16, columns: u16) -> Result<Header, LineFault>
    ensures { Sided kind rows columns result }
{
    if check_map(kind, rows, columns, b"") == Err(BoardRefusal::Sides) {
        return Err(LineFault::Sides);
    }
    Ok(Header {
        kind,
        rows,
        columns,
    })
}

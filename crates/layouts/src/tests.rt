// Wires read on small fields.
ghost use Rattle.std.specs.Prelude.{◌≤◌};

use crate::reading::read_wire;
use crate::wires::{Layer, Point};
use boards::field::Field;
use records::record::Record;
use std::iter::repeat;
use std::test::Fail;

const FREE: Record = Record::Free;

const BAR: Record = Record::Barred;

// What a point is before any is written.
const UNWRITTEN: Point = Point { row: 0, column: 99 };

// Whether the pad's net reads as the wire on the layer through the columns of row 0, and no more is written.
fn reads(field: &Field, drawing: &[Record], pad: u16, layer: Layer, columns: &[u16]) -> bool {
    let mut points = [UNWRITTEN; 6];
    let wire = columns.iter().map(|&column| Point { row: 0, column });
    read_wire(field, drawing, pad, &mut points).is_ok_and(|(read, count)| read == layer
        && count as usize == columns.len())
        && points
            .iter()
            .copied()
            .eq(wire.chain(repeat(UNWRITTEN)).take(6))
}

// The number of the refusal of a reading into so many points, if it is refused.
fn refusal(field: &Field, drawing: &[Record], pad: u16, room: usize) -> Option<u8>
    requires { room ≤ 6 }
{
    let mut points = [UNWRITTEN; 6];
    read_wire(field, drawing, pad, &mut points[..room])
        .err()
        .map(|refusal| refusal.number())
}

// A pad in column 0, landing points in columns 1 and 2.
#[test]
fn past_a_landing(rt: HostRuntime) -> Result<(), Fail> {
    let field = Field::new(1, 3, [1u8, 2, 2].to_vec(rt.alloc())?);
    assert!(rt;
        reads(
            &field,
            &[
                Record::first(3),
                FREE,
                FREE,
                Record::between(0, 4),
                Record::last(3),
                FREE
            ],
            0,
            Layer::Bottom,
            &[0, 1],
        ),
        "below"
    );
    assert!(rt;
        reads(
            &field,
            &[
                Record::first(1),
                Record::between(0, 2),
                Record::between(1, 5),
                FREE,
                BAR,
                Record::last(2)
            ],
            0,
            Layer::Top,
            &[0, 1, 2],
        ),
        "above"
    );
    Ok(())
}

// A point that is both.
#[test]
fn one_point(rt: HostRuntime) -> Result<(), Fail> {
    let field = Field::new(1, 1, [3u8].to_vec(rt.alloc())?);
    assert!(rt;
        reads(
            &field,
            &[Record::first(1), Record::last(0)],
            0,
            Layer::Bottom,
            &[0]
        )
    );
    Ok(())
}

// Pads in columns 0 and 1, a landing point in column 2.
#[test]
fn refused(rt: HostRuntime) -> Result<(), Fail> {
    let field = Field::new(1, 3, [1u8, 1, 2].to_vec(rt.alloc())?);
    let drawing = [
        FREE,
        Record::first(2),
        Record::between(1, 5),
        FREE,
        FREE,
        Record::last(2),
    ];
    assert_eq!(rt; refusal(&field, &drawing, 1, 6), None);
    assert_eq!(rt; refusal(&field, &[FREE], 1, 6), Some(1));
    assert_eq!(rt; refusal(&field, &drawing, 1, 5), Some(3));
    assert_eq!(rt;
        refusal(
            &field,
            &[
                Record::first(1),
                Record::between(0, 4),
                FREE,
                FREE,
                Record::between(1, 5),
                Record::last(4)
            ],
            0,
            6,
        ),
        Some(4),
        "down at another pad"
    );
    assert_eq!(rt; refusal(&field, &drawing, 6, 6), Some(5));
    assert_eq!(rt; refusal(&field, &drawing, 2, 6), Some(6));
    assert_eq!(rt; refusal(&field, &drawing, 0, 6), Some(8));
    Ok(())
}

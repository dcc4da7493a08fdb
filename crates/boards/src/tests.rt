// Boards small enough to be worked out by hand from the rules.
use crate::board::Board;
use crate::count::{Mark, count_marked};
use crate::escape::Escape;
use crate::field::Field;
use crate::keep_out::KeepOut;
use crate::maps::{MapKind, check_map};
use crate::place::{Place, PlacedBoard};
use crate::refusal::BoardRefusal;
use std::test::Fail;

// Whether the outlets of the cell are exactly these, in this order.
fn has_outlets<B: Board>(board: &B, cell: u16, outlets: &[u16]) -> bool {
    (0..9u8).all(|j| board.outlet(cell, j) == outlets.get(j as usize).copied())
}

// Whether the cell lies at the place, and is found there.
fn lies_at<B: PlacedBoard>(board: &B, cell: u16, layer: u16, row: u16, column: u16) -> bool {
    let place = Place { layer, row, column };
    board.place(cell) == Some(place) && board.cell_at(place) == Some(cell)
}

// The number of the first thing that is wrong with a map of `length` plain points.
fn plain_fault(kind: MapKind, rows: u16, columns: u16, length: usize) -> u8 {
    let points = [0u8; 2112];
    points
        .get(..length)
        .map_or(255, |bytes| fault(kind, rows, columns, bytes))
}

fn fault(kind: MapKind, rows: u16, columns: u16, bytes: &[u8]) -> u8 {
    check_map(kind, rows, columns, bytes)
        .err()
        .map_or(0, |refusal| refusal.number())
}

#[test]
fn sides_of_maps(rt: HostRuntime) {
    let cases = [
        (1, 1, 1, 0),
        (64, 32, 2048, 0),
        (32, 64, 2048, 0),
        (64, 33, 2112, 13),
        (33, 64, 2112, 13),
        (64, 64, 2048, 13),
        (0, 5, 0, 13),
        (5, 0, 0, 13),
        (65, 1, 65, 13),
        (1, 65, 65, 13),
        (1, 3, 2, 14),
        (1, 3, 4, 14),
        (0, 5, 3, 13),
    ];
    for (rows, columns, length, number) in cases {
        assert_eq!(rt;
            plain_fault(MapKind::FieldMap, rows, columns, length),
            number
        );
        assert_eq!(rt;
            plain_fault(MapKind::EscapeMap, rows, columns, length),
            number
        );
    }
}

#[test]
fn bytes_of_maps(rt: HostRuntime) {
    assert_eq!(rt; fault(MapKind::FieldMap, 2, 2, &[0, 1, 2, 3]), 0);
    assert_eq!(rt; fault(MapKind::FieldMap, 2, 2, &[0, 1, 4, 3]), 15);
    assert_eq!(rt; fault(MapKind::FieldMap, 1, 1, &[255]), 15);
    assert_eq!(rt; fault(MapKind::FieldMap, 2, 2, &[4, 4, 4]), 14);
    assert_eq!(rt; fault(MapKind::EscapeMap, 1, 2, &[0, 1]), 0);
    assert_eq!(rt; fault(MapKind::EscapeMap, 1, 2, &[0, 2]), 15);
    assert_eq!(rt; fault(MapKind::EscapeMap, 1, 2, &[3, 0]), 15);
}

// Pads at columns 0 and 1, a landing at column 2.
#[test]
fn three_points(rt: HostRuntime) -> Result<(), Fail> {
    let field = Field::new(1, 3, [1u8, 1, 2].to_vec(rt.alloc())?);
    assert_eq!(rt; field.cells(), 6);
    assert!(rt; has_outlets(&field, 0, &[3]));
    assert!(rt; has_outlets(&field, 1, &[2, 4]));
    assert!(rt; has_outlets(&field, 2, &[5]));
    assert!(rt; has_outlets(&field, 3, &[4]));
    assert!(rt; has_outlets(&field, 4, &[5, 3]));
    assert!(rt; has_outlets(&field, 5, &[4]));
    assert!(rt; has_outlets(&field, 6, &[]));
    assert!(rt;
        field.is_pad(0)
            && field.is_pad(1)
            && !field.is_pad(2)
            && !field.is_pad(3)
            && !field.is_pad(6)
    );
    assert!(rt;
        field.is_landing(5)
            && !field.is_landing(2)
            && !field.is_landing(4)
            && !field.is_landing(65535)
    );
    assert_eq!(rt; count_marked(&field, Mark::Pad), 2);
    assert_eq!(rt; count_marked(&field, Mark::Landing), 1);
    Ok(())
}

// A pad in one corner, a landing in the other: all four directions, in their order.
#[test]
fn four_points(rt: HostRuntime) -> Result<(), Fail> {
    let field = Field::new(2, 2, [1u8, 0, 0, 2].to_vec(rt.alloc())?);
    assert!(rt; has_outlets(&field, 0, &[1, 2, 4]));
    assert!(rt; has_outlets(&field, 1, &[3]));
    assert!(rt; has_outlets(&field, 2, &[3]));
    assert!(rt; has_outlets(&field, 3, &[1, 2, 7]));
    assert!(rt; has_outlets(&field, 4, &[5, 6]));
    assert!(rt; has_outlets(&field, 5, &[7, 4]));
    assert!(rt; has_outlets(&field, 6, &[4, 7]));
    assert!(rt; has_outlets(&field, 7, &[5, 6]));
    assert!(rt;
        lies_at(&field, 0, 1, 0, 0)
            && lies_at(&field, 1, 1, 0, 1)
            && lies_at(&field, 6, 2, 1, 0)
            && lies_at(&field, 7, 2, 1, 1)
    );
    assert_eq!(rt;
        field.cell_at(Place {
            layer: 3,
            row: 0,
            column: 0,
        }),
        None
    );
    assert_eq!(rt;
        field.cell_at(Place {
            layer: 0,
            row: 0,
            column: 0,
        }),
        None
    );
    assert_eq!(rt;
        field.cell_at(Place {
            layer: 1,
            row: 2,
            column: 0,
        }),
        None
    );
    assert_eq!(rt;
        field.cell_at(Place {
            layer: 1,
            row: 0,
            column: 2,
        }),
        None
    );
    assert_eq!(rt; field.place(8), None);
    Ok(())
}

// A point that is both pad and landing: the pad above, the landing below it.
#[test]
fn both_at_one_point(rt: HostRuntime) -> Result<(), Fail> {
    let field = Field::new(1, 1, [3u8].to_vec(rt.alloc())?);
    assert_eq!(rt; field.cells(), 2);
    assert!(rt; has_outlets(&field, 0, &[1]) && has_outlets(&field, 1, &[]));
    assert!(rt; field.is_pad(0) && !field.is_pad(1) && field.is_landing(1) && !field.is_landing(0));
    Ok(())
}

#[test]
fn refused_maps(rt: HostRuntime) -> Result<(), Fail> {
    let field = Field::new(1, 2, [1u8, 4].to_vec(rt.alloc())?);
    assert!(rt;
        field.cells() == 1
            && has_outlets(&field, 0, &[])
            && !field.is_pad(0)
            && !field.is_landing(0)
    );
    assert!(rt; lies_at(&field, 0, 1, 0, 0));
    assert_eq!(rt; field.place(1), None);
    assert_eq!(rt;
        field.cell_at(Place {
            layer: 1,
            row: 0,
            column: 1,
        }),
        None
    );
    let escape = Escape::new(1, 1, [2u8].to_vec(rt.alloc())?);
    assert!(rt; escape.cells() == 1 && !escape.is_pad(0) && !escape.is_landing(0));
    assert!(rt; lies_at(&escape, 0, 1, 0, 0));
    Ok(())
}

// A pad in the middle of nine points: it may leave on every side, and nothing leads back.
#[test]
fn escapes(rt: HostRuntime) -> Result<(), Fail> {
    let escape = Escape::new(3, 3, [0u8, 0, 0, 0, 1, 0, 0, 1, 0].to_vec(rt.alloc())?);
    assert_eq!(rt; escape.cells(), 9);
    assert!(rt; has_outlets(&escape, 4, &[1, 5, 3]));
    assert!(rt; has_outlets(&escape, 0, &[1, 3]));
    assert!(rt; has_outlets(&escape, 1, &[2, 0]));
    assert!(rt; has_outlets(&escape, 7, &[8, 6]));
    assert!(rt;
        escape.is_pad(4)
            && escape.is_pad(7)
            && escape.is_landing(0)
            && !escape.is_landing(4)
            && !escape.is_landing(7)
    );
    assert_eq!(rt; count_marked(&escape, Mark::Landing), 7);
    assert!(rt; lies_at(&escape, 5, 1, 1, 2));
    let one = Escape::new(1, 1, [1u8].to_vec(rt.alloc())?);
    assert!(rt;
        one.cells() == 1 && has_outlets(&one, 0, &[]) && one.is_pad(0) && !one.is_landing(0)
    );
    Ok(())
}

#[test]
fn keep_outs(rt: HostRuntime) -> Result<(), Fail> {
    let mut kept = KeepOut::new(Field::new(1, 3, [1u8, 1, 2].to_vec(rt.alloc())?));
    assert_eq!(rt; kept.closed_cells(), 0);
    assert!(rt; has_outlets(&kept, 1, &[2, 4]));
    assert_eq!(rt; kept.close(4), Ok(()));
    assert_eq!(rt; kept.close(4), Ok(()));
    assert_eq!(rt; kept.close(6), Err(BoardRefusal::OffBoard));
    assert_eq!(rt; kept.closed_cells(), 1);
    assert!(rt;
        has_outlets(&kept, 1, &[2])
            && has_outlets(&kept, 3, &[])
            && has_outlets(&kept, 4, &[])
            && has_outlets(&kept, 5, &[])
    );
    assert!(rt; has_outlets(&kept, 0, &[3]) && kept.is_pad(1) && kept.is_landing(5));
    assert_eq!(rt; kept.close(5), Ok(()));
    assert!(rt; !kept.is_landing(5) && has_outlets(&kept, 2, &[]) && lies_at(&kept, 5, 2, 0, 2));
    for cell in 0..6 {
        assert_eq!(rt; kept.close(cell), Ok(()));
    }
    assert_eq!(rt; kept.closed_cells(), 6);
    assert!(rt; !kept.is_pad(0) && kept.cells() == 6);
    Ok(())
}

// Trails worked out by hand, taken back.
use crate::moves::follow_back;
use records::record::Record;

// The net 0, 1, 2, 3 gives up its end to the pad 4, which comes in at 2, and goes from 0 to the landing 5; 1 is left free.
#[test]
fn wire_moves(rt: HostRuntime) {
    let mut drawing = [
        Record::first(1),
        Record::between(0, 2),
        Record::between(1, 3),
        Record::last(2),
        Record::Free,
        Record::Free,
    ];
    follow_back(&mut drawing, &[4, 2, 1, 5]);
    assert_eq!(rt;
        drawing,
        [
            Record::first(5),
            Record::Free,
            Record::between(4, 3),
            Record::last(2),
            Record::first(2),
            Record::last(0),
        ]
    );
}

// The net 0 to 4 passes beside itself: 2 leads to 1 too. The pad 5 comes in at 3, and 1 and 2 are left as a ring.
#[test]
fn ring_is_left(rt: HostRuntime) {
    let mut drawing = [
        Record::first(1),
        Record::between(0, 2),
        Record::between(1, 3),
        Record::between(2, 4),
        Record::last(3),
        Record::Free,
        Record::Free,
    ];
    follow_back(&mut drawing, &[5, 3, 1, 6]);
    assert_eq!(rt;
        drawing,
        [
            Record::first(6),
            Record::between(2, 2),
            Record::between(1, 1),
            Record::between(5, 4),
            Record::last(3),
            Record::first(3),
            Record::last(0),
        ]
    );
}

use crate::ring::Ring;
use drawings::calls::{clear, lift, new, show};
use drawings::lawful::is_lawful;
use drawings::nets::{lay, take_up};
use records::record::Record;
use records::refusal::Refusal;
use std::alloc::AllocError;

const FREE: Record = Record::Free;

const BAR: Record = Record::Barred;

#[test]
fn lawful(rt: HostRuntime) {
    assert!(rt; is_lawful(&Ring, &[FREE; 6]), "free");
    assert!(rt; is_lawful(&Ring, &[BAR; 6]), "barred");
    assert!(rt;
        is_lawful(
            &Ring,
            &[
                Record::first(1),
                Record::between(0, 2),
                Record::last(1),
                FREE,
                BAR,
                FREE
            ]
        ),
        "a pad in the middle of a net"
    );
    assert!(rt;
        is_lawful(
            &Ring,
            &[
                FREE,
                Record::first(2),
                Record::last(1),
                Record::alone(),
                FREE,
                FREE
            ]
        ),
        "a pad that is a landing, alone"
    );
    assert!(rt;
        is_lawful(
            &Ring,
            &[
                Record::first(5),
                Record::first(2),
                Record::last(1),
                Record::last(4),
                Record::between(5, 3),
                Record::between(0, 4)
            ],
        ),
        "two nets on all cells"
    );
}

#[test]
fn one_rule_broken(rt: HostRuntime) {
    assert!(rt;
        !is_lawful(
            &Ring,
            &[FREE, FREE, FREE, Record::last(4), Record::first(3), FREE]
        ),
        "the first cell is no pad"
    );
    assert!(rt;
        !is_lawful(&Ring, &[Record::alone(), FREE, FREE, FREE, FREE, FREE]),
        "the last cell is no landing"
    );
    assert!(rt;
        !is_lawful(
            &Ring,
            &[
                FREE,
                Record::first(2),
                Record::between(1, 3),
                Record::last(2),
                FREE,
                FREE
            ]
        ),
        "past a landing"
    );
    assert!(rt;
        !is_lawful(
            &Ring,
            &[Record::first(2), FREE, Record::last(0), FREE, FREE, FREE]
        ),
        "the cell after is no outlet"
    );
    assert!(rt;
        !is_lawful(
            &Ring,
            &[
                Record::first(5),
                Record::first(0),
                FREE,
                Record::last(4),
                Record::between(5, 3),
                Record::between(0, 4)
            ],
        ),
        "two nets share a tail"
    );
    assert!(rt;
        !is_lawful(&Ring, &[FREE, FREE, Record::last(1), FREE, FREE, FREE]),
        "the cell before is free"
    );
}

#[test]
fn rings_and_numbers(rt: HostRuntime) {
    assert!(rt;
        !is_lawful(
            &Ring,
            &[
                FREE,
                FREE,
                FREE,
                FREE,
                Record::between(5, 5),
                Record::between(4, 4)
            ]
        ),
        "a ring"
    );
    assert!(rt;
        !is_lawful(
            &Ring,
            &[FREE, FREE, FREE, FREE, Record::between(4, 4), FREE]
        ),
        "a ring of one"
    );
    assert!(rt;
        !is_lawful(
            &Ring,
            &[
                Record::first(1),
                Record::between(0, 2),
                Record::last(1),
                Record::alone(),
                Record::between(5, 5),
                Record::between(4, 4)
            ],
        ),
        "a ring beside good nets"
    );
    assert!(rt;
        !is_lawful(&Ring, &[Record::first(65535), FREE, FREE, FREE, FREE, FREE]),
        "a number past the end"
    );
    assert!(rt;
        !is_lawful(&Ring, &[FREE, FREE, Record::last(6), FREE, FREE, FREE]),
        "a number just past the end"
    );
    assert!(rt; !is_lawful(&Ring, &[FREE; 5]), "too few records");
    assert!(rt; !is_lawful(&Ring, &[FREE; 7]), "too many records");
}

#[test]
fn lifted_and_shown(rt: HostRuntime) {
    let mut drawing = [
        Record::first(1),
        Record::between(0, 2),
        Record::last(1),
        Record::alone(),
        BAR,
        FREE,
    ];
    let mut report = [9; 12];
    let mut short = [9; 11];
    assert_eq!(rt; show(&Ring, &drawing, &mut report, 0), Ok(3));
    assert!(rt; report == [0, 1, 2, 9, 9, 9, 9, 9, 9, 9, 9, 9]);
    assert_eq!(rt;
        show(&Ring, &drawing, &mut short, 0),
        Err(Refusal::ShortReport)
    );
    assert_eq!(rt;
        show(&Ring, &drawing, &mut report, 1),
        Err(Refusal::NotWired)
    );
    assert_eq!(rt; lift(&Ring, &mut drawing, 6), Err(Refusal::NoSuchCell));
    assert_eq!(rt; lift(&Ring, &mut drawing, 4), Err(Refusal::NotPad));
    assert_eq!(rt; lift(&Ring, &mut drawing, 0), Ok(2));
    assert!(rt; drawing == [FREE, FREE, FREE, Record::alone(), BAR, FREE]);
    assert_eq!(rt; lift(&Ring, &mut drawing, 0), Err(Refusal::NotWired));
    assert_eq!(rt; lift(&Ring, &mut drawing, 3), Ok(3));
}

#[test]
fn cleared_and_new(rt: HostRuntime) {
    let mut drawing = [BAR, FREE, FREE, Record::alone(), BAR, BAR];
    assert_eq!(rt; clear(&Ring, &mut drawing, 3), Err(Refusal::NotBarred));
    assert_eq!(rt; clear(&Ring, &mut drawing, 4), Ok(2));
    assert!(rt; drawing == [BAR, FREE, FREE, Record::alone(), FREE, BAR]);
    let mut broken = [Record::last(1); 6];
    assert_eq!(rt; clear(&Ring, &mut broken, 7), Err(Refusal::NotLawful));
    assert_eq!(rt; new(&Ring, &mut broken[0..5]), Err(Refusal::WrongDrawing));
    assert_eq!(rt; new(&Ring, &mut broken), Ok(0));
    assert!(rt; broken == [FREE; 6]);
}

#[test]
fn taken_up_and_laid(rt: HostRuntime) {
    let mut drawing = [
        Record::first(1),
        Record::between(0, 2),
        Record::last(1),
        Record::alone(),
        Record::between(5, 5),
        Record::between(4, 4),
    ];
    assert_eq!(rt; take_up(&mut drawing, 4), None, "a ring has no end");
    assert_eq!(rt; take_up(&mut drawing, 65535), None, "no cell");
    assert_eq!(rt; take_up(&mut drawing, 0), Some(2));
    assert!(rt;
        drawing
            == [
                FREE,
                FREE,
                FREE,
                Record::alone(),
                Record::between(5, 5),
                Record::between(4, 4)
            ]
    );
    lay(&mut drawing, &[0, 1, 2]);
    assert!(rt;
        drawing
            == [
                Record::first(1),
                Record::between(0, 2),
                Record::last(1),
                Record::alone(),
                Record::between(5, 5),
                Record::between(4, 4)
            ]
    );
}

#[test]
fn refusals_in_words(rt: HostRuntime) -> Result<(), AllocError> {
    let heap = rt.alloc();
    let no_way = Refusal::NoWay { pads: 2, cells: 1 };
    assert_eq!(rt;
        Refusal::NotPad.to_string(heap)?.as_str(),
        "the cell is no pad"
    );
    assert_eq!(rt;
        no_way.to_string(heap)?.as_str(),
        "there is no way: pads behind the fence 2, cells in it 1"
    );
    Ok(())
}

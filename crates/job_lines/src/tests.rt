// Lines good and bad, by the rules of the language.
use crate::line::Line;
use crate::lines::next_line;
use crate::read::read_line;
use crate::words::{is_name, read_number};

// The name in a text; empty if it is no line, or a line without a name.
fn name_in(text: &str) -> &[u8] {
    match read_line(text.as_bytes()) {
        Some(Line::Pad { name, .. } | Line::Place(name) | Line::Lift(name) | Line::Show(name)) =>
            name,
        _ => b"",
    }
}

#[test]
fn good_lines(rt: HostRuntime) {
    let cases = [
        (
            "field 1 3",
            Line::Field {
                rows: 1,
                columns: 3,
            },
        ),
        (
            "field 0 9999",
            Line::Field {
                rows: 0,
                columns: 9999,
            },
        ),
        (
            "escape 64 32",
            Line::Escape {
                rows: 64,
                columns: 32,
            },
        ),
        (
            "pad A 10 100",
            Line::Pad {
                name: b"A",
                row: 10,
                column: 100,
            },
        ),
        ("land 0 2", Line::Land { row: 0, column: 2 }),
        (
            "keep 2 0 1",
            Line::Keep {
                layer: 2,
                row: 0,
                column: 1,
            },
        ),
        ("place A", Line::Place(b"A")),
        ("lift 00", Line::Lift(b"00")),
        (
            "bar 2 0 1",
            Line::Bar {
                layer: 2,
                row: 0,
                column: 1,
            },
        ),
        (
            "clear 1234 5678 9012",
            Line::Clear {
                layer: 1234,
                row: 5678,
                column: 9012,
            },
        ),
        ("show PAD", Line::Show(b"PAD")),
    ];
    for (text, line) in cases {
        assert!(rt; read_line(text.as_bytes()) == Some(line), "{}", text);
    }
}

#[test]
fn names_of_lines(rt: HostRuntime) {
    let cases = [
        ("pad A 0 0", "A"),
        ("pad 0 10 100", "0"),
        ("pad ABCXYZ09 1 2", "ABCXYZ09"),
        ("place B2", "B2"),
        ("lift 00", "00"),
        ("show SHOW", "SHOW"),
        ("bar 1 2 3", ""),
    ];
    for (text, name) in cases {
        assert!(rt; name_in(text) == name.as_bytes(), "{}", text);
    }
}

#[test]
fn bad_lines(rt: HostRuntime) {
    let sides =
        "| |field|field |field 1|field 1 |field 1 2 3| field 1 2|field 1 2 |field  1 2|field 1  2|Field 1 2|fields 1 2|fiel 1 2";
    let numbers =
        "field 01 2|field 1 00|field 10000 2|field +1 2|field -1 2|field 1 x|field one 2|land 0|land A 0 0|keep 0 0|keep 1 2 3 4";
    let bytes =
        "field 1\t2|field 1 2\r|field 1 2\n|field 1 2\0|\0|place A\r|place A\t|pad \u{c4} 0 0|place \u{c4}";
    let names =
        "pad A 0|pad 0 0|pad a 0 0|pad A 0 0 0|pad A B 0|pad ABCDEFGHI 0 0|pad A- 0 0|place|place |place  A|place A |place A B|place a";
    let others =
        "place ABCDEFGHI|lift|lift b|bar 1 2|bar A 0 0|clear 1|show|show A 1|show _|route A|ok 5|0|7";
    for table in [sides, numbers, bytes, names, others] {
        for text in table.split('|') {
            assert!(rt; read_line(text.as_bytes()).is_none(), "{}", text);
        }
    }
}

#[test]
fn words(rt: HostRuntime) {
    for (word, number) in [("0", 0), ("9", 9), ("10", 10), ("9999", 9999)] {
        assert!(rt; read_number(word.as_bytes()) == Some(number), "{}", word);
    }
    for word in "|00|07|10000|1a|a1|1:|1/|-1|+1| 1|1 |0x1".split('|') {
        assert!(rt; read_number(word.as_bytes()).is_none(), "{}", word);
    }
    for word in "A|Z|0|9|AZ09|12345678".split('|') {
        assert!(rt; is_name(word.as_bytes()), "{}", word);
    }
    for word in "|a|z|@|[|/|:|A |A_|123456789".split('|') {
        assert!(rt; !is_name(word.as_bytes()), "{}", word);
    }
}

// Whether the text begins with this line, and this is left after it.
fn begins(text: &str, first: &str, rest: &str) -> bool {
    next_line(text.as_bytes()) == Some((first.as_bytes(), rest.as_bytes()))
}

#[test]
fn ends_of_lines(rt: HostRuntime) {
    assert!(rt; next_line(b"").is_none());
    let cases = [
        ("\n", "", ""),
        ("a", "a", ""),
        ("a b\n", "a b", ""),
        ("a\r\n", "a\r", ""),
        ("a\n\n", "a", "\n"),
        ("\nb", "", "b"),
        ("one\ntwo\nthree", "one", "two\nthree"),
    ];
    for (text, first, rest) in cases {
        assert!(rt; begins(text, first, rest), "{}", text);
    }
}

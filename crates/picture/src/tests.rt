// Texts and what is shown for them, from the rules.
use crate::report::report;
use std::test::Fail;

#[test]
fn texts_at_fault(rt: HostRuntime) -> Result<(), Fail> {
    let header = "line 1: expected 'field R C' or 'escape R C', with R rows and C columns\n";
    let cases = [
        ("", header),
        ("feld 1 1\n0\n", header),
        ("field 1\n0\n", header),
        ("field 1 1 1\n0\n", header),
        ("field 1 x\n0\n", header),
        (
            "field 2 3\n000\n00\n",
            "line 3: expected 3 digits, one for each column\n",
        ),
        (
            "field 2 3\n0+0\n000\n",
            "line 2: expected 3 digits, one for each column\n",
        ),
        (
            "field 64 33\n",
            "refused, 13: rows and columns are 1 to 64 each, and at most 2048 points together\n",
        ),
        (
            "field 0 5\n",
            "refused, 13: rows and columns are 1 to 64 each, and at most 2048 points together\n",
        ),
        (
            "field 2 3\n000\n",
            "refused, 14: the map has not one byte for each point\n",
        ),
        (
            "field 1 3\n040\n",
            "refused, 15: the map has a byte that means nothing on such a board\n",
        ),
        (
            "escape 1 3\n020\n",
            "refused, 15: the map has a byte that means nothing on such a board\n",
        ),
    ];
    for (text, shown) in cases {
        assert_eq!(rt; report(rt.alloc(), text)?.as_str(), shown);
    }
    Ok(())
}

#[test]
fn a_field(rt: HostRuntime) -> Result<(), Fail> {
    let shown = report(rt.alloc(), "field 4 6\n100001\n000200\n010030\n200002\n")?;
    let top =
        "field 4 x 6: 48 cells, 4 pads, 4 landings\n\nlayer 1\n P . . . . P\n . . . v . .\n . P . . P .\n v . . . . v\n";
    let bottom = "\nlayer 2\n . . . . . .\n . . . L . .\n . . . . L .\n L . . . . L\n\n";
    assert!(rt;
        shown
            .as_str()
            .starts_with(format!(in rt.alloc(); "{top}{bottom}")?.as_str())
    );
    Ok(())
}

#[test]
fn an_escape_board(rt: HostRuntime) -> Result<(), Fail> {
    let shown = report(rt.alloc(), "escape 3 3\n000\n010\n100\n")?;
    let rows = "escape 3 x 3: 9 cells, 2 pads, 7 landings\n\nlayer 1\n L L L\n L P L\n P L L\n\n";
    assert!(rt; shown.as_str().starts_with(rows));
    Ok(())
}

// The pads of the first field have one way each. On the second a bar keeps the wire on layer 1.
#[test]
fn wires_on_their_layers(rt: HostRuntime) -> Result<(), Fail> {
    let cases = [
        (
            "field 1 3\n112\nplace 0\n",
            "field 1 x 3: 6 cells, 2 pads, 1 landings\nplace 0: ok 5\ncourse of 0: 0 3 4 5\n\nlayer 1\n A P v\n\nlayer 2\n a a a\n\n",
        ),
        (
            "field 1 2\n12\nbar 2\nplace 0\n",
            "field 1 x 2: 4 cells, 1 pads, 1 landings\nbar 2: ok 0\nplace 0: ok 3\ncourse of 0: 0 1 3\n\nlayer 1\n A a\n\nlayer 2\n # a\n\n",
        ),
    ];
    for (text, shown) in cases {
        assert!(rt; report(rt.alloc(), text)?.as_str().starts_with(shown));
    }
    Ok(())
}

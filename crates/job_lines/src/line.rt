// A line of a job, in one of the ten forms. The names of pads are parts of the job's text.
#[derive(Clone, Copy, PartialEq, Eq, Debug)]
pub enum Line<'a> {
    // `field R C` and `escape R C`: the board, by its rows and columns.
    Field {
        rows: u16,
        columns: u16,
    },
    Escape {
        rows: u16,
        columns: u16,
    },
    // `pad NAME r c`, `land r c` and `keep l r c`: what stands on the board.
    Pad {
        name: &'a [u8],
        row: u16,
        column: u16,
    },
    Land {
        row: u16,
        column: u16,
    },
    Keep {
        layer: u16,
        row: u16,
        column: u16,
    },
    // `place NAME`, `lift NAME`, `bar l r c`, `clear l r c` and `show NAME`: the calls.
    Place(&'a [u8]),
    Lift(&'a [u8]),
    Bar {
        layer: u16,
        row: u16,
        column: u16,
    },
    Clear {
        layer: u16,
        row: u16,
        column: u16,
    },
    Show(&'a [u8]),
}

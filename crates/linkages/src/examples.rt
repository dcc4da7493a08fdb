// Worked examples on small boards: what the theorems ask for is met there, and the fences are what they should be.
ghost use Rattle.std.specs.Prelude.{[], ◌∷◌, Decides};
ghost use Rattle.linkages.specs.Fences.{Fence};
ghost use Rattle.linkages.specs.Examples.{row, RowExample, BarredRowExample, LoneExample, line, LineExample};

// Two pads and one landing in a row: each pad can be met, both cannot, and there is one fence.
pub fn row_example_stands() -> u8
    ensures { RowExample }
{
    0
}

// The same row with a bar that shuts pad 0 in.
pub fn barred_row_example_stands() -> u8
    ensures { BarredRowExample }
{
    0
}

// A pad on a board without landings.
pub fn lone_example_stands() -> u8
    ensures { LoneExample }
{
    0
}

// A pad in the middle of another pad's net.
pub fn line_example_stands() -> u8
    ensures { LineExample }
{
    0
}

// Whether cell `c` is the fence of the row's two pads: only the landing is.
pub fn fences_row(c: u16) -> bool
    ensures { Decides result (Fence row [] (0 ∷ 1 ∷ []) (0 ∷ 1 ∷ []) (c ∷ [])) }
{
    c == 5
}

// Whether pad `p` alone is behind the fence of the barred row: only pad 0 is, though pad 1 is to be met too.
pub fn shut_in_barred_row(p: u16) -> bool
    ensures { Decides result (Fence row (4 ∷ []) (0 ∷ 1 ∷ []) (p ∷ []) []) }
{
    p == 0
}

// Whether cell `c` is the fence of the line's two pads: cell 1 is, the nearest; the landing 2 blocks them too, and is not.
pub fn fences_line(c: u16) -> bool
    ensures { Decides result (Fence line [] (1 ∷ 0 ∷ []) (1 ∷ 0 ∷ []) (c ∷ [])) }
{
    c == 1
}

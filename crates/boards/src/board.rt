// The four questions that every board answers, and what its answers mean.
ghost use Rattle.std.specs.Prelude.{◌≡◌};
ghost use Rattle.boards.specs.Meaning.{Meaning, Bounded, outlet_at, pad_at, landing_at};

// A board is read through these questions alone. Every answer is that of its meaning, and no question changes the board.
pub trait Board {
    ghost meaning: { Self → Meaning };

    // The number of cells, which are numbered from 0.
    fn cells(&self) -> u16
        ensures { result ≡ (meaning self.now).cells };

    // The j-th outlet of a cell, counted from 0; none past the last, and none for a number that is no cell.
    fn outlet(&self, cell: u16, j: u8) -> Option<u16>
        ensures { result ≡ outlet_at (meaning self.now) cell j };

    // Whether the number is a cell that is a pad.
    fn is_pad(&self, cell: u16) -> bool
        ensures { result ≡ pad_at (meaning self.now) cell };

    // Whether the number is a cell that is a landing.
    fn is_landing(&self, cell: u16) -> bool
        ensures { result ≡ landing_at (meaning self.now) cell };

    // 1 to 4,096 cells, at most 8 outlets each, and every outlet is a cell.
    ghost bounded: { (b : Self) → Bounded (meaning b) };
}

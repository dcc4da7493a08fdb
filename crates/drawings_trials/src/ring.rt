// Six cells in a ring. Each leads to itself, to the next, to the one before, and to the next once more.
// Cells 0, 1 and 3 are pads, cells 2 and 3 landings: a net may lead through a pad, and a pad may be a landing.
ghost use Rattle.drawings_trials.specs.Ring.{ring, ring_bounded};

use boards::board::Board;

#[derive(Clone, Copy)]
pub struct Ring;

impl Board for Ring {
    ghost meaning = { λ _. ring };

    ghost bounded = { λ _. ring_bounded };

    fn cells(&self) -> u16 {
        6
    }

    fn outlet(&self, cell: u16, j: u8) -> Option<u16> {
        if cell >= 6 {
            return None;
        }
        match j {
            0 => Some(cell),
            1 | 3 => Some((cell + 1) % 6),
            2 => Some((cell + 5) % 6),
            _ => None,
        }
    }

    fn is_pad(&self, cell: u16) -> bool {
        matches!(cell, 0 | 1 | 3)
    }

    fn is_landing(&self, cell: u16) -> bool {
        matches!(cell, 2 | 3)
    }
}

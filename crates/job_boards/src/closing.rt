// The keep-out over a board.
ghost use Rattle.std.specs.Prelude.{◌≡◌, ℕ, filter, nat_lt};
ghost use Rattle.boards.specs.KeepOuts.{is_closed};
ghost use Rattle.job_boards.specs.Plans.{among};

use boards::board::Board;
use boards::keep_out::KeepOut;

// A board with cells kept out; numbers that are no cells are passed over.
pub fn keep_out<B: Board>(board: B, kept: &[u16]) -> KeepOut<B>
    ensures over { result.board ≡ board }
    ensures closed { (c : ℕ) → is_closed result.mask c ≡ among (filter (λ x. nat_lt x (B.meaning board).cells) kept.now) c }
{
    let mut over = KeepOut::new(board);
    for cell in kept {
        let _ = over.close(*cell);
    }
    over
}

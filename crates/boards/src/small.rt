// Small boards worked out by hand.
ghost use Rattle.boards.specs.SmallBoards.{SmallBoards};

// Stands for a proof: the definitions of fields and escape boards give these outlets, pads and landings.
pub fn small_boards_stand() -> u8
    ensures { SmallBoards }
{
    0
}

// What is claimed of refusals.
ghost use Rattle.routing.specs.Outcomes.{RefusalsAgree};

// Two refusals for want of a way with the same pads and bars to be met show the same pads and the same cells.
pub fn refusals_agree_stands() -> u8
    ensures { RefusalsAgree }
{
    0
}

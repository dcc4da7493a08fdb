// Small maps worked out by hand. Each is the contract of a small function.
ghost use Rattle.layouts.specs.Examples.{PastALanding, PadOnALanding, DownAtAnotherPad};

// A wire may pass over a landing on layer 2, and its drawing stops there; on layer 1 it passes above, and its drawing runs on.
#[tactic(auto, using(crate::proofs::WorkedMaps::past_a_landing))]
pub fn past_a_landing_stands() -> u8
    ensures { PastALanding }
{
    0
}

// Where a pad's point is a landing point, a wire of this single point will do.
#[tactic(auto, using(crate::proofs::WorkedMaps::pad_on_a_landing))]
pub fn pad_on_a_landing_stands() -> u8
    ensures { PadOnALanding }
{
    0
}

// A drawing that goes down at another pad's point is not lawful.
#[tactic(auto, using(crate::proofs::WorkedMaps::down_at_another_pad))]
pub fn down_at_another_pad_stands() -> u8
    ensures { DownAtAnotherPad }
{
    0
}

// Calls on small boards, worked out by hand.
ghost use Rattle.runs.specs.SmallRuns.{SmallRuns};

// Stands for a proof: on these boards the promises of the calls leave these outcomes and no others.
pub fn small_runs_stand() -> u8
    ensures { SmallRuns }
{
    0
}

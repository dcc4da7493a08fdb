// What holds of every job, above what its lines are answered.
ghost use Rattle.jobs.specs.Claims.{JobsUphold};

// Stands for a proof: the calls of a job are a run of calls, of which the whole claim holds.
pub fn jobs_uphold_stands() -> u8
    ensures { JobsUphold }
{
    0
}

// The call that the editor makes, from C.
ghost use Rattle.jobs_c.specs.Entry.{Entered};

use jobs::job::run_job;
use std::alloc::Global;

// Runs a job and answers the bytes written x 256 + the number of the fault, or 0 for none. Of output memory that is larger than
// 2^40 bytes only the front is used, so that the answer fits its type.
#[unsafe(no_mangle)]
pub extern "C" fn sumoalder_run_job(heap: Global, job: &[u8], output: &mut [u8]) -> u64
    ensures { Entered job.now output.old output.new result }
{
    let room = output.len().min(1 << 40);
    let end = run_job(heap, job, &mut output[0..room]);
    end.bytes as u64 * 256 + end.number() as u64
}

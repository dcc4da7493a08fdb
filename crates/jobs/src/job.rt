// Running a job on output memory.
ghost use Rattle.std.specs.Prelude.{◌≡◌, ◌≤◌, length};
ghost use Rattle.drawings.specs.Changes.{written};
ghost use Rattle.jobs.specs.Jobs.{job_fault_number, end_number, JobRun};

use crate::perform::perform;
use job_lines::faults::LineFault;
use std::alloc::Global;

// The longest job, and the least output memory.
pub const JOB_MAX: usize = 32768;

pub const OUTPUT_MIN: usize = 24;

// Why a job ended early.
#[derive(Clone, Copy, PartialEq, Eq, Debug)]
pub enum JobFault {
    // A line is faulty.
    Line(LineFault),
    // The text is too long, or the output memory too small.
    Sizes,
    // There was too little memory to perform the job.
    Memory,
}

impl JobFault {
    // The number by which the fault is known to users.
    pub fn number(self) -> u8
        ensures { result ≡ job_fault_number self }
    {
        // A `match`, since one case holds the fault of a line.
        match self {
            JobFault::Line(fault) => fault.number(),
            JobFault::Sizes => 21,
            JobFault::Memory => 33,
        }
    }
}

// How a job ended: the bytes written, and its fault. The output is the caller's memory, so what was written is told by its length.
#[derive(Clone, Copy, PartialEq, Eq, Debug)]
pub struct JobEnd {
    pub bytes: usize,
    pub fault: Option<JobFault>,
}

impl JobEnd {
    // The number of the fault, or 0 for none.
    pub fn number(self) -> u8
        ensures { result ≡ end_number self.fault }
    {
        self.fault.map_or(0, |fault| fault.number())
    }
}

// Runs a job and writes what is said to the front of the output.
pub fn run_job(heap: Global, job: &[u8], output: &mut [u8]) -> JobEnd
    ensures runs { JobRun job.now output.old output.new result.bytes result.fault }
    ensures within { result.bytes ≤ length output.old }
{
    if job.len() > JOB_MAX || output.len() < OUTPUT_MIN {
        return JobEnd {
            bytes: 0,
            fault: Some(JobFault::Sizes),
        };
    }
    let Ok(transcript) = perform(heap, job, output.len()) else {
        return JobEnd {
            bytes: 0,
            fault: Some(JobFault::Memory),
        };
    };
    write_front(output, transcript.said.as_slice());
    JobEnd {
        bytes: transcript.said.len(),
        fault: transcript.fault.map(JobFault::Line),
    }
}

// Writes bytes to the front of memory that has room for them.
fn write_front(output: &mut [u8], bytes: &[u8])
    requires { length bytes.now ≤ length output.old }
    ensures { output.new ≡ written bytes.now output.old }
{
    output[..bytes.len()].copy_from_slice(bytes);
}

// Runs a job: reads it from standard input, and prints what is said.
#![tactic(auto)]

use jobs::job::run_job;
use std::io;
use std::io::{Read, Write};

fn main(rt: HostRuntime) -> io::Result<()> {
    let heap = rt.alloc();
    let mut job = Vec::new(heap);
    rt.stdin().read_to_end(&mut job)?;
    let mut output = vec![in heap; 0u8; 65536]?;
    let end = run_job(heap, job.as_slice(), output.as_mut_slice());
    rt.stdout().write_all(&output.as_slice()[..end.bytes])
}

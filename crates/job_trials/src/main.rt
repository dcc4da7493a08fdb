// Runs the example jobs and compares what comes of them with what should.
//
// A line of standard input has a name and the size of the output memory. The job of a name stands in NAME.job, and what it says, worked
// out without the router, in NAME.out.
#![tactic(auto)]

use anyhow::anyhow;
use jobs::job::run_job;
use std::{fs, io};

// What the output memory holds before a job is run.
const UNTOUCHED: u8 = 170;

fn main(rt: HostRuntime) -> anyhow::Result<()> {
    let trials = io::read_to_string(rt.alloc(), rt.stdin())?;
    for trial in trials.as_str().lines() {
        let (name, room) = trial
            .split_once(' ')
            .ok_or_else(|| anyhow!("a name and a size"))?;
        try_job(&rt, name, room.parse::<usize>()?)?;
    }
    Ok(())
}

// Runs the job of a name, and tells what came of it.
fn try_job(rt: &HostRuntime, name: &str, room: usize) -> anyhow::Result<()> {
    let heap = rt.alloc();
    let job = fs::read(rt, format!(in heap; "{name}.job")?.as_str())?;
    let expected = fs::read(rt, format!(in heap; "{name}.out")?.as_str())?;
    let mut output = vec![in heap; UNTOUCHED; room]?;
    let end = run_job(heap, job.as_slice(), output.as_mut_slice());
    let bytes = end.bytes;
    let fault = end.number();
    let (said, rest) = output.as_slice().split_at(bytes);
    let verdict = if said == expected.as_slice() && rest.iter().all(|byte| *byte == UNTOUCHED) {
        "as it should be"
    } else {
        "WRONG"
    };
    println!(rt; "{name} {room}: {bytes} bytes, fault {fault}, {verdict}")?;
    Ok(())
}

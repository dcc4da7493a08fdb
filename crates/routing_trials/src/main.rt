// Makes calls on small boards and shows what the router answers, for comparison with answers found by trying everything.
//
// Standard input is a table with a board on each line, made by tools/brute_force.py, and the answers expected are its too. Which
// landing a pad gets, and by which course, is the router's choice, so nothing of it is shown.
#![tactic(auto)]

mod row;
mod trial;

use std::io;
use trial::answers;

fn main(rt: HostRuntime) -> io::Result<()> {
    let heap = rt.alloc();
    let text = io::read_to_string(heap, rt.stdin())?;
    for line in text.lines() {
        rt.println(answers(heap, line)?)?;
    }
    Ok(())
}

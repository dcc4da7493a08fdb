// Shows a board: reads a map and calls from standard input, checks the map, makes the calls on the board made from it, and draws
// its layers.
//
// The map is a line `field R C` or `escape R C`, and then R lines of C digits, one for each point. After it come the calls, a line
// each: `place N`, `lift N`, `bar N` or `clear N`, where N is the number of a cell.
#![tactic(auto)]

mod canvas;
mod orders;
mod report;
mod sheet;
#[cfg(test)]
mod tests;
mod wires;

use report::report;
use std::io;

fn main(rt: HostRuntime) -> io::Result<()> {
    let heap = rt.alloc();
    let text = io::read_to_string(heap, rt.stdin())?;
    rt.print(report(heap, &text)?)
}

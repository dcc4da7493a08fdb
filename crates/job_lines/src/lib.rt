// The lines of a job: a text is cut into lines, and a line is read as one of the ten forms.
//
// Reading is the inverse of writing: a line is read exactly if it is the spelling of a well-formed line.
#![tactic(auto)]

pub mod faults;
pub mod line;
pub mod lines;
pub mod read;
#[cfg(test)]
mod tests;
mod verb;
pub mod words;

// Jobs: a text describes a board and makes calls on it, and gets its answers as text.
//
// `run_job` serves programs in Rattle, and the crate `jobs_c` above it the editor, which is written in C.
#![tactic(auto)]

mod calls;
pub mod claims;
pub mod desk;
pub mod job;
mod orders;
pub mod perform;

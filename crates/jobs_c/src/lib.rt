// Jobs for programs in C: the archive has one function, which runs a job as `run_job` does.
#![tactic(auto)]

pub mod entry;

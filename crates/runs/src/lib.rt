// Runs of calls: any list of place, lift, bar and clear on one drawing, and what holds of all of them.
#![tactic(auto)]

pub mod calls;
pub mod run;
pub mod small;
pub mod step;

// What a drawing holds for each cell, and why a call on a drawing is refused.
#![tactic(auto)]

pub mod record;
pub mod refusal;

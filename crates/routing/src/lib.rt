// Routing: finding a way for a pad past the nets of a drawing, or the fence that shows that there is none.
#![tactic(auto)]

pub mod bar;
mod checks;
pub mod claims;
pub mod fence;
pub mod place;
pub mod reroute;
pub mod route;
pub mod search;
pub mod trace;

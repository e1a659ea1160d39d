// The lines of the analyses and of a walk. A library of the tool `vectors`: its functions are proved
// safe and ending, and state no result.
#![tactic(auto)]

pub mod calls_analysis;
pub mod calls_walk;

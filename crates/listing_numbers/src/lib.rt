// The lines of the numbers and the curves. A library of the tool `vectors`: its functions are proved
// safe and ending, and state no result.
#![tactic(auto)]

pub mod calls;
pub mod curves;

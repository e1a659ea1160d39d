// The lines of the calls on lent bytes and on a lent list of points. A library of the tool `vectors`:
// its functions are proved safe and ending, and state no result.
#![tactic(auto)]

pub mod merge;
pub mod sheets;

// The lines of a session that alter nothing, and the words of its step memory. A library of the tool
// `vectors`: its functions are proved safe and ending, and state no result.
#![tactic(auto)]

pub mod looks;
pub mod words;

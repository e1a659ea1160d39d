// The lines of a ticket: `ask E E OFFSET => ok COUNT`, and a session's `commit E E OFFSET`. A library of the
// tool `vectors`: its functions are proved safe and ending, and state no result.
#![tactic(auto)]

pub mod asks;
pub mod commits;

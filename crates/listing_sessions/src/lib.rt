// The lines of a session. A library of the tool `vectors`: its functions are proved safe and ending,
// and state no result.
#![tactic(auto)]

pub mod calls_session;

// Points, settings and lent lists in a line, and the answers of calls on them. A library of the tool
// `vectors`: its functions are proved safe and ending, and most state no result.
#![tactic(auto)]

pub mod answers;
pub mod buffers;
pub mod lists;
pub mod records;

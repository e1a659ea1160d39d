// The lines `call => answer` of a list: their fields, and whether our answer is the line's. A library
// of the tools `vectors` and `plays`: its functions are proved safe and ending, and most state no result.
#![tactic(auto)]

pub mod bytes;
pub mod text;

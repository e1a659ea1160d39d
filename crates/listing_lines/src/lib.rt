// The lines of a list, one after the other, and the report of those whose answer is
// not ours. A library of the tools `vectors` and `plays`: its functions are proved safe and ending.
//
//     line 15067 differs          the answer is not ours
//     line 15068 is no line       no call that we have, or not of its form, or longer than the buffer
//     15000 run, 0 differ         the tally: last, and at each comment that begins with `##`
//
// A `##` ends a part of the list: the counts start anew after it, the lines' numbers go on. Lines are
// numbered from 1, comments and empty ones included.
#![tactic(auto)]

mod reader;
mod report;

pub use reader::{Lines, Reader};

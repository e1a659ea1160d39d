// The fields of a sheet's lines: the digit table, and fields written.
#![tactic(auto)]

pub mod digits;
pub mod write;

// The sheet: an envelope as text, read and written, and the program's input.
#![tactic(auto)]

pub mod play;
pub mod read;
pub mod write;

pub use lines::SheetRefusal;
